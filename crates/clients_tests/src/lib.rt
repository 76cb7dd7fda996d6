//! The tests of clients on threads over one engine in memory: they overlap, and what they wrote is there again.
#![tactic(auto)]

#[cfg(test)]
mod gates;
#[cfg(test)]
mod overlaps;
#[cfg(test)]
mod runs;
