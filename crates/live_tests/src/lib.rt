//! The tests of the points in memory, beside them, since a crate with tests is proved a second time for them.
#![tactic(auto)]

#[cfg(test)]
mod live;
