//! The tests of the logs: bytes from outside, faults in the middle of an append, and each public call once with ample
//! memory. They stand beside the logs and not in them, since a crate with tests is proved a second time for these.
#![tactic(auto)]

#[cfg(test)]
mod gates;
#[cfg(test)]
mod manifests;
#[cfg(test)]
mod segments;
#[cfg(test)]
mod series;
