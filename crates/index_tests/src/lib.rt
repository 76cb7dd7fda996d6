//! The tests of the index: bytes from outside, damage of each kind, and each public call once with ample memory. They stand
//! beside the crates and not in them, since a crate with tests is proved a second time for these.
#![tactic(auto)]

#[cfg(test)]
mod files;
