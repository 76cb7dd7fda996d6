//! The tests of what is read as text: names, series, keys and lines of line protocol, by tables of vectors, and each public call
//! once with ample memory. They stand beside the crates and not in them, since a crate with tests is proved a second time
//! for these.
#![tactic(auto)]

#[cfg(test)]
mod deletions;
#[cfg(test)]
mod lines;
#[cfg(test)]
mod names_and_keys;
