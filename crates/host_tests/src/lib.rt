//! The tests of what meets the host: the disk of a folder, and the clock, source and sink of the system. They stand
//! beside these crates and not in them, since a crate with tests is proved a second time for these.
#![tactic(auto)]

#[cfg(test)]
mod devices;
#[cfg(test)]
mod folders;
#[cfg(test)]
mod watched;
