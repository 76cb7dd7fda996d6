//! The tests of files and of what is known of them: TSM files and their tombstones, the table of files, the plan of merges
//! and the overlay of sources. They stand beside the crates and not in them, since a crate with tests is proved a second
//! time for these.
#![tactic(auto)]

#[cfg(test)]
mod marks;
#[cfg(test)]
mod overlays;
#[cfg(test)]
mod plans;
#[cfg(test)]
mod reading;
#[cfg(test)]
mod tables;
#[cfg(test)]
mod writing;
