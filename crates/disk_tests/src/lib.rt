//! The tests of the disks: one table of cases that each runs, what a choice picks of an image, and the texts of damage.
//! They stand beside the disks and not in them, since a crate with tests is proved a second time for these.
#![tactic(auto)]

#[cfg(test)]
mod cases;
#[cfg(test)]
mod damage;
#[cfg(test)]
mod images;
