//! The tests of the durable engine over a disk in memory: the files of a new directory, a directory that is opened again, damage,
//! limits, and crashes at each call of a script. They stand beside the engine's crates, since a crate with tests is proved a second
//! time for these.
#![tactic(auto)]

#[cfg(test)]
mod crashes;
#[cfg(test)]
mod damage;
#[cfg(test)]
mod deletions;
#[cfg(test)]
mod directories;
#[cfg(test)]
mod engines;
#[cfg(test)]
mod limits;
