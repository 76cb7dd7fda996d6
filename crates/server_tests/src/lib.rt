//! Runs of the program, over desks in memory and over files of the system.
#![tactic(auto)]

#[cfg(test)]
mod directories;
#[cfg(test)]
mod faults;
#[cfg(test)]
mod files;
#[cfg(test)]
mod rows;
#[cfg(test)]
mod runs;
#[cfg(test)]
mod together;
