//! The tests of a value behind a turn, over a small engine. They stand in a crate of their own, since a crate with tests is proved a second time
//! for these.
#![tactic(auto)]

#[cfg(test)]
mod turns;
