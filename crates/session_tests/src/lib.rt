//! The tests of sessions and of what they meet. They stand in a crate of their own, since a crate with
//! tests is proved a second time for these.
#![tactic(auto)]

#[cfg(test)]
mod places;
#[cfg(test)]
mod sessions;
#[cfg(test)]
mod stores;
