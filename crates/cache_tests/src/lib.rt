//! The tests of the cache, beside it, since a crate with tests is proved a second time for them.
#![tactic(auto)]

#[cfg(test)]
mod cache;
