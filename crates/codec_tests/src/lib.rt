//! The tests of the codecs: vectors from outside, and each public call once with ample memory. They stand beside the
//! codecs and not in them, since a crate with tests is proved a second time for these.
#![tactic(auto)]

#[cfg(test)]
mod blocks;
#[cfg(test)]
mod numbers;
#[cfg(test)]
mod packed;
#[cfg(test)]
mod times;
#[cfg(test)]
mod values;
#[cfg(test)]
mod words;
