//! Which series have points in which fields, and which series of a measurement meet a condition on tags: the index, by lists of ids.
#![tactic(auto)]

mod among;
mod index;
mod matching;
mod merge;
mod staging;
mod test;

pub use index::SeriesIndex;
