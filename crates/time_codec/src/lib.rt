//! A block's times as bytes: the first, and how far each is from the one before, in units of a power of ten.
//! Each list has one coding, and nothing else is read.
#![tactic(auto)]

mod bodies;
mod coding;
mod differences;
mod early;
mod evenly;
mod following;
mod form;
mod offset;
mod reading;
mod words;

pub use coding::encode;
pub use reading::decode;
