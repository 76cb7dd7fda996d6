//! Simple8b: numbers below 2^60 in words of 64 bits. The upper four bits of a word are its selector, which says how
//! many values it holds and in how many bits each. Each list has one spelling, and no other words are decoded.
#![tactic(auto)]

mod counts;
mod decoder;
mod encoder;
mod fault;
mod first;
mod law;
mod selector;

pub use counts::count;
pub use decoder::decode;
pub use encoder::encode;
pub use fault::WordsFault;
pub use law::one_spelling;
