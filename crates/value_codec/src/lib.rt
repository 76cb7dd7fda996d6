//! Lists of values of one kind as bytes: numbers by the steps from one to the next, Booleans by bits. Each list has one
//! spelling, and no other bytes are decoded.
#![tactic(auto)]

mod bits;
mod decoder;
mod encoder;
mod form;
mod halves;
mod integers;
mod law;
mod numbers;
mod points;
mod words;

pub use decoder::decode;
pub use encoder::encode;
pub use law::one_spelling;
pub use points::decode_points;
