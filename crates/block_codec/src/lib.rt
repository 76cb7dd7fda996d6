//! Blocks of points as bytes: the type of the values, the coded times and the coded values. Each list of points has one
//! block, and no other bytes are decoded.
#![tactic(auto)]

mod decoder;
mod encoder;
mod kind;

pub use decoder::decode_block;
pub use encoder::encode_block;
