//! Numbers in a fixed count of bytes, the highest byte first: put at the end of a list, and taken from the front of a
//! slice. All file formats of the engine stand on these.
#![tactic(auto)]

mod put;
mod take;

pub use put::{put_i64, put_u16, put_u32, put_u64};
pub use take::{take_i64, take_u16, take_u32, take_u64};
