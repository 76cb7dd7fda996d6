//! What is deleted of the keys of one file: ranges of times by key, in memory and as the file that stands beside it.
#![tactic(auto)]

mod joined;
mod laws;
mod moment;
mod range;
mod ranges;
mod raw;
mod read;
mod set;
mod write;

pub use laws::{hiding_is_tested, one_form};
pub use range::TombRange;
pub use read::read_v2;
pub use set::TombSet;
pub use write::write_v2;
