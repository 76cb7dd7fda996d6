//! The frame of a TSM file: its header, the index of its keys and blocks, and its footer. `docs/FORMATS.md` draws it.
#![tactic(auto)]

mod entries;
mod entry;
mod frame;
mod head;
mod key;
mod read;
mod row;
mod rows;
mod take;
mod write;

pub use entry::{Entries, Entry};
pub use frame::{HEADER, index_place};
pub use key::Key;
pub use read::read_index;
pub use row::KeyRow;
pub use write::write_index;
