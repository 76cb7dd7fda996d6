//! TSM files: their index, and cursors over the points of a key that are left beside the tombstones.
//! `docs/FORMATS.md` draws the file.
#![tactic(auto)]

mod block;
mod bytes;
mod cursor;
mod facts;
mod framed;
mod index;
mod laws;
mod pick;
mod read;
mod writer;

pub use cursor::TsmCursor;
pub use facts::TsmFacts;
pub use index::TsmIndex;
pub use laws::files_are_read_back;
pub use writer::TsmWriter;
