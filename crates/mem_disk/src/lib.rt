//! A directory in memory for tests. It records each change, so it tells all that a crash may leave, and it fails the
//! calls that it is told to.
#![tactic(auto)]

mod bytes;
mod calls;
mod change;
mod contents;
mod disk;
mod fail;
mod fuse;
mod image;
mod picks;
mod reader;
mod replay;
mod writer;

pub use change::Change;
pub use disk::MemDisk;
pub use fail::Fail;
pub use fuse::Fuse;
pub use reader::MemReader;
pub use writer::{MemWriter, Progress};
