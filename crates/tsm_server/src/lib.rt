//! What the program does: `tsmd mem IN OUT` serves the requests of the file IN over a store in memory, and writes the replies to the
//! file OUT; `tsmd shell DIR` serves those of the standard input over the directory DIR; `tsmd run DIR IN OUT [IN OUT ..]` serves several
//! clients over it at once.
#![tactic(auto)]

mod clients;
mod damage_line;
mod directory;
mod folder_disk;
mod gate;
mod host_desk;
mod memory;
mod program;
mod status;
mod streams;
mod words;

pub use folder_disk::FolderDisk;
pub use gate::OpenGate;
pub use host_desk::HostDesk;
pub use memory::mem;
pub use program::{end, tsmd};
pub use status::Status;
pub use streams::{Input, Output};
