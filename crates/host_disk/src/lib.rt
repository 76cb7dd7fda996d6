//! A directory of the host as a disk. It tells nothing of its files: it is the edge that is trusted, written for real
//! power cuts. `Folder` is the seam below it, one system call a method; `docs/DURABILITY.md` lists which are made when.
#![tactic(auto)]

mod disk;
mod folder;
mod host_folder;
mod logs;
mod name;
mod path;
mod reader;
mod writer;

pub use disk::HostDisk;
pub use folder::{Folder, FolderFile};
pub use host_folder::HostFolder;
pub use name::Name;
pub use reader::HostReader;
pub use writer::HostWriter;
