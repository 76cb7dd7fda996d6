ghost use Rattle.std.specs.Prelude.{All, IfOk};
ghost use Rattle.host_disk.specs.Numbers.{IsNumbered};

use crate::Name;
use std::fs::File;
use std::io;
use std::os::unix::fs::FileExt;

/// An open file of a folder. Reads and writes may move fewer bytes than they are asked.
pub trait FolderFile: FileExt {
    /// Makes the bytes and the length durable.
    fn sync(&self) -> io::Result<()>;

    /// The length in bytes.
    fn size(&self) -> io::Result<u64>;
}

impl FolderFile for File {
    fn sync(&self) -> io::Result<()> {
        self.sync_all()
    }

    fn size(&self) -> io::Result<u64> {
        Ok(self.metadata()?.len())
    }
}

/// A folder that is one disk's alone. Each method is one call of the system, but for `list`; none but `list` takes
/// memory.
pub trait Folder {
    type File: FolderFile + Drop;

    /// The names of a disk's files that are there, in any order.
    fn list(&mut self) -> io::Result<Vec<Name>>
        ensures { IfOk result (λ names. All IsNumbered names.items) };

    /// Makes a file, which isn't there yet, to be written.
    fn create_new(&mut self, name: Name) -> io::Result<Self::File>;

    /// Opens a file to be read.
    fn open(&mut self, name: Name) -> io::Result<Self::File>;

    /// Opens a file to be read and written.
    fn open_to_write(&mut self, name: Name) -> io::Result<Self::File>;

    fn rename(&mut self, from: Name, to: Name) -> io::Result<()>;

    fn remove(&mut self, name: Name) -> io::Result<()>;

    /// Makes durable what was named, renamed or removed.
    fn sync(&mut self) -> io::Result<()>;
}
