//! A folder that writes down each call that changes it, moves one byte at a time, and fails at one call.
ghost use Rattle.std.specs.Prelude.{All, IfOk};
ghost use Rattle.std.specs.Io.{ReadsAtMost, WritesAtMost};
ghost use Rattle.host_disk.specs.Numbers.{IsNumbered};

use host_disk::{Folder, FolderFile, HostFolder, Name};
use std::alloc::Global;
use std::fs::File;
use std::io::{self, ErrorKind, Write};
use std::os::unix::fs::FileExt;

/// Where the calls are written down, a line each, and the call that fails, also a line.
#[derive(Drop)]
struct Trace {
    alloc: Global,
    file: File,
    failing: &'static str,
}

impl Trace {
    fn same(&self) -> io::Result<Trace> {
        Ok(Trace {
            alloc: self.alloc,
            file: self.file.try_clone()?,
            failing: self.failing,
        })
    }

    fn note(&self, line: &str) -> io::Result<()> {
        let mut file = &self.file;
        file.write_all(line.as_bytes())?;
        file.write_all(b"\n")?;
        if line == self.failing {
            return Err(io::Error::from(ErrorKind::Other));
        }
        Ok(())
    }

    fn note_call(&self, verb: &str, name: Name) -> io::Result<()> {
        let line = match name {
            Name::File(no) => format!(in self.alloc; "{verb} {no}.tsd")?,
            Name::Unfinished(no) => format!(in self.alloc; "{verb} {no}.tmp")?,
        };
        self.note(line.as_str())
    }
}

/// A folder of the system whose changing calls are written down.
#[derive(Drop)]
pub(super) struct Watched {
    folder: HostFolder,
    trace: Trace,
}

impl Watched {
    /// It writes to this file, and fails each time that the call of this line is made.
    pub(super) fn new(
        alloc: Global,
        folder: HostFolder,
        file: File,
        failing: &'static str,
    ) -> Self {
        Watched {
            folder,
            trace: Trace {
                alloc,
                file,
                failing,
            },
        }
    }

    fn watched(&self, file: File, name: Name) -> io::Result<WatchedFile> {
        Ok(WatchedFile {
            file,
            name,
            trace: self.trace.same()?,
        })
    }
}

impl Folder for Watched {
    type File = WatchedFile;

    fn list(&mut self) -> io::Result<Vec<Name>> {
        self.folder.list()
    }

    fn create_new(&mut self, name: Name) -> io::Result<WatchedFile> {
        self.trace.note_call("create", name)?;
        let file = self.folder.create_new(name)?;
        self.watched(file, name)
    }

    fn open(&mut self, name: Name) -> io::Result<WatchedFile> {
        let file = self.folder.open(name)?;
        self.watched(file, name)
    }

    fn open_to_write(&mut self, name: Name) -> io::Result<WatchedFile> {
        self.trace.note_call("open", name)?;
        let file = self.folder.open_to_write(name)?;
        self.watched(file, name)
    }

    fn rename(&mut self, from: Name, to: Name) -> io::Result<()> {
        self.trace.note_call("rename to", to)?;
        self.folder.rename(from, to)
    }

    fn remove(&mut self, name: Name) -> io::Result<()> {
        self.trace.note_call("remove", name)?;
        self.folder.remove(name)
    }

    fn sync(&mut self) -> io::Result<()> {
        self.trace.note("sync folder")?;
        self.folder.sync()
    }
}

/// A file of it.
#[derive(Drop)]
pub(super) struct WatchedFile {
    file: File,
    name: Name,
    trace: Trace,
}

impl FileExt for WatchedFile {
    fn read_at(&self, buf: &mut [u8], offset: u64) -> io::Result<usize> {
        match buf {
            [first, ..] => {
                let mut one = [0];
                let count = self.file.read_at(&mut one, offset)?;
                *first = one[0];
                Ok(count)
            }
            [] => Ok(0),
        }
    }

    fn write_at(&self, buf: &[u8], offset: u64) -> io::Result<usize> {
        self.trace.note_call("write", self.name)?;
        match buf {
            [first, ..] => self.file.write_at(&[*first], offset),
            [] => Ok(0),
        }
    }
}

impl FolderFile for WatchedFile {
    fn sync(&self) -> io::Result<()> {
        self.trace.note_call("sync", self.name)?;
        self.file.sync()
    }

    fn size(&self) -> io::Result<u64> {
        self.file.size()
    }
}
