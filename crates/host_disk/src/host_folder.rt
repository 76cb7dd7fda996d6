ghost use Rattle.std.specs.Prelude.{All, IfOk};
ghost use Rattle.host_disk.specs.Numbers.{IsNumbered};

use crate::name::name_of;
use crate::path::NamePath;
use crate::{Folder, Name};
use std::fs::{self, File, OpenOptions};
use std::io::{self, ErrorKind};

/// A folder of the system, which is locked while this value lives.
#[derive(Drop)]
pub struct HostFolder {
    rt: HostRuntime,
    /// The folder itself, open: it has the lock, and it is what is synced.
    folder: File,
    path: NamePath,
    /// A second path, for a rename.
    to: NamePath,
}

impl HostFolder {
    /// The folder of this path. It is made where it isn't there, as are those above it, durably. An error comes also
    /// where another has its lock, in this process or another.
    pub fn new(rt: HostRuntime, path: &str) -> io::Result<HostFolder> {
        let path = without_slashes(path);
        let name = NamePath::new(rt.alloc(), path)?;
        let to = NamePath::new(rt.alloc(), path)?;
        make(rt, path)?;
        let folder = File::open(&rt, name.folder()?)?;
        folder.try_lock()?;
        Ok(HostFolder {
            rt,
            folder,
            path: name,
            to,
        })
    }
}

/// The path without the slashes at its end, but for that of the root.
fn without_slashes(path: &str) -> &str {
    let cut = path.trim_end_matches('/');
    if cut.is_empty() { path } else { cut }
}

/// Makes the folders of this path that aren't there, from the first on, and syncs the one above each that was made. That
/// above the last is synced in any case: an earlier process may have made it and gone no further.
fn make(rt: HostRuntime, path: &str) -> io::Result<()> {
    for end in 1..path.len() {
        if let Some((front, rest)) = path.split_at_checked(end)
            && rest.starts_with('/')
            && make_one(rt, front)?
        {
            sync_above(rt, front)?;
        }
    }
    make_one(rt, path)?;
    sync_above(rt, path)
}

/// Whether the folder had to be made.
fn make_one(rt: HostRuntime, path: &str) -> io::Result<bool> {
    match fs::create_dir(&rt, path) {
        Ok(()) => Ok(true),
        Err(error) if error.kind() == ErrorKind::AlreadyExists => Ok(false),
        Err(error) => Err(error),
    }
}

/// Makes the name of this folder durable in the one above it.
fn sync_above(rt: HostRuntime, path: &str) -> io::Result<()> {
    let above = match path.rsplit_once('/') {
        None => ".",
        Some(("", _)) => "/",
        Some((above, _)) => above,
    };
    File::open(&rt, above)?.sync_all()
}

impl Folder for HostFolder {
    type File = File;

    fn list(&mut self) -> io::Result<Vec<Name>> {
        let mut names = Vec::new(self.rt.alloc());
        for entry in fs::read_dir(&self.rt, self.path.folder()?)? {
            match entry {
                Ok(entry) => {
                    if let Some(name) = name_of(entry.file_name()) {
                        names.push(name)?;
                    }
                }
                // No text, so no name of a disk's file.
                Err(error) if error.kind() == ErrorKind::InvalidFilename => {}
                Err(error) => return Err(error),
            }
        }
        Ok(names)
    }

    fn create_new(&mut self, name: Name) -> io::Result<File> {
        self.path.set(name)?;
        OpenOptions::new()
            .write(true)
            .create_new(true)
            .open(&self.rt, self.path.text()?)
    }

    fn open(&mut self, name: Name) -> io::Result<File> {
        self.path.set(name)?;
        File::open(&self.rt, self.path.text()?)
    }

    fn open_to_write(&mut self, name: Name) -> io::Result<File> {
        self.path.set(name)?;
        OpenOptions::new()
            .read(true)
            .write(true)
            .open(&self.rt, self.path.text()?)
    }

    fn rename(&mut self, from: Name, to: Name) -> io::Result<()> {
        self.path.set(from)?;
        self.to.set(to)?;
        fs::rename(&self.rt, self.path.text()?, self.to.text()?)
    }

    fn remove(&mut self, name: Name) -> io::Result<()> {
        self.path.set(name)?;
        fs::remove_file(&self.rt, self.path.text()?)
    }

    fn sync(&mut self) -> io::Result<()> {
        self.folder.sync_all()
    }
}
