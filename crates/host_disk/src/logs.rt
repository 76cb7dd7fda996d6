use crate::{Folder, FolderFile, Name};
use shard_disk::Trouble;
use std::alloc::Global;
use std::collections::{BTreeMap, BTreeSet};
use std::io::{self, ErrorKind};

/// How many bytes are read and written at once.
const CHUNK: usize = 16_384;

/// The files that are written in place.
#[derive(Drop)]
pub(crate) struct Logs<F> {
    /// Each that was written and not synced since. It stays open till then, so that its sync is told of each failure to
    /// write its bytes back.
    written: BTreeMap<u32, F>,
    /// Those whose bytes were all written again in this opening, so that its syncs speak of all of them.
    again: BTreeSet<u32>,
}

impl<F: FolderFile + Drop> Logs<F> {
    pub(crate) fn new(alloc: Global) -> Self {
        Logs {
            written: BTreeMap::new(alloc),
            again: BTreeSet::new(alloc),
        }
    }

    /// Writes in place, at most from the end on. A short write goes on, an interrupted one is tried again.
    pub(crate) fn write<D: Folder<File = F>>(
        &mut self,
        folder: &mut D,
        no: u32,
        at: u64,
        bytes: &[u8],
    ) -> Result<(), Trouble> {
        if !self.written.contains_key(&no) {
            let Ok(file) = folder.open_to_write(Name::File(no)) else {
                return Err(Trouble::Fault);
            };
            self.written.insert(no, file)?;
        }
        match self.written.get(&no) {
            Some(file) if write_within(file, at, bytes).is_ok() => Ok(()),
            _ => Err(Trouble::Fault),
        }
    }

    /// Makes the bytes and the length of a file durable, all of them where it is the first time in this opening.
    pub(crate) fn sync<D: Folder<File = F>>(&mut self, folder: &mut D, no: u32) -> io::Result<()> {
        let file = match self.written.remove(&no) {
            Some(file) => file,
            None => folder.open_to_write(Name::File(no))?,
        };
        if self.again.contains(&no) {
            return file.sync();
        }
        write_again(&file)?;
        file.sync()?;
        // Where there is no memory to note it, they are written again the next time too.
        let _ = self.again.insert(no);
        Ok(())
    }

    /// The file is to be removed.
    pub(crate) fn forget(&mut self, no: u32) {
        let _ = self.written.remove(&no);
    }
}

fn write_within<F: FolderFile>(file: &F, at: u64, bytes: &[u8]) -> io::Result<()> {
    if file.size()? < at {
        return Err(io::Error::from(ErrorKind::InvalidInput));
    }
    file.write_all_at(bytes, at)
}

/// Writes the bytes of a file over themselves, so that the sync behind it brings all of them to the device. A sync that
/// failed in an earlier process may have left bytes that the system takes for written, though the device lacks them.
fn write_again<F: FolderFile>(file: &F) -> io::Result<()> {
    let mut room = [0; CHUNK];
    let size = file.size()?;
    let mut at = 0;
    while at < size {
        let count = (CHUNK as u64).min(size - at);
        let (part, _) = room.split_at_mut(count as usize);
        file.read_exact_at(part, at)?;
        file.write_all_at(part, at)?;
        at += count;
    }
    Ok(())
}
