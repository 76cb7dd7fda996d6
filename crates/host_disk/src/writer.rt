ghost use Rattle.std.specs.Prelude.{false, []};
ghost use Rattle.host_disk.specs.Untold.{stage_of};

use crate::FolderFile;
use shard_disk::{Fault, Trouble, Writer};

/// How far a file is.
#[derive(Clone, Copy, Debug, PartialEq, Eq)]
pub(crate) enum Progress {
    Open,
    Finished,
    Refused,
}

/// A file of the folder that isn't adopted yet. It tells nothing of its content.
#[derive(Drop)]
pub struct HostWriter<F> {
    pub(crate) file: F,
    /// The number in its name.
    pub(crate) no: u64,
    /// How many bytes were appended.
    pub(crate) len: u64,
    pub(crate) progress: Progress,
    pub(crate) faults: u64,
}

impl<F: FolderFile + Send> Writer for HostWriter<F> {
    ghost tells = { false };

    ghost content = { λ _. [] };

    ghost stage = { λ w. stage_of w.progress };

    // What the system will do isn't known.
    ghost health = { λ w. record { faults = w.faults; is_steady = false } };

    fn append(&mut self, bytes: &[u8]) -> Result<(), Trouble> {
        // A short write goes on, an interrupted one is tried again.
        if self.file.write_all_at(bytes, self.len).is_err() {
            self.progress = Progress::Refused;
            self.faults = self.faults.saturating_add(1);
            return Err(Trouble::Fault);
        }
        self.len = self.len.wrapping_add(bytes.len() as u64);
        self.progress = Progress::Open;
        Ok(())
    }

    fn finish(&mut self) -> Result<(), Fault> {
        // The bytes are durable before the file gets its number.
        if self.file.sync().is_err() {
            self.progress = Progress::Refused;
            self.faults = self.faults.saturating_add(1);
            return Err(Fault);
        }
        self.progress = Progress::Finished;
        Ok(())
    }
}
