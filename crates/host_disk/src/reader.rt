ghost use Rattle.std.specs.Prelude.{false, []};

use crate::FolderFile;
use shard_disk::{Fault, Reader};

/// A file of the folder, open for reading. It tells nothing of its content.
#[derive(Drop)]
pub struct HostReader<F> {
    pub(crate) file: F,
    pub(crate) no: u32,
    pub(crate) len: u64,
    pub(crate) faults: u64,
}

impl<F: FolderFile + Send> Reader for HostReader<F> {
    ghost tells = { false };

    ghost file = { λ r. r.no };

    ghost content = { λ _. [] };

    // What the system will do isn't known.
    ghost health = { λ r. record { faults = r.faults; is_steady = false } };

    fn read_at(&mut self, at: u64, out: &mut [u8]) -> Result<(), Fault> {
        // A short read goes on; a range that runs past the end is a fault.
        if self.file.read_exact_at(out, at).is_err() {
            self.faults = self.faults.saturating_add(1);
            return Err(Fault);
        }
        Ok(())
    }

    fn len(&self) -> u64 {
        self.len
    }
}
