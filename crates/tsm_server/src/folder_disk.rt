//! The disk of a folder of the system.
ghost use Rattle.std.specs.Prelude.{◌≡◌, ℕ, IfOk, false};
ghost use Rattle.std.specs.FinMap as map;
ghost use Rattle.host_disk.specs.Untold.{never, untold, untold_now, untold_since};

use host_disk::{HostDisk, HostFolder, HostReader, HostWriter};
use point_model::Deletion;
use shard_calls::EngineDisk;
use shard_disk::{Disk, Fault, Trouble};
use shard_steps::Shard;
use std::fs::File;
use store_trait::{DeleteFault, WriteFault};
use tsdb_types::Batch;

/// The disk of a folder: `HostDisk` as a type without parameters, which a desk can name as its disk. Each call is that disk's.
#[derive(Drop)]
pub struct FolderDisk {
    disk: HostDisk<HostFolder>,
}

impl FolderDisk {
    /// The disk of the folder of this path, which is made where it isn't there.
    pub fn open(rt: HostRuntime, path: &str) -> Result<FolderDisk, Trouble>
        ensures no_reader { IfOk result (λ disk. (n : ℕ) → (⟦<FolderDisk as Disk>⟧.handed_out disk).readers n ≡ 0) }
        ensures no_fault { IfOk result (λ disk. (⟦<FolderDisk as Disk>⟧.health disk).faults ≡ 0) }
    {
        let disk = HostDisk::open(rt, path)?;
        Ok(FolderDisk { disk })
    }
}

impl Disk for FolderDisk {
    type Reader = HostReader<File>;

    type Writer = HostWriter<File>;

    ghost tells = { false };

    ghost files = { λ _. map.empty };

    ghost crashes = { λ _. untold };

    ghost handed_out = { λ d. ⟦<HostDisk<HostFolder> as Disk>⟧.handed_out d.disk };

    ghost health = { λ d. ⟦<HostDisk<HostFolder> as Disk>⟧.health d.disk };

    ghost reader_tells = { λ told. absurd (never told) };

    ghost writer_tells = { λ told. absurd (never told) };

    ghost as_read = { λ d told. absurd (never told) };

    ghost keeps_adopted = { λ d told. absurd (never told) };

    ghost numbered = { λ d n told there. absurd (never told) };

    ghost counts_now = { λ d t c le now. untold_now c t now };

    ghost only_now = { λ d c since. untold_since c since };

    fn begin(&mut self) -> Result<HostWriter<File>, Trouble> {
        self.disk.begin()
    }

    fn adopt(&mut self, writer: HostWriter<File>) -> Result<u32, (HostWriter<File>, Trouble)> {
        self.disk.adopt(writer)
    }

    fn drop_writer(&mut self, writer: HostWriter<File>) {
        self.disk.drop_writer(writer);
    }

    fn open(&mut self, no: u32) -> Result<HostReader<File>, Trouble> {
        self.disk.open(no)
    }

    fn close(&mut self, reader: HostReader<File>) {
        self.disk.close(reader);
    }

    fn write_at(&mut self, no: u32, at: u64, bytes: &[u8]) -> Result<(), Trouble> {
        self.disk.write_at(no, at, bytes)
    }

    fn sync(&mut self, no: u32) -> Result<(), Fault> {
        self.disk.sync(no)
    }

    fn read_at(&mut self, no: u32, at: u64, out: &mut [u8]) -> Result<(), Fault> {
        self.disk.read_at(no, at, out)
    }

    fn len(&mut self, no: u32) -> Result<u64, Fault> {
        self.disk.len(no)
    }

    fn next_number(&self) -> u32 {
        self.disk.next_number()
    }

    fn remove(&mut self, no: u32) -> Result<(), Fault> {
        self.disk.remove(no)
    }

    fn list(&mut self) -> Result<Vec<u32>, Trouble> {
        self.disk.list()
    }
}

impl EngineDisk for FolderDisk {
    fn write(shard: &mut Shard<FolderDisk>, client: u32, batch: &Batch) -> Result<u64, WriteFault> {
        shard_steps::write(shard, client, batch)
    }

    fn delete(
        shard: &mut Shard<FolderDisk>,
        client: u32,
        deletion: &Deletion,
    ) -> Result<u64, DeleteFault> {
        shard_steps::delete(shard, client, deletion)
    }
}
