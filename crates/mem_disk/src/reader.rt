ghost use Rattle.std.specs.Prelude.{◌≡◌, ◌+◌, ◌≤◌, ◌<◌, ◌↔◌, length, true, IsTrue, IsNone, OnOk, is_some, nat_lt};

use crate::calls::DeviceCalls;
use shard_disk::{Fault, Reader};

/// The bytes of a file as they were when it was opened, and where they were read.
#[derive(Debug, Drop)]
pub struct MemReader {
    pub(crate) no: u32,
    pub(crate) bytes: Vec<u8>,
    pub(crate) calls: DeviceCalls,
    pub(crate) lowest: Option<u64>,
    pub(crate) latest: Option<u64>,
    ghost lowest_begun: { is_some lowest ≡ nat_lt 0 calls.next },
    ghost latest_begun: { is_some latest ≡ nat_lt 0 calls.next },
}

impl MemReader {
    ghost use Rattle.mem_disk.specs.Reads.{reads_of, lowest_of, latest_of};

    /// How many reads it was asked for, those that failed among them.
    pub fn reads(&self) -> u64
        ensures { result ≡ reads_of self.now }
    {
        self.calls.next
    }

    /// The least offset that was read from. There is none exactly before the first read.
    pub fn lowest(&self) -> Option<u64>
        ensures value { result ≡ lowest_of self.now }
        ensures before { IsNone result ↔ (reads_of self.now ≡ 0) }
    {
        self.lowest
    }

    /// The offset of the last read. There is none exactly before the first read.
    pub fn latest(&self) -> Option<u64>
        ensures value { result ≡ latest_of self.now }
        ensures before { IsNone result ↔ (reads_of self.now ≡ 0) }
    {
        self.latest
    }
}

impl Reader for MemReader {
    ghost use Rattle.std.specs.Prelude.{◌≡◌, ◌+◌, ◌≤◌, length, true, is_err, IsTrue, OnOk};
    ghost use Rattle.shard_disk.specs.Directory.{bytes_at};
    ghost use Rattle.shard_disk.specs.Health.{FaultHasCause};
    ghost use Rattle.mem_disk.specs.Called.{IsDeviceCalled};
    ghost use Rattle.mem_disk.specs.HealthOf.{device_health};
    ghost use Rattle.mem_disk.specs.Reads.{Counts};

    ghost tells = { true };

    ghost file = { λ r. r.no };

    ghost content = { λ r. r.bytes.items };

    ghost health = { λ r. device_health r.calls };

    fn read_at(&mut self, at: u64, out: &mut [u8]) -> Result<(), Fault>
        requires { at + length out.old ≤ length self.old.bytes.items }
        ensures read { OnOk result (out.new ≡ bytes_at self.old.bytes.items at (length out.old)) }
        ensures content { self.new.bytes.items ≡ self.old.bytes.items }
        ensures file { self.new.no ≡ self.old.no }
        ensures fault { FaultHasCause result (device_health self.old.calls) (device_health self.new.calls) }
        ensures counted { Counts at self.old self.new }
        ensures call { IsDeviceCalled (is_err result) self.old.calls self.new.calls }
    {
        self.lowest = Some(self.lowest.unwrap_or(at).min(at));
        self.latest = Some(at);
        if self.calls.fails() {
            return Err(Fault);
        }
        let at = at as usize;
        out.copy_from_slice(&self.bytes[at..at + out.len()]);
        Ok(())
    }

    fn len(&self) -> u64 {
        self.bytes.len() as u64
    }
}
