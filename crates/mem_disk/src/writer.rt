ghost use Rattle.std.specs.Prelude.{true};
ghost use Rattle.mem_disk.specs.HealthOf.{device_health};
ghost use Rattle.mem_disk.specs.Progress.{stage_of};

use crate::calls::DeviceCalls;
use shard_disk::{Fault, Trouble, Writer};

/// How far a file in memory is.
#[derive(Clone, Copy, Debug, PartialEq, Eq)]
pub enum Progress {
    /// It takes bytes.
    Open,
    /// All its bytes are durable.
    Finished,
    /// A call was refused, so it may only be dropped.
    Refused,
}

/// The bytes of a file that isn't in the directory yet.
#[derive(Debug, Drop)]
pub struct MemWriter {
    pub(crate) bytes: Vec<u8>,
    pub(crate) progress: Progress,
    pub(crate) calls: DeviceCalls,
}

impl Writer for MemWriter {
    ghost use Rattle.std.specs.Prelude.{◌≡◌, ◌≢◌, ◌++◌, true, is_err, OnErr, OnOk};
    ghost use Rattle.shard_disk.specs.Health.{FaultHasCause, HasCause};
    ghost use Rattle.shard_disk.specs.Stage.{Finished, Open, Refused};
    ghost use Rattle.mem_disk.specs.Called.{IsDeviceCalled, is_fault};
    ghost use Rattle.mem_disk.specs.HealthOf.{device_health};
    ghost use Rattle.mem_disk.specs.Progress.{stage_of};

    ghost tells = { true };

    ghost content = { λ w. w.bytes.items };

    ghost stage = { λ w. stage_of w.progress };

    ghost health = { λ w. device_health w.calls };

    fn append(&mut self, bytes: &[u8]) -> Result<(), Trouble>
        requires { stage_of self.old.progress ≢ Refused }
        ensures appended { OnOk result (self.new.bytes.items ≡ self.old.bytes.items ++ bytes.now) }
        ensures open { OnOk result (stage_of self.new.progress ≡ Open) }
        ensures refused { OnErr result (stage_of self.new.progress ≡ Refused) }
        ensures fault { HasCause result (device_health self.old.calls) (device_health self.new.calls) }
        ensures call { IsDeviceCalled (is_fault result) self.old.calls self.new.calls }
    {
        self.progress = Progress::Refused;
        if self.calls.fails() {
            return Err(Trouble::Fault);
        }
        self.bytes.extend_from_slice(bytes)?;
        self.progress = Progress::Open;
        Ok(())
    }

    fn finish(&mut self) -> Result<(), Fault>
        requires { stage_of self.old.progress ≢ Refused }
        ensures content { self.new.bytes.items ≡ self.old.bytes.items }
        ensures finished { OnOk result (stage_of self.new.progress ≡ Finished) }
        ensures refused { OnErr result (stage_of self.new.progress ≡ Refused) }
        ensures fault { FaultHasCause result (device_health self.old.calls) (device_health self.new.calls) }
        ensures call { IsDeviceCalled (is_err result) self.old.calls self.new.calls }
    {
        self.progress = Progress::Refused;
        if self.calls.fails() {
            return Err(Fault);
        }
        self.progress = Progress::Finished;
        Ok(())
    }
}
