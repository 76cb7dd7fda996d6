ghost use Rattle.std.specs.Prelude.{◌≡◌, ◌≢◌, ◌⊎◌, List, ℕ, IsTrue, IfOk, IfErr};
ghost use Rattle.shard_disk.specs.Crash.{Leaves, Same};
ghost use Rattle.shard_disk.specs.Directory.{HasFile, IsPresent};
ghost use Rattle.gate_log.specs.Damage.{TellsOf, bodies};
ghost use Rattle.gate_log.specs.Faults.{LogHasCause};

use crate::LogFault;
use crate::decode::decode;
use crate::log::{Gate, Log};
use shard_disk::Disk;
use std::alloc::Global;

impl Log {
    ghost use Rattle.gate_log.specs.Calls.Read.{Reads};

    /// The log that a file holds, and its records. The file is made durable before it answers.
    pub fn read<D: Disk>(
        alloc: Global,
        disk: &mut D,
        no: u32,
    ) -> Result<(Log, Vec<Vec<u8>>), LogFault>
        requires { IsTrue D.tells → IsPresent (D.files disk.old) no }

        ensures ok { IfOk result (λ read. Reads (IsTrue D.tells) no read.0 (bodies read.1.items)
            (D.files disk.new) (D.crashes disk.old) (D.crashes disk.new)) }

        // Damage is told where it stands.
        ensures damaged { IfErr result (λ fault. IsTrue D.tells → HasFile (D.files disk.old) no (TellsOf fault no)) }
        ensures fault { LogHasCause result (D.health disk.old) (D.health disk.new) }

        ensures files { D.files disk.new ≡ D.files disk.old }
        ensures crash { Leaves Same (D.crashes disk.old) (D.crashes disk.new) }
        ensures handed_out { D.handed_out disk.new ≡ D.handed_out disk.old }
    {
        let bytes = bytes_of(alloc, disk, no)?;
        let (records, end) = decode(alloc, no, &bytes)?;
        disk.sync(no)?;
        let log = Log {
            file: no,
            end: end as u64,
            gate: gate_at(end, bytes.len()),
        };
        Ok((log, records))
    }
}

/// All bytes of a file.
fn bytes_of<D: Disk>(alloc: Global, disk: &mut D, no: u32) -> Result<Vec<u8>, LogFault>
    requires { IsTrue D.tells → IsPresent (D.files disk.old) no }
    ensures bytes { IfOk result (λ bytes. IsTrue D.tells → HasFile (D.files disk.old) no (λ file. bytes.items ≡ file)) }
    ensures fault { LogHasCause result (D.health disk.old) (D.health disk.new) }
    ensures undamaged { IfErr result (λ fault. (bytes : List ℕ) → TellsOf fault no bytes) }
    ensures files { D.files disk.new ≡ D.files disk.old }
    ensures crash { Leaves Same (D.crashes disk.old) (D.crashes disk.new) }
    ensures handed_out { D.handed_out disk.new ≡ D.handed_out disk.old }
{
    let len = disk.len(no)?;
    let mut bytes = vec![in alloc; 0; len as usize]?;
    disk.read_at(no, 0, bytes.as_mut_slice())?;
    Ok(bytes)
}

/// The gate of a log that was read, which ends here in a file of this length.
fn gate_at(end: usize, len: usize) -> Gate
    ensures { ((result ≡ Gate.Missing) × (end ≡ len)) ⊎ ((result ≡ Gate.Shut) × (end ≢ len)) }
{
    if end == len {
        Gate::Missing
    } else {
        Gate::Shut
    }
}
