ghost use Rattle.std.specs.Prelude.{◌≡◌, Err, IsTrue, IfOk};
ghost use Rattle.shard_disk.specs.Crash.{Leaves, Same};
ghost use Rattle.shard_disk.specs.declared.damage.Damage.{Damage};
ghost use Rattle.gate_log.specs.Faults.{LogHasCause};
ghost use Rattle.manifest_log.specs.Found.{IsFound};

use gate_log::LogFault;
use shard_disk::Disk;

/// Which files there are.
#[derive(Clone, Copy, Debug, PartialEq, Eq)]
pub enum Found {
    Nothing,
    /// File 0, and maybe others.
    Manifest,
    /// Files, but not file 0.
    Others,
}

/// Looks for the manifest on a disk.
pub fn look<D: Disk>(disk: &mut D) -> Result<Found, LogFault>
    ensures ok { IfOk result (λ found. IsTrue D.tells → IsFound found (D.files disk.old)) }
    ensures undamaged { (damage : Damage) → result ≡ Err (LogFault.Damaged damage) → ⊥ }
    ensures fault { LogHasCause result (D.health disk.old) (D.health disk.new) }
    ensures files { D.files disk.new ≡ D.files disk.old }
    ensures crash { Leaves Same (D.crashes disk.old) (D.crashes disk.new) }
    ensures handed_out { D.handed_out disk.new ≡ D.handed_out disk.old }
{
    let numbers = disk.list()?;
    if numbers.contains(&0) {
        return Ok(Found::Manifest);
    }
    if numbers.is_empty() {
        return Ok(Found::Nothing);
    }
    Ok(Found::Others)
}
