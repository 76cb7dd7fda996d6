// Which files are there?
ghost use Rattle.std.specs.Prelude.{◌≡◌, Err, IsTrue, IfOk};
ghost use Rattle.std.specs.FinMap.{keys};
ghost use Rattle.shard_disk.specs.Crash.{Leaves, Same};
ghost use Rattle.shard_disk.specs.Directory.{Directory as Files, IsPresent};
ghost use Rattle.shard_disk.specs.declared.damage.Damage.{Damage};
ghost use Rattle.gate_log.specs.Faults.{LogHasCause};

use gate_log::LogFault;
use shard_disk::{Damage, Disk, Why};

/// The numbers of the files that are there.
pub(crate) fn list<D: Disk>(disk: &mut D) -> Result<Vec<u32>, LogFault>
    ensures ok { IfOk result (λ numbers. IsTrue D.tells → numbers.items ≡ keys (D.files disk.old)) }
    ensures undamaged { (damage : Damage) → result ≡ Err (LogFault.Damaged damage) → ⊥ }
    ensures fault { LogHasCause result (D.health disk.old) (D.health disk.new) }
    ensures files { D.files disk.new ≡ D.files disk.old }
    ensures crash { Leaves Same (D.crashes disk.old) (D.crashes disk.new) }
    ensures handed_out { D.handed_out disk.new ≡ D.handed_out disk.old }
{
    let numbers = disk.list()?;
    Ok(numbers)
}

/// Whether the file is one of those that are there.
pub fn is_there(numbers: &[u32], file: u32) -> bool
    ensures there { IsTrue result → (files : Files) → numbers.now ≡ keys files → IsPresent files file }
    ensures missing { (IsTrue result → ⊥) → (files : Files) → numbers.now ≡ keys files → IsPresent files file → ⊥ }
{
    numbers.contains(&file)
}

/// The file is missing, which is told at its beginning.
pub fn missing(file: u32) -> LogFault
    ensures { result ≡ LogFault.Damaged (record { file = file; offset = 0; why = Why.Missing }) }
{
    LogFault::Damaged(Damage {
        file,
        offset: 0,
        why: Why::Missing,
    })
}
