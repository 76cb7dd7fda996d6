// Files that aren't named are removed.
ghost use Rattle.std.specs.Prelude.{◌≡◌, Err, IsTrue, OnOk};
ghost use Rattle.std.specs.FinMap.{keys};
ghost use Rattle.shard_disk.specs.declared.damage.Damage.{Damage};
ghost use Rattle.gate_log.specs.Faults.{LogHasCause};
ghost use Rattle.manifest_log.specs.Calls.{HasNoReader};
ghost use Rattle.shard_recover.specs.Opening.{HasOnly, LeavesOne, Removes};

use gate_log::LogFault;
use shard_disk::Disk;

/// Removes each of these files that isn't one to be kept.
pub(crate) fn sweep<D: Disk>(disk: &mut D, numbers: &[u32], keep: &[u64]) -> Result<(), LogFault>
    requires unread { HasNoReader (D.handed_out disk.old) }
    ensures removes { Removes D.Disk keep.now disk.old disk.new }
    ensures gone { OnOk result (IsTrue D.tells → numbers.now ≡ keys (D.files disk.old) → HasOnly keep.now (D.files disk.new)) }
    ensures undamaged { (damage : Damage) → result ≡ Err (LogFault.Damaged damage) → ⊥ }
    ensures fault { LogHasCause result (D.health disk.old) (D.health disk.new) }
{
    for number in numbers {
        remove_other(disk, *number, keep)?;
    }
    Ok(())
}

/// Removes the file, where it isn't one to be kept.
fn remove_other<D: Disk>(disk: &mut D, number: u32, keep: &[u64]) -> Result<(), LogFault>
    requires unread { HasNoReader (D.handed_out disk.old) }
    ensures removes { Removes D.Disk keep.now disk.old disk.new }
    ensures gone { OnOk result (IsTrue D.tells → LeavesOne keep.now number (D.files disk.old) (D.files disk.new)) }
    ensures undamaged { (damage : Damage) → result ≡ Err (LogFault.Damaged damage) → ⊥ }
    ensures fault { LogHasCause result (D.health disk.old) (D.health disk.new) }
{
    if keep.contains(&(number as u64)) {
        return Ok(());
    }
    disk.remove(number)?;
    Ok(())
}
