// From what was read of a directory to the logs of an engine.
ghost use Rattle.std.specs.Prelude.{◌≡◌, ◌∷◌, Err, IsTrue, IfErr, IfOk, OnOk};
ghost use Rattle.shard_disk.specs.Directory.{Directory as Files};
ghost use Rattle.shard_disk.specs.declared.damage.Damage.{Damage};
ghost use Rattle.gate_log.specs.Faults.{LogHasCause};
ghost use Rattle.point_model.specs.Histories.{State};
ghost use Rattle.manifest_log.specs.Calls.{HasNoReader};
ghost use Rattle.manifest_log.specs.Edits.{names};
ghost use Rattle.shard_state.specs.Crashes.{LeavesOnly};
ghost use Rattle.shard_state.specs.Creating.{disk_of};
ghost use Rattle.shard_state.specs.Engine.{IsReady};
ghost use Rattle.shard_state.specs.Meaning.{Stands};
ghost use Rattle.shard_recover.specs.Opening.{HasOnly, HasOpeningCause, Opens, OpensParts, ReadyParts, Removes, logs_on};

use crate::parts::Parts;
use crate::present::list;
use crate::sweep::sweep;
use gate_log::LogFault;
use manifest_log::Directory;
use shard_disk::Disk;
use shard_state::Logs;
use std::alloc::Global;

/// The logs on their disk, once their entries are taken in. Files that the manifest doesn't name are removed first. A refusal hands
/// the disk back.
pub fn join<D: Disk>(alloc: Global, disk: D, parts: Parts) -> Result<Logs<D>, (D, LogFault)>
    requires unread { HasNoReader (D.handed_out disk) }
    requires ready { ReadyParts D.Disk alloc disk parts }

    ensures are { IfOk result (λ logs. logs ≡ logs_on alloc logs.disk parts) }
    ensures ok { IfOk result (λ logs. IsTrue D.tells → (state : State) → OpensParts D.Disk state alloc disk parts → Opens D.Disk state logs) }
    ensures ready { IfOk result (IsReady D.Disk) }
    // A crash at any moment of the call leaves what stands for the state of the parts.
    ensures crash { IsTrue D.tells → (state : State) → OpensParts D.Disk state alloc disk parts
        → LeavesOnly (λ (c : Files). Stands c state) (D.crashes disk) (D.crashes (disk_of result)) }
    ensures undamaged { IfErr result (λ refused. (damage : Damage) → refused.1 ≡ LogFault.Damaged damage → ⊥) }
    ensures removes { Removes D.Disk (0 ∷ names parts.named) disk (disk_of result) }
    ensures gone { IfOk result (λ logs. IsTrue D.tells → HasOnly (0 ∷ names parts.named) (D.files logs.disk)) }
    ensures fault { HasOpeningCause result (D.health disk) D.health }
{
    let mut disk = disk;
    match remove_unnamed(alloc, &mut disk, &parts.named) {
        Ok(()) => {
            let Parts {
                manifest,
                named: _named,
                series,
                wal,
            } = parts;
            let number = wal.last();
            Ok(Logs::new(alloc, disk, manifest, series, wal, number))
        }
        Err(fault) => Err((disk, fault)),
    }
}

/// Removes the files that aren't named.
fn remove_unnamed<D: Disk>(alloc: Global, disk: &mut D, named: &Directory) -> Result<(), LogFault>
    requires unread { HasNoReader (D.handed_out disk.old) }
    ensures removes { Removes D.Disk (0 ∷ names named.now) disk.old disk.new }
    ensures gone { OnOk result (IsTrue D.tells → HasOnly (0 ∷ names named.now) (D.files disk.new)) }
    ensures undamaged { (damage : Damage) → result ≡ Err (LogFault.Damaged damage) → ⊥ }
    ensures fault { LogHasCause result (D.health disk.old) (D.health disk.new) }
{
    let keep = named.names(alloc)?;
    let numbers = list(disk)?;
    sweep(disk, &numbers, &keep)
}
