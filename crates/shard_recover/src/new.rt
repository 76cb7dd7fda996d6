// A directory that names nothing yet.
ghost use Rattle.std.specs.Prelude.{◌≡◌, [], IsTrue, IfOk, IfErr};
ghost use Rattle.shard_disk.specs.declared.damage.Damage.{Damage};
ghost use Rattle.point_model.specs.Histories.{nothing};
ghost use Rattle.manifest_log.specs.Reading.{IsFresh};
ghost use Rattle.shard_state.specs.Creating.{Creates, disk_of};
ghost use Rattle.shard_state.specs.Engine.{IsReady};
ghost use Rattle.shard_state.specs.Opening.{IsBlankAtOpening};
ghost use Rattle.shard_recover.specs.Opening.{HasOpeningCause, Opens};

use gate_log::LogFault;
use shard_disk::Disk;
use shard_state::{Logs, create};
use std::alloc::Global;
use tsdb_types::Seed;

/// The logs of a directory that names nothing yet: its first files are made and named. A refusal hands the disk back.
pub fn open_new<D: Disk>(alloc: Global, seed: Seed, disk: D) -> Result<Logs<D>, (D, LogFault)>
    requires { IsTrue D.tells → IsFresh (D.files disk) }

    ensures ok { IfOk result (λ logs. IsTrue D.tells → IsBlankAtOpening (D.files disk) (D.crashes disk) (D.handed_out disk) → Opens D.Disk nothing logs) }
    ensures first { IfOk result (λ logs. (logs.series.keys ≡ []) × (logs.number ≡ 0)) }
    ensures ready { IfOk result (IsReady D.Disk) }
    ensures crash { IfOk result (λ logs. Creates D.Disk disk logs.disk) }
    ensures refused { IfErr result (λ refused. Creates D.Disk disk refused.0) }
    ensures undamaged { IfErr result (λ refused. IsTrue D.tells → (damage : Damage) → refused.1 ≡ LogFault.Damaged damage → ⊥) }
    ensures unread { (D.handed_out (disk_of result)).readers ≡ (D.handed_out disk).readers }
    ensures fault { HasOpeningCause result (D.health disk) D.health }
{
    create(alloc, seed, disk)
}
