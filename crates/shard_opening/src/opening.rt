// From a disk to an engine, and back.
ghost use Rattle.std.specs.Prelude.{◌≡◌, Err, None, IsTrue, IfOk, IfErr, IfSome, IfNone};
ghost use Rattle.shard_disk.specs.Crash.{Leaves, Same};
ghost use Rattle.shard_disk.specs.Directory.{HasFile};
ghost use Rattle.shard_disk.specs.declared.damage.Damage.{Damage};
ghost use Rattle.gate_log.specs.Faults.{LogHasCause};
ghost use Rattle.point_model.specs.Histories.{State};
ghost use Rattle.point_model.specs.Points.{no_points};
ghost use Rattle.manifest_log.specs.Calls.{HasNoReader};
ghost use Rattle.manifest_log.specs.Reading.{IsFresh, IsManifest};
ghost use Rattle.shard_state.specs.Calls.{Closes};
ghost use Rattle.shard_state.specs.Creating as creating;
ghost use Rattle.shard_state.specs.Engine as engine;
ghost use Rattle.shard_state.specs.Opening.{IsSoundAtOpening};
ghost use Rattle.shard_recover.specs.Damage.{IsFirstDamage};
ghost use Rattle.shard_recover.specs.Opening.{HasOpeningCause, LeavesState, OpensParts, ReadyParts};
ghost use Rattle.shard_recover.specs.Standing.{Stood};
ghost use Rattle.shard_steps.specs.Shards.{IsReady};
ghost use Rattle.shard_opening.specs.Opening.{Answers, AnswersLogs, Begins, HasCause, IsFirst, KeepsNamed, OpensLogs, Settles, disk_of};

use crate::filling::{Filling, all_taken};
use crate::segments::fill_all;
use gate_log::LogFault as OpenFault;
use live_points::LivePoints;
use shard_disk::{Disk, Trouble};
use shard_recover::{Begun, Parts, begin, join, open_new};
use shard_state::Logs;
use shard_steps::{Settings, Shard};
use std::alloc::Global;
use std::hash::RandomState;
use tsdb_types::Seed;

/// The engine of the disk's directory. A directory that names nothing yet is made. Of another one the segments are read entry by
/// entry into memory, and then the files that the manifest doesn't name are removed. A refusal hands the disk back.
///
/// # Errors
///
/// `Damaged` names the first damage: the manifest's; then that of the series file, and of the segments one after another, each where
/// it is missing or wrong; then the first entry that can't stand behind those before it, at its gate. Such a directory is left as it
/// was found.
pub fn open<D: Disk>(
    alloc: Global,
    seed: Seed,
    hashing: RandomState,
    disk: D,
    settings: Settings,
) -> Result<Shard<D>, (D, OpenFault)>
    requires unread { HasNoReader (D.handed_out disk) }

    ensures answers { Answers D.Disk disk result }
    // A history of the engine begins at the moment after the call, or at that before it.
    ensures settled { IfOk result (λ shard. Settles D.Disk disk shard) }
    ensures begins { IfOk result (λ shard. Begins D.Disk disk shard) }
    ensures ready { IfOk result (IsReady D.Disk) }
    ensures first { IfOk result (IsFirst settings) }
    // A crash at any moment of the call leaves what stands for the same, where what one before would have left does.
    ensures refused { IfErr result (λ refused. LeavesState D.Disk disk refused.0) }
    // No reader is out more than before, so that the disk can be opened again.
    ensures kept { KeepsNamed D.Disk disk (disk_of result) }
    ensures fault { HasCause result (D.health disk) D.health }
{
    let mut filling = Filling {
        live: LivePoints::new(alloc, hashing),
        refused: None,
    };
    match open_logs(alloc, seed, disk, &mut filling) {
        Ok(logs) => {
            let Filling { live, refused: _ } = filling;
            Ok(Shard::new(alloc, seed, logs, live, settings))
        }
        Err(refused) => Err(refused),
    }
}

/// The logs of the disk's directory; their entries are taken into memory.
fn open_logs<D: Disk>(
    alloc: Global,
    seed: Seed,
    disk: D,
    filling: &mut Filling,
) -> Result<Logs<D>, (D, OpenFault)>
    requires unread { HasNoReader (D.handed_out disk) }
    requires none { (filling.old.refused ≡ None) × (filling.old.live.points ≡ no_points) }

    ensures answers { AnswersLogs D.Disk disk filling.new result }
    ensures opens { IfOk result (λ logs. OpensLogs D.Disk disk logs) }
    ensures ready { IfOk result (engine.IsReady D.Disk) }
    ensures crash { LeavesState D.Disk disk (creating.disk_of result) }
    ensures kept { KeepsNamed D.Disk disk (creating.disk_of result) }
    ensures fault { HasOpeningCause result (D.health disk) D.health }
{
    let mut disk = disk;
    match read_all(alloc, seed, &mut disk, filling) {
        Ok(Some(parts)) => join(alloc, disk, parts),
        Ok(None) => open_new(alloc, seed, disk),
        Err(fault) => Err((disk, fault)),
    }
}

/// Reads all that the manifest names, and takes the entries into memory; `None` where nothing is named yet.
fn read_all<D: Disk>(
    alloc: Global,
    seed: Seed,
    disk: &mut D,
    filling: &mut Filling,
) -> Result<Option<Parts>, OpenFault>
    requires none { (filling.old.refused ≡ None) × (filling.old.live.points ≡ no_points) }

    ensures opens { IfOk result (λ found. IfSome found (λ parts. IsTrue D.tells → (state : State) → IsSoundAtOpening D.Disk disk.old state → OpensParts D.Disk state alloc disk.new parts)) }
    ensures stood { IfOk result (λ found. IfSome found (λ parts. IsTrue D.tells
        → Stood (D.files disk.old) (record { points = filling.new.live.points; number = parts.wal.last }) parts.series.keys)) }
    ensures manifest { IfOk result (λ found. IfSome found (λ parts. IsTrue D.tells → HasFile (D.files disk.old) 0 (IsManifest parts.named))) }
    ensures ready { IfOk result (λ found. IfSome found (ReadyParts D.Disk alloc disk.new)) }
    ensures fresh { IfOk result (λ found. IfNone found ((IsTrue D.tells → IsFresh (D.files disk.old)) × (filling.new ≡ filling.old))) }
    ensures damaged { (damage : Damage) → result ≡ Err (OpenFault.Damaged damage) → IsTrue D.tells → IsFirstDamage damage (D.files disk.old) }
    ensures fault { LogHasCause result (D.health disk.old) (D.health disk.new) }
    ensures files { D.files disk.new ≡ D.files disk.old }
    ensures crash { Leaves Same (D.crashes disk.old) (D.crashes disk.new) }
    ensures handed_out { D.handed_out disk.new ≡ D.handed_out disk.old }
{
    let Some(begun) = begin(alloc, seed, disk)? else {
        return Ok(None);
    };
    let Begun {
        manifest,
        named,
        series,
        numbers,
    } = begun;
    let segments = named.segments.as_slice();
    let wal = fill_all(
        alloc,
        seed,
        disk,
        &series,
        &numbers,
        segments,
        named.floor,
        filling,
    )?;
    all_taken(filling)?;
    Ok(Some(Parts {
        manifest,
        named,
        series,
        wal,
    }))
}

/// Settles what is in doubt, and gives the disk back. After Ok the directory stands for exactly the points and the number.
pub fn close<D: Disk>(shard: Shard<D>) -> (D, Result<(), Trouble>)
    requires ready { IsReady D.Disk shard }
    ensures { Closes D.Disk shard.logs result.0 result.1 }
{
    shard_state::close(shard.into_logs())
}
