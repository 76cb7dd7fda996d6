// The logs of a new directory.
ghost use Rattle.std.specs.Prelude.{◌≡◌, ◌≢◌, ◌^◌, ◌<◌, ◌∷◌, [], length, IsTrue, IfOk, IfErr, Err};
ghost use Rattle.std.specs.declared.alloc.Global.{Global};
ghost use Rattle.shard_disk.specs.Directory.{Directory};
ghost use Rattle.shard_disk.specs.declared.damage.Damage.{Damage};
ghost use Rattle.gate_log.specs.Faults.{LogHasCause};
ghost use Rattle.point_model.specs.Histories.{nothing};
ghost use Rattle.manifest_log.specs.Format.{edit_bytes};
ghost use Rattle.manifest_log.specs.Reading.{IsFresh};
ghost use Rattle.shard_state.specs.Crashes.{LeavesOnly};
ghost use Rattle.gate_log.specs.Log.{IsEmptyLog};
ghost use Rattle.wal_store.specs.Segments.{one_segment};
ghost use Rattle.shard_state.specs.Creating.{AreFirst, AreNew, CreateHasCause, Creates, disk_of, first_changes, first_logs};
ghost use Rattle.shard_state.specs.Engine.{IsOpened, IsReady};
ghost use Rattle.shard_state.specs.Meaning.{Stands};
ghost use Rattle.shard_state.specs.Opening.{IsBlankAtOpening};

use crate::Logs;
use gate_log::{Frame, Log, LogFault};
use manifest_log::{Change, Changes, Edit, Manifest};
use series_store::Series;
use shard_disk::{Disk, Trouble};
use std::alloc::{AllocError, Global};
use tsdb_types::Seed;
use wal_store::Wal;

/// The first files of a directory.
#[derive(Drop)]
pub(crate) struct Files {
    pub(crate) manifest: Manifest,
    pub(crate) series: Log,
    pub(crate) segment: Log,
}

/// Makes the files of a directory that has none or whose manifest has no edit.
fn make_files<D: Disk>(alloc: Global, disk: &mut D) -> Result<Files, LogFault>
    requires { IsTrue D.tells → IsFresh (D.files disk.old) }

    ensures first { IfOk result (AreFirst D.Disk disk.new) }
    ensures new { IfOk result (λ files. IsTrue D.tells → IsBlankAtOpening (D.files disk.old) (D.crashes disk.old) (D.handed_out disk.old) → AreNew D.Disk disk.new files) }
    ensures crash { Creates D.Disk disk.old disk.new }
    ensures readers { (D.handed_out disk.new).readers ≡ (D.handed_out disk.old).readers }
    ensures undamaged { (damage : Damage) → result ≡ Err (LogFault.Damaged damage) → IsTrue D.tells → ⊥ }
    ensures fault { LogHasCause result (D.health disk.old) (D.health disk.new) }
{
    let manifest = Manifest::begin(alloc, disk)?;
    let series = Log::make(disk)?;
    let segment = Log::make(disk)?;
    Ok(Files {
        manifest,
        series,
        segment,
    })
}

/// What a new directory has in memory.
#[derive(Drop)]
struct Parts {
    manifest: Manifest,
    series: Series,
    wal: Wal,
}

/// Names the files of a new directory, by the first edit of its manifest.
fn name_files<D: Disk>(
    alloc: Global,
    seed: Seed,
    disk: &mut D,
    files: Files,
) -> Result<Parts, LogFault>
    requires { AreFirst D.Disk disk.old files }

    ensures ready { IfOk result (λ parts. (alloc : Global) → IsReady D.Disk (first_logs alloc disk.new parts.manifest parts.series parts.wal)) }
    ensures opened { IfOk result (λ parts. IsTrue D.tells → AreNew D.Disk disk.old files → (alloc : Global) → IsOpened D.Disk nothing (first_logs alloc disk.new parts.manifest parts.series parts.wal)) }
    ensures series { IfOk result (λ parts. parts.series.keys ≡ []) }
    ensures crash { IsTrue D.tells → AreNew D.Disk disk.old files → LeavesOnly (λ (c : Directory). Stands c nothing) (D.crashes disk.old) (D.crashes disk.new) }
    ensures readers { (D.handed_out disk.new).readers ≡ (D.handed_out disk.old).readers }
    ensures undamaged { (damage : Damage) → result ≡ Err (LogFault.Damaged damage) → ⊥ }
    ensures fault { LogHasCause result (D.health disk.old) (D.health disk.new) }
{
    let Files {
        mut manifest,
        series,
        segment,
    } = files;
    let frame = first_frame(alloc, series.file(), segment.file())?;
    let wal = first_segment(alloc, segment)?;
    manifest.edit(disk, &frame)?;
    Ok(Parts {
        manifest,
        series: Series::new(alloc, seed, series),
        wal,
    })
}

/// The record of the first edit.
fn first_frame(alloc: Global, series: u32, segment: u32) -> Result<Frame, AllocError>
    ensures { IfOk result (λ frame. frame ≡ edit_bytes (first_changes series segment)) }
{
    let mut changes = Vec::with_capacity(alloc, 3)?;
    changes.push(Change::NameSeries { no: series })?;
    changes.push(Change::AddSegment { no: segment })?;
    changes.push(Change::SetFloor { number: 0 })?;
    let edit = Edit {
        changes: Changes::new(changes),
    };
    Manifest::frame(alloc, &edit)
}

/// The log of entries that begins with this segment.
fn first_segment(alloc: Global, segment: Log) -> Result<Wal, AllocError>
    requires { IsEmptyLog segment }
    ensures { IfOk result (λ wal. wal ≡ one_segment segment 0) }
{
    match Wal::new(alloc, segment, 0) {
        Ok(wal) => Ok(wal),
        Err((_, error)) => Err(error),
    }
}

/// The logs of a directory that has no file, or whose manifest has no edit: the manifest, the series file and the first segment are
/// made, and named by one edit. A refusal hands the disk back. Then nothing is named or, after a fault, files without a series and
/// without an entry may be.
pub fn create<D: Disk>(alloc: Global, seed: Seed, disk: D) -> Result<Logs<D>, (D, LogFault)>
    requires { IsTrue D.tells → IsFresh (D.files disk) }

    ensures opened { IfOk result (λ logs. IsTrue D.tells → IsBlankAtOpening (D.files disk) (D.crashes disk) (D.handed_out disk) → IsOpened D.Disk nothing logs) }
    ensures first { IfOk result (λ logs. (logs.series.keys ≡ []) × (logs.number ≡ 0)) }
    ensures ready { IfOk result (IsReady D.Disk) }
    // A crash at any moment of the call leaves a directory that stands for no points.
    ensures crash { IfOk result (λ logs. Creates D.Disk disk logs.disk) }
    ensures refused { IfErr result (λ refused. Creates D.Disk disk refused.0) }
    ensures undamaged { IfErr result (λ refused. (damage : Damage) → refused.1 ≡ LogFault.Damaged damage → IsTrue D.tells → ⊥) }
    ensures readers { (D.handed_out (disk_of result)).readers ≡ (D.handed_out disk).readers }
    ensures fault { CreateHasCause result (D.health disk) D.health }
{
    let mut disk = disk;
    match make_parts(alloc, seed, &mut disk) {
        Ok(parts) => Ok(Logs {
            alloc,
            disk,
            manifest: parts.manifest,
            series: parts.series,
            wal: parts.wal,
            number: 0,
        }),
        Err(fault) => Err((disk, fault)),
    }
}

fn make_parts<D: Disk>(alloc: Global, seed: Seed, disk: &mut D) -> Result<Parts, LogFault>
    requires { IsTrue D.tells → IsFresh (D.files disk.old) }

    ensures ready { IfOk result (λ parts. (alloc : Global) → IsReady D.Disk (first_logs alloc disk.new parts.manifest parts.series parts.wal)) }
    ensures opened { IfOk result (λ parts. IsTrue D.tells → IsBlankAtOpening (D.files disk.old) (D.crashes disk.old) (D.handed_out disk.old)
        → (alloc : Global) → IsOpened D.Disk nothing (first_logs alloc disk.new parts.manifest parts.series parts.wal)) }
    ensures series { IfOk result (λ parts. parts.series.keys ≡ []) }
    ensures crash { Creates D.Disk disk.old disk.new }
    ensures readers { (D.handed_out disk.new).readers ≡ (D.handed_out disk.old).readers }
    ensures undamaged { (damage : Damage) → result ≡ Err (LogFault.Damaged damage) → IsTrue D.tells → ⊥ }
    ensures fault { LogHasCause result (D.health disk.old) (D.health disk.new) }
{
    let files = make_files(alloc, disk)?;
    name_files(alloc, seed, disk, files)
}
