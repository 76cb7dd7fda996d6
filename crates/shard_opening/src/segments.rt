// The segments of a log are read into memory, one after another.
ghost use Rattle.std.specs.Prelude.{◌≡◌, ◌≢◌, ◌≤◌, ◌∷◌, [], None, Err, IfOk, IsTrue, OnOk, OnErr};
ghost use Rattle.std.specs.FinMap.{keys};
ghost use Rattle.shard_disk.specs.Crash.{Leaves, Same};
ghost use Rattle.shard_disk.specs.declared.damage.Damage.{Damage};
ghost use Rattle.gate_log.specs.Calls.Read.{Reads as ReadsLog};
ghost use Rattle.gate_log.specs.Faults.{LogHasCause};
ghost use Rattle.point_model.specs.Points.{no_points};
ghost use Rattle.wal_store.specs.Segments.{last_number, one_segment, with_segment};
ghost use Rattle.shard_recover.specs.Damage.{IsWrongLog};
ghost use Rattle.shard_opening.specs.Filling.{FillsAll, IsBadFile};

use crate::filling::{Filling, fill};
use gate_log::LogFault;
use series_store::Series;
use shard_disk::Disk;
use shard_recover::{is_there, missing};
use std::alloc::Global;
use tsdb_types::Seed;
use wal_store::{Replay, Wal};

/// Reads the segments into memory, the oldest first, entry by entry: those past the floor. Each file is made durable before it
/// answers.
///
/// # Errors
///
/// `Damaged` names the first segment that is missing or wrong. Which entry the points refuse is noted, and told behind that.
pub(crate) fn fill_all<D: Disk>(
    alloc: Global,
    seed: Seed,
    disk: &mut D,
    series: &Series,
    numbers: &[u32],
    segments: &[u32],
    floor: u64,
    filling: &mut Filling,
) -> Result<Wal, LogFault>
    requires may { (segments.now ≢ []) × (floor ≤ last_number) }
    requires numbers { IsTrue D.tells → numbers.now ≡ keys (D.files disk.old) }
    requires none { (filling.old.refused ≡ None) × (filling.old.live.points ≡ no_points) }

    ensures filled { IfOk result (λ wal. FillsAll (IsTrue D.tells) series.now.keys floor segments.now wal filling.new (D.files disk.new) (D.crashes disk.old) (D.crashes disk.new)) }
    ensures damaged { (damage : Damage) → result ≡ Err (LogFault.Damaged damage) → IsTrue D.tells → IsWrongLog damage floor (D.files disk.old) segments.now }
    ensures fault { LogHasCause result (D.health disk.old) (D.health disk.new) }
    ensures files { D.files disk.new ≡ D.files disk.old }
    ensures crash { Leaves Same (D.crashes disk.old) (D.crashes disk.new) }
    ensures handed_out { D.handed_out disk.new ≡ D.handed_out disk.old }
{
    let (first, others) = cut_first(segments);
    let mut replay = open_first(alloc, seed, disk, numbers, first, floor)?;
    fill(alloc, series, &mut replay, filling)?;
    for file in others {
        open_next(&mut replay, disk, numbers, *file)?;
        fill(alloc, series, &mut replay, filling)?;
    }
    Ok(replay.into_wal())
}

/// The first, and the others.
fn cut_first(segments: &[u32]) -> (u32, &[u32])
    requires { segments.now ≢ [] }
    ensures { segments.now ≡ result.0 ∷ result.1.now }
{
    let (first, others) = segments.split_at(1);
    (first[0], others)
}

/// Opens the first segment, where it is there.
fn open_first<D: Disk>(
    alloc: Global,
    seed: Seed,
    disk: &mut D,
    numbers: &[u32],
    file: u32,
    floor: u64,
) -> Result<Replay, LogFault>
    requires most { floor ≤ last_number }
    requires numbers { IsTrue D.tells → numbers.now ≡ keys (D.files disk.old) }

    ensures ok { IfOk result (λ replay. (replay ≡ record { floor = floor; wal = one_segment replay.wal.log floor; left = replay.left; gate = 0 })
        × ReadsLog (IsTrue D.tells) file replay.wal.log replay.left (D.files disk.new) (D.crashes disk.old) (D.crashes disk.new)) }
    ensures damaged { (damage : Damage) → result ≡ Err (LogFault.Damaged damage) → IsTrue D.tells → IsBadFile damage (D.files disk.old) file }
    ensures fault { LogHasCause result (D.health disk.old) (D.health disk.new) }
    ensures files { D.files disk.new ≡ D.files disk.old }
    ensures crash { Leaves Same (D.crashes disk.old) (D.crashes disk.new) }
    ensures handed_out { D.handed_out disk.new ≡ D.handed_out disk.old }
{
    if !is_there(numbers, file) {
        return Err(missing(file));
    }
    Replay::open(alloc, seed, disk, file, floor)
}

/// Opens the next segment, where it is there and the last one is read to its end.
fn open_next<D: Disk>(
    replay: &mut Replay,
    disk: &mut D,
    numbers: &[u32],
    file: u32,
) -> Result<(), LogFault>
    requires over { replay.old.left ≡ [] }
    requires numbers { IsTrue D.tells → numbers.now ≡ keys (D.files disk.old) }

    ensures ok { OnOk result ((replay.new ≡ record { floor = replay.old.floor; wal = with_segment replay.old.wal replay.new.wal.log; left = replay.new.left; gate = 0 })
        × ReadsLog (IsTrue D.tells) file replay.new.wal.log replay.new.left (D.files disk.new) (D.crashes disk.old) (D.crashes disk.new)) }
    ensures refused { OnErr result (replay.new ≡ replay.old) }
    ensures damaged { (damage : Damage) → result ≡ Err (LogFault.Damaged damage) → IsTrue D.tells → IsBadFile damage (D.files disk.old) file }
    ensures fault { LogHasCause result (D.health disk.old) (D.health disk.new) }
    ensures files { D.files disk.new ≡ D.files disk.old }
    ensures crash { Leaves Same (D.crashes disk.old) (D.crashes disk.new) }
    ensures handed_out { D.handed_out disk.new ≡ D.handed_out disk.old }
{
    if !is_there(numbers, file) {
        return Err(missing(file));
    }
    replay.go_on(disk, file)
}
