ghost use Rattle.std.specs.Prelude.{◌≡◌, ◌≢◌, ◌≤◌, ◌++◌, ◌∷◌, [], ℕ, List, Err, IfOk, IsTrue, IsErrOf, OnOk};
ghost use Rattle.std.specs.List.{AllByRecursion};
ghost use Rattle.shard_disk.specs.Crash.{Leaves, Same};
ghost use Rattle.shard_disk.specs.Directory.{IsPresent};
ghost use Rattle.shard_disk.specs.declared.damage.Damage.{Damage};
ghost use Rattle.gate_log.specs.Faults.{LogHasCause};
ghost use Rattle.wal_store.specs.Reading.{HasRead, TakesAll};
ghost use Rattle.wal_store.specs.Replay.{IsWrong, Logged, Replays, StandsStrange};
ghost use Rattle.wal_store.specs.Segments.{last_number};

use crate::{Replay, Wal};
use gate_log::LogFault;
use point_model::Entry;
use shard_disk::Disk;
use std::alloc::Global;
use tsdb_types::Seed;

impl Wal {
    /// The log that these segments are, the oldest first, and its entries past the floor, which is a number of at most
    /// 2^63 - 1. It holds all entries: `Replay` gives them one at a time. Each file is made durable before it answers.
    ///
    /// # Errors
    ///
    /// `Damaged` names the first that is wrong, as `Replay` does.
    pub fn replay<D: Disk>(
        alloc: Global,
        seed: Seed,
        disk: &mut D,
        segments: &[u32],
        floor: u64,
    ) -> Result<(Wal, Vec<Entry>), LogFault>
        requires may { (segments.now ≢ []) × (floor ≤ last_number) }
        requires present { IsTrue D.tells → AllByRecursion (IsPresent (D.files disk.old)) segments.now }

        ensures ok { IfOk result (λ read. Replays (IsTrue D.tells) floor segments.now read.0 read.1.items
            (D.files disk.new) (D.crashes disk.old) (D.crashes disk.new)) }
        ensures damaged { (damage : Damage) → result ≡ Err (LogFault.Damaged damage) → IsTrue D.tells → IsWrong damage floor (D.files disk.old) segments.now }
        ensures fault { LogHasCause result (D.health disk.old) (D.health disk.new) }

        ensures files { D.files disk.new ≡ D.files disk.old }
        ensures crash { Leaves Same (D.crashes disk.old) (D.crashes disk.new) }
        ensures handed_out { D.handed_out disk.new ≡ D.handed_out disk.old }
    {
        let (first, others) = cut_first(segments);
        let mut replay = Replay::open(alloc, seed, disk, first, floor)?;
        let mut entries = Vec::new(alloc);
        take_entries(&mut replay, &mut entries)?;
        for file in others {
            replay.go_on(disk, *file)?;
            take_entries(&mut replay, &mut entries)?;
        }
        Ok((replay.into_wal(), entries))
    }
}

/// The first, and the others.
fn cut_first(segments: &[u32]) -> (u32, &[u32])
    requires { segments.now ≢ [] }
    ensures { segments.now ≡ result.0 ∷ result.1.now }
{
    let (first, others) = segments.split_at(1);
    (first[0], others)
}

/// Takes the entries of the open segment, and puts them behind the others.
fn take_entries(replay: &mut Replay, entries: &mut Vec<Entry>) -> Result<(), LogFault>
    ensures taken { OnOk result (TakesAll replay.old replay.new entries.old.items entries.new.items) }
    ensures strange { (damage : Damage) → result ≡ Err (LogFault.Damaged damage) → (before here : List Logged) (records : List (List ℕ)) → HasRead replay.old before here records
        → StandsStrange damage replay.old.wal.log.file replay.old.floor before (records ++ replay.old.left) }
    ensures no_fault { IsErrOf result LogFault.Fault → ⊥ }
{
    for _ in 0..u64::MAX {
        let Some((_, entry)) = replay.next()? else {
            return Ok(());
        };
        entries.push(entry)?;
    }
    // No list is that long.
    Err(LogFault::Memory)
}
