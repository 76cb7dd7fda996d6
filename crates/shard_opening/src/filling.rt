// Points in memory that entries of the log are read into.
ghost use Rattle.std.specs.Prelude.{◌≡◌, List, ℕ, [], Err, None, Some, IfOk, OnOk, IsErrOf};
ghost use Rattle.gate_log.specs.declared.fault.LogFault.{LogFault};
ghost use Rattle.shard_disk.specs.declared.damage.Damage.{Damage};
ghost use Rattle.shard_disk.specs.declared.damage.Why.TheVariants.{Body};
ghost use Rattle.wal_store.specs.declared.replay.Place.{Place};
ghost use Rattle.wal_store.specs.Reading.{HasRead};
ghost use Rattle.wal_store.specs.Replay.{Logged, StandsStrange};
ghost use Rattle.std.specs.Prelude.{◌++◌};
ghost use Rattle.shard_opening.specs.Filling.{Fills, Meets};

use crate::taking::{TakeFault, take_in};
use gate_log::LogFault;
use live_points::LivePoints;
use point_model::Entry;
use series_store::Series;
use shard_disk::{Damage, Why};
use std::alloc::Global;
use wal_store::{Place, Replay};

/// The points that entries of the log leave, and where the first of them stands that can't stand behind those before it.
#[derive(Drop)]
pub(crate) struct Filling {
    pub(crate) live: LivePoints,
    pub(crate) refused: Option<Place>,
}

/// Takes an entry in, or notes its place where it is the first that the points refuse. Behind such a one none is taken.
fn meet(
    alloc: Global,
    series: &Series,
    filling: &mut Filling,
    place: Place,
    entry: &Entry,
) -> Result<(), LogFault>
    ensures ok { OnOk result (Meets series.now.keys place entry.now filling.old filling.new) }
    ensures memory { (fault : LogFault) → result ≡ Err fault → fault ≡ LogFault.Memory }
{
    if filling.refused.is_some() {
        return Ok(());
    }
    match take_in(alloc, series, &mut filling.live, entry) {
        Ok(()) => Ok(()),
        Err(TakeFault::Unfit) => {
            filling.refused = Some(place);
            Ok(())
        }
        Err(TakeFault::Memory) => Err(LogFault::Memory),
    }
}

/// Takes the entries of the open segment, one after another as they are read.
pub(crate) fn fill(
    alloc: Global,
    series: &Series,
    replay: &mut Replay,
    filling: &mut Filling,
) -> Result<(), LogFault>
    ensures filled { OnOk result (Fills series.now.keys replay.old replay.new replay.old.left filling.old filling.new × (replay.new.left ≡ [])) }
    ensures strange { (damage : Damage) → result ≡ Err (LogFault.Damaged damage) → (before here : List Logged) (records : List (List ℕ)) → HasRead replay.old before here records
        → StandsStrange damage replay.old.wal.log.file replay.old.floor before (records ++ replay.old.left) }
    ensures no_fault { IsErrOf result LogFault.Fault → ⊥ }
{
    for _ in 0..u64::MAX {
        let Some((place, entry)) = replay.next()? else {
            return Ok(());
        };
        meet(alloc, series, filling, place, &entry)?;
    }
    // No list is that long.
    Err(LogFault::Memory)
}

/// Refuses where an entry was refused: the damage is its record's, which is told at its gate.
pub(crate) fn all_taken(filling: &Filling) -> Result<(), LogFault>
    ensures ok { OnOk result (filling.now.refused ≡ None) }
    ensures refused { (fault : LogFault) → result ≡ Err fault → (place : Place) × (filling.now.refused ≡ Some place)
        × (fault ≡ LogFault.Damaged (record { file = place.file; offset = place.offset; why = Body })) }
{
    match filling.refused {
        None => Ok(()),
        Some(place) => Err(LogFault::Damaged(Damage {
            file: place.file,
            offset: place.offset,
            why: Why::Body,
        })),
    }
}
