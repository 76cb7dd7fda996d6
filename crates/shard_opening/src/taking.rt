// Entries of the log are taken into the points in memory.
ghost use Rattle.std.specs.Prelude.{◌≡◌, ◌-◌, ◌≤◌, ◌<◌, ◌^◌, min, option_copied, false, IsTrue, IsErrOf, IfOk, OnOk, OnErr};
ghost use Rattle.point_model.specs.Acceptance.{IsAccepted, IsWritable};
ghost use Rattle.point_model.specs.Deletions.{without};
ghost use Rattle.point_model.specs.Histories.{after_entry, with_points};
ghost use Rattle.point_model.specs.Sizes.{most_bytes, write_length};
ghost use Rattle.shard_state.specs.Meaning.{AreHeld, IsTaken};
ghost use Rattle.std.specs.List.{AllByRecursion};
ghost use Rattle.shard_opening.specs.Columns.{IsFit, length_before};

use crate::kinds::has_one_kind;
use live_points::LivePoints;
use point_model::{Deletion, Entry};
use series_store::Series;
use std::alloc::{AllocError, Global};
use tsdb_types::{Batch, Column, Point, key_fault};

/// The most bytes that a record may have.
const MOST_BYTES: u64 = 1 << 30;

/// Why an entry wasn't taken.
#[derive(Clone, Copy, Debug, PartialEq, Eq)]
pub enum TakeFault {
    /// It can't stand behind the points.
    Unfit,
    Memory,
}

impl From<AllocError> for TakeFault {
    ghost use Rattle.shard_opening.specs.declared.taking.TakeFault.TheVariants.{Memory};

    ghost from_gives = { λ _ e. e ≡ Memory };

    fn from(_: AllocError) -> Self {
        TakeFault::Memory
    }
}

/// Takes an entry of the log into the points in memory, where it may stand behind them: the series of a batch are held, its keys are
/// keys, each field has one kind, and it is in conflict with no point. A deletion may stand behind all points.
pub fn take_in(
    alloc: Global,
    series: &Series,
    live: &mut LivePoints,
    entry: &Entry,
) -> Result<(), TakeFault>
    ensures ok { OnOk result (live.new.points ≡ after_entry live.old.points entry.now) }
    ensures taken { OnOk result (IsTaken series.now.keys live.old.points entry.now) }
    ensures err { OnErr result (live.new.points ≡ live.old.points) }
    ensures unfit { IsErrOf result TakeFault.Unfit → IsTaken series.now.keys live.old.points entry.now → ⊥ }
{
    match entry {
        Entry::Delete {
            client: _,
            deletion,
        } => take_deletion(live, deletion),
        Entry::Write { client: _, points } => take_batch(alloc, series, live, points),
    }
}

fn take_deletion(live: &mut LivePoints, deletion: &Deletion) -> Result<(), TakeFault>
    ensures ok { OnOk result (live.new.points ≡ without live.old.points deletion.now) }
    ensures err { OnErr result (live.new.points ≡ live.old.points) }
    ensures memory { IsErrOf result TakeFault.Unfit → ⊥ }
{
    let removal = live.prepare_removal(deletion)?;
    live.remove(deletion, removal);
    Ok(())
}

fn take_batch(
    alloc: Global,
    series: &Series,
    live: &mut LivePoints,
    batch: &Batch,
) -> Result<(), TakeFault>
    ensures ok { OnOk result (live.new.points ≡ with_points live.old.points batch.now) }
    ensures taken { OnOk result (AreHeld series.now.keys batch.now × IsWritable batch.now × IsAccepted live.old.points batch.now) }
    ensures err { OnErr result (live.new.points ≡ live.old.points) }
    ensures unfit { IsErrOf result TakeFault.Unfit → AreHeld series.now.keys batch.now × IsWritable batch.now × IsAccepted live.old.points batch.now → ⊥ }
{
    if !is_fit(alloc, series, batch)? {
        return Err(TakeFault::Unfit);
    }
    if live.conflict(batch)?.is_some() {
        return Err(TakeFault::Unfit);
    }
    live.reserve(batch)?;
    live.insert(batch);
    Ok(())
}

/// Whether the series of the batch are held, its keys are keys, each field has one kind, and a record has room for it.
fn is_fit(alloc: Global, series: &Series, batch: &Batch) -> Result<bool, AllocError>
    ensures fit { IfOk result (λ fit. IsTrue fit → AreHeld series.now.keys batch.now × IsWritable batch.now) }
    ensures unfit { IfOk result (λ fit. fit ≡ false → AreHeld series.now.keys batch.now × IsWritable batch.now → ⊥) }
{
    if !columns_fit(series, batch.columns()) {
        return Ok(false);
    }
    if !has_room(batch.points()) {
        return Ok(false);
    }
    has_one_kind(alloc, batch.points())
}

fn columns_fit(series: &Series, columns: &[Column]) -> bool
    ensures fit { IsTrue result → AllByRecursion (IsFit series.now.keys) columns.now }
    ensures unfit { result ≡ false → AllByRecursion (IsFit series.now.keys) columns.now → ⊥ }
{
    for column in columns {
        if !column_fits(series, column) {
            return false;
        }
    }
    true
}

fn column_fits(series: &Series, column: &Column) -> bool
    ensures fit { IsTrue result → IsFit series.now.keys column.now }
    ensures unfit { result ≡ false → IsFit series.now.keys column.now → ⊥ }
{
    match series.id(&column.series) {
        None => false,
        Some(_) => key_fault(&column.series, &column.field).is_none(),
    }
}

/// Whether a record has room for the points.
fn has_room(points: &[Point]) -> bool
    ensures room { IsTrue result → write_length points.now ≤ most_bytes }
    ensures no_room { result ≡ false → most_bytes < write_length points.now }
{
    let mut length: u64 = 17;
    for i in 0..points.len() {
        length = length.saturating_add(length_of(&points[i], points.get(i + 1)));
        if length > MOST_BYTES {
            return false;
        }
    }
    true
}

/// How many bytes a record needs for a point: its own, and the head of its run behind the last of it.
fn length_of(point: &Point, next: Option<&Point>) -> u64
    ensures { result ≡ min (length_before point.now (option_copied next.entry)) (2 ^ 64 - 1) }
{
    let own = (point.cell.field.as_str().len() as u64).saturating_add(19);
    let head = (point.cell.series.text().len() as u64).saturating_add(6);
    match next {
        None => own.saturating_add(head),
        Some(next) => {
            if point.cell.series == next.cell.series {
                own
            } else {
                own.saturating_add(head)
            }
        }
    }
}
