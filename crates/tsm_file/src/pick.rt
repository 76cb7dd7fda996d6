// What of a file a cursor reads and gives.
ghost use Rattle.std.specs.Prelude.{◌≡◌, ℕ, ◌≤◌, ◌≤ℤ◌, ◌<ℤ◌, ◌↔◌, IsTrue, None, IfOk, length, take, drop, reverse};
ghost use Rattle.std.specs.List.{AllByRecursion};
ghost use Rattle.tsm_format.specs.Rows.{AreEntries};
ghost use Rattle.tsm_file.specs.ReadPoints.{IsLiveAt, MeetBounds, Meets, Picks, directed};

use crate::TsmIndex;
use std::alloc::{AllocError, Global};
use tombstones::TombSet;
use tsdb_types::{Kind, Time, Value};
use tsm_format::Entry;

/// The blocks of a key that meet the bounds, in the order of their times, and the kind of their values. Of a key that
/// the file lacks there are none, and the kind says nothing.
pub fn meeting_of(
    alloc: Global,
    index: &TsmIndex,
    key: &[u8],
    from: Time,
    to: Time,
) -> Result<(Kind, Vec<Entry>), AllocError>
    ensures { IfOk result (λ met. MeetBounds index.now.rows key.now from to met.0 met.1.items) }
{
    match index.find(key) {
        Some(row) => {
            let blocks = meeting(alloc, row.entries.as_slice(), from, to)?;
            Ok((row.kind, blocks))
        }
        None => Ok((Kind::Integer, Vec::new(alloc))),
    }
}

/// The blocks that meet the bounds.
fn meeting(alloc: Global, entries: &[Entry], from: Time, to: Time) -> Result<Vec<Entry>, AllocError>
    requires { (place : ℕ) × AreEntries None place entries.now }
    ensures { IfOk result (λ blocks. Picks (Meets from to) entries.now blocks.items) }
{
    if to < from {
        return Ok(Vec::new(alloc));
    }
    let first = ended_before(entries, from.get());
    let end = begun_by(entries, to.get());
    if end < first {
        return Ok(Vec::new(alloc));
    }
    let (front, _) = entries.split_at(end);
    let (_, met) = front.split_at(first);
    Vec::from_slice(alloc, met)
}

// How many blocks end before the time.
fn ended_before(entries: &[Entry], time: i64) -> usize
    requires { (place : ℕ) × AreEntries None place entries.now }
    ensures bound { result ≤ length entries.now }
    ensures ended { AllByRecursion (λ e. e.max <ℤ time) (take result entries.now) }
    ensures others { AllByRecursion (λ e. time ≤ℤ e.max) (drop result entries.now) }
{
    entries.partition_point(|entry| entry.max.get() < time)
}

// How many blocks begin at the time or before it.
fn begun_by(entries: &[Entry], time: i64) -> usize
    requires { (place : ℕ) × AreEntries None place entries.now }
    ensures bound { result ≤ length entries.now }
    ensures begun { AllByRecursion (λ e. e.min ≤ℤ time) (take result entries.now) }
    ensures others { AllByRecursion (λ e. time <ℤ e.min) (drop result entries.now) }
{
    entries.partition_point(|entry| entry.min.get() <= time)
}

/// Keeps the points of a key that lie within the bounds and that no tombstone hides.
pub fn keep_live(points: &mut Vec<(Time, Value)>, tombs: &TombSet, key: &[u8], from: Time, to: Time)
    ensures { Picks (λ point. IsLiveAt tombs.now key.now from to point.0) points.old.items points.new.items }
{
    if tombs.ranges(key).is_empty() {
        points.retain(|(time, _)| is_between(from, to, *time));
        return;
    }
    points.retain(|(time, _)| is_live(tombs, key, from, to, *time));
}

fn is_between(from: Time, to: Time, time: Time) -> bool
    ensures { IsTrue result ↔ ((from ≤ℤ time) × (time ≤ℤ to)) }
{
    if time < from {
        return false;
    }
    time <= to
}

fn is_live(tombs: &TombSet, key: &[u8], from: Time, to: Time, time: Time) -> bool
    ensures { IsTrue result ↔ IsLiveAt tombs.now key.now from to time }
{
    if !is_between(from, to, time) {
        return false;
    }
    !tombs.covers(key, time)
}

/// Turns the items so that the one that is due next stands last.
pub fn last_first<T>(items: &mut Vec<T>, descending: bool)
    ensures { items.new.items ≡ reverse (directed descending items.old.items) }
{
    if !descending {
        items.as_mut_slice().reverse();
    }
}
