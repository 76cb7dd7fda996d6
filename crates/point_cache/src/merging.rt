// The points of a batch, merged with those of a key that they overtake.
ghost use Rattle.std.specs.Prelude.{◌≡◌, ◌<◌, ◌≤◌, ◌≤ℤ◌, ◌<ℤ◌, ◌∷◌, [], ◌++◌, take, drop, length, OnOk, IfOk};
ghost use Rattle.std.specs.List.{AllByRecursion};
ghost use Rattle.point_cache.specs.Cached.{AreAscending};
ghost use Rattle.point_cache.specs.Merged.{IsUnion, IsOrdered, PutsBehind};

use crate::rows::{append_firsts, before, gather, is_in_order};
use std::alloc::{AllocError, Global};
use tsdb_types::{Time, Value};

/// Lists in which points are ordered and merged, kept from one batch to the next.
#[derive(Drop)]
pub(crate) struct Scratch {
    ordered: Vec<(Time, Value)>,
    pub(crate) merged: Vec<(Time, Value)>,
}

impl Scratch {
    pub(crate) fn new(alloc: Global) -> Scratch {
        Scratch {
            ordered: Vec::new(alloc),
            merged: Vec::new(alloc),
        }
    }
}

// Merges staged points with the kept ones that they overtake; how many of the kept ones stay before those.
pub(crate) fn overtake(
    scratch: &mut Scratch,
    kept: &[(Time, Value)],
    staged: &[(Time, Value)],
) -> Result<usize, AllocError>
    requires { AreAscending kept.now }
    ensures bound { IfOk result (λ place. place ≤ length kept.now) }
    ensures union { IfOk result (λ place. IsUnion kept.now staged.now (take place kept.now ++ scratch.new.merged.items)) }
{
    if is_in_order(&[], staged) {
        return merge_behind(&mut scratch.merged, kept, staged);
    }
    order(scratch, staged)?;
    merge_behind(&mut scratch.merged, kept, scratch.ordered.as_slice())
}

// Brings points into the order of time, the later of two with one time alone.
fn order(scratch: &mut Scratch, points: &[(Time, Value)]) -> Result<(), AllocError>
    ensures { OnOk result (IsOrdered points.now scratch.new.ordered.items) }
{
    gather(&mut scratch.merged, points)?;
    scratch.ordered.clear();
    append_firsts(&mut scratch.ordered, scratch.merged.as_slice())?;
    Ok(())
}

// Merges a batch with the kept points from its first time on; how many are before it.
fn merge_behind(
    merged: &mut Vec<(Time, Value)>,
    kept: &[(Time, Value)],
    batch: &[(Time, Value)],
) -> Result<usize, AllocError>
    requires kept { AreAscending kept.now }
    requires batch { AreAscending batch.now }
    ensures bound { IfOk result (λ place. place ≤ length kept.now) }
    ensures union { IfOk result (λ place. IsUnion kept.now batch.now (take place kept.now ++ merged.new.items)) }
{
    let Some(first) = batch.first() else {
        merged.clear();
        return Ok(kept.len());
    };
    let place = before(kept, first.0);
    let (_, overtaken) = kept.split_at(place);
    merge(merged, overtaken, batch)?;
    Ok(place)
}

// Merges two ascending lists: of two points with one time that of the batch.
fn merge(
    merged: &mut Vec<(Time, Value)>,
    held: &[(Time, Value)],
    batch: &[(Time, Value)],
) -> Result<(), AllocError>
    requires held { AreAscending held.now }
    requires batch { AreAscending batch.now }
    ensures { OnOk result (IsUnion held.now batch.now merged.new.items) }
{
    merged.clear();
    let mut next = 0;
    for point in batch {
        next = put_behind(merged, held, next, *point)?;
    }
    let (_, rest) = held.split_at(next);
    merged.extend_from_slice(rest)?;
    Ok(())
}

// Appends what is held before a point, from a place on, and then the point; the place of what is held behind its time.
fn put_behind(
    merged: &mut Vec<(Time, Value)>,
    held: &[(Time, Value)],
    from: usize,
    point: (Time, Value),
) -> Result<usize, AllocError>
    requires held { AreAscending held.now }
    requires within { from ≤ length held.now }
    ensures bound { IfOk result (λ next. next ≤ length held.now) }
    ensures puts { IfOk result (λ next. PutsBehind (drop from held.now) point (drop next held.now) merged.old.items merged.new.items) }
{
    let time = point.0;
    let (_, rest) = held.split_at(from);
    let ahead = count_before(rest, time);
    let (front, behind) = rest.split_at(ahead);
    let next = from + ahead + count_at(behind, time);
    append(merged, front, point)?;
    Ok(next)
}

fn append(
    merged: &mut Vec<(Time, Value)>,
    front: &[(Time, Value)],
    point: (Time, Value),
) -> Result<(), AllocError>
    ensures { OnOk result (merged.new.items ≡ merged.old.items ++ (front.now ++ point ∷ [])) }
{
    merged.extend_from_slice(front)?;
    merged.push(point)?;
    Ok(())
}

// How many points are before the time, looked at one after another.
fn count_before(points: &[(Time, Value)], time: Time) -> usize
    requires { AreAscending points.now }
    ensures bound { result ≤ length points.now }
    ensures before { AllByRecursion (λ row. row.0 <ℤ time) (take result points.now) }
    ensures behind { AllByRecursion (λ row. time ≤ℤ row.0) (drop result points.now) }
{
    for i in 0..points.len() {
        if points[i].0 >= time {
            return i;
        }
    }
    points.len()
}

// How many points are at the time, of those that aren't before it.
fn count_at(points: &[(Time, Value)], time: Time) -> usize
    requires ascending { AreAscending points.now }
    requires behind { AllByRecursion (λ row. time ≤ℤ row.0) points.now }
    ensures bound { result ≤ length points.now }
    ensures equal { AllByRecursion (λ row. row.0 ≡ time) (take result points.now) }
    ensures later { AllByRecursion (λ row. time <ℤ row.0) (drop result points.now) }
{
    match points.first() {
        Some(first) => { if first.0 == time { 1 } else { 0 } }
        None => 0,
    }
}
