// Lists of points, by time.
ghost use Rattle.std.specs.Prelude.{◌≡◌, ◌+◌, ℤ, ◌∷◌, ◌≤◌, ◌≤ℤ◌, ◌<ℤ◌, [], ◌++◌, take, drop, reverse, length, IfSome, IfNone, IsTrue, OnOk, OnErr, IfOk, vec_len, if◌then◌else◌};
ghost use Rattle.std.specs.List.{AllByRecursion};
ghost use Rattle.point_cache.specs.Cached.{latest, AreAscending, rows_within, rows_outside};
ghost use Rattle.point_cache.specs.Sorted.{first_at, is_later, AreRising, AppendsFirsts};

use std::alloc::{AllocError, Global};
use tsdb_types::{Time, Value};

// The points up to the cut, and those that are staged.
pub(crate) fn parts(
    points: &[(Time, Value)],
    cut: usize,
    live: usize,
) -> (&[(Time, Value)], &[(Time, Value)])
    requires order { cut ≤ live }
    requires within { live ≤ length points.now }
    ensures kept { result.0.now ≡ take cut points.now }
    ensures staged { result.1.now ≡ drop live points.now }
{
    let (kept, _) = points.split_at(cut);
    let (_, staged) = points.split_at(live);
    (kept, staged)
}

// Whether the points behind the first ones go on in the order of time.
pub(crate) fn is_in_order(front: &[(Time, Value)], points: &[(Time, Value)]) -> bool
    requires { AreAscending front.now }
    ensures { IsTrue result → AreAscending (front.now ++ points.now) }
{
    let mut last = last_time(front);
    for point in points {
        if !is_behind(last, point.0) {
            return false;
        }
        last = Some(point.0);
    }
    true
}

// The greatest time.
fn last_time(points: &[(Time, Value)]) -> Option<Time>
    requires { AreAscending points.now }
    ensures some { IfSome result (λ last. AllByRecursion (λ row. row.0 ≤ℤ last) points.now) }
    ensures none { IfNone result (points.now ≡ []) }
{
    match points.last() {
        Some(point) => Some(point.0),
        None => None,
    }
}

// Whether the time is behind the last one.
fn is_behind(last: Option<Time>, time: Time) -> bool
    ensures { result ≡ is_later last time }
{
    match last {
        Some(last) => last < time,
        None => true,
    }
}

// How many points are before the time.
pub(crate) fn before(points: &[(Time, Value)], time: Time) -> usize
    requires { AreAscending points.now }
    ensures bound { result ≤ length points.now }
    ensures before { AllByRecursion (λ row. row.0 <ℤ time) (take result points.now) }
    ensures behind { AllByRecursion (λ row. time ≤ℤ row.0) (drop result points.now) }
{
    points.partition_point(|point| point.0.get() < time.get())
}

// How many points are at the time or before it.
fn up_to(points: &[(Time, Value)], time: Time) -> usize
    requires { AreAscending points.now }
    ensures bound { result ≤ length points.now }
    ensures before { AllByRecursion (λ row. row.0 ≤ℤ time) (take result points.now) }
    ensures behind { AllByRecursion (λ row. time <ℤ row.0) (drop result points.now) }
{
    points.partition_point(|point| point.0.get() <= time.get())
}

// Where the points from one time to another begin and end.
pub(crate) fn range(points: &[(Time, Value)], from: Time, to: Time) -> (usize, usize)
    requires { AreAscending points.now }
    ensures order { result.0 ≤ result.1 }
    ensures end { result.1 ≤ length points.now }
    ensures within { drop result.0 (take result.1 points.now) ≡ rows_within from to points.now }
    ensures outside { take result.0 points.now ++ drop result.1 points.now ≡ rows_outside from to points.now }
{
    let first = before(points, from);
    let end = up_to(points, to);
    if first <= end {
        (first, end)
    } else {
        (first, first)
    }
}

// A copy of the points from one time to another.
pub(crate) fn copy_within(
    alloc: Global,
    points: &[(Time, Value)],
    from: Time,
    to: Time,
) -> Result<Vec<(Time, Value)>, AllocError>
    requires { AreAscending points.now }
    ensures { IfOk result (λ copy. copy.items ≡ rows_within from to points.now) }
{
    let (first, end) = range(points, from, to);
    Vec::from_slice(alloc, &points[first..end])
}

// The points sorted by time, later ones before earlier ones with one time.
pub(crate) fn gather(
    scratch: &mut Vec<(Time, Value)>,
    points: &[(Time, Value)],
) -> Result<(), AllocError>
    ensures sorted { OnOk result (AreRising scratch.new.items) }
    ensures len { OnOk result (length scratch.new.items ≡ length points.now) }
    ensures firsts { OnOk result ((time : ℤ) → first_at scratch.new.items time ≡ latest points.now time) }
{
    scratch.clear();
    scratch.extend_from_slice(points)?;
    turn_round(scratch);
    scratch.sort_by_key(|point| point.0)?;
    Ok(())
}

fn turn_round(points: &mut Vec<(Time, Value)>)
    ensures { points.new.items ≡ reverse points.old.items }
{
    points.as_mut_slice().reverse();
}

// Appends of a sorted list the first point at each time.
pub(crate) fn append_firsts(
    points: &mut Vec<(Time, Value)>,
    sorted: &[(Time, Value)],
) -> Result<(), AllocError>
    requires { AreRising sorted.now }
    ensures ok { OnOk result (AppendsFirsts points.old.items sorted.now points.new.items) }
    ensures err { OnErr result (points.new.items ≡ points.old.items) }
{
    let end = points.len();
    let mut last: Option<Time> = None;
    for point in sorted {
        let time = push_first(points, end, last, *point)?;
        last = Some(time);
    }
    Ok(())
}

// Appends a point that is behind the last one, or cuts the list where there is no memory.
fn push_first(
    points: &mut Vec<(Time, Value)>,
    end: usize,
    last: Option<Time>,
    point: (Time, Value),
) -> Result<Time, AllocError>
    ensures ok { OnOk result (points.new.items ≡ (if is_later last point.0 then points.old.items ++ point ∷ [] else points.old.items)) }
    ensures time { IfOk result (λ time. time ≡ point.0) }
    ensures err { OnErr result (points.new.items ≡ take end points.old.items) }
{
    let time = point.0;
    if !is_behind(last, time) {
        return Ok(time);
    }
    match points.push(point) {
        Ok(()) => Ok(time),
        Err(_) => {
            points.truncate(end);
            Err(AllocError)
        }
    }
}

// Takes the points from one place up to another out of the list.
pub(crate) fn cut_out(points: &mut Vec<(Time, Value)>, from: usize, to: usize)
    requires order { from ≤ to }
    requires within { to ≤ vec_len points.old }
    ensures { points.new.items ≡ take from points.old.items ++ drop to points.old.items }
{
    let _ = points.drain(from..to);
}
