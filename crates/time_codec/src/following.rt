ghost use Rattle.std.specs.Prelude.{◌≡◌, ◌↔◌, ℕ, ◌+◌, ◌*◌, ◌^◌, ◌<◌, ◌≤◌, nat_lt, ◌&&◌, ℤ, pos, ◌+ℤ◌, List, [], ◌∷◌, ◌-◌, length, take, map, replicate, sum, vec_capacity, All, IsTrue, IfOk, IfSome, IsNone, IsSomeAnd};
ghost use Rattle.std.specs.List.{list_all};
ghost use Rattle.tsdb_types.specs.Moments.{IsMoment};
ghost use Rattle.time_codec.specs.Times.{AreTimes, differences};
ghost use Rattle.time_codec.specs.Reading.{Begin, Lead, times_behind};

use super::early::{early_start, early_times};
use super::offset::moved;
use std::alloc::{AllocError, Global};
use tsdb_types::Time;

/// The first time, and each later one so many units behind the one before; none where one is no moment or not later.
pub fn times_from(
    alloc: Global,
    first: Time,
    unit: u64,
    steps: &[u64],
) -> Result<Option<Vec<Time>>, AllocError>
    requires moment { IsMoment first }
    requires some { 0 < unit }
    requires few { length steps.now ≤ 999 }
    ensures found { IfOk result (λ found. IfSome found (λ times. Begin first (map (λ step. step * unit) steps.now) times.items)) }
    ensures only { (later : List ℤ) → AreTimes (first ∷ later) → differences (first ∷ later) ≡ map (λ step. step * unit) steps.now
        → IfOk result (λ found. IsSomeAnd found (λ times. times.items ≡ first ∷ later)) }
{
    if !lead_on(first, unit, steps) {
        return Ok(None);
    }
    let mut times = Vec::with_capacity(alloc, steps.len() + 1)?;
    times.push_reserved(first);
    follow(&mut times, first, unit, steps);
    Ok(Some(times))
}

/// The first time, and so many later ones, each as many units behind the one before.
pub fn times_evenly(
    alloc: Global,
    first: Time,
    step: u64,
    unit: u64,
    later: usize,
) -> Result<Option<Vec<Time>>, AllocError>
    requires moment { IsMoment first }
    requires some { 0 < unit }
    requires more { 0 < later }
    requires few { later ≤ 999 }
    ensures found { IfOk result (λ found. IfSome found (λ times. Begin first (map (λ step. step * unit) (replicate later step)) times.items)) }
    ensures only { (others : List ℤ) → AreTimes (first ∷ others) → differences (first ∷ others) ≡ map (λ step. step * unit) (replicate later step)
        → IfOk result (λ found. IsSomeAnd found (λ times. times.items ≡ first ∷ others)) }
{
    if !lead_evenly(first, unit, step, later) {
        return Ok(None);
    }
    let times = even_times(alloc, first, step * unit, later)?;
    Ok(Some(times))
}

/// The first time, and so many later ones, each as far behind the one before.
fn even_times(
    alloc: Global,
    first: Time,
    distance: u64,
    later: usize,
) -> Result<Vec<Time>, AllocError>
    requires few { later ≤ 999 }
    requires on { Lead first (replicate later distance) }
    ensures { IfOk result (λ times. times.items ≡ first ∷ times_behind first (replicate later distance)) }
{
    match early_start(first, distance, later) {
        Some(start) => early_times(alloc, start, distance, later),
        None => late_times(alloc, first, distance, later),
    }
}

/// The same for times of which some are early and some are not.
fn late_times(
    alloc: Global,
    first: Time,
    distance: u64,
    later: usize,
) -> Result<Vec<Time>, AllocError>
    requires few { later ≤ 999 }
    requires on { Lead first (replicate later distance) }
    ensures { IfOk result (λ times. times.items ≡ first ∷ times_behind first (replicate later distance)) }
{
    let mut times = vec![in alloc; first; later + 1]?;
    follow_evenly(times.as_mut_slice(), first, distance);
    Ok(times)
}

/// Whether each step leads on, and to a moment. The moments between two are moments, so the last one tells.
fn lead_on(first: Time, unit: u64, steps: &[u64]) -> bool
    requires moment { IsMoment first }
    requires some { 0 < unit }
    requires few { length steps.now ≤ 999 }
    ensures { IsTrue result ↔ Lead first (map (λ step. step * unit) steps.now) }
{
    let Some(total) = total_of(steps) else {
        return false;
    };
    is_moment_behind(first, unit, total)
}

/// Up to 999 steps below this have a sum of 64 bits.
const SMALL: u64 = 1 << 54;

/// The sum of steps none of which is zero; none beyond 64 bits.
fn total_of(steps: &[u64]) -> Option<u64>
    requires few { length steps.now ≤ 999 }
    ensures found { IfSome result (λ total. (total ≡ sum steps.now) × All (λ step. 0 < step) steps.now) }
    ensures none { IsNone result → All (λ step. 0 < step) steps.now → 2 ^ 64 ≤ sum steps.now }
{
    if are_small(steps) {
        return Some(small_total(steps));
    }
    wide_total(steps)
}

/// Whether each step is above zero and small.
// Without a way out in between, so that the loop takes several steps a turn.
fn are_small(steps: &[u64]) -> bool
    ensures { result ≡ list_all (λ step. nat_lt 0 step && nat_lt step (2 ^ 54)) steps.now }
{
    let mut small = true;
    for step in steps {
        small &= *step > 0;
        small &= *step < SMALL;
    }
    small
}

/// The sum of small steps, which needs no test.
fn small_total(steps: &[u64]) -> u64
    requires few { length steps.now ≤ 999 }
    requires small { All (λ step. step < 2 ^ 54) steps.now }
    ensures { result ≡ sum steps.now }
{
    let mut total = 0;
    for step in steps {
        total += *step;
    }
    total
}

/// The sum of steps none of which is zero, which is tested at each; none beyond 64 bits.
fn wide_total(steps: &[u64]) -> Option<u64>
    ensures found { IfSome result (λ total. (total ≡ sum steps.now) × All (λ step. 0 < step) steps.now) }
    ensures none { IsNone result → All (λ step. 0 < step) steps.now → 2 ^ 64 ≤ sum steps.now }
{
    let mut total: u64 = 0;
    for step in steps {
        if *step == 0 {
            return None;
        }
        total = total.checked_add(*step)?;
    }
    Some(total)
}

/// Whether so many equal steps lead on, each to a moment.
fn lead_evenly(first: Time, unit: u64, step: u64, later: usize) -> bool
    requires moment { IsMoment first }
    requires some { 0 < unit }
    requires more { 0 < later }
    requires few { later ≤ 999 }
    ensures { IsTrue result ↔ Lead first (map (λ step. step * unit) (replicate later step)) }
{
    if step == 0 {
        return false;
    }
    let Some(total) = step.checked_mul(later as u64) else {
        return false;
    };
    is_moment_behind(first, unit, total)
}

/// Whether what is so many units behind a time is a moment.
fn is_moment_behind(time: Time, unit: u64, steps: u64) -> bool
    requires { IsMoment time }
    ensures { IsTrue result ↔ IsMoment (time +ℤ pos (steps * unit)) }
{
    let Some(distance) = steps.checked_mul(unit) else {
        return false;
    };
    let Some(number) = time.get().checked_add_unsigned(distance) else {
        return false;
    };
    Time::new(number).is_some()
}

/// Appends the times behind the first one, each so many units behind the one before.
fn follow(times: &mut Vec<Time>, first: Time, unit: u64, steps: &[u64])
    requires room { vec_capacity times.old ≡ length steps.now + 1 }
    requires begun { times.old.items ≡ first ∷ [] }
    requires on { Lead first (map (λ step. step * unit) steps.now) }
    ensures { times.new.items ≡ first ∷ times_behind first (map (λ step. step * unit) steps.now) }
{
    let mut total = 0;
    for step in steps {
        total += *step * unit;
        times.push_reserved(moved(first, total));
    }
}

/// Writes the times behind the first one, each as far behind the one before.
fn follow_evenly(times: &mut [Time], first: Time, distance: u64)
    requires size { 0 < length times.old }
    requires begun { take 1 times.old ≡ first ∷ [] }
    requires on { Lead first (replicate (length times.old - 1) distance) }
    ensures { times.new ≡ first ∷ times_behind first (replicate (length times.old - 1) distance) }
{
    let mut last = first;
    for k in 1..times.len() {
        last = moved(last, distance);
        times[k] = last;
    }
}
