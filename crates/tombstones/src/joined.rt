// Ranges that are apart, as a slice.
ghost use Rattle.std.specs.Prelude.{◌≡◌, ◌≢◌, ◌⊎◌, ℕ, ◌+◌, ◌<◌, ◌≤◌, ◌≤ℤ◌, ◌<ℤ◌, ◌+ℤ◌, pos, ◌↔◌, List, [], ◌∷◌, ◌++◌, take, drop, length, vec_len, IsTrue, OnOk, OnErr};
ghost use Rattle.std.specs.List.{AllByRecursion};
ghost use Rattle.tombstones.specs.Ranges.{Covers, CoversAlso, AreApart};

use crate::TombRange;
use std::alloc::AllocError;
use tsdb_types::Time;

/// Whether some range has the time.
pub fn covers_in(ranges: &[TombRange], time: Time) -> bool
    requires { AreApart ranges.now }
    ensures { IsTrue result ↔ Covers ranges.now time }
{
    let place = ended_before(ranges, time.get());
    if place >= ranges.len() {
        return false;
    }
    begins_by(ranges[place], time)
}

fn begins_by(range: TombRange, time: Time) -> bool
    ensures { IsTrue result ↔ (range.from ≤ℤ time) }
{
    range.from <= time
}

// How many ranges end before the time.
fn ended_before(ranges: &[TombRange], time: i64) -> usize
    requires { AreApart ranges.now }
    ensures bound { result ≤ length ranges.now }
    ensures ended { AllByRecursion (λ r. r.to <ℤ time) (take result ranges.now) }
    ensures others { AllByRecursion (λ r. time ≤ℤ r.to) (drop result ranges.now) }
{
    ranges.partition_point(|range| range.to.get() < time)
}

// How many ranges begin at the time or before it.
fn begun_at(ranges: &[TombRange], time: i64) -> usize
    requires { AreApart ranges.now }
    ensures bound { result ≤ length ranges.now }
    ensures begun { AllByRecursion (λ r. r.from ≤ℤ time) (take result ranges.now) }
    ensures others { AllByRecursion (λ r. time <ℤ r.from) (drop result ranges.now) }
{
    ranges.partition_point(|range| range.from.get() <= time)
}

/// Puts the range among the others, as one with those that it touches.
pub fn join(ranges: &mut Vec<TombRange>, range: TombRange) -> Result<(), AllocError>
    requires apart { AreApart ranges.old.items }
    requires some { range.from ≤ℤ range.to }
    ensures ok { OnOk result (CoversAlso ranges.old.items range ranges.new.items) }
    ensures some { OnOk result (ranges.new.items ≢ []) }
    ensures apart { AreApart ranges.new.items }
    ensures err { OnErr result (ranges.new.items ≡ ranges.old.items) }
{
    let first = ended_before(ranges, range.from.get() - 1);
    let last = begun_at(ranges, range.to.get() + 1);
    if first >= last {
        ranges.insert(first, range)?;
        return Ok(());
    }
    ranges[first] = TombRange {
        from: earlier(range.from, ranges[first].from),
        to: later(range.to, ranges[last - 1].to),
    };
    cut_out(ranges, first + 1, last);
    Ok(())
}

// Takes the ranges from one place up to another out of the list.
fn cut_out(ranges: &mut Vec<TombRange>, from: usize, to: usize)
    requires order { from ≤ to }
    requires within { to ≤ vec_len ranges.old }
    ensures { ranges.new.items ≡ take from ranges.old.items ++ drop to ranges.old.items }
{
    let _ = ranges.drain(from..to);
}

fn earlier(one: Time, other: Time) -> Time
    ensures least { (result ≤ℤ one) × (result ≤ℤ other) }
    ensures either { (result ≡ one) ⊎ (result ≡ other) }
{
    if one < other { one } else { other }
}

fn later(one: Time, other: Time) -> Time
    ensures greatest { (one ≤ℤ result) × (other ≤ℤ result) }
    ensures either { (result ≡ one) ⊎ (result ≡ other) }
{
    if one < other { other } else { one }
}
