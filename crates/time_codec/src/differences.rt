ghost use Rattle.std.specs.Prelude.{◌≡◌, ◌↔◌, IsTrue, ℕ, ◌+◌, ◌/◌, ◌%◌, ◌^◌, ◌<◌, ◌≤◌, ◌==◌, ℤ, ◌-ℤ◌, unsigned_abs, ◌∷◌, length, map, slice_index, true, false, IfOk, IfSome, IsNone, nat_lt};
ghost use Rattle.std.specs.List.{list_all};
ghost use Rattle.time_codec.specs.Times.{differences, divides_all, exponent_of, all_same, unscaled};

use std::alloc::{AllocError, Global};
use tsdb_types::Time;

/// The greatest exponent of a scale.
const GREATEST: usize = 12;

/// The powers of ten of the scales, by their exponents.
const POWERS: [u64; 13] = [
    1,
    10,
    100,
    1_000,
    10_000,
    100_000,
    1_000_000,
    10_000_000,
    100_000_000,
    1_000_000_000,
    10_000_000_000,
    100_000_000_000,
    1_000_000_000_000,
];

/// How far each time is from the one before.
pub fn between(alloc: Global, first: Time, later: &[Time]) -> Result<Vec<u64>, AllocError>
    ensures { IfOk result (λ found. found.items ≡ differences (first ∷ later.now)) }
{
    let mut found = vec![in alloc; 0; later.len()]?;
    tell_apart(found.as_mut_slice(), first, later);
    Ok(found)
}

/// Writes how far each time is from the one before.
fn tell_apart(found: &mut [u64], first: Time, later: &[Time])
    requires { length found.old ≡ length later.now }
    ensures { found.new ≡ differences (first ∷ later.now) }
{
    let mut before = first;
    for k in 0..later.len() {
        let time = later[k];
        found[k] = apart(before, time);
        before = time;
    }
}

/// The one difference of times that are evenly apart; none where there is none, or where they aren't.
pub fn even_difference(first: Time, later: &[Time]) -> Option<u64>
    ensures found { IfSome result (λ difference. (all_same (differences (first ∷ later.now)) ≡ true) × (slice_index (differences (first ∷ later.now)) 0 ≡ difference)) }
    ensures none { IsNone result → all_same (differences (first ∷ later.now)) ≡ false }
{
    let (second, others) = later.split_first()?;
    let difference = apart(first, *second);
    if are_even(difference, *second, others) {
        Some(difference)
    } else {
        None
    }
}

/// Whether each later time is so far from the one before.
// Without a way out in between, so that the loop takes several times a turn.
fn are_even(difference: u64, first: Time, later: &[Time]) -> bool
    ensures { result ≡ list_all (λ other. other == difference) (differences (first ∷ later.now)) }
{
    let mut even = true;
    let mut before = first;
    for time in later {
        even &= apart(before, *time) == difference;
        before = *time;
    }
    even
}

#[inline(always)]
fn apart(earlier: Time, later: Time) -> u64
    ensures { result ≡ unsigned_abs (later -ℤ earlier) }
{
    later.get().abs_diff(earlier.get())
}

/// The exponent of the greatest power of ten up to 10^12 that divides every difference.
pub fn exponent(differences: &[u64]) -> usize
    ensures found { result ≡ exponent_of differences.now }
    ensures most { result ≤ 12 }
{
    let mut exponent = GREATEST;
    while exponent > 0 {
        if is_divisor(exponent, differences) {
            return exponent;
        }
        exponent -= 1;
    }
    0
}

/// Whether no greater power of ten divides all differences that are so many times this one.
pub fn is_greatest(exponent: usize, steps: &[u64]) -> bool
    requires { exponent ≤ 12 }
    ensures { IsTrue result ↔ (exponent_of (unscaled exponent steps.now) ≡ exponent) }
{
    if exponent == GREATEST {
        return true;
    }
    !is_divisor(1, steps)
}

/// A power of ten.
pub fn power(exponent: usize) -> u64
    requires { exponent ≤ 12 }
    ensures value { result ≡ 10 ^ exponent }
    ensures some { 0 < result }
{
    POWERS[exponent]
}

/// Whether a power of ten divides every difference.
// The powers are constants, so that no division is made where a product does.
fn is_divisor(exponent: usize, differences: &[u64]) -> bool
    requires some { 0 < exponent }
    requires most { exponent ≤ 12 }
    ensures { result ≡ divides_all exponent differences.now }
{
    match exponent {
        1 => are_multiples::<10>(differences),
        2 => are_multiples::<100>(differences),
        3 => are_multiples::<1_000>(differences),
        4 => are_multiples::<10_000>(differences),
        5 => are_multiples::<100_000>(differences),
        6 => are_multiples::<1_000_000>(differences),
        7 => are_multiples::<10_000_000>(differences),
        8 => are_multiples::<100_000_000>(differences),
        9 => are_multiples::<1_000_000_000>(differences),
        10 => are_multiples::<10_000_000_000>(differences),
        11 => are_multiples::<100_000_000_000>(differences),
        _ => are_multiples::<1_000_000_000_000>(differences),
    }
}

fn are_multiples<const UNIT: u64>(differences: &[u64]) -> bool
    requires { 0 < UNIT }
    ensures { result ≡ list_all (λ difference. difference % UNIT == 0) differences.now }
{
    for difference in differences {
        if *difference % UNIT != 0 {
            return false;
        }
    }
    true
}

/// Whether there is a difference and all are equal.
pub fn is_regular(differences: &[u64]) -> bool
    ensures { result ≡ all_same differences.now }
{
    let Some((first, rest)) = differences.split_first() else {
        return false;
    };
    are_all(*first, rest)
}

fn are_all(value: u64, differences: &[u64]) -> bool
    ensures { result ≡ list_all (λ difference. difference == value) differences.now }
{
    differences.iter().all(|difference| *difference == value)
}

/// Whether each difference in units of a power of ten goes into a word of Simple8b.
pub fn is_narrow(power: u64, differences: &[u64]) -> bool
    requires { 0 < power }
    ensures { result ≡ list_all (λ difference. nat_lt (difference / power) (2 ^ 60)) differences.now }
{
    match power.checked_mul(1 << 60) {
        None => true,
        Some(limit) => are_below(limit, differences),
    }
}

fn are_below(limit: u64, differences: &[u64]) -> bool
    ensures { result ≡ list_all (λ difference. nat_lt difference limit) differences.now }
{
    differences.iter().all(|difference| *difference < limit)
}

/// Brings the differences into units of a power of ten.
pub fn scale(exponent: usize, differences: &mut [u64])
    requires { exponent ≤ 12 }
    ensures { differences.new ≡ map (λ difference. difference / 10 ^ exponent) differences.old }
{
    match exponent {
        0 => {}
        1 => divide_all::<10>(differences),
        2 => divide_all::<100>(differences),
        3 => divide_all::<1_000>(differences),
        4 => divide_all::<10_000>(differences),
        5 => divide_all::<100_000>(differences),
        6 => divide_all::<1_000_000>(differences),
        7 => divide_all::<10_000_000>(differences),
        8 => divide_all::<100_000_000>(differences),
        9 => divide_all::<1_000_000_000>(differences),
        10 => divide_all::<10_000_000_000>(differences),
        11 => divide_all::<100_000_000_000>(differences),
        _ => divide_all::<1_000_000_000_000>(differences),
    }
}

fn divide_all<const UNIT: u64>(differences: &mut [u64])
    requires { 0 < UNIT }
    ensures { differences.new ≡ map (λ difference. difference / UNIT) differences.old }
{
    for difference in differences.iter_mut() {
        *difference /= UNIT;
    }
}
