ghost use Rattle.std.specs.Prelude.{◌≡◌, ◌+◌, ◌/◌, ◌^◌, ◌<◌, ◌≤◌, ◌∷◌, ◌++◌, [], false, All, IfOk};
ghost use Rattle.std.specs.List.{flat_map};
ghost use Rattle.std.specs.Int.{to_be_bytes, cast_unsigned, w64};
ghost use Rattle.word_codec.specs.Uvarint.{uvarint};
ghost use Rattle.simple8b.specs.Words.{words_of};
ghost use Rattle.time_codec.specs.Times.{AreTimes, coded_times, coded_from, exponent_of, all_same};

use super::differences::{between, even_difference, exponent, is_narrow, power, scale};
use super::words::begun;
use std::alloc::{AllocError, Global};
use tsdb_types::Time;
use word_codec::{write_uvarint, write_words};

/// The bytes of 1 to 1,000 times, each later than the one before.
pub fn encode(alloc: Global, times: &[Time]) -> Result<Vec<u8>, AllocError>
    requires { AreTimes times.now }
    ensures { IfOk result (λ bytes. bytes.items ≡ coded_times times.now) }
{
    let Some((first, later)) = times.split_first() else {
        return Ok(Vec::new(alloc));
    };
    if let Some(difference) = even_difference(*first, later) {
        return run_length(alloc, *first, difference, times.len() as u64);
    }
    let mut differences = between(alloc, *first, later)?;
    coded(alloc, *first, differences.as_mut_slice())
}

/// Times that are not evenly apart.
fn coded(alloc: Global, first: Time, differences: &mut [u64]) -> Result<Vec<u8>, AllocError>
    requires { all_same differences.old ≡ false }
    ensures { IfOk result (λ bytes. bytes.items ≡ coded_from first differences.old) }
{
    let exponent = exponent(differences);
    let unit = power(exponent);
    if is_narrow(unit, differences) {
        scale(exponent, differences);
        return packed(alloc, exponent, first, differences);
    }
    raw(alloc, first, differences)
}

/// One difference, whose scale is that of all, and how many times there are.
fn run_length(
    alloc: Global,
    first: Time,
    difference: u64,
    count: u64,
) -> Result<Vec<u8>, AllocError>
    ensures { let exponent = exponent_of (difference ∷ []) in IfOk result (λ bytes. bytes.items
        ≡ (32 + exponent) ∷ (to_be_bytes w64 (cast_unsigned w64 first) ++ (uvarint (difference / 10 ^ exponent) ++ uvarint count))) }
{
    let exponent = exponent(&[difference]);
    let mut out = begun(alloc, 29, 32 + exponent as u8, first)?;
    write_uvarint(&mut out, difference / power(exponent))?;
    write_uvarint(&mut out, count)?;
    Ok(out)
}

/// The words of the differences.
fn packed(
    alloc: Global,
    exponent: usize,
    first: Time,
    scaled: &[u64],
) -> Result<Vec<u8>, AllocError>
    requires exponent { exponent ≤ 12 }
    requires narrow { All (λ value. value < 2 ^ 60) scaled.now }
    ensures { IfOk result (λ bytes. bytes.items ≡ (16 + exponent) ∷ (to_be_bytes w64 (cast_unsigned w64 first) ++ flat_map (to_be_bytes w64) (words_of scaled.now))) }
{
    let words = simple8b::encode(alloc, scaled)?;
    let room = words.len().saturating_mul(8).saturating_add(9);
    let mut out = begun(alloc, room, 16 + exponent as u8, first)?;
    write_words(&mut out, words.as_slice())?;
    Ok(out)
}

/// Each difference in eight bytes.
fn raw(alloc: Global, first: Time, differences: &[u64]) -> Result<Vec<u8>, AllocError>
    ensures { IfOk result (λ bytes. bytes.items ≡ 0 ∷ (to_be_bytes w64 (cast_unsigned w64 first) ++ flat_map (to_be_bytes w64) differences.now)) }
{
    let room = differences.len().saturating_mul(8).saturating_add(9);
    let mut out = begun(alloc, room, 0, first)?;
    write_words(&mut out, differences)?;
    Ok(out)
}
