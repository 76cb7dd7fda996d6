ghost use Rattle.std.specs.Prelude.{◌≡◌, ℕ, ◌^◌, ◌<◌, ◌≤◌, ℤ, ◌∷◌, ◌++◌, List, length, All, IfOk, IfSome, IsSomeAnd};
ghost use Rattle.tsdb_types.specs.Moments.{IsMoment};
ghost use Rattle.word_codec.specs.Uvarint.{uvarint};
ghost use Rattle.time_codec.specs.Times.{AreTimes, body_of};
ghost use Rattle.time_codec.specs.Reading.{Follow, AreRead};

use super::differences::{exponent, is_greatest, is_narrow, is_regular, power};
use super::following::{times_evenly, times_from};
use super::form::Form;
use super::words::words_in;
use simple8b::WordsFault;
use std::alloc::{AllocError, Global};
use tsdb_types::Time;
use word_codec::read_uvarint;

/// Times that are coded by one difference and their count, behind the first byte and the first time.
pub fn run_length_in(
    alloc: Global,
    first: Time,
    exponent: usize,
    rest: &[u8],
) -> Result<Option<Vec<Time>>, AllocError>
    requires moment { IsMoment first }
    requires most { exponent ≤ 12 }
    ensures found { IfOk result (λ found. IfSome found (λ times. AreRead Form.RunLength exponent first rest.now times.items)) }
    ensures only { (later : List ℤ) → AreTimes (first ∷ later) → Follow Form.RunLength exponent rest.now (first ∷ later) → IfOk result (λ found. IsSomeAnd found (λ read. read.items ≡ first ∷ later)) }
{
    let Some((step, count)) = numbers_in(rest) else {
        return Ok(None);
    };
    if count < 2 {
        return Ok(None);
    }
    if count > 1000 {
        return Ok(None);
    }
    if !is_greatest(exponent, &[step]) {
        return Ok(None);
    }
    times_evenly(alloc, first, step, power(exponent), count as usize - 1)
}

/// Times that are coded by words, behind the first byte and the first time.
pub fn packed_in(
    alloc: Global,
    first: Time,
    exponent: usize,
    rest: &[u8],
) -> Result<Option<Vec<Time>>, AllocError>
    requires moment { IsMoment first }
    requires most { exponent ≤ 12 }
    ensures found { IfOk result (λ found. IfSome found (λ times. AreRead Form.Packed exponent first rest.now times.items)) }
    ensures only { (later : List ℤ) → AreTimes (first ∷ later) → Follow Form.Packed exponent rest.now (first ∷ later) → IfOk result (λ found. IsSomeAnd found (λ read. read.items ≡ first ∷ later)) }
{
    let Some(steps) = values_in(alloc, rest)? else {
        return Ok(None);
    };
    if is_regular(steps.as_slice()) {
        return Ok(None);
    }
    if !is_greatest(exponent, steps.as_slice()) {
        return Ok(None);
    }
    times_from(alloc, first, power(exponent), steps.as_slice())
}

/// Times that are coded by all their differences, behind the first byte and the first time.
pub fn raw_in(
    alloc: Global,
    first: Time,
    exponent_read: usize,
    rest: &[u8],
) -> Result<Option<Vec<Time>>, AllocError>
    requires moment { IsMoment first }
    ensures found { IfOk result (λ found. IfSome found (λ times. AreRead Form.Raw exponent_read first rest.now times.items)) }
    ensures only { (later : List ℤ) → AreTimes (first ∷ later) → Follow Form.Raw exponent_read rest.now (first ∷ later) → IfOk result (λ found. IsSomeAnd found (λ read. read.items ≡ first ∷ later)) }
{
    if exponent_read > 0 {
        return Ok(None);
    }
    let Some(steps) = words_in(alloc, rest)? else {
        return Ok(None);
    };
    if is_regular(steps.as_slice()) {
        return Ok(None);
    }
    let exponent = exponent(steps.as_slice());
    if is_narrow(power(exponent), steps.as_slice()) {
        return Ok(None);
    }
    times_from(alloc, first, power(0), steps.as_slice())
}

/// The two numbers that make up the bytes.
fn numbers_in(bytes: &[u8]) -> Option<(u64, u64)>
    ensures found { IfSome result (λ found. bytes.now ≡ uvarint found.0 ++ uvarint found.1) }
    ensures only { (one two : ℕ) → one < 2 ^ 64 → two < 2 ^ 64 → bytes.now ≡ uvarint one ++ uvarint two → result ≡ Some (one, two) }
{
    let Ok((first, len)) = read_uvarint(bytes) else {
        return None;
    };
    let (_, behind) = bytes.split_at(len);
    let Ok((second, size)) = read_uvarint(behind) else {
        return None;
    };
    if size < behind.len() {
        return None;
    }
    Some((first, second))
}

/// The values of the words that make up the bytes, 999 at most.
fn values_in(alloc: Global, rest: &[u8]) -> Result<Option<Vec<u64>>, AllocError>
    ensures found { IfOk result (λ found. IfSome found (λ steps. rest.now ≡ body_of Form.Packed steps.items)) }
    ensures most { IfOk result (λ found. IfSome found (λ steps. length steps.items ≤ 999)) }
    ensures narrow { IfOk result (λ found. IfSome found (λ steps. All (λ step. step < 2 ^ 60) steps.items)) }
    ensures only { (steps : List ℕ) → All (λ step. step < 2 ^ 60) steps → length steps ≤ 999 → rest.now ≡ body_of Form.Packed steps
        → IfOk result (λ found. IsSomeAnd found (λ read. read.items ≡ steps)) }
{
    let Some(words) = words_in(alloc, rest)? else {
        return Ok(None);
    };
    let count = simple8b::count(words.as_slice());
    if count > 999 {
        return Ok(None);
    }
    match simple8b::decode(alloc, words.as_slice(), count) {
        Ok(steps) => Ok(Some(steps)),
        Err(WordsFault::BadWords) => Ok(None),
        Err(WordsFault::Memory) => Err(AllocError),
    }
}
