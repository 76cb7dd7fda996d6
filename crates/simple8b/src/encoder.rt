ghost use Rattle.std.specs.Prelude.{◌≡◌, ◌≤◌, ◌<◌, ◌*◌, ◌+◌, ◌^◌, All, IfOk, IsTrue, length};
ghost use Rattle.simple8b.specs.Words.{words_of, fits, count_of, bits_of, packed, payload};

use crate::selector::{first_selector, held};
use std::alloc::{AllocError, Global};

/// The words of a list of values below 2^60, each word of 64 bits. The first value of a word has its lowest bits.
pub fn encode(alloc: Global, values: &[u64]) -> Result<Vec<u64>, AllocError>
    requires { All (λ value. value < 2 ^ 60) values.now }
    ensures ok { IfOk result (λ words. words.items ≡ words_of values.now) }
{
    let mut words = Vec::with_capacity(alloc, values.len())?;
    let mut rest = values;
    while !rest.is_empty() {
        let selector = first_selector(rest);
        let (next, behind) = rest.split_at(held(selector));
        words.push((selector as u64) << 60 | lower_bits(selector, next))?;
        rest = behind;
    }
    Ok(words)
}

/// The lower 60 bits of a word of this selector with these values.
fn lower_bits(selector: usize, values: &[u64]) -> u64
    requires selector { selector < 16 }
    requires fitting { All (λ value. IsTrue (fits selector value)) values.now }
    requires whole { length values.now ≡ count_of selector }
    ensures value { result ≡ payload selector values.now }
    ensures narrow { result < 2 ^ 60 }
{
    if selector < 2 {
        return 0;
    }
    pack_by(selector, values)
}

/// Values side by side in as many bits each as their selector gives them.
// How many and how wide they are is a constant of each selector, so that no shift is counted.
#[tactic(auto, unfolding(crate::specs::Words::count_of, crate::specs::Words::bits_of))]
fn pack_by(selector: usize, values: &[u64]) -> u64
    requires several { 2 ≤ selector }
    requires selector { selector < 16 }
    requires narrow { All (λ value. value < 2 ^ bits_of selector) values.now }
    requires whole { length values.now ≡ count_of selector }
    ensures value { result ≡ packed (bits_of selector) values.now }
    ensures within { result < 2 ^ 60 }
{
    match selector {
        2 => pack_all::<60, 1>(values),
        3 => pack_all::<30, 2>(values),
        4 => pack_all::<20, 3>(values),
        5 => pack_all::<15, 4>(values),
        6 => pack_all::<12, 5>(values),
        7 => pack_all::<10, 6>(values),
        8 => pack_all::<8, 7>(values),
        9 => pack_all::<7, 8>(values),
        10 => pack_all::<6, 10>(values),
        11 => pack_all::<5, 12>(values),
        12 => pack_all::<4, 15>(values),
        13 => pack_all::<3, 20>(values),
        14 => pack_all::<2, 30>(values),
        _ => pack_all::<1, 60>(values),
    }
}

/// So many values side by side in so many bits each.
#[inline(always)]
fn pack_all<const COUNT: usize, const BITS: u32>(values: &[u64]) -> u64
    requires narrow { All (λ value. value < 2 ^ BITS) values.now }
    requires whole { length values.now ≡ COUNT }
    requires room { BITS * COUNT ≤ 60 }
    ensures value { result ≡ packed BITS values.now }
    ensures within { result < 2 ^ 60 }
{
    match values.split_first_chunk::<COUNT>() {
        Some((all, _)) => pack(BITS, all),
        None => 0,
    }
}

/// Values side by side in so many bits each.
#[inline(always)]
fn pack(bits: u32, values: &[u64]) -> u64
    requires narrow { All (λ value. value < 2 ^ bits) values.now }
    requires room { bits * length values.now ≤ 60 }
    ensures value { result ≡ packed bits values.now }
    ensures within { result < 2 ^ (bits * length values.now) }
{
    let mut word = 0;
    let mut shift = 0;
    for value in values {
        word |= *value << shift;
        shift += bits;
    }
    word
}
