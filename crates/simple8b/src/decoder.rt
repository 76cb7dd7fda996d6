ghost use Rattle.std.specs.Prelude.{◌≡◌, ◌≢◌, ◌≤◌, ◌<◌, ◌*◌, ◌+◌, ◌-◌, ◌^◌, ◌++◌, ℕ, List, All, IsTrue, IfOk, false, not, nat_lt, ◌%◌, length, take, drop, replicate};
ghost use Rattle.simple8b.specs.Words.{words_of, count_of, bits_of};
ghost use Rattle.simple8b.specs.Unpacked.{selector_in, unpacked, values_in};

use crate::WordsFault;
use crate::first::{has_wide_value, is_first};
use crate::selector::{held, used};
use std::alloc::Global;

/// The most values that a word holds.
const MOST_HELD: usize = 240;

/// The list of `n` values whose words these are. Each value is below 2^60.
pub fn decode(alloc: Global, words: &[u64], n: usize) -> Result<Vec<u64>, WordsFault>
    ensures ok { IfOk result (λ values. words_of values.items ≡ words.now) }
    ensures narrow { IfOk result (λ values. All (λ value. value < 2 ^ 60) values.items) }
    ensures size { IfOk result (λ values. length values.items ≡ n) }
    ensures bad_words { result ≡ Err WordsFault.BadWords → (values : List ℕ) → All (λ value. value < 2 ^ 60) values
        → length values ≡ n → words_of values ≢ words.now }
{
    if n > words.len().saturating_mul(MOST_HELD) {
        return Err(WordsFault::BadWords);
    }
    let mut values = vec![in alloc; 0; n]?;
    if !read_back(words, values.as_mut_slice()) {
        return Err(WordsFault::BadWords);
    }
    Ok(values)
}

/// Writes the values of words into a list, and tells whether the words are the encoder's words of a list so long.
// From the last word to the first: whether a selector is the first that holds the next values is told by those behind.
fn read_back(words: &[u64], values: &mut [u64]) -> bool
    ensures spelled { IsTrue result → words_of values.new ≡ words.now }
    ensures narrow { IsTrue result → All (λ value. value < 2 ^ 60) values.new }
    ensures refused { result ≡ false → (others : List ℕ) → All (λ value. value < 2 ^ 60) others → length others ≡ length values.old
        → words_of others ≢ words.now }
{
    let mut start = values.len();
    let mut at = words.len();
    while at > 0 {
        at -= 1;
        let word = words[at];
        if is_lone(word) {
            if start == 0 {
                return false;
            }
            start -= 1;
            unpack::<1, 60>(word, values, start);
            continue;
        }
        let count = held((word >> 60) as usize);
        if start < count {
            return false;
        }
        start -= count;
        unpack_word(word, values, start);
        if !is_first(word, values.split_at(start).1) {
            return false;
        }
        if has_loose_bits(word) {
            return false;
        }
    }
    start == 0
}

/// Whether a word holds one value that no other selector has room for. Where differences are wide all words are so.
#[inline(always)]
fn is_lone(word: u64) -> bool
    ensures selector { IsTrue result → selector_in word ≡ 15 }
    ensures wide { IsTrue result → ¬ (All (λ value. value < 2 ^ bits_of (selector_in word - 1)) (values_in word)) }
{
    word >> 60 == 15 && has_wide_value(word)
}

/// Writes the values of a word into a list from `start` on.
#[tactic(auto, unfolding(crate::specs::Words::count_of, crate::specs::Words::bits_of, crate::specs::Unpacked::values_in))]
fn unpack_word(word: u64, values: &mut [u64], start: usize)
    requires { start + count_of (selector_in word) ≤ length values.old }
    ensures front { take (start + count_of (selector_in word)) values.new ≡ take start values.old ++ values_in word }
    ensures behind { drop (start + count_of (selector_in word)) values.new ≡ drop (start + count_of (selector_in word)) values.old }
{
    match word >> 60 {
        0 => write_ones::<240>(values, start),
        1 => write_ones::<120>(values, start),
        2 => unpack::<60, 1>(word, values, start),
        3 => unpack::<30, 2>(word, values, start),
        4 => unpack::<20, 3>(word, values, start),
        5 => unpack::<15, 4>(word, values, start),
        6 => unpack::<12, 5>(word, values, start),
        7 => unpack::<10, 6>(word, values, start),
        8 => unpack::<8, 7>(word, values, start),
        9 => unpack::<7, 8>(word, values, start),
        10 => unpack::<6, 10>(word, values, start),
        11 => unpack::<5, 12>(word, values, start),
        12 => unpack::<4, 15>(word, values, start),
        13 => unpack::<3, 20>(word, values, start),
        14 => unpack::<2, 30>(word, values, start),
        _ => unpack::<1, 60>(word, values, start),
    }
}

/// Writes so many ones into a list from `start` on.
fn write_ones<const COUNT: usize>(values: &mut [u64], start: usize)
    requires { start + COUNT ≤ length values.old }
    ensures front { take (start + COUNT) values.new ≡ take start values.old ++ replicate COUNT 1 }
    ensures behind { drop (start + COUNT) values.new ≡ drop (start + COUNT) values.old }
{
    for k in 0..COUNT {
        values[start + k] = 1;
    }
}

/// Writes so many numbers of so many bits each into a list from `start` on.
fn unpack<const COUNT: usize, const BITS: u32>(word: u64, values: &mut [u64], start: usize)
    requires room { start + COUNT ≤ length values.old }
    requires bits { BITS ≤ 60 }
    ensures front { take (start + COUNT) values.new ≡ take start values.old ++ unpacked BITS COUNT word }
    ensures behind { drop (start + COUNT) values.new ≡ drop (start + COUNT) values.old }
{
    let mut rest = word;
    for k in 0..COUNT {
        values[start + k] = rest & ((1 << BITS) - 1);
        rest >>= BITS;
    }
}

/// Whether a bit is set above the values of a word and below its selector.
#[inline(always)]
fn has_loose_bits(word: u64) -> bool
    ensures { result ≡ not (nat_lt (word % 2 ^ 60) (2 ^ (bits_of (selector_in word) * count_of (selector_in word)))) }
{
    (word & 0xfff_ffff_ffff_ffff) >> used((word >> 60) as usize) != 0
}
