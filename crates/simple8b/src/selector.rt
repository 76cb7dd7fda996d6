ghost use Rattle.std.specs.Prelude.{◌≡◌, ◌≢◌, ◌≤◌, ◌<◌, ◌^◌, ℕ, ◌*◌, ◌⊎◌, All, IsTrue, length, slice_index};
ghost use Rattle.simple8b.specs.Words.{selector_of, count_of, bits_of, holds};

/// How many values a word holds, by its selector.
const COUNTS: [usize; 16] = [240, 120, 60, 30, 20, 15, 12, 10, 8, 7, 6, 5, 4, 3, 2, 1];

/// In how many bits each value of a word stands, by its selector.
const BITS: [u32; 16] = [0, 0, 1, 2, 3, 4, 5, 6, 7, 8, 10, 12, 15, 20, 30, 60];

/// How many of the lower bits of a word hold values, by its selector.
const USED: [u32; 16] = [0, 0, 60, 60, 60, 60, 60, 60, 56, 56, 60, 60, 60, 60, 60, 60];

/// The first selector from 2 upward in whose bits a value stands, by the number of the value's own bits.
const NARROWEST: [usize; 61] = [
    2, 2, 3, 4, 5, 6, 7, 8, 9, 10, 10, 11, 11, 12, 12, 12, 13, 13, 13, 13, 13, 14, 14, 14, 14, 14,
    14, 14, 14, 14, 14, 15, 15, 15, 15, 15, 15, 15, 15, 15, 15, 15, 15, 15, 15, 15, 15, 15, 15, 15,
    15, 15, 15, 15, 15, 15, 15, 15, 15, 15, 15,
];

/// How many values a word of this selector holds: 1 to 240.
pub fn held(selector: usize) -> usize
    requires { selector < 16 }
    ensures count { result ≡ count_of selector }
    ensures some { 1 ≤ result }
    ensures most { result ≤ 240 }
{
    COUNTS[selector]
}

/// In how many bits each value stands in a word of this selector.
pub fn width(selector: usize) -> u32
    requires { selector < 16 }
    ensures bits { result ≡ bits_of selector }
    ensures within { result * count_of selector ≤ 60 }
{
    BITS[selector]
}

/// How many of the lower bits of a word of this selector hold values.
pub fn used(selector: usize) -> u32
    requires { selector < 16 }
    ensures { result ≡ bits_of selector * count_of selector }
{
    USED[selector]
}

/// The first selector, from 0 upward, whose whole count of the next values fits.
pub fn first_selector(values: &[u64]) -> usize
    requires some { 0 < length values.now }
    requires narrow { All (λ value. value < 2 ^ 60) values.now }
    ensures first { result ≡ selector_of values.now }
    ensures selector { result < 16 }
    ensures whole { IsTrue (holds result values.now) }
{
    let ones = leading_ones(values);
    if ones == 240 {
        return 0;
    }
    if ones >= 120 {
        return 1;
    }
    let mut fitting = ones;
    for selector in narrowest(values[0])..15 {
        let count = held(selector);
        fitting = run_below(
            values,
            fitting,
            count.min(values.len()),
            1 << width(selector),
        );
        if fitting >= count {
            return selector;
        }
    }
    15
}

/// The first selector from 2 upward in whose bits the value stands.
fn narrowest(value: u64) -> usize
    requires { value < 2 ^ 60 }
    ensures least { 2 ≤ result }
    ensures most { result ≤ 15 }
    ensures wide { value < 2 ^ bits_of result }
    ensures narrower { (k : ℕ) → 2 ≤ k → k < result → 2 ^ bits_of k ≤ value }
{
    NARROWEST[(64 - value.leading_zeros()) as usize]
}

/// How many ones stand at the beginning; no more than 240 are counted.
fn leading_ones(values: &[u64]) -> usize
    ensures ones { (k : ℕ) → k < result → slice_index values.now k ≡ 1 }
    ensures within { result ≤ length values.now }
    ensures most { result ≤ 240 }
    ensures ends { result < 240 → result < length values.now → slice_index values.now result ≢ 1 }
{
    let end = values.len().min(240);
    let mut at = 0;
    while at < end && values[at] == 1 {
        at += 1;
    }
    at
}

/// Where a run of values below the limit that begins at `from` ends: at `to` at the latest.
fn run_below(values: &[u64], from: usize, to: usize, limit: u64) -> usize
    requires { to ≤ length values.now }
    ensures start { from ≤ result }
    ensures below { (k : ℕ) → from ≤ k → k < result → slice_index values.now k < limit }
    ensures ends { result < to → limit ≤ slice_index values.now result }
    ensures within { (result ≤ to) ⊎ (result ≡ from) }
{
    let mut at = from;
    while at < to && values[at] < limit {
        at += 1;
    }
    at
}
