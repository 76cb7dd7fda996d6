ghost use Rattle.std.specs.Prelude.{◌≡◌, ◌-◌, ◌<◌, ◌^◌, ◌==◌, ◌↔◌, All, IsTrue, take};
ghost use Rattle.simple8b.specs.Words.{selector_of, count_of, bits_of};
ghost use Rattle.simple8b.specs.Unpacked.{selector_in, values_in};

use crate::selector::first_selector;

/// The bits of a word's values that the selector before its own has no room for, by the word's selector. Before the
/// first three there is no selector that tells widths apart.
const WIDE: [u64; 16] = [
    0,
    0,
    0,
    0x0aaa_aaaa_aaaa_aaaa,
    0x0924_9249_2492_4924,
    0x0888_8888_8888_8888,
    0x0842_1084_2108_4210,
    0x0820_8208_2082_0820,
    0x0081_0204_0810_2040,
    0x0080_8080_8080_8080,
    0x0c03_00c0_300c_0300,
    0x0c00_c00c_00c0_0c00,
    0x0e00_1c00_3800_7000,
    0x0f80_00f8_000f_8000,
    0x0ffc_0000_3ff0_0000,
    0x0fff_ffff_c000_0000,
];

/// Whether the selector of a word is the first that holds the next values, which begin with the word's own.
// No selector is before that of 240 ones, and a value that has no room in the one before has none in any before that.
// Only where all of the word's values would fit the one before does it matter what follows them.
#[inline(always)]
pub fn is_first(word: u64, values: &[u64]) -> bool
    requires own { take (count_of (selector_in word)) values.now ≡ values_in word }
    requires narrow { All (λ value. value < 2 ^ 60) values.now }
    ensures { result ≡ (selector_of values.now == selector_in word) }
{
    if has_wide_value(word) {
        return true;
    }
    let selector = (word >> 60) as usize;
    if selector == 0 {
        return true;
    }
    first_selector(values) == selector
}

/// Whether a value of the word has no room under the selector before its own.
#[inline(always)]
pub fn has_wide_value(word: u64) -> bool
    ensures { IsTrue result ↔ ((2 < selector_in word) × ¬ (All (λ value. value < 2 ^ bits_of (selector_in word - 1)) (values_in word))) }
{
    word & WIDE[(word >> 60) as usize] != 0
}
