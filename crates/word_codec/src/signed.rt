ghost use Rattle.std.specs.Prelude.{◌≡◌, ℤ};
ghost use Rattle.word_codec.specs.Zigzag.{zigzag_of};

/// The unsigned number that stands for a signed one: 0, -1, 1, -2 become 0, 1, 2, 3, so that numbers near 0 stay small.
pub fn zigzag(number: i64) -> u64
    ensures { result ≡ zigzag_of number }
{
    if number < 0 {
        (-(number + 1)) as u64 * 2 + 1
    } else {
        number as u64 * 2
    }
}

/// The signed number for which an unsigned one stands.
pub fn unzigzag(word: u64) -> i64
    ensures found { zigzag_of result ≡ word }
    // No other number is written so.
    ensures only { (number : ℤ) → zigzag_of number ≡ word → result ≡ number }
{
    let half = (word / 2) as i64;
    if word % 2 == 0 { half } else { -half - 1 }
}
