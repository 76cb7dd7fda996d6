ghost use Rattle.std.specs.Prelude.{◌≡◌, ◌≤◌, ◌/◌, ◌^◌, length, sum_by};
ghost use Rattle.simple8b.specs.Words.{count_of};

use crate::selector::held;

/// How many values the words hold by their selectors, whether or not they are the words of a list.
pub fn count(words: &[u64]) -> usize
    requires { length words.now ≤ 2 ^ 32 }
    ensures { result ≡ sum_by (λ word. count_of (word / 2 ^ 60)) words.now }
{
    let mut sum = 0;
    for word in words {
        sum += held((*word >> 60) as usize);
    }
    sum
}
