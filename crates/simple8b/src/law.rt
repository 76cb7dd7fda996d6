ghost use Rattle.std.specs.Prelude.{◌≡◌, ◌<◌, ◌/◌, ◌^◌, ℕ, List, All, length, sum_by};
ghost use Rattle.simple8b.specs.Words.{words_of, count_of};

/// No two lists have the same words, and the selectors of its words tell how long a list is.
pub fn one_spelling()
    ensures apart { (first second : List ℕ) → All (λ value. value < 2 ^ 60) first → All (λ value. value < 2 ^ 60) second
        → words_of first ≡ words_of second → first ≡ second }
    ensures counted { (values : List ℕ) → All (λ value. value < 2 ^ 60) values
        → sum_by (λ word. count_of (word / 2 ^ 60)) (words_of values) ≡ length values }
{}
