ghost use Rattle.std.specs.Prelude.{ℤ, ◌≤ℤ◌, ◌<ℤ◌, ◌↔◌, MatchOption};
ghost use Rattle.tsdb_types.specs.Moments.{IsMoment};

use tsdb_types::Time;

const LEAST: i64 = -9223372036854775806;

const GREATEST: i64 = 9223372036854775806;

/// The first moment that isn't before the number.
pub fn first_moment(number: i64) -> Option<Time>
    ensures { MatchOption result ((time : ℤ) → IsMoment time → time <ℤ number) (λ from. (time : ℤ) → IsMoment time → (from ≤ℤ time) ↔ (number ≤ℤ time)) }
{
    if number < LEAST {
        Time::new(LEAST)
    } else {
        Time::new(number)
    }
}

/// The last moment that isn't behind the number.
pub fn last_moment(number: i64) -> Option<Time>
    ensures { MatchOption result ((time : ℤ) → IsMoment time → number <ℤ time) (λ to. (time : ℤ) → IsMoment time → (time ≤ℤ to) ↔ (time ≤ℤ number)) }
{
    if number > GREATEST {
        Time::new(GREATEST)
    } else {
        Time::new(number)
    }
}
