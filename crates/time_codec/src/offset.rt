ghost use Rattle.std.specs.Prelude.{◌≡◌, ◌^◌, ◌<◌, pos, ◌+ℤ◌};
ghost use Rattle.tsdb_types.specs.Moments.{IsMoment};

use tsdb_types::Time;

/// The moment so far behind another.
// The default never stands in; `unwrap` would leave a way out to a trap, and a loop over it one time a turn.
#[inline(always)]
pub fn moved(time: Time, distance: u64) -> Time
    requires { IsMoment (time +ℤ pos distance) }
    ensures { result ≡ time +ℤ pos distance }
{
    match Time::new(time.get().wrapping_add_unsigned(distance)) {
        Some(moment) => moment,
        None => Time::default(),
    }
}

/// The moment of a number below 2^62, from 1970 to 2116.
// The remainder is the number. It tells the compiler that no bit is set which `Time::new` asks for.
#[inline(always)]
pub fn early_moment(number: u64) -> Time
    requires { number < 2 ^ 62 }
    ensures { result ≡ pos number }
{
    match Time::new((number % (1 << 62)) as i64) {
        Some(moment) => moment,
        None => Time::default(),
    }
}
