ghost use Rattle.std.specs.Prelude.{◌≡◌, ◌+◌, ◌*◌, ◌^◌, ◌<◌, ◌≤◌, pos, ◌∷◌, replicate, IfOk, IfSome};
ghost use Rattle.time_codec.specs.Reading.{times_behind};

use super::evenly::Evenly;
use super::offset::early_moment;
use std::alloc::{AllocError, Global};
use tsdb_types::Time;

/// Times up to this number of nanoseconds, in the year 2116, are made without a test of each.
const EARLY: u64 = 1 << 62;

/// The number of a time that isn't before 1970, where the last of so many times behind it is early too.
pub fn early_start(first: Time, distance: u64, later: usize) -> Option<u64>
    ensures { IfSome result (λ start. (first ≡ pos start) × (start + later * distance < 2 ^ 62)) }
{
    let start = first.get().cast_unsigned();
    let way = distance.saturating_mul(later as u64);
    if start < EARLY && start.saturating_add(way) < EARLY {
        Some(start)
    } else {
        None
    }
}

/// An early time and so many behind it, each as far behind the one before.
// `extend` writes what an iterator yields, and tests neither room nor times, so that the loop takes several a turn.
pub fn early_times(
    alloc: Global,
    start: u64,
    distance: u64,
    later: usize,
) -> Result<Vec<Time>, AllocError>
    requires early { start + later * distance < 2 ^ 62 }
    requires few { later ≤ 999 }
    ensures { IfOk result (λ times. times.items ≡ pos start ∷ times_behind (pos start) (replicate later distance)) }
{
    let mut times = Vec::with_capacity(alloc, later + 1)?;
    times.push(early_moment(start))?;
    times.extend(Evenly::behind(start, distance, later))?;
    Ok(times)
}
