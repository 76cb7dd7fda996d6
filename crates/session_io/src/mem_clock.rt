ghost use Rattle.std.specs.Prelude.{◌≡◌, Some, []};
ghost use Rattle.session_io.specs.Moments.{moments_told, moment_at as moment};

use crate::Clock;
use tsdb_types::Time;

/// A clock in memory. It tells the moments that it told until it was asked 2^64 - 1 times.
#[derive(Drop)]
pub struct MemClock {
    moments: Vec<Time>,
    calls: u64,
}

impl MemClock {
    /// A clock that tells these moments in order, and then the last one again, or 0 where there is none.
    pub fn new(moments: Vec<Time>) -> Self
        ensures { ⟦<MemClock as Clock>⟧.moments result ≡ Some [] }
    {
        MemClock { moments, calls: 0 }
    }
}

impl Clock for MemClock {
    ghost moments = { λ c. moments_told c.moments.items c.calls };

    fn now(&mut self) -> Time {
        let place = self.calls;
        self.calls = self.calls.saturating_add(1);
        moment_at(&self.moments, place)
    }
}

// The moment at a place, or the last one behind the end, or 0 where there is none.
fn moment_at(moments: &[Time], place: u64) -> Time
    ensures { result ≡ moment moments.now place }
{
    if place < moments.len() as u64 {
        return moments[place as usize];
    }
    moments.last().copied().unwrap_or_default()
}
