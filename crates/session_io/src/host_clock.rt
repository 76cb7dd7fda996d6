ghost use Rattle.std.specs.Prelude.{◌≡◌, None};

use crate::Clock;
use std::rt;
use std::time::SystemTime;
use tsdb_types::Time;

/// The system's clock. Where it can't be read, or its moment is no `Time`, it tells its last moment again.
#[derive(Drop)]
pub struct HostClock<R> {
    rt: R,
    last: Time,
}

impl<R: rt::Clock + Send> HostClock<R> {
    /// A clock whose last moment is 0.
    pub fn new(rt: R) -> Self
        ensures { ⟦<HostClock<R> as Clock>⟧.moments result ≡ None }
    {
        HostClock {
            rt,
            last: Time::default(),
        }
    }
}

impl<R: rt::Clock + Send> Clock for HostClock<R> {
    ghost moments = { λ c. None };

    fn now(&mut self) -> Time {
        if let Ok(now) = SystemTime::now(&self.rt)
            && let Ok(since) = now.duration_since(SystemTime::UNIX_EPOCH)
            && let Ok(nanoseconds) = i64::try_from(since.as_nanos())
            && let Some(time) = Time::new(nanoseconds)
        {
            self.last = time;
        }
        self.last
    }
}
