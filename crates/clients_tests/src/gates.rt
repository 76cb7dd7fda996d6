// A gate that holds a client at a place until another client has come so far.
use session_io::{Gate, Place};
use std::sync::atomic::{AtomicU64, Ordering};
use std::thread;

/// How often a client that is held looks, at most.
const MOST_TURNS: u32 = 1_000_000;

/// How often a client has come to a place.
#[derive(Clone, Copy, Drop)]
pub(crate) struct Step {
    pub who: u32,
    pub place: Place,
    pub times: u64,
}

/// A client that has come so far goes on once another has.
#[derive(Clone, Copy, Drop)]
pub(crate) struct Hold {
    pub at: Step,
    pub until: Step,
}

/// How often one client has come to a view and to a reply.
#[derive(Drop)]
struct Counts {
    views: AtomicU64,
    replies: AtomicU64,
}

impl Counts {
    fn new() -> Counts {
        Counts {
            views: AtomicU64::new(0),
            replies: AtomicU64::new(0),
        }
    }

    fn of(&self, place: Place) -> &AtomicU64 {
        match place {
            Place::View => &self.views,
            _ => &self.replies,
        }
    }
}

/// Holds two clients, the first and the others.
#[derive(Drop)]
pub(crate) struct Meeting<'a> {
    holds: &'a [Hold],
    first: Counts,
    others: Counts,
    late: AtomicU64,
}

impl<'a> Meeting<'a> {
    pub(crate) fn new(holds: &'a [Hold]) -> Meeting<'a> {
        Meeting {
            holds,
            first: Counts::new(),
            others: Counts::new(),
            late: AtomicU64::new(0),
        }
    }

    /// Whether nobody was held for too long.
    pub(crate) fn in_time(&self) -> bool {
        self.late.load(Ordering::SeqCst) == 0
    }

    fn count(&self, who: u32, place: Place) -> &AtomicU64 {
        match who {
            0 => self.first.of(place),
            _ => self.others.of(place),
        }
    }

    fn has_come(&self, step: Step) -> bool {
        self.count(step.who, step.place).load(Ordering::SeqCst) >= step.times
    }

    fn wait(&self, step: Step) {
        for _ in 0..MOST_TURNS {
            if self.has_come(step) {
                return;
            }
            thread::yield_now();
        }
        self.late.store(1, Ordering::SeqCst);
    }
}

impl<'a> Gate for Meeting<'a> {
    fn reach(&self, who: u32, place: Place) {
        let times = self.count(who, place).fetch_add(1, Ordering::SeqCst);
        for hold in self.holds {
            if hold.at.who == who
                && hold.at.place == place
                && times.wrapping_add(1) == hold.at.times
            {
                self.wait(hold.until);
            }
        }
    }
}
