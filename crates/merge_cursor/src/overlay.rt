ghost use Rattle.std.specs.Prelude.{◌≡◌, Bool, ◌↔◌, All, IsNone, IfSome, IsTrue};
ghost use Rattle.merge_cursor.specs.Steps.{IsNext, IsBefore};
ghost use Rattle.merge_cursor.specs.Choices.{IsFirst};

use std::marker::Model;
use tsdb_types::{Time, Value};

/// Steps over sources whose points ascend, or descend. A contract sees whether they descend.
#[derive(Clone, Copy, Debug, PartialEq, Eq)]
pub struct Overlay {
    descending: bool,
}

impl Model for Overlay {
    ghost Value = { Bool };

    ghost view = { λ overlay. overlay.descending };

    ghost inverse = { λ descending. record { descending = descending } };
}

impl Overlay {
    pub fn new(descending: bool) -> Overlay
        ensures { result ≡ descending }
    {
        Overlay { descending }
    }

    /// The source that gives the next point, with the point. The heads are the first points that are left of the sources,
    /// the newest source first; `None` stands for a source without a further point. The caller then goes on in each source
    /// whose head has this time. A step compares each head once.
    pub fn step(&mut self, heads: &[Option<(Time, Value)>]) -> Option<(usize, Time, Value)>
        ensures next { IfSome result (λ next. IsNext self.old heads.now next.0 next.1 next.2) }
        ensures none { IsNone result ↔ All IsNone heads.now }
        ensures kept { self.new ≡ self.old }
    {
        let mut next = None;
        for (source, head) in heads.iter().enumerate() {
            next = self.first_of(next, source, *head);
        }
        next
    }

    // The earlier of the point that was found in newer sources and a head; of equal times the one that was found.
    fn first_of(
        &self,
        found: Option<(usize, Time, Value)>,
        source: usize,
        head: Option<(Time, Value)>,
    ) -> Option<(usize, Time, Value)>
        ensures { IsFirst self.now found source head result }
    {
        let Some((time, value)) = head else {
            return found;
        };
        match found {
            None => Some((source, time, value)),
            Some(first) => {
                if self.is_before(time, first.1) {
                    return Some((source, time, value));
                }
                Some(first)
            }
        }
    }

    fn is_before(&self, a: Time, b: Time) -> bool
        ensures { IsTrue result ↔ IsBefore self.now a b }
    {
        if self.descending { b < a } else { a < b }
    }
}
