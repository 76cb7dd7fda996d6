// Points of a key that are taken one after the other, from one end.
ghost use Rattle.std.specs.Prelude.{◌≡◌, ◌≤◌, length, drop, take};
ghost use Rattle.point_model.specs.Cursors.{TakesFirst, in_order};
ghost use Rattle.point_view.specs.Sources.{rows_stored};

use crate::stored::Stored;
use std::marker::Model;
use tsdb_types::{Time, Value};

/// A stretch of points, of which the first or the last is taken next. A contract sees those that are left, in the order in
/// which they are taken.
#[derive(Drop)]
pub(crate) struct Stretch {
    points: Stored,
    first: usize,
    end: usize,
    descending: bool,
}

impl Model for Stretch {
    ghost use Rattle.std.specs.Prelude.{◌≤◌, List, length, drop, take};
    ghost use Rattle.point_model.specs.Cursors.{in_order};
    ghost use Rattle.point_model.specs.Rows.{Row};
    ghost use Rattle.point_view.specs.Sources.{rows_stored};

    ghost Value = { List Row };

    ghost view = { λ s. in_order s.descending (drop s.first (take s.end (rows_stored s.points))) };

    ghost invariant = { λ s. (s.first ≤ s.end) × (s.end ≤ length (rows_stored s.points)) };
}

impl Stretch {
    /// The points from one place up to another.
    pub(crate) fn new(points: Stored, first: usize, end: usize, descending: bool) -> Stretch
        requires order { first ≤ end }
        requires within { end ≤ length (rows_stored points) }
        ensures { result ≡ in_order descending (drop first (take end (rows_stored points))) }
    {
        Stretch {
            points,
            first,
            end,
            descending,
        }
    }

    /// Takes the next point.
    pub(crate) fn next(&mut self) -> Option<(Time, Value)>
        ensures { TakesFirst result self.old self.new }
    {
        if self.first >= self.end {
            return None;
        }
        if self.descending {
            self.end -= 1;
            return Some(self.points.as_slice()[self.end]);
        }
        let first = self.first;
        self.first += 1;
        Some(self.points.as_slice()[first])
    }
}
