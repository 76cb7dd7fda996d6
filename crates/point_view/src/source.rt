// What is left of one source of a key.
ghost use Rattle.std.specs.Prelude.{◌≡◌, ◌≤◌, length, drop, take};
ghost use Rattle.point_model.specs.Cursors.{TakesFirst, in_order};
ghost use Rattle.tombstones.specs.Ranges.{AreApart};
ghost use Rattle.point_cache.specs.Cached.{AreAscending, rows_within};
ghost use Rattle.point_view.specs.Sources.{bare, rows_stored};

use crate::hidden::is_hidden;
use crate::places::range_of;
use crate::stored::Stored;
use crate::stretch::Stretch;
use std::marker::Model;
use tombstones::TombRange;
use tsdb_types::{Time, Value};

/// The points of a key in one source. A contract sees those that are left, in the order in which they are taken.
#[derive(Drop)]
pub struct Source {
    stretch: Stretch,
    hidden: Vec<TombRange>,
}

impl Model for Source {
    ghost use Rattle.std.specs.Prelude.{List};
    ghost use Rattle.point_model.specs.Rows.{Row};
    ghost use Rattle.tombstones.specs.Ranges.{AreApart};
    ghost use Rattle.point_view.specs.Sources.{bare};

    ghost Value = { List Row };

    ghost view = { λ s. bare s.hidden.items s.stretch };

    ghost invariant = { λ s. AreApart s.hidden.items };
}

impl Source {
    /// The points from one place up to another that lie in none of the ranges.
    pub fn new(
        points: Stored,
        first: usize,
        end: usize,
        hidden: Vec<TombRange>,
        descending: bool,
    ) -> Source
        requires order { first ≤ end }
        requires within { end ≤ length (rows_stored points) }
        requires apart { AreApart hidden.items }
        ensures { result ≡ bare hidden.items (in_order descending (drop first (take end (rows_stored points)))) }
    {
        Source {
            stretch: Stretch::new(points, first, end, descending),
            hidden,
        }
    }

    /// The points from one time to another, both included, that lie in none of the ranges.
    pub fn between(
        points: Stored,
        from: Time,
        to: Time,
        hidden: Vec<TombRange>,
        descending: bool,
    ) -> Source
        requires ascending { AreAscending (rows_stored points) }
        requires apart { AreApart hidden.items }
        ensures { result ≡ bare hidden.items (in_order descending (rows_within from to (rows_stored points))) }
    {
        let (first, end) = range_of(points.as_slice(), from, to);
        Source::new(points, first, end, hidden, descending)
    }

    /// Takes the next point that isn't deleted.
    pub fn next(&mut self) -> Option<(Time, Value)>
        ensures { TakesFirst result self.old self.new }
    {
        next_bare(&mut self.stretch, self.hidden.as_slice())
    }
}

// Takes the next point that lies in none of the ranges.
fn next_bare(stretch: &mut Stretch, hidden: &[TombRange]) -> Option<(Time, Value)>
    requires { AreApart hidden.now }
    ensures { TakesFirst result (bare hidden.now stretch.old) (bare hidden.now stretch.new) }
{
    while let Some(row) = stretch.next() {
        if !is_hidden(hidden, row.0) {
            return Some(row);
        }
    }
    None
}
