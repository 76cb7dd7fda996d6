// A cursor over lists in memory.
ghost use Rattle.std.specs.Prelude.{◌≡◌, ◌<◌, length};
ghost use Rattle.point_model.specs.Cursors.{TakesOf};
ghost use Rattle.store_trait.specs.Lists.{lists_of};

use point_model::{CursorFault, Names, PointCursor};
use std::marker::Model;
use tsdb_types::{Name, SeriesKey, Time, Value};

/// Points that were copied when the view was begun. A contract sees what it shows.
#[derive(Drop)]
pub struct ListView {
    number: u64,
    names: Names,
    keys: Vec<(SeriesKey, Name)>,
    /// The points that are left of each key, the next one last.
    rows: Vec<Vec<(Time, Value)>>,
}

impl Model for ListView {
    ghost use Rattle.std.specs.Prelude.{◌≡◌, length, Some};
    ghost use Rattle.point_model.specs.Cursors.{Shown};
    ghost use Rattle.store_trait.specs.Lists.{lists_of};

    ghost Value = { Shown };

    ghost view = { λ v. record { number = v.number; names = v.names; keys = v.keys.items; left = Some (lists_of v.rows.items) } };

    ghost invariant = { λ v. length v.keys.items ≡ length v.rows.items };
}

impl ListView {
    ghost use Rattle.std.specs.Prelude.{◌≡◌, length, Some};
    ghost use Rattle.store_trait.specs.Lists.{lists_of};

    /// A view of these names, keys and rows. The rows of each key stand in the order in which they are taken from the end.
    pub fn new(
        number: u64,
        names: Names,
        keys: Vec<(SeriesKey, Name)>,
        rows: Vec<Vec<(Time, Value)>>,
    ) -> ListView
        requires { length keys.items ≡ length rows.items }
        ensures number { result.number ≡ number }
        ensures names { result.names ≡ names }
        ensures keys { result.keys ≡ keys.items }
        ensures left { result.left ≡ Some (lists_of rows.items) }
    {
        ListView {
            number,
            names,
            keys,
            rows,
        }
    }
}

impl PointCursor for ListView {
    ghost use Rattle.std.specs.Prelude.{true, false};

    ghost shown = { λ v. v };

    ghost is_spent = { λ _. false };

    ghost can_be_damaged = { λ _. false };

    ghost health = { λ _. record { faults = 0; is_steady = true } };

    ghost loan = { λ _. 0 };

    fn number(&self) -> u64 {
        self.number
    }

    fn names(&self) -> &Names {
        &self.names
    }

    fn keys(&self) -> &[(SeriesKey, Name)] {
        self.keys.as_slice()
    }

    fn next(&mut self, key: usize) -> Result<Option<(Time, Value)>, CursorFault> {
        Ok(pop_row(&mut self.rows, key))
    }
}

// Takes the next row of a key.
fn pop_row(rows: &mut Vec<Vec<(Time, Value)>>, key: usize) -> Option<(Time, Value)>
    requires { key < length rows.old.items }
    ensures taken { TakesOf key result (lists_of rows.old.items) (lists_of rows.new.items) }
    ensures len { length rows.new.items ≡ length rows.old.items }
{
    rows[key].pop()
}
