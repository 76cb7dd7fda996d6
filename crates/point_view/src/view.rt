// The points of a query.
ghost use Rattle.std.specs.Prelude.{◌≡◌, ◌<◌, length};
ghost use Rattle.point_model.specs.Cursors.{TakesOf};

use crate::key_cursor::KeyCursor;
use crate::memory::{cursors_of, look_at};
use point_cache::PointCache;
use point_model::{CursorFault, Names, Need, PointCursor};
use std::alloc::{AllocError, Global};
use std::marker::Model;
use tsdb_types::{Name, SeriesKey, Time, Value};

/// What a query sees of a cache and of its snapshot, as they were when the view was begun. It shares the points of the snapshot
/// with the cache. A contract sees what it shows.
#[derive(Drop)]
pub struct View {
    number: u64,
    names: Names,
    keys: Vec<(SeriesKey, Name)>,
    /// The points that are left of each key.
    cursors: Vec<KeyCursor>,
}

impl Model for View {
    ghost use Rattle.std.specs.Prelude.{◌≡◌, length, Some};
    ghost use Rattle.point_model.specs.Cursors.{Shown};

    ghost Value = { Shown };

    ghost view = { λ v. record { number = v.number; names = v.names; keys = v.keys.items; left = Some v.cursors.items } };

    ghost invariant = { λ v. length v.keys.items ≡ length v.cursors.items };
}

impl View {
    ghost use Rattle.std.specs.Prelude.{◌≡◌, map, Some, IfOk};
    ghost use Rattle.std.specs.List.Sorted.{IsStrictlySortedBy};
    ghost use Rattle.std.specs.Map.{keys_of};
    ghost use Rattle.tsdb_types.specs.declared.point.Cell.{Cell};
    ghost use Rattle.point_model.specs.Cursors.{rows_needed};
    ghost use Rattle.point_model.specs.Points.{Points, cell_cmp, value_at};
    ghost use Rattle.point_view.specs.Layers.{key_rows, memory_content};

    /// A view of what the need asks of these keys. It looks at no point yet, and copies those of the cache that are asked for.
    pub fn new(
        alloc: Global,
        cache: &PointCache,
        need: &Need,
        number: u64,
        names: Names,
        keys: Vec<(SeriesKey, Name)>,
    ) -> Result<View, AllocError>
        ensures number { IfOk result (λ view. view.number ≡ number) }
        ensures names { IfOk result (λ view. view.names ≡ names) }
        ensures keys { IfOk result (λ view. view.keys ≡ keys.items) }
        ensures rows { IfOk result (λ view. view.left ≡ Some (map (key_rows need.now cache.now) keys.items)) }
        // Where cache and snapshot show the points together, these are what the need asks of the points.
        ensures given { IfOk result (λ view. (points : Points) → IsStrictlySortedBy cell_cmp (keys_of points)
            → ((cell : Cell) → memory_content cache.now cell ≡ value_at points cell) → view.left ≡ Some (map (rows_needed need.now points) keys.items)) }
    {
        // By this the points of each key ascend.
        look_at(cache);
        let cursors = cursors_of(alloc, cache, need, keys.as_slice())?;
        Ok(View {
            number,
            names,
            keys,
            cursors,
        })
    }
}

impl PointCursor for View {
    ghost use Rattle.std.specs.Prelude.{false, true};

    ghost shown = { λ v. v };

    ghost is_spent = { λ _. false };

    ghost can_be_damaged = { λ _. false };

    ghost health = { λ _. record { faults = 0; is_steady = true } };

    ghost loan = { λ _. 0 };

    fn number(&self) -> u64 {
        self.number
    }

    fn names(&self) -> &Names {
        &self.names
    }

    fn keys(&self) -> &[(SeriesKey, Name)] {
        self.keys.as_slice()
    }

    fn next(&mut self, key: usize) -> Result<Option<(Time, Value)>, CursorFault> {
        Ok(take_next(&mut self.cursors, key))
    }
}

// Takes the next point of a key.
fn take_next(cursors: &mut Vec<KeyCursor>, key: usize) -> Option<(Time, Value)>
    requires { key < length cursors.old.items }
    ensures taken { TakesOf key result cursors.old.items cursors.new.items }
    ensures len { length cursors.new.items ≡ length cursors.old.items }
{
    cursors[key].next()
}
