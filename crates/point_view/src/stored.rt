// Where the points of a key stand in memory.
ghost use Rattle.std.specs.Prelude.{◌≡◌};
ghost use Rattle.point_view.specs.Sources.{rows_at, rows_stored};

use point_cache::KeyPoints;
use std::sync::Arc;
use tsdb_types::{Time, Value};

/// Points of one key in memory, by ascending time.
#[derive(Drop)]
pub enum Stored {
    /// A list of its own.
    Copied(Vec<(Time, Value)>),
    /// Those of the key at this place of a snapshot, which it shares with the cache.
    Shared(Arc<KeyPoints>, usize),
}

impl Stored {
    pub(crate) fn as_slice(&self) -> &[(Time, Value)]
        ensures { result.now ≡ rows_stored self.now }
    {
        match self {
            Stored::Copied(rows) => rows.as_slice(),
            Stored::Shared(snapshot, place) => points_at(snapshot, *place),
        }
    }
}

// The points of the key at a place of a snapshot.
fn points_at(snapshot: &KeyPoints, place: usize) -> &[(Time, Value)]
    ensures { result.now ≡ rows_at snapshot.now.rows place }
{
    match snapshot.rows.as_slice().get(place) {
        Some(run) => run.points.as_slice(),
        None => &[],
    }
}
