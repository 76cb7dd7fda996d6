// How a batch is staged, and how runs become a snapshot.
ghost use Rattle.std.specs.Prelude.{◌≡◌, ◌≤◌, [], length, OnOk, OnErr, IfOk, vec_capacity};
ghost use Rattle.std.specs.List.{AllByRecursion};
ghost use Rattle.std.specs.Arc.{arc_value};
ghost use Rattle.point_cache.specs.declared.key_points.KeyPoints.{KeyPoints};
ghost use Rattle.point_cache.specs.Cache.{HasRoom};
ghost use Rattle.point_cache.specs.Cached.{IsRun};
ghost use Rattle.point_cache.specs.Leaving.{IsFrozen};
ghost use Rattle.point_cache.specs.Staged.{lives, plain};
ghost use Rattle.point_cache.specs.Steps.{Grows};

use crate::key_points::{KeyPoints, KeyRun, KeyRuns};
use crate::runs::Runs;
use std::alloc::{AllocError, Global};
use std::sync::Arc;
use tsdb_types::Point;

// Stages the points of a batch, in the order of time.
pub(crate) fn stage_batch(runs: &mut Runs, points: &[Point]) -> Result<(), AllocError>
    requires plain { runs.old.entries ≡ plain (lives runs.old.entries) }
    requires each { AllByRecursion IsRun (lives runs.old.entries) }
    ensures grows { Grows runs.old.entries runs.new.entries }
    ensures ok { OnOk result (HasRoom points.now runs.new.entries) }
{
    runs.stage(points)?;
    runs.settle()
}

// Freezes the runs. All memory is taken before one of them is moved.
pub(crate) fn freeze(alloc: Global, runs: &mut Runs) -> Result<Arc<KeyPoints>, AllocError>
    requires { runs.old ≡ record { entries = plain (lives runs.old.entries); touched = [] } }
    ensures frozen { IfOk result (λ arc. IsFrozen (lives runs.old.entries) (arc_value {X = KeyPoints} arc).rows) }
    ensures none { OnOk result (runs.new ≡ record { entries = []; touched = [] }) }
    ensures err { OnErr result (runs.new ≡ runs.old) }
{
    let rows = Vec::with_capacity(alloc, runs.len())?;
    let mut frozen = Arc::new(alloc, KeyPoints::new(alloc))?;
    fill(&mut frozen, rows, runs)?;
    Ok(frozen)
}

// Moves the runs into a snapshot that no one else holds.
fn fill(frozen: &mut Arc<KeyPoints>, rows: Vec<KeyRun>, runs: &mut Runs) -> Result<(), AllocError>
    requires plain { runs.old ≡ record { entries = plain (lives runs.old.entries); touched = [] } }
    requires empty { rows.items ≡ [] }
    requires room { length runs.old.entries ≤ vec_capacity rows }
    ensures frozen { OnOk result (IsFrozen (lives runs.old.entries) (arc_value {X = KeyPoints} frozen.new).rows) }
    ensures none { OnOk result (runs.new ≡ record { entries = []; touched = [] }) }
    ensures err { OnErr result (runs.new ≡ runs.old) }
{
    let mut rows = rows;
    let Some(place) = Arc::get_mut(frozen) else {
        return Err(AllocError);
    };
    runs.freeze(&mut rows)?;
    place.rows = KeyRuns::new(rows);
    Ok(())
}
