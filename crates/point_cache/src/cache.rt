// The cache.
use crate::freezing::{freeze, stage_batch};
use crate::key_points::KeyPoints;
use crate::rows::copy_within;
use crate::runs::Runs;
use std::alloc::{AllocError, Global};
use std::hash::RandomState;
use std::marker::Model;
use std::snapshot::Snapshot;
use std::sync::Arc;
use tombstones::TombSet;
use tsdb_types::{Batch, Time, Value};

/// Points by composite key and time, the later of two at one place alone, and beside them a snapshot, where one stands.
/// A contract sees its runs, the batch that it has room for, the snapshot, and what is deleted of that.
#[derive(Drop)]
pub struct PointCache {
    alloc: Global,
    runs: Runs,
    keys: usize,
    room: Option<Snapshot<Batch>>,
    snapshot: Option<Arc<KeyPoints>>,
    snapshot_points: u64,
    snapshot_tombs: TombSet,
}

impl Model for PointCache {
    ghost use Rattle.std.specs.Prelude.{take};
    ghost use Rattle.std.specs.Option.{option_map};
    ghost use Rattle.std.specs.Arc.{arc_value};
    ghost use Rattle.point_cache.specs.declared.key_points.KeyPoints.{KeyPoints};
    ghost use Rattle.point_cache.specs.Cache.{IsCache};
    ghost use Rattle.point_cache.specs.Cached.{Cached};
    ghost use Rattle.point_cache.specs.Staged.{lives};

    ghost Value = { Cached };

    ghost view = { λ c. record {
      runs = take c.keys (lives c.runs.entries);
      room = option_map (λ batch. batch.value) c.room;
      snapshot = option_map (λ arc. (arc_value {X = KeyPoints} arc).rows) c.snapshot;
      tombs = c.snapshot_tombs;
    } };

    ghost invariant = { λ c. IsCache c.runs c.keys (option_map (λ batch. batch.value) c.room) c.snapshot_points (option_map (λ arc. (arc_value {X = KeyPoints} arc).rows) c.snapshot) };
}

impl PointCache {
    ghost use Rattle.std.specs.Prelude.{◌≡◌, ◌<◌, List, [], length, slice_get, Some, None, IfOk, IfSome, OnOk, OnErr};
    ghost use Rattle.std.specs.Option.{option_map};
    ghost use Rattle.std.specs.Arc.{arc_value};
    ghost use Rattle.std.specs.List.{AllByRecursion};
    ghost use Rattle.point_cache.specs.declared.key_points.KeyPoints.{KeyPoints};
    ghost use Rattle.point_cache.specs.declared.key_points.KeyRun.{KeyRun};
    ghost use Rattle.point_cache.specs.Cached.{AreAscending, AreRuns, IsRun, KeysAscend, count, points_at, rows_within};
    ghost use Rattle.point_cache.specs.Calls.{SetsPoints, TakesAway, Freezes};

    /// A cache without points, and without a snapshot. Its keys are hashed by a seed of their own, so that nobody can choose
    /// keys of one hash.
    pub fn new(alloc: Global, hashing: RandomState) -> PointCache
        ensures { result ≡ record { runs = []; room = None; snapshot = None; tombs = [] } }
    {
        PointCache {
            alloc,
            runs: Runs::new(alloc, hashing),
            keys: 0,
            room: None,
            snapshot: None,
            snapshot_points: 0,
            snapshot_tombs: TombSet::new(alloc),
        }
    }

    /// Makes the room for one `insert` of the batch: all memory that it takes. The points stay as they are. Room that was
    /// made for another batch is gone.
    pub fn reserve(&mut self, batch: &Batch) -> Result<(), AllocError>
        ensures ok { OnOk result (self.new ≡ record self.old { room = Some batch.now }) }
        ensures err { OnErr result (self.new ≡ record self.old { room = None }) }
    {
        self.runs.discard(self.keys);
        self.room = None;
        match stage_batch(&mut self.runs, batch.points()) {
            Ok(()) => {
                self.room = Some(Snapshot::of(batch));
                Ok(())
            }
            Err(error) => {
                self.runs.discard(self.keys);
                Err(error)
            }
        }
    }

    /// Sets the points of a batch, in their order, for which room was made. Takes no memory.
    pub fn insert(&mut self, batch: &Batch)
        requires { self.old.room ≡ Some batch.now }
        ensures { SetsPoints batch.now self.old self.new }
    {
        let _ = batch;
        self.runs.commit();
        self.keys = self.runs.len();
        self.room = None;
    }

    /// Takes away the points of a key from one time to another, both included. Takes no memory. The snapshot stays.
    pub fn remove(&mut self, key: &[u8], from: Time, to: Time)
        ensures { TakesAway key.now from to self.old self.new }
    {
        self.runs.discard(self.keys);
        self.room = None;
        self.runs.remove(key, from, to);
        self.keys = self.runs.len();
    }

    /// The points become the snapshot, of which nothing is deleted, and the cache is left without points.
    pub fn begin_snapshot(&mut self) -> Result<(), AllocError>
        requires { self.old.snapshot ≡ None }
        ensures ok { OnOk result (Freezes self.old self.new) }
        ensures err { OnErr result (self.new ≡ record self.old { room = None }) }
    {
        self.runs.discard(self.keys);
        self.room = None;
        let points = self.runs.points();
        let frozen = freeze(self.alloc, &mut self.runs)?;
        self.keys = 0;
        self.snapshot = Some(frozen);
        self.snapshot_points = points;
        self.snapshot_tombs = TombSet::new(self.alloc);
        Ok(())
    }

    /// No snapshot stands any longer.
    pub fn end_snapshot(&mut self)
        ensures { self.new ≡ record self.old { snapshot = None; tombs = [] } }
    {
        self.snapshot = None;
        self.snapshot_points = 0;
        self.snapshot_tombs = TombSet::new(self.alloc);
    }

    /// A copy of the points of a key from one time to another, both included, by ascending time. Those of the snapshot
    /// are not among them.
    pub fn points_of(
        &self,
        key: &[u8],
        from: Time,
        to: Time,
    ) -> Result<Vec<(Time, Value)>, AllocError>
        ensures { IfOk result (λ copy. copy.items ≡ rows_within from to (points_at self.now.runs key.now)) }
    {
        copy_within(self.alloc, self.rows_of(key), from, to)
    }

    /// The points of a key, by ascending time; none where it has none. Those of the snapshot are not among them.
    pub fn rows_of(&self, key: &[u8]) -> &[(Time, Value)]
        ensures points { result.now ≡ points_at self.now.runs key.now }
        ensures ascending { AreAscending result.now }
    {
        self.runs.rows_of(key)
    }

    /// How many keys have points.
    pub fn len(&self) -> usize
        ensures len { result ≡ length self.now.runs }
        ensures runs { AreRuns self.now.runs }
    {
        let _ = self.runs.len();
        self.keys
    }

    /// The key with this place among those that have points. The places are the cache's own, and change with its points.
    pub fn key_at(&self, k: usize) -> &[u8]
        requires { k < length self.now.runs }
        ensures { option_map (λ run. run.key) (slice_get self.now.runs k) ≡ Some result.now }
    {
        self.runs.key_at(k)
    }

    /// How many points there are. Takes no time for each.
    pub fn points(&self) -> u64
        ensures { result ≡ count self.now.runs }
    {
        self.runs.points()
    }

    /// How many points the snapshot has, 0 where none stands.
    pub fn snapshot_points(&self) -> u64
        ensures some { (runs : List KeyRun) → self.now.snapshot ≡ Some runs → result ≡ count runs }
        ensures none { self.now.snapshot ≡ None → result ≡ 0 }
    {
        self.snapshot_points
    }

    /// The snapshot, where one stands. It never changes, so who holds it may read it when the cache goes on.
    pub fn snapshot(&self) -> Option<&Arc<KeyPoints>>
        ensures snapshot { option_map (λ arc. (arc_value {X = KeyPoints} arc.now).rows) result ≡ self.now.snapshot }
        ensures ordered { IfSome result (λ arc. KeysAscend (arc_value {X = KeyPoints} arc.now).rows) }
        ensures each { IfSome result (λ arc. AllByRecursion IsRun (arc_value {X = KeyPoints} arc.now).rows) }
    {
        match &self.snapshot {
            Some(frozen) => Some(frozen),
            None => None,
        }
    }

    /// What is deleted of the snapshot.
    pub fn snapshot_tombs(&self) -> &TombSet
        ensures { result.now ≡ self.now.tombs }
    {
        &self.snapshot_tombs
    }

    /// Puts another set of what is deleted beside the snapshot.
    pub fn set_snapshot_tombs(&mut self, tombs: TombSet)
        ensures { self.new ≡ record self.old { tombs = tombs } }
    {
        self.snapshot_tombs = tombs;
    }
}
