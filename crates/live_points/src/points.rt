// The points in memory.
ghost use Rattle.std.specs.Prelude.{◌≡◌, All, IfOk, OnOk, OnErr, Some, None, length};
ghost use Rattle.tsdb_types.specs.Moments.{IsMoment};
ghost use Rattle.point_model.specs.Acceptance.{IsCell};

use crate::conflicts::find_conflict;
use crate::gather::view_of;
use crate::keys::Keys;
use crate::removal::{Removal, removal_of, take_away};
use crate::samples::{Samples, learn_columns};
use point_cache::PointCache;
use point_model::{Deletion, Need};
use std::alloc::{AllocError, Global};
use std::collections::{BTreeMap, BTreeSet};
use std::hash::RandomState;
use std::marker::Model;
use store_trait::ListView;
use tsdb_types::{Batch, Cell, Kind, Name, Point};

/// The points of an engine, in memory. A contract sees them, and the batch that there is room for.
#[derive(Drop)]
pub struct LivePoints {
    alloc: Global,
    cache: PointCache,
    // The series and fields that may have points.
    keys: Keys,
    samples: Samples,
    // All is known of the batch that the cache has room for.
    is_ready: bool,
}

impl Model for LivePoints {
    ghost use Rattle.live_points.specs.Held.{points_of};
    ghost use Rattle.live_points.specs.Known.{Holds};
    ghost use Rattle.live_points.specs.Learned.{IsReady, room_where};
    ghost use Rattle.live_points.specs.Live.{Live};

    ghost Value = { Live };

    ghost view = { λ p. record { points = points_of p.cache.runs; room = room_where p.is_ready p.cache.room } };

    ghost invariant = { λ p. Holds p.cache.runs p.keys p.samples × IsReady p.cache.runs p.keys p.samples (room_where p.is_ready p.cache.room) };
}

impl LivePoints {
    ghost use Rattle.std.specs.Option.{option_map};
    ghost use Rattle.point_model.specs.Acceptance.{conflict, IsAccepted, IsSound, IsWritable};
    ghost use Rattle.point_model.specs.Cursors.{Gives};
    ghost use Rattle.point_model.specs.Deletions.{without};
    ghost use Rattle.point_model.specs.Histories.{with_points};
    ghost use Rattle.point_model.specs.Points.{no_points};
    ghost use Rattle.store_trait.specs.Plain.{conflict_of};
    ghost use Rattle.live_points.specs.Removed.{IsRemovalOf};

    /// No points. Their keys are hashed by a seed of their own, so that no client can choose keys of one hash.
    pub fn new(alloc: Global, hashing: RandomState) -> LivePoints
        ensures { result ≡ record { points = no_points; room = None } }
    {
        LivePoints {
            alloc,
            cache: PointCache::new(alloc, hashing),
            keys: BTreeSet::new(alloc),
            samples: BTreeMap::new(alloc),
            is_ready: false,
        }
    }

    /// What holds of the points.
    pub fn look(&self)
        ensures sound { IsSound self.now.points }
        ensures timed { All (λ point. IsMoment point.0.time) self.now.points }
    {
        let _ = &self.cache;
    }

    /// The first field of the batch whose points have another kind, and the kind that they have. It takes a look-up for each
    /// column of the batch.
    pub fn conflict(&self, batch: &Batch) -> Result<Option<(Name, Kind)>, AllocError>
        ensures { IfOk result (λ found. option_map conflict_of found ≡ conflict self.now.points batch.now) }
    {
        find_conflict(self.alloc, &self.cache, &self.samples, batch)
    }

    /// Makes the room for one `insert` of the batch: all memory that it takes. The points stay as they are. Room that was made
    /// for another batch is gone.
    pub fn reserve(&mut self, batch: &Batch) -> Result<(), AllocError>
        requires { IsWritable batch.now }
        ensures ok { OnOk result (self.new ≡ record self.old { room = Some batch.now }) }
        ensures err { OnErr result (self.new ≡ record self.old { room = None }) }
    {
        self.is_ready = false;
        learn_columns(
            self.alloc,
            &self.cache,
            &mut self.keys,
            &mut self.samples,
            batch.columns(),
        )?;
        look_at(batch.points());
        self.cache.reserve(batch)?;
        self.is_ready = true;
        Ok(())
    }

    /// Sets the points of a batch, in their order, for which room was made. It takes no memory.
    pub fn insert(&mut self, batch: &Batch)
        requires room { self.old.room ≡ Some batch.now }
        requires accepted { IsAccepted self.old.points batch.now }
        ensures { self.new ≡ record { points = with_points self.old.points batch.now; room = None } }
    {
        self.is_ready = false;
        self.cache.insert(batch);
        let _ = self.cache.len();
    }

    /// Makes the removal of a deletion: all memory that taking its points away needs. The points stay as they are.
    pub fn prepare_removal(&self, deletion: &Deletion) -> Result<Removal, AllocError>
        ensures { IfOk result (IsRemovalOf deletion.now self.now.points) }
    {
        removal_of(self.alloc, &self.cache, &self.keys, deletion)
    }

    /// Takes away what the deletion takes away of the points that its removal was made for. Room that was made for a batch is gone. It
    /// takes no memory.
    pub fn remove(&mut self, deletion: &Deletion, removal: Removal)
        requires { IsRemovalOf deletion.now self.old.points removal }
        ensures { self.new ≡ record { points = without self.old.points deletion.now; room = None } }
    {
        self.is_ready = false;
        take_away(
            &mut self.cache,
            &mut self.keys,
            &mut self.samples,
            removal,
            deletion.from,
            deletion.to,
        );
        let _ = self.cache.len();
    }

    /// How many points there are.
    pub fn cells(&self) -> u64
        ensures { result ≡ length self.now.points }
    {
        self.cache.points()
    }

    /// A view with this number of what a need asks of the points. It goes on to show them when they change.
    pub fn view(&self, need: &Need, number: u64) -> Result<ListView, AllocError>
        ensures number { IfOk result (λ view. view.number ≡ number) }
        ensures gives { IfOk result (λ view. Gives self.now.points need.now view) }
    {
        view_of(
            self.alloc,
            &self.cache,
            &self.keys,
            &self.samples,
            need,
            number,
        )
    }
}

// The types of a cell know what it is.
fn look_at(points: &[Point])
    ensures { All (λ point. IsCell point.cell) points.now }
{
    for point in points {
        look_at_cell(&point.cell);
    }
}

fn look_at_cell(cell: &Cell)
    ensures { IsCell cell.now }
{
    let _ = cell.time.get();
    let _ = cell.series.text();
    let _ = cell.field.as_str();
}
