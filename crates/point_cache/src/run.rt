// The points of one key, and behind them what a batch will make of them.
use crate::merging::{Scratch, overtake};
use crate::rows::{cut_out, is_in_order, parts, range};
use indexmap::IndexMap;
use std::alloc::{AllocError, Global};
use std::hash::RandomState;
use std::marker::Model;
use tsdb_types::{Time, Value};

/// Runs by their keys.
pub(crate) type RunMap = IndexMap<Vec<u8>, Run, RandomState>;

/// The first `live` points are those of the key. What stands behind them is staged: it takes the place of the live ones
/// from `cut` on. Points of a batch that come in the order of time are staged where they will stay.
#[derive(Drop)]
pub(crate) struct Run {
    points: Vec<(Time, Value)>,
    live: usize,
    cut: usize,
}

impl Model for Run {
    ghost use Rattle.std.specs.Prelude.{◌≤◌, ◌++◌, take, drop, vec_len};
    ghost use Rattle.point_cache.specs.Cached.{AreAscending};
    ghost use Rattle.point_cache.specs.Staged.{Staged};

    ghost Value = { Staged };

    ghost view = { λ r. record { live = take r.live r.points.items; next = take r.cut r.points.items ++ drop r.live r.points.items } };

    ghost invariant = { λ r. (r.cut ≤ r.live) × (r.live ≤ vec_len r.points) × AreAscending (take r.live r.points.items) };
}

impl Run {
    ghost use Rattle.std.specs.Prelude.{◌≡◌, ◌≢◌, ℤ, ◌≤◌, ◌∷◌, [], ◌++◌, length, IsTrue, OnOk, OnErr, IfOk};
    ghost use Rattle.point_cache.specs.Cached.{latest, AreAscending, rows_outside};
    ghost use Rattle.point_cache.specs.Staged.{no_rows};

    pub(crate) fn new(alloc: Global) -> Run
        ensures { result ≡ no_rows }
    {
        Run {
            points: Vec::new(alloc),
            live: 0,
            cut: 0,
        }
    }

    // Its points.
    pub(crate) fn points(&self) -> &[(Time, Value)]
        ensures live { result.now ≡ self.now.live }
        ensures ascending { AreAscending result.now }
    {
        let (live, _) = self.points.as_slice().split_at(self.live);
        live
    }

    // How many it will have.
    pub(crate) fn next_len(&self) -> usize
        ensures { result ≡ length self.now.next }
    {
        self.cut + (self.points.len() - self.live)
    }

    // Whether points are staged.
    pub(crate) fn is_staged(&self) -> bool
        ensures { IsTrue result → self.now.next ≢ self.now.live }
    {
        self.next_len() != self.live
    }

    // Stages one point more, in whatever order.
    pub(crate) fn stage(&mut self, time: Time, value: Value) -> Result<(), AllocError>
        ensures ok { OnOk result (self.new ≡ record { live = self.old.live; next = self.old.next ++ (time, value) ∷ [] }) }
        ensures err { OnErr result (self.new ≡ self.old) }
    {
        self.points.push((time, value))?;
        Ok(())
    }

    // Brings what is staged into the order of time, merged with the points that it overtakes, the later of two with one time alone.
    pub(crate) fn settle(&mut self, scratch: &mut Scratch) -> Result<(), AllocError>
        ensures live { self.new.live ≡ self.old.live }
        ensures same { (time : ℤ) → latest self.new.next time ≡ latest self.old.next time }
        ensures shorter { length self.new.next ≤ length self.old.next }
        ensures ascending { OnOk result (AreAscending self.new.next) }
        ensures err { OnErr result (self.new ≡ self.old) }
    {
        let (kept, staged) = parts(self.points.as_slice(), self.cut, self.live);
        if is_in_order(kept, staged) {
            return Ok(());
        }
        let place = overtake(scratch, kept, staged)?;
        let end = self.points.len();
        self.points.extend_from_slice(scratch.merged.as_slice())?;
        cut_out(&mut self.points, self.live, end);
        self.cut = place;
        Ok(())
    }

    // What is staged takes its place.
    pub(crate) fn commit(&mut self)
        requires { AreAscending self.old.next }
        ensures { self.new ≡ record { live = self.old.next; next = self.old.next } }
    {
        cut_out(&mut self.points, self.cut, self.live);
        self.live = self.points.len();
        self.cut = self.live;
    }

    // What is staged goes.
    pub(crate) fn discard(&mut self)
        ensures { self.new ≡ record { live = self.old.live; next = self.old.live } }
    {
        self.points.truncate(self.live);
        self.cut = self.live;
    }

    // Takes away the points from one time to another; what is staged goes too.
    pub(crate) fn remove(&mut self, from: Time, to: Time)
        ensures live { self.new.live ≡ rows_outside from to self.old.live }
        ensures next { self.new.next ≡ self.new.live }
    {
        self.points.truncate(self.live);
        let (first, end) = range(self.points.as_slice(), from, to);
        cut_out(&mut self.points, first, end);
        self.live = self.points.len();
        self.cut = self.live;
    }

    // Its points, without what is staged.
    pub(crate) fn into_points(self) -> Vec<(Time, Value)>
        ensures { result.items ≡ self.live }
    {
        let mut points = self.points;
        points.truncate(self.live);
        points
    }
}
