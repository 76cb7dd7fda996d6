// The runs of all keys.
use crate::key_points::KeyRun;
use crate::merging::Scratch;
use crate::places::{
    commit_all, discard_all, follows, goes_on, place_of, put_at, settle_all, touch, write_key,
};
use crate::run::RunMap;
use crate::taking::{remove_at, take_rows, turn_round};
use indexmap::IndexMap;
use std::alloc::{AllocError, Global};
use std::hash::RandomState;
use std::marker::Model;
use tsdb_types::{Cell, Point, Time, Value};

/// Keys with their runs, in a hash table that keeps places and whose hashes are seeded, since clients choose the keys. A batch notes the places that it touches, each once, in the order
/// of their first points: points mostly come in that order again, and then no key is looked up.
#[derive(Drop)]
pub(crate) struct Runs {
    alloc: Global,
    map: RunMap,
    touched: Vec<usize>,
    // Where the place of the last point stands among those that are touched, as it seems.
    last: usize,
    points: u64,
    next_points: u64,
    key: Vec<u8>,
    scratch: Scratch,
}

impl Model for Runs {
    ghost use Rattle.point_cache.specs.Staged.{Staging, IsStaging, entries_of};

    ghost Value = { Staging };

    ghost view = { λ r. record { entries = entries_of r.map.entries; touched = r.touched.items } };

    ghost invariant = { λ r. IsStaging (entries_of r.map.entries) r.touched.items r.points r.next_points };
}

impl Runs {
    ghost use Rattle.std.specs.Prelude.{◌≡◌, ℕ, ◌<◌, ◌≤◌, List, ◌++◌, [], ◌∷◌, length, take, drop, sum_by, slice_get, Some, IfSome, OnOk, OnErr, IfOk, vec_capacity};
    ghost use Rattle.std.specs.List.{AllByRecursion};
    ghost use Rattle.tsdb_types.specs.Keys.{key_of};
    ghost use Rattle.tsdb_types.specs.declared.point.Point.{Point};
    ghost use Rattle.point_cache.specs.Cached.{AreAscending, IsRun, count, points_at};
    ghost use Rattle.point_cache.specs.Leaving.{IsFrozen, points_without};
    ghost use Rattle.point_cache.specs.Staged.{Among, AreSettled, KeysApart, lives, nexts, plain, staged_at};
    ghost use Rattle.point_cache.specs.Steps.{AddsKey, Grows, FindsKey, HasKey, IsFoundOf, IsPlaceBefore, Settles, StagesAt, WillSet};

    pub(crate) fn new(alloc: Global, hashing: RandomState) -> Runs
        ensures { result ≡ record { entries = []; touched = [] } }
    {
        Runs {
            alloc,
            map: IndexMap::with_hasher(alloc, hashing),
            touched: Vec::new(alloc),
            last: 0,
            points: 0,
            next_points: 0,
            key: Vec::new(alloc),
            scratch: Scratch::new(alloc),
        }
    }

    // How many keys it has.
    pub(crate) fn len(&self) -> usize
        ensures len { result ≡ length self.now.entries }
        ensures apart { KeysApart self.now.entries }
    {
        self.map.len()
    }

    // How many points they have.
    pub(crate) fn points(&self) -> u64
        ensures { result ≡ sum_by (λ entry. length entry.1.live) self.now.entries }
    {
        self.points
    }

    // The place of a cell's key, which is touched.
    fn find(&mut self, cell: &Cell) -> Result<usize, AllocError>
        ensures adds { AddsKey (key_of cell.now.series cell.now.field) self.old.entries self.new.entries }
        ensures found { IfOk result (λ place. FindsKey (key_of cell.now.series cell.now.field) place self.old.entries self.new.entries) }
        ensures touched { IfOk result (Among self.new.touched) }
    {
        write_key(&mut self.key, &cell.series, &cell.field)?;
        let place = place_of(self.alloc, &mut self.map, self.key.as_slice())?;
        touch(&self.map, &mut self.touched, place)?;
        self.last = self.touched.len();
        Ok(place)
    }

    // The place behind that of the last point among those that are touched, or the one behind that, where it is that of a
    // cell's key.
    fn guess(&mut self, cell: &Cell) -> Option<usize>
        ensures same { self.new ≡ self.old }
        ensures key { IfSome result (λ place. HasKey self.old.entries place (key_of cell.now.series cell.now.field)) }
        ensures touched { IfSome result (Among self.old.touched) }
    {
        let first = behind(self.last, self.touched.len());
        if let Some(place) = follows(&self.map, self.touched.as_slice(), first, cell) {
            self.last = first;
            return Some(place);
        }
        let second = behind(first, self.touched.len());
        if let Some(place) = follows(&self.map, self.touched.as_slice(), second, cell) {
            self.last = second;
            return Some(place);
        }
        None
    }

    // Stages a point at a place.
    fn put(&mut self, place: usize, point: &Point) -> Result<(), AllocError>
        requires key { HasKey self.old.entries place (key_of point.now.cell.series point.now.cell.field) }
        requires touched { Among self.old.touched place }
        ensures ok { OnOk result (StagesAt place (point.now.cell.time, point.now.value) self.old.entries self.new.entries) }
        ensures touched { self.new.touched ≡ self.old.touched }
        ensures err { OnErr result (self.new.entries ≡ self.old.entries) }
    {
        let Some(total) = self.next_points.checked_add(1) else {
            return Err(AllocError);
        };
        put_at(&mut self.map, place, point.cell.time, point.value)?;
        self.next_points = total;
        Ok(())
    }

    // The place of the key of a point: that of the point before it, one that came behind that one before, or one that is looked up.
    fn place_at(&mut self, points: &[Point], i: usize, place: usize) -> Result<usize, AllocError>
        requires within { i < length points.now }
        requires before { IsPlaceBefore self.old points.now i place }
        ensures adds { (point : Point) → slice_get points.now i ≡ Some point → AddsKey (key_of point.cell.series point.cell.field) self.old.entries self.new.entries }
        ensures found { IfOk result (λ found. IsFoundOf self.old.entries self.new points.now i found) }
    {
        if goes_on(points, i) {
            return Ok(place);
        }
        match self.guess(&points[i].cell) {
            Some(next) => Ok(next),
            None => self.find(&points[i].cell),
        }
    }

    // Stages points in their order.
    pub(crate) fn stage(&mut self, points: &[Point]) -> Result<(), AllocError>
        ensures grows { Grows self.old.entries self.new.entries }
        ensures ok { OnOk result (WillSet points.now self.old.entries self.new.entries) }
    {
        let mut place = 0;
        for i in 0..points.len() {
            place = self.place_at(points, i, place)?;
            self.put(place, &points[i])?;
        }
        Ok(())
    }

    // Brings what is staged into the order of time.
    pub(crate) fn settle(&mut self) -> Result<(), AllocError>
        ensures settles { Settles self.old.entries self.new.entries }
        ensures ok { OnOk result (AreSettled self.new.entries) }
    {
        settle_all(
            &mut self.map,
            self.touched.as_slice(),
            &mut self.scratch,
            &mut self.next_points,
        )
    }

    // What is staged takes its place.
    pub(crate) fn commit(&mut self)
        requires { AreSettled self.old.entries }
        ensures { self.new ≡ record { entries = plain (nexts self.old.entries); touched = [] } }
    {
        commit_all(&mut self.map, self.touched.as_slice());
        self.touched.clear();
        self.points = self.next_points;
    }

    // What is staged goes, and so do the keys from a place on, which have no points.
    pub(crate) fn discard(&mut self, keys: usize)
        requires { AllByRecursion (λ run. run.points ≡ []) (drop keys (lives self.old.entries)) }
        ensures { self.new ≡ record { entries = plain (take keys (lives self.old.entries)); touched = [] } }
    {
        discard_all(&mut self.map, self.touched.as_slice());
        self.map.truncate(keys);
        self.touched.clear();
        self.next_points = self.points;
    }

    // The key at a place.
    pub(crate) fn key_at(&self, place: usize) -> &[u8]
        requires { place < length self.now.entries }
        ensures { HasKey self.now.entries place result.now }
    {
        match self.map.get_index(place) {
            Some((key, _)) => key.as_slice(),
            None => &[],
        }
    }

    // The points of a key.
    pub(crate) fn rows_of(&self, key: &[u8]) -> &[(Time, Value)]
        ensures live { result.now ≡ (staged_at self.now.entries key.now).live }
        ensures ascending { AreAscending result.now }
    {
        match self.map.get(key) {
            Some(run) => run.points(),
            None => &[],
        }
    }

    // Takes away the points of a key from one time to another, and the key where none is left.
    pub(crate) fn remove(&mut self, key: &[u8], from: Time, to: Time)
        requires { self.old ≡ record { entries = plain (lives self.old.entries); touched = [] } }
        ensures plain { self.new ≡ record { entries = plain (lives self.new.entries); touched = [] } }
        ensures points { (other : List ℕ) → points_at (lives self.new.entries) other ≡ points_without key.now from to other (points_at (lives self.old.entries) other) }
        ensures each { AllByRecursion IsRun (lives self.old.entries) → AllByRecursion IsRun (lives self.new.entries) }
        ensures fewer { count (lives self.new.entries) ≤ count (lives self.old.entries) }
    {
        if let Some(place) = self.map.get_index_of(key) {
            let taken = remove_at(&mut self.map, place, key, from, to);
            self.points -= taken;
            self.next_points = self.points;
        }
    }

    // The runs become rows, in the order of their keys, for which there is room; none is left.
    pub(crate) fn freeze(&mut self, rows: &mut Vec<KeyRun>) -> Result<(), AllocError>
        requires plain { self.old ≡ record { entries = plain (lives self.old.entries); touched = [] } }
        requires empty { rows.old.items ≡ [] }
        requires room { length self.old.entries ≤ vec_capacity rows.old }
        ensures ok { OnOk result (IsFrozen (lives self.old.entries) rows.new.items) }
        ensures none { OnOk result (self.new ≡ record { entries = []; touched = [] }) }
        ensures err { OnErr result (self.new ≡ self.old) }
    {
        self.map.sort_unstable_keys()?;
        take_rows(&mut self.map, rows);
        turn_round(rows);
        self.points = 0;
        self.next_points = 0;
        Ok(())
    }
}

// The place behind one of so many, the first behind the last.
fn behind(place: usize, many: usize) -> usize {
    if place < many && many - place > 1 {
        place + 1
    } else {
        0
    }
}
