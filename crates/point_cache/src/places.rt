// Places in a table of runs.
ghost use Rattle.std.specs.Prelude.{◌≡◌, ◌<◌, ◌≤◌, ℕ, List, ◌+◌, length, sum_by, slice_get, Some, None, IsTrue, IfSome, ◌≢◌, OnOk, OnErr, IfOk};
ghost use Rattle.std.specs.Prelude.{nat_eq};
ghost use Rattle.std.specs.Cmp.Lexicographic.{pointwise};
ghost use Rattle.std.specs.declared.vec.Vec.{Vec};
ghost use Rattle.std.specs.declared.alloc.Global.{Global};
ghost use Rattle.indexmap.specs.IndexMap.{get_by};
ghost use Rattle.tsdb_types.specs.Keys.{key_of};
ghost use Rattle.point_cache.specs.Cached.{AreAscending};
ghost use Rattle.point_cache.specs.Staged.{Among, Entry, AreCovered, AreSettled, IsStaging, entries_of, lives, nexts, plain};
ghost use Rattle.point_cache.specs.Steps.{AddsKey, HasKey, GoesOn, FindsKey, ChangesAt, commit_of, discard_of, Settles, SettlesAt, SettlesRun, StagesAt};

use crate::merging::Scratch;
use crate::run::{Run, RunMap};
use std::alloc::{AllocError, Global};
use tsdb_types::{Cell, Name, Point, SeriesKey, Time, Value};

const MARK: &[u8] = b"#!~#";

// Writes the composite key over what the buffer held.
pub(crate) fn write_key(
    buffer: &mut Vec<u8>,
    series: &SeriesKey,
    field: &Name,
) -> Result<(), AllocError>
    ensures { OnOk result (buffer.new.items ≡ key_of series.now field.now) }
{
    buffer.clear();
    buffer.extend_from_slice(series.text().as_bytes())?;
    buffer.extend_from_slice(MARK)?;
    buffer.extend_from_slice(field.as_str().as_bytes())?;
    Ok(())
}

// The place of a key; one that isn't there is added without points.
pub(crate) fn place_of(alloc: Global, map: &mut RunMap, key: &[u8]) -> Result<usize, AllocError>
    ensures adds { AddsKey key.now (entries_of map.old.entries) (entries_of map.new.entries) }
    ensures found { IfOk result (λ place. FindsKey key.now place (entries_of map.old.entries) (entries_of map.new.entries)) }
{
    match map.get_index_of(key) {
        Some(place) => Ok(place),
        None => add_key(alloc, map, key),
    }
}

// Adds a key that isn't there, without points.
pub(crate) fn add_key(alloc: Global, map: &mut RunMap, key: &[u8]) -> Result<usize, AllocError>
    requires { get_by (λ (k : Vec ℕ Global). pointwise nat_eq key.now k.items) map.old ≡ None }
    ensures adds { AddsKey key.now (entries_of map.old.entries) (entries_of map.new.entries) }
    ensures found { IfOk result (λ place. FindsKey key.now place (entries_of map.old.entries) (entries_of map.new.entries)) }
{
    let key = Vec::from_slice(alloc, key)?;
    let place = map.len();
    map.insert(key, Run::new(alloc))?;
    Ok(place)
}

// Notes a place as touched, where a batch staged nothing there before.
pub(crate) fn touch(map: &RunMap, touched: &mut Vec<usize>, place: usize) -> Result<(), AllocError>
    requires { AreCovered touched.old.items (entries_of map.now.entries) }
    ensures touched { OnOk result (Among touched.new.items place) }
    ensures kept { (other : ℕ) → Among touched.old.items other → Among touched.new.items other }
{
    if is_staged_at(map, place) {
        return Ok(());
    }
    touched.push(place)?;
    Ok(())
}

// Whether points are staged at a place.
fn is_staged_at(map: &RunMap, place: usize) -> bool
    ensures { IsTrue result → (entry : Entry) × (slice_get (entries_of map.now.entries) place ≡ Some entry) × (entry.1.next ≢ entry.1.live) }
{
    match map.get_index(place) {
        Some((_, run)) => run.is_staged(),
        None => false,
    }
}

// The touched place at a place of the list, where it is that of a cell's key.
pub(crate) fn follows(map: &RunMap, touched: &[usize], at: usize, cell: &Cell) -> Option<usize>
    ensures key { IfSome result (λ place. HasKey (entries_of map.now.entries) place (key_of cell.now.series cell.now.field)) }
    ensures touched { IfSome result (Among touched.now) }
{
    if at >= touched.len() {
        return None;
    }
    let place = touched[at];
    if is_key_at(map, place, cell) {
        return Some(place);
    }
    None
}

// Whether a place has the key of a cell.
fn is_key_at(map: &RunMap, place: usize, cell: &Cell) -> bool
    ensures { IsTrue result → HasKey (entries_of map.now.entries) place (key_of cell.now.series cell.now.field) }
{
    match map.get_index(place) {
        Some((key, _)) => is_key_of(key.as_slice(), cell),
        None => false,
    }
}

// Whether these bytes are the composite key of a cell.
fn is_key_of(key: &[u8], cell: &Cell) -> bool
    ensures { IsTrue result → key.now ≡ key_of cell.now.series cell.now.field }
{
    let Some(behind) = key.strip_prefix(cell.series.text().as_bytes()) else {
        return false;
    };
    let Some(field) = behind.strip_prefix(MARK) else {
        return false;
    };
    field == cell.field.as_str().as_bytes()
}

// Stages a point at a place.
pub(crate) fn put_at(
    map: &mut RunMap,
    place: usize,
    time: Time,
    value: Value,
) -> Result<(), AllocError>
    requires { place < length map.old.entries }
    ensures ok { OnOk result (StagesAt place (time, value) (entries_of map.old.entries) (entries_of map.new.entries)) }
    ensures err { OnErr result (entries_of map.new.entries ≡ entries_of map.old.entries) }
{
    match map.get_index_mut(place) {
        Some(run) => run.stage(time, value),
        None => Err(AllocError),
    }
}

// Whether the point is of the key of the one before it.
pub(crate) fn goes_on(points: &[Point], i: usize) -> bool
    requires { i < length points.now }
    ensures { IsTrue result → GoesOn points.now i }
{
    if i == 0 {
        return false;
    }
    is_same_key(&points[i - 1].cell, &points[i].cell)
}

// Whether two cells are of one series and field.
fn is_same_key(one: &Cell, other: &Cell) -> bool
    ensures { IsTrue result → key_of one.now.series one.now.field ≡ key_of other.now.series other.now.field }
{
    one.field == other.field && one.series == other.series
}

// Brings what is staged at these places into the order of time, and counts the points that there will be.
pub(crate) fn settle_all(
    map: &mut RunMap,
    touched: &[usize],
    scratch: &mut Scratch,
    total: &mut u64,
) -> Result<(), AllocError>
    requires { IsStaging (entries_of map.old.entries) touched.now (sum_by (λ entry. length entry.1.live) (entries_of map.old.entries)) total.old }
    ensures settles { Settles (entries_of map.old.entries) (entries_of map.new.entries) }
    ensures staging { IsStaging (entries_of map.new.entries) touched.now (sum_by (λ entry. length entry.1.live) (entries_of map.old.entries)) total.new }
    ensures ok { OnOk result (AreSettled (entries_of map.new.entries)) }
{
    for place in touched {
        settle_at(map, *place, scratch, total)?;
    }
    Ok(())
}

fn settle_at(
    map: &mut RunMap,
    place: usize,
    scratch: &mut Scratch,
    total: &mut u64,
) -> Result<(), AllocError>
    requires { total.old ≡ sum_by (λ entry. length entry.1.next) (entries_of map.old.entries) }
    ensures settled { SettlesAt place (entries_of map.old.entries) (entries_of map.new.entries) }
    ensures counted { total.new ≡ sum_by (λ entry. length entry.1.next) (entries_of map.new.entries) }
    ensures ok { OnOk result ((entry : Entry) → slice_get (entries_of map.new.entries) place ≡ Some entry → AreAscending entry.1.next) }
{
    match map.get_index_mut(place) {
        Some(run) => settle_run(run, scratch, total),
        None => Ok(()),
    }
}

fn settle_run(run: &mut Run, scratch: &mut Scratch, total: &mut u64) -> Result<(), AllocError>
    requires { length run.old.next ≤ total.old }
    ensures settled { SettlesRun run.old run.new }
    ensures counted { total.new + length run.old.next ≡ total.old + length run.new.next }
    ensures ok { OnOk result (AreAscending run.new.next) }
{
    let before = run.next_len();
    let result = run.settle(scratch);
    *total -= (before - run.next_len()) as u64;
    result
}

// Commits what is staged at these places.
pub(crate) fn commit_all(map: &mut RunMap, touched: &[usize])
    requires settled { AreSettled (entries_of map.old.entries) }
    requires covered { AreCovered touched.now (entries_of map.old.entries) }
    ensures { entries_of map.new.entries ≡ plain (nexts (entries_of map.old.entries)) }
{
    for place in touched {
        commit_at(map, *place);
    }
}

fn commit_at(map: &mut RunMap, place: usize)
    requires { AreSettled (entries_of map.old.entries) }
    ensures { ChangesAt commit_of place (entries_of map.old.entries) (entries_of map.new.entries) }
{
    match map.get_index_mut(place) {
        Some(run) => run.commit(),
        None => (),
    }
}

// Discards what is staged at these places.
pub(crate) fn discard_all(map: &mut RunMap, touched: &[usize])
    requires { AreCovered touched.now (entries_of map.old.entries) }
    ensures { entries_of map.new.entries ≡ plain (lives (entries_of map.old.entries)) }
{
    for place in touched {
        discard_at(map, *place);
    }
}

fn discard_at(map: &mut RunMap, place: usize)
    ensures { ChangesAt discard_of place (entries_of map.old.entries) (entries_of map.new.entries) }
{
    match map.get_index_mut(place) {
        Some(run) => run.discard(),
        None => (),
    }
}
