// Points and runs that leave a table.
ghost use Rattle.std.specs.Prelude.{◌≡◌, ◌+◌, ◌<◌, ◌≤◌, ◌∷◌, [], ◌++◌, length, reverse, sum_by, slice_get, Some, vec_len, vec_capacity};
ghost use Rattle.point_cache.specs.Leaving.{Drops, RemovesKey, cut_of};
ghost use Rattle.point_cache.specs.Staged.{Entry, KeysApart, entries_of, lives};
ghost use Rattle.point_cache.specs.Steps.{ChangesAt, HasKey};

use crate::key_points::{Key, KeyRun, RunPoints};
use crate::run::{Run, RunMap};
use tsdb_types::Time;

// Takes away the points of a key from one time to another, and the key where none is left; how many were taken.
pub(crate) fn remove_at(map: &mut RunMap, place: usize, key: &[u8], from: Time, to: Time) -> u64
    requires { HasKey (entries_of map.old.entries) place key.now }
    ensures removes { RemovesKey key.now from to (entries_of map.old.entries) (entries_of map.new.entries) }
    ensures counted { result + sum_by (λ entry. length entry.1.live) (entries_of map.new.entries) ≡ sum_by (λ entry. length entry.1.live) (entries_of map.old.entries) }
{
    let _ = key;
    let (taken, left) = cut_run(map, place, from, to);
    if left == 0 {
        drop_key(map, place);
        return taken;
    }
    taken
}

// Takes away the points of a place from one time to another; how many were taken, and how many are left.
fn cut_run(map: &mut RunMap, place: usize, from: Time, to: Time) -> (u64, usize)
    ensures changed { ChangesAt (cut_of from to) place (entries_of map.old.entries) (entries_of map.new.entries) }
    ensures counted { result.0 + sum_by (λ entry. length entry.1.live) (entries_of map.new.entries) ≡ sum_by (λ entry. length entry.1.live) (entries_of map.old.entries) }
    ensures left { (entry : Entry) → slice_get (entries_of map.new.entries) place ≡ Some entry → result.1 ≡ length entry.1.live }
    ensures apart { KeysApart (entries_of map.old.entries) }
{
    match map.get_index_mut(place) {
        Some(run) => cut(run, from, to),
        None => (0, 1),
    }
}

fn cut(run: &mut Run, from: Time, to: Time) -> (u64, usize)
    ensures changed { run.new ≡ cut_of from to run.old }
    ensures counted { result.0 + length run.new.live ≡ length run.old.live }
    ensures left { result.1 ≡ length run.new.live }
{
    let before = run.points().len();
    run.remove(from, to);
    let left = run.points().len();
    ((before - left) as u64, left)
}

// Takes a key without points out.
fn drop_key(map: &mut RunMap, place: usize)
    requires { (entry : Entry) → slice_get (entries_of map.old.entries) place ≡ Some entry → entry.1.live ≡ [] }
    ensures { Drops place (entries_of map.old.entries) (entries_of map.new.entries) }
{
    if place >= map.len() {
        return;
    }
    let _ = map.swap_remove_index(place);
}

// The runs of a table become rows behind the others, for which there is room, the last first.
pub(crate) fn take_rows(map: &mut RunMap, rows: &mut Vec<KeyRun>)
    requires { vec_len rows.old + length map.old.entries ≤ vec_capacity rows.old }
    ensures rows { rows.new.items ≡ rows.old.items ++ reverse (lives (entries_of map.old.entries)) }
    ensures none { map.new.entries ≡ [] }
{
    while let Some((key, run)) = map.pop() {
        put_row(rows, key, run);
    }
}

fn put_row(rows: &mut Vec<KeyRun>, key: Vec<u8>, run: Run)
    requires { vec_len rows.old < vec_capacity rows.old }
    ensures rows { rows.new.items ≡ rows.old.items ++ record { key = key.items; points = run.live } ∷ [] }
    ensures capacity { vec_capacity rows.old ≤ vec_capacity rows.new }
    ensures len { vec_len rows.new ≡ vec_len rows.old + 1 }
{
    let row = KeyRun {
        key: Key::new(key),
        points: RunPoints::new(run.into_points()),
    };
    let _ = rows.push(row);
}

pub(crate) fn turn_round(rows: &mut Vec<KeyRun>)
    ensures { rows.new.items ≡ reverse rows.old.items }
{
    rows.as_mut_slice().reverse();
}
