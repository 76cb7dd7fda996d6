use point_cache::PointCache;
use std::alloc::Global;
use std::hash::RandomState;
use std::test::Fail;
use tombstones::TombSet;
use tsdb_types::{Batch, Cell, Name, Point, Seed, SeriesKey, Tags, Time, Value};

fn at(number: i64) -> Time {
    Time::new(number).unwrap_or_default()
}

// The point of the field `v` of an untagged series.
fn point(alloc: Global, series: &str, time: i64, value: i64) -> Option<Point> {
    let measurement = Name::new(alloc, series).ok()?;
    let series = SeriesKey::make(alloc, measurement, Tags::new(Vec::new(alloc))).ok()?;
    let field = Name::new(alloc, "v").ok()?;
    let time = at(time);
    let cell = Cell {
        time,
        series,
        field,
    };
    let value = Value::Int(value);
    Some(Point { cell, value })
}

fn batch_of(alloc: Global, rows: &[(&str, i64, i64)]) -> Option<Batch> {
    let mut points = Vec::new(alloc);
    for (series, time, value) in rows {
        points.push(point(alloc, series, *time, *value)?).ok()?;
    }
    Batch::new(points, Seed::new(7)).ok()?
}

// Sets points, and tells whether it could.
fn set(alloc: Global, cache: &mut PointCache, rows: &[(&str, i64, i64)]) -> bool {
    let Some(batch) = batch_of(alloc, rows) else {
        return false;
    };
    match cache.reserve(&batch) {
        Ok(()) => {
            cache.insert(&batch);
            true
        }
        Err(_) => false,
    }
}

// Whether these are the times and values of a key.
fn holds(cache: &PointCache, key: &[u8], rows: &[(i64, i64)]) -> bool {
    match cache.points_of(key, at(-1000), at(1000)) {
        Ok(points) => are(points.as_slice(), rows),
        Err(_) => false,
    }
}

fn are(points: &[(Time, Value)], rows: &[(i64, i64)]) -> bool {
    for (point, row) in points.iter().zip(rows) {
        if *point != (at(row.0), Value::Int(row.1)) {
            return false;
        }
    }
    points.len() == rows.len()
}

#[test]
fn later_of_equal_cells_wins(rt: HostRuntime) -> Result<(), Fail> {
    let alloc = rt.alloc();
    let mut cache = PointCache::new(alloc, RandomState::new(&rt)?);
    assert!(rt; set(alloc, &mut cache, &[("a", 5, 1), ("b", 5, 2), ("a", 5, 3)]));
    assert!(rt;
        set(
            alloc,
            &mut cache,
            &[("a", 9, 4), ("a", 3, 5), ("a", 5, 6), ("a", 3, 7)]
        )
    );
    assert!(rt; holds(&cache, b"a#!~#v", &[(3, 7), (5, 6), (9, 4)]));
    assert_eq!(rt; cache.points(), 4);
    Ok(())
}

#[test]
fn points_are_removed_in_the_middle(rt: HostRuntime) -> Result<(), Fail> {
    let alloc = rt.alloc();
    let mut cache = PointCache::new(alloc, RandomState::new(&rt)?);
    assert!(rt;
        set(
            alloc,
            &mut cache,
            &[("a", 1, 1), ("a", 2, 2), ("a", 3, 3), ("b", 2, 5)]
        )
    );
    cache.remove(b"a#!~#v", at(2), at(2));
    assert!(rt; holds(&cache, b"a#!~#v", &[(1, 1), (3, 3)]));
    cache.remove(b"a#!~#v", at(1), at(4));
    assert_eq!(rt; cache.len(), 1);
    Ok(())
}

// Whether a snapshot begins.
fn freeze(cache: &mut PointCache) -> bool {
    if cache.snapshot().is_some() {
        return false;
    }
    cache.begin_snapshot().is_ok()
}

#[test]
fn snapshot_stands_beside_new_points(rt: HostRuntime) -> Result<(), Fail> {
    let alloc = rt.alloc();
    let mut cache = PointCache::new(alloc, RandomState::new(&rt)?);
    assert!(rt; set(alloc, &mut cache, &[("b", 2, 1), ("a", 1, 2), ("b", 1, 3)]));
    assert!(rt; freeze(&mut cache));
    assert!(rt; set(alloc, &mut cache, &[("b", 2, 9)]));
    let mut tombs = TombSet::new(alloc);
    tombs.add(b"b#!~#v", at(1), at(1))?;
    cache.set_snapshot_tombs(tombs);
    assert_eq!(rt; cache.snapshot_points(), 3);
    assert_eq!(rt; cache.points(), 1);
    Ok(())
}
