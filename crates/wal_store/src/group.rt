// The groups of a write: points of one series, behind the series.
ghost use Rattle.std.specs.Prelude.{◌≡◌, ◌≢◌, ◌++◌, [], ◌<◌, ◌≤◌, ◌^◌, ℕ, List, length, take, drop, IfOk, IfSome, IfNone, OnOk, IsTrue, ◌↔◌};
ghost use Rattle.std.specs.List.{flat_map, AllByRecursion};
ghost use Rattle.tsdb_types.specs.Series.{IsSeriesText};
ghost use Rattle.tsdb_types.specs.declared.point.Point.{Point};
ghost use Rattle.wal_store.specs.Form.{Group, group_bytes, groups_bytes, point_bytes, text_bytes, AreGroups, IsGroup, IsPointOf, IsText};
ghost use Rattle.wal_store.specs.Runs.{runs_of, HasShortTexts};
ghost use Rattle.wal_store.specs.Spelling.{SpellsPoints};
ghost use Rattle.wal_store.specs.Taking.{AreGroupsOf, AreOf, BeginsOther, IsRunFirst, TakesGroup, TakesPoints};

use crate::point::{put_point, take_point};
use crate::text::{put_text, take_text};
use fixed_width::{put_u32, take_u32};
use std::alloc::{AllocError, Global};
use tsdb_types::{Batch, Point, Seed, SeriesKey};

/// Puts points as groups: one for each run of one series.
pub fn put_groups(out: &mut Vec<u8>, points: &[Point]) -> Result<(), AllocError>
    requires some { points.now ≢ [] }
    requires short { AllByRecursion HasShortTexts points.now }
    requires few { length (groups_bytes (runs_of points.now)) < 2 ^ 32 }
    ensures ok { OnOk result (out.new.items ≡ out.old.items ++ groups_bytes (runs_of points.now)) }
    ensures groups { OnOk result (AreGroups (runs_of points.now)) }
{
    put_u32(out, count_runs(points))?;
    let mut rest = points;
    while let Some(run) = first_run(rest) {
        put_group(out, run.series, run.points)?;
        rest = run.behind;
    }
    Ok(())
}

/// How many runs of one series the points are.
fn count_runs(points: &[Point]) -> u32
    requires { length (runs_of points.now) < 2 ^ 32 }
    ensures { result ≡ length (runs_of points.now) }
{
    let mut count = 0;
    let mut rest = points;
    while let Some(run) = first_run(rest) {
        count += 1;
        rest = run.behind;
    }
    count
}

/// Puts the points of a series as one group.
fn put_group(out: &mut Vec<u8>, series: &SeriesKey, points: &[Point]) -> Result<(), AllocError>
    requires some { points.now ≢ [] }
    requires same { AreOf series.now points.now }
    requires short { AllByRecursion HasShortTexts points.now }
    requires few { length points.now < 2 ^ 32 }
    ensures ok { OnOk result (out.new.items ≡ out.old.items ++ group_bytes (record { series = series.now; points = points.now })) }
    ensures group { OnOk result (IsGroup (record { series = series.now; points = points.now })) }
{
    put_text(out, series.text())?;
    put_u32(out, points.len() as u32)?;
    for point in points {
        put_point(out, point)?;
    }
    Ok(())
}

/// The first run of points of one series.
#[derive(Clone, Copy)]
pub struct Run<'a> {
    pub series: &'a SeriesKey,
    pub points: &'a [Point],
    pub behind: &'a [Point],
}

pub fn first_run(points: &[Point]) -> Option<Run<'_>>
    ensures run { IfSome result (λ run. IsRunFirst run.series.now run.points.now run.behind.now points.now) }
    ensures none { IfNone result (points.now ≡ []) }
{
    match points {
        [] => None,
        [first, ..] => {
            let series = &first.cell.series;
            let (run, behind) = points.split_at(run_end(series, points));
            Some(Run {
                series,
                points: run,
                behind,
            })
        }
    }
}

/// Where the points of the series end.
fn run_end(series: &SeriesKey, points: &[Point]) -> usize
    ensures within { result ≤ length points.now }
    ensures same { AreOf series.now (take result points.now) }
    ensures next { BeginsOther series.now (drop result points.now) }
{
    for (at, point) in points.iter().enumerate() {
        if !is_of(series, point) {
            return at;
        }
    }
    points.len()
}

fn is_of(series: &SeriesKey, point: &Point) -> bool
    ensures { IsTrue result ↔ (point.now.cell.series ≡ series.now) }
{
    point.cell.series == *series
}

/// The points of the groups of which these are the bytes and nothing else.
pub fn take_groups(alloc: Global, seed: Seed, bytes: &[u8]) -> Result<Option<Batch>, AllocError>
    ensures found { IfOk result (λ taken. IfSome taken (λ batch. SpellsPoints batch bytes.now)) }
    ensures none { IfOk result (λ taken. IfNone taken ((points : List Point) → SpellsPoints points bytes.now → ⊥)) }
{
    let Some((count, groups)) = take_u32(bytes) else {
        return Ok(None);
    };
    if count == 0 {
        return Ok(None);
    }
    match take_all(alloc, count, groups)? {
        Some(points) => Batch::new(points, seed),
        None => Ok(None),
    }
}

/// The points of so many groups, of which these are the bytes and nothing else.
fn take_all(alloc: Global, count: u32, bytes: &[u8]) -> Result<Option<Vec<Point>>, AllocError>
    ensures found { IfOk result (λ taken. IfSome taken (λ points. AreGroupsOf count bytes.now points.items)) }
    ensures none { IfOk result (λ taken. IfNone taken ((groups : List Group) → AllByRecursion IsGroup groups → length groups ≡ count → bytes.now ≢ flat_map group_bytes groups)) }
{
    let mut points = Vec::new(alloc);
    let mut rest = bytes;
    for _ in 0..count {
        let Some(behind) = take_group(alloc, &mut points, rest)? else {
            return Ok(None);
        };
        rest = behind;
    }
    if !rest.is_empty() {
        return Ok(None);
    }
    Ok(Some(points))
}

/// Takes a group off the front of the bytes, and answers the bytes behind it.
fn take_group<'a>(
    alloc: Global,
    points: &mut Vec<Point>,
    bytes: &'a [u8],
) -> Result<Option<&'a [u8]>, AllocError>
    ensures found { IfOk result (λ taken. IfSome taken (λ rest. TakesGroup bytes.now rest.now points.old.items points.new.items)) }
    ensures none { IfOk result (λ taken. IfNone taken ((group : Group) (rest : List ℕ) → IsGroup group → bytes.now ≢ group_bytes group ++ rest)) }
{
    let Some((series, rest)) = take_series(alloc, bytes)? else {
        return Ok(None);
    };
    let Some((count, rest)) = take_u32(rest) else {
        return Ok(None);
    };
    if count == 0 {
        return Ok(None);
    }
    take_points(alloc, points, &series, count, rest)
}

/// Takes so many points of a series off the front of the bytes, and answers the bytes behind them.
fn take_points<'a>(
    alloc: Global,
    points: &mut Vec<Point>,
    series: &SeriesKey,
    count: u32,
    bytes: &'a [u8],
) -> Result<Option<&'a [u8]>, AllocError>
    ensures found { IfOk result (λ taken. IfSome taken (λ rest. TakesPoints series.now count bytes.now rest.now points.old.items points.new.items)) }
    ensures none { IfOk result (λ taken. IfNone taken ((others : List Point) (rest : List ℕ) → AllByRecursion (IsPointOf series.now) others
        → length others ≡ count → bytes.now ≢ flat_map point_bytes others ++ rest)) }
{
    let mut rest = bytes;
    for _ in 0..count {
        let Some((point, behind)) = take_point(alloc, series, rest)? else {
            return Ok(None);
        };
        points.push(point)?;
        rest = behind;
    }
    Ok(Some(rest))
}

/// The series at the front of the bytes, and the bytes behind it.
fn take_series(alloc: Global, bytes: &[u8]) -> Result<Option<(SeriesKey, &[u8])>, AllocError>
    ensures found { IfOk result (λ taken. IfSome taken (λ found. bytes.now ≡ text_bytes found.0 ++ found.1.now)) }
    ensures text { IfOk result (λ taken. IfSome taken (λ found. IsText found.0)) }
    ensures series { IfOk result (λ taken. IfSome taken (λ found. IsSeriesText found.0)) }
    ensures none { IfOk result (λ taken. IfNone taken ((text rest : List ℕ) → IsText text → IsSeriesText text → bytes.now ≢ text_bytes text ++ rest)) }
{
    let Some((text, rest)) = take_text(bytes) else {
        return Ok(None);
    };
    match SeriesKey::from_text(alloc, text)? {
        Some(series) => Ok(Some((series, rest))),
        None => Ok(None),
    }
}
