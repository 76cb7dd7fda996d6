// The first conflict of a batch, by the kinds of its columns.
ghost use Rattle.std.specs.Prelude.{◌≡◌, ◌<◌, ℕ, length, map, IfOk, slice_get, Some};
ghost use Rattle.std.specs.Option.{option_map};
ghost use Rattle.tsdb_types.specs.Columns.{column_of, columns_of, ArePlaces};
ghost use Rattle.tsdb_types.specs.declared.point.Point.{Point};
ghost use Rattle.store_trait.specs.Plain.{conflict_of};
ghost use Rattle.live_points.specs.Known as known;
ghost use Rattle.live_points.specs.Known.{conflict_in, unlike};

use crate::kinds::kind_of_field;
use crate::samples::Samples;
use point_cache::PointCache;
use std::alloc::{AllocError, Global};
use store_trait::Heading;
use tsdb_types::{Batch, Column, Kind, Name, Point};

// The first point whose field has another kind, and that kind.
pub(crate) fn find_conflict(
    alloc: Global,
    cache: &PointCache,
    samples: &Samples,
    batch: &Batch,
) -> Result<Option<(Name, Kind)>, AllocError>
    ensures { IfOk result (λ found. option_map conflict_of found ≡ conflict_in cache.now.runs samples.now batch.now) }
{
    let kinds = kinds_of_columns(alloc, cache, samples, batch.columns())?;
    let points = batch.points();
    let places = batch.places();
    for i in 0..points.len() {
        let held = kind_of_point(points, places, kinds.as_slice(), i);
        if let Some(held) = differing(points[i].value.kind(), held) {
            let field = points[i].cell.field.carry()?;
            return Ok(Some((field, held)));
        }
    }
    Ok(None)
}

// The kinds that the fields of the columns have.
fn kinds_of_columns(
    alloc: Global,
    cache: &PointCache,
    samples: &Samples,
    columns: &[Column],
) -> Result<Vec<Option<Kind>>, AllocError>
    ensures { IfOk result (λ kinds. kinds.items ≡ map (known.kind_of_column cache.now.runs samples.now) columns.now) }
{
    let mut kinds = Vec::with_capacity(alloc, columns.len())?;
    let mut heading = Heading::new(alloc);
    let mut buffer = Vec::new(alloc);
    for column in columns {
        heading.read(&column.series)?;
        let kind = kind_of_field(cache, samples, &mut buffer, &heading, &column.field)?;
        kinds.push(kind)?;
    }
    Ok(kinds)
}

// The kind of the column of a point.
fn kind_of_point(points: &[Point], places: &[u32], kinds: &[Option<Kind>], i: usize) -> Option<Kind>
    requires within { i < length points.now }
    requires places { ArePlaces points.now places.now }
    requires kinds { length kinds.now ≡ length (columns_of points.now) }
    ensures { (point : Point) → slice_get points.now i ≡ Some point
        → (place : ℕ) × (slice_get (columns_of points.now) place ≡ Some (column_of point)) × (slice_get kinds.now place ≡ Some result) }
{
    let _ = points;
    kinds[places[i] as usize]
}

// The kind that is held, where it isn't this one.
fn differing(kind: Kind, held: Option<Kind>) -> Option<Kind>
    ensures { result ≡ unlike kind held }
{
    match held {
        None => None,
        Some(held) => {
            if held == kind {
                return None;
            }
            Some(held)
        }
    }
}
