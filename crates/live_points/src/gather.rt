// What a view takes of the known keys and of the cache.
ghost use Rattle.std.specs.Prelude.{◌≡◌, ◌++◌, [], ◌∷◌, ◌&&◌, map, reverse, IfOk, OnOk};
ghost use Rattle.std.specs.BTreeSet.{IsOrdered};
ghost use Rattle.point_model.specs.Cursors.{Gives, key_cmp};
ghost use Rattle.store_trait.specs.Lists.{lists_of};
ghost use Rattle.live_points.specs.Held.{points_of};
ghost use Rattle.live_points.specs.Known.{Holds};
ghost use Rattle.live_points.specs.Listed as spec;

use crate::keys::{Keys, write_key};
use crate::names::{fields_of, tag_keys_of};
use crate::samples::Samples;
use point_cache::PointCache;
use point_model::{Fields, Names, Need, TagKeys};
use std::alloc::{AllocError, Global};
use store_trait::{ListView, heading_of};
use tsdb_types::{Name, SeriesKey, Time, Value, reads_once};

// A copy of what a need asks of the points.
pub(crate) fn view_of(
    alloc: Global,
    cache: &PointCache,
    keys: &Keys,
    samples: &Samples,
    need: &Need,
    number: u64,
) -> Result<ListView, AllocError>
    requires { Holds cache.now.runs keys.now samples.now }
    ensures number { IfOk result (λ view. view.number ≡ number) }
    ensures gives { IfOk result (λ view. Gives (points_of cache.now.runs) need.now view) }
{
    let heading = heading_of(alloc, &need.measurement)?;
    let fields = fields_of(alloc, cache, samples, &heading)?;
    let tag_keys = tag_keys_of(alloc, cache, keys, need)?;
    // By this law a series is of one measurement.
    reads_once();
    let mut shown = Vec::new(alloc);
    let mut rows = Vec::new(alloc);
    gather(alloc, cache, keys, need, &mut shown, &mut rows)?;
    let names = Names {
        fields: Fields::new(fields),
        tag_keys: TagKeys::new(tag_keys),
    };
    Ok(ListView::new(number, names, shown, rows))
}

// The rows of each key are put in with the next one last.
fn gather(
    alloc: Global,
    cache: &PointCache,
    keys: &Keys,
    need: &Need,
    shown: &mut Vec<(SeriesKey, Name)>,
    rows: &mut Vec<Vec<(Time, Value)>>,
) -> Result<(), AllocError>
    ensures keys { OnOk result (shown.new.items ≡ shown.old.items ++ spec.listed cache.now.runs need.now keys.now.keys) }
    ensures rows { OnOk result (lists_of rows.new.items ≡ lists_of rows.old.items ++ map (spec.rows_taken cache.now.runs need.now) (spec.listed cache.now.runs need.now keys.now.keys)) }
    ensures ordered { IsOrdered key_cmp keys.now }
{
    let _ = keys.len();
    let mut buffer = Vec::new(alloc);
    for (series, field) in keys {
        if is_needed(need, series) {
            gather_key(cache, need, &mut buffer, series, field, shown, rows)?;
        }
    }
    Ok(())
}

fn is_needed(need: &Need, series: &SeriesKey) -> bool
    ensures { result ≡ spec.is_needed need.now series.now }
{
    series.is_of(&need.measurement) && need.tags.meets(series)
}

// A key that the need asks for, where it has points.
fn gather_key(
    cache: &PointCache,
    need: &Need,
    buffer: &mut Vec<u8>,
    series: &SeriesKey,
    field: &Name,
    shown: &mut Vec<(SeriesKey, Name)>,
    rows: &mut Vec<Vec<(Time, Value)>>,
) -> Result<(), AllocError>
    ensures keys { OnOk result (shown.new.items ≡ shown.old.items ++ spec.having_points cache.now.runs (series.now, field.now)) }
    ensures rows { OnOk result (lists_of rows.new.items ≡ lists_of rows.old.items ++ map (spec.rows_taken cache.now.runs need.now) (spec.having_points cache.now.runs (series.now, field.now))) }
{
    write_key(buffer, series, field)?;
    if cache.rows_of(buffer.as_slice()).is_empty() {
        return Ok(());
    }
    shown.push((series.carry()?, field.carry()?))?;
    rows.push(rows_of(cache, need, buffer.as_slice())?)?;
    Ok(())
}

// The rows of a composite key, with the next one last.
fn rows_of(cache: &PointCache, need: &Need, key: &[u8]) -> Result<Vec<(Time, Value)>, AllocError>
    ensures { IfOk result (λ rows. reverse rows.items ≡ spec.rows_between cache.now.runs need.now key.now) }
{
    let mut rows = cache.points_of(key, need.from, need.to)?;
    if need.descending {
        return Ok(rows);
    }
    rows.reverse();
    Ok(rows)
}
