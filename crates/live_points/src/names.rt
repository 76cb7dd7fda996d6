// The fields and the tag keys of a measurement.
ghost use Rattle.std.specs.Prelude.{◌≡◌, ◌++◌, ◌↔◌, ℕ, List, Some, Contains, IfOk, IfSome, OnOk, slice_get};
ghost use Rattle.std.specs.BTreeMap.{IsOrdered, get};
ghost use Rattle.std.specs.List.{AllByRecursion};
ghost use Rattle.std.specs.List.Sorted.{IsStrictlySortedBy};
ghost use Rattle.tsdb_types.specs.Series.{IsSeriesText};
ghost use Rattle.store_trait.specs.Slots.{text_cmp};
ghost use Rattle.store_trait.specs.Tags.{IsTagKeyOf, keys_within};
ghost use Rattle.live_points.specs.Listed.{having_points, is_needed, kinds_listed, kinds_of, listed, whole};

use crate::keys::Keys;
use crate::kinds::kind_at;
use crate::samples::{FieldSamples, Samples};
use point_cache::PointCache;
use point_model::Need;
use std::alloc::{AllocError, Global};
use store_trait::{Heading, add_tag_keys};
use tsdb_types::{Kind, Name, SeriesKey};

// The fields of a measurement that have points, with their kinds.
pub(crate) fn fields_of(
    alloc: Global,
    cache: &PointCache,
    samples: &Samples,
    heading: &Heading,
) -> Result<Vec<(Name, Kind)>, AllocError>
    ensures fields { IfOk result (λ fields. fields.items ≡ kinds_of cache.now.runs samples.now heading.now) }
    ensures ordered { IfSome (get text_cmp samples.now heading.now) (λ fields. IsOrdered text_cmp fields) }
{
    match samples.get(heading) {
        None => Ok(Vec::new(alloc)),
        Some(fields) => fields_with_points(alloc, cache, fields),
    }
}

fn fields_with_points(
    alloc: Global,
    cache: &PointCache,
    fields: &FieldSamples,
) -> Result<Vec<(Name, Kind)>, AllocError>
    ensures fields { IfOk result (λ found. found.items ≡ kinds_listed cache.now.runs fields.now.entries) }
    ensures ordered { IsOrdered text_cmp fields.now }
{
    let _ = fields.len();
    let mut buffer = Vec::new(alloc);
    let mut found = Vec::new(alloc);
    for (field, series) in fields {
        if let Some(kind) = kind_at(cache, &mut buffer, series, field)? {
            found.push((field.carry()?, kind))?;
        }
    }
    Ok(found)
}

// The keys of the tags that the series with points have in the measurement, each once, in ascending order.
pub(crate) fn tag_keys_of(
    alloc: Global,
    cache: &PointCache,
    keys: &Keys,
    need: &Need,
) -> Result<Vec<Name>, AllocError>
    ensures ascend { IfOk result (λ found. IsStrictlySortedBy text_cmp found.items) }
    ensures exact { IfOk result (λ found. (key : List ℕ) → Contains found.items key
        ↔ ((place : ℕ) × (series field : List ℕ) × (slice_get (listed cache.now.runs (whole need.now) keys.now.keys) place ≡ Some (series, field)) × IsTagKeyOf key series)) }
{
    let mut found = all_tag_keys(alloc, cache, keys, need)?;
    found.sort_unstable();
    found.dedup();
    Ok(found)
}

// Those keys, in the order of the series and of their tags, once for each field.
fn all_tag_keys(
    alloc: Global,
    cache: &PointCache,
    keys: &Keys,
    need: &Need,
) -> Result<Vec<Name>, AllocError>
    ensures keys { IfOk result (λ found. found.items ≡ keys_within (listed cache.now.runs (whole need.now) keys.now.keys)) }
    ensures series { OnOk result (AllByRecursion (λ key. IsSeriesText key.0) keys.now.keys) }
{
    let mut buffer = Vec::new(alloc);
    let mut found = Vec::new(alloc);
    for (series, field) in keys {
        let _ = series.text();
        if is_of_whole(need, series) {
            add_key_tags(alloc, cache, &mut buffer, series, field, &mut found)?;
        }
    }
    Ok(found)
}

// The tag keys of a measurement are asked of all its series, whichever meet the condition.
fn is_of_whole(need: &Need, series: &SeriesKey) -> bool
    ensures { result ≡ is_needed (whole need.now) series.now }
{
    series.is_of(&need.measurement)
}

// The tag keys of a series, where this field of it has points.
fn add_key_tags(
    alloc: Global,
    cache: &PointCache,
    buffer: &mut Vec<u8>,
    series: &SeriesKey,
    field: &Name,
    found: &mut Vec<Name>,
) -> Result<(), AllocError>
    ensures { OnOk result (found.new.items ≡ found.old.items ++ keys_within (having_points cache.now.runs (series.now, field.now))) }
{
    if kind_at(cache, buffer, series, field)?.is_some() {
        add_tag_keys(alloc, series, found)?;
    }
    Ok(())
}
