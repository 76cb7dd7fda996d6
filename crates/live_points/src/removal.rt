// What a deletion takes away of the points.
ghost use Rattle.std.specs.Prelude.{◌≡◌, ◌≤◌, ◌&&◌, ◌++◌, ◌∷◌, [], ℕ, ℤ, List, cond, filter, is_some, length, vec_capacity, IfOk, OnOk, Some, None};
ghost use Rattle.std.specs.BTreeMap.{get, is_at};
ghost use Rattle.std.specs.BTreeSet.{IsOrdered};
ghost use Rattle.std.specs.Option.{option_or};
ghost use Rattle.tsdb_types.specs.Series.{is_series_of};
ghost use Rattle.point_model.specs.Conditions.{meets};
ghost use Rattle.point_model.specs.Cursors.{key_cmp};
ghost use Rattle.point_cache.specs.Cached.{is_within, rows_outside, value_at};
ghost use Rattle.point_cache.specs.Calls.{value_without};
ghost use Rattle.store_trait.specs.Slots.{text_cmp};
ghost use Rattle.live_points.specs.Held as held;
ghost use Rattle.live_points.specs.Held.{composite, points_of};
ghost use Rattle.live_points.specs.Known as known;
ghost use Rattle.live_points.specs.Known.{Holds, sample_of};
ghost use Rattle.live_points.specs.Removed as spec;
ghost use Rattle.live_points.specs.Removed.{ForgetsKeys, HaveRoom, IsRemovalOf, first_left, offered, value_spared};

use crate::keys::{Keys, write_key};
use crate::kinds::first_kind;
use crate::samples::{FieldSamples, Samples};
use point_cache::PointCache;
use point_model::Deletion;
use std::alloc::{AllocError, Global};
use std::collections::BTreeMap;
use store_trait::{Heading, heading_of};
use tsdb_types::{Name, SeriesKey, Time, Value};

/// What a deletion takes away of points in memory, and all the memory that this takes. It is good for the points that it was made
/// for, and for no others.
#[derive(Drop)]
pub struct Removal {
    // The keys that the deletion meets.
    keys: Vec<(SeriesKey, Name)>,
    heading: Heading,
    // The samples that the fields of the measurement have then.
    samples: FieldSamples,
    // Has the room for each of the keys.
    buffer: Vec<u8>,
}

// Makes the removal of a deletion. The points stay as they are.
pub(crate) fn removal_of(
    alloc: Global,
    cache: &PointCache,
    keys: &Keys,
    deletion: &Deletion,
) -> Result<Removal, AllocError>
    requires { (samples : known.Samples) × Holds cache.now.runs keys.now samples }
    ensures { IfOk result (IsRemovalOf deletion.now (points_of cache.now.runs)) }
{
    let heading = heading_of(alloc, &deletion.measurement)?;
    let mut buffer = Vec::new(alloc);
    let samples = samples_left(alloc, cache, keys, deletion, &mut buffer)?;
    let keys = keys_met(alloc, keys, deletion, &mut buffer)?;
    Ok(Removal {
        keys,
        heading,
        samples,
        buffer,
    })
}

// The samples that the fields of the measurement have once the points are gone.
fn samples_left(
    alloc: Global,
    cache: &PointCache,
    keys: &Keys,
    deletion: &Deletion,
    buffer: &mut Vec<u8>,
) -> Result<FieldSamples, AllocError>
    ensures samples { IfOk result (λ samples. (field : List ℕ) → get text_cmp samples field ≡ first_left cache.now.runs deletion.now field keys.now.keys) }
    ensures ordered { IsOrdered key_cmp keys.now }
{
    let _ = keys.len();
    let mut samples = BTreeMap::new(alloc);
    for (series, field) in keys {
        offer_left(cache, deletion, buffer, &mut samples, series, field)?;
    }
    Ok(samples)
}

// Offers the series of a key that keeps a point.
fn offer_left(
    cache: &PointCache,
    deletion: &Deletion,
    buffer: &mut Vec<u8>,
    samples: &mut FieldSamples,
    series: &SeriesKey,
    field: &Name,
) -> Result<(), AllocError>
    ensures { OnOk result ((f : List ℕ) → get text_cmp samples.new f
        ≡ option_or (get text_cmp samples.old f) (offered cache.now.runs deletion.now f (series.now, field.now))) }
{
    if !is_left(cache, deletion, buffer, series, field)? {
        return Ok(());
    }
    offer(samples, series, field)
}

// Whether the key is of the measurement and keeps a point.
fn is_left(
    cache: &PointCache,
    deletion: &Deletion,
    buffer: &mut Vec<u8>,
    series: &SeriesKey,
    field: &Name,
) -> Result<bool, AllocError>
    ensures { IfOk result (λ left. left ≡ spec.is_left cache.now.runs deletion.now (series.now, field.now)) }
{
    if !series.is_of(&deletion.measurement) {
        return Ok(false);
    }
    write_key(buffer, series, field)?;
    let rows = cache.rows_of(buffer.as_slice());
    if deletion.tags.meets(series) {
        return Ok(has_outside(rows, deletion.from, deletion.to));
    }
    Ok(first_kind(rows).is_some())
}

// Whether a row is before the first of two times or behind the second. It looks at none behind the first that is.
fn has_outside(rows: &[(Time, Value)], from: Time, to: Time) -> bool
    ensures { result ≡ is_some (held.first_kind (rows_outside from to rows.now)) }
{
    for row in rows {
        if !is_between(row.0, from, to) {
            return true;
        }
    }
    false
}

fn is_between(time: Time, from: Time, to: Time) -> bool
    ensures { result ≡ is_within from to time }
{
    from.get() <= time.get() && time.get() <= to.get()
}

// The series becomes the sample of the field where that has none yet.
fn offer(samples: &mut FieldSamples, series: &SeriesKey, field: &Name) -> Result<(), AllocError>
    ensures { OnOk result ((f : List ℕ) → get text_cmp samples.new f
        ≡ option_or (get text_cmp samples.old f) (cond (is_at (text_cmp field.now) f) (Some series.now) None)) }
{
    if samples.contains_key(field) {
        return Ok(());
    }
    samples.insert(field.carry()?, series.carry()?)?;
    Ok(())
}

// The known keys that the deletion meets, each with room in the buffer.
fn keys_met(
    alloc: Global,
    keys: &Keys,
    deletion: &Deletion,
    buffer: &mut Vec<u8>,
) -> Result<Vec<(SeriesKey, Name)>, AllocError>
    ensures met { IfOk result (λ met. met.items ≡ filter (spec.is_met deletion.now) keys.now.keys) }
    ensures room { IfOk result (λ met. HaveRoom buffer.new met.items) }
{
    let mut met = Vec::new(alloc);
    for (series, field) in keys {
        note_met(deletion, buffer, &mut met, series, field)?;
    }
    Ok(met)
}

// Notes a key that the deletion meets.
fn note_met(
    deletion: &Deletion,
    buffer: &mut Vec<u8>,
    met: &mut Vec<(SeriesKey, Name)>,
    series: &SeriesKey,
    field: &Name,
) -> Result<(), AllocError>
    ensures met { OnOk result (met.new.items ≡ met.old.items ++ filter (spec.is_met deletion.now) ((series.now, field.now) ∷ [])) }
    ensures room { OnOk result (HaveRoom buffer.old met.old.items → HaveRoom buffer.new met.new.items) }
{
    if !is_met(deletion, series) {
        return Ok(());
    }
    write_key(buffer, series, field)?;
    met.push((series.carry()?, field.carry()?))?;
    Ok(())
}

fn is_met(deletion: &Deletion, series: &SeriesKey) -> bool
    ensures { result ≡ (is_series_of deletion.now.measurement series.now && meets deletion.now.tags series.now) }
{
    series.is_of(&deletion.measurement) && deletion.tags.meets(series)
}

// Carries a removal out, from one time to another. It takes no memory.
pub(crate) fn take_away(
    cache: &mut PointCache,
    known: &mut Keys,
    samples: &mut Samples,
    removal: Removal,
    from: Time,
    to: Time,
)
    requires room { HaveRoom removal.buffer removal.keys.items }
    ensures values { (bytes : List ℕ) (time : ℤ) → value_at cache.new.runs bytes time ≡ value_spared removal.keys.items from to bytes time (value_at cache.old.runs bytes time) }
    ensures known { ForgetsKeys cache.new.runs removal.keys.items known.old known.new }
    ensures samples { (m f : List ℕ) → sample_of samples.new m f
        ≡ cond (is_at (text_cmp removal.heading) m && is_some (get text_cmp samples.old removal.heading)) (get text_cmp removal.samples f) (sample_of samples.old m f) }
{
    let Removal {
        keys,
        heading,
        samples: left,
        mut buffer,
    } = removal;
    take_keys(cache, known, &mut buffer, keys.as_slice(), from, to);
    put_samples(samples, &heading, left);
}

fn take_keys(
    cache: &mut PointCache,
    known: &mut Keys,
    buffer: &mut Vec<u8>,
    keys: &[(SeriesKey, Name)],
    from: Time,
    to: Time,
)
    requires room { HaveRoom buffer.old keys.now }
    ensures values { (bytes : List ℕ) (time : ℤ) → value_at cache.new.runs bytes time ≡ value_spared keys.now from to bytes time (value_at cache.old.runs bytes time) }
    ensures known { ForgetsKeys cache.new.runs keys.now known.old known.new }
{
    for key in keys {
        take_key(cache, known, buffer, key, from, to);
    }
}

// Takes away the points of a key, which is known no more where none is left.
fn take_key(
    cache: &mut PointCache,
    known: &mut Keys,
    buffer: &mut Vec<u8>,
    key: &(SeriesKey, Name),
    from: Time,
    to: Time,
)
    requires room { length (composite key.now) ≤ vec_capacity buffer.old }
    ensures values { (bytes : List ℕ) (time : ℤ) → value_at cache.new.runs bytes time ≡ value_without (composite key.now) from to bytes time (value_at cache.old.runs bytes time) }
    ensures known { ForgetsKeys cache.new.runs (key.now ∷ []) known.old known.new }
    ensures capacity { vec_capacity buffer.old ≤ vec_capacity buffer.new }
{
    let _ = write_key(buffer, &key.0, &key.1);
    cache.remove(buffer.as_slice(), from, to);
    if first_kind(cache.rows_of(buffer.as_slice())).is_some() {
        return;
    }
    known.remove(key);
}

// The samples of a measurement give place to others, where it has any.
fn put_samples(samples: &mut Samples, heading: &Heading, fields: FieldSamples)
    ensures { (m f : List ℕ) → sample_of samples.new m f
        ≡ cond (is_at (text_cmp heading.now) m && is_some (get text_cmp samples.old heading.now)) (get text_cmp fields f) (sample_of samples.old m f) }
{
    match samples.get_mut(heading) {
        Some(place) => replace(place, fields),
        None => {}
    }
}

fn replace(place: &mut FieldSamples, fields: FieldSamples)
    ensures { place.new ≡ fields }
{
    *place = fields;
}
