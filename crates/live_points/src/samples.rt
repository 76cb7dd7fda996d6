// For each field of a measurement a series of it, by which the kind of the field is found.
ghost use Rattle.std.specs.Prelude.{◌≡◌, ◌⊎◌, ◌&&◌, ℕ, List, cond, length, Some, IsSome, OnOk, OnErr};
ghost use Rattle.std.specs.BTreeMap.{get, is_at};
ghost use Rattle.tsdb_types.specs.Keys.{IsFirstMark};
ghost use Rattle.tsdb_types.specs.declared.column.Column.{Column};
ghost use Rattle.point_model.specs.Measurements.{measurement_head};
ghost use Rattle.store_trait.specs.Slots.{text_cmp};
ghost use Rattle.live_points.specs.Held.{composite};
ghost use Rattle.live_points.specs.Known.{Holds, IsKnown, kind_in, kind_of_column, sample_of};
ghost use Rattle.live_points.specs.Learned.{Adds, IsAmong, IsLearnedWhere, IsSampled, Learns, Resamples, SamplesKnown, SamplesOne, key_of_column};

use crate::keys::{Keys, add_key};
use crate::kinds::{kind_at, kind_of_field};
use point_cache::PointCache;
use std::alloc::{AllocError, Global};
use std::collections::BTreeMap;
use store_trait::Heading;
use tsdb_types::{Column, Name, SeriesKey};

pub(crate) type FieldSamples = BTreeMap<Name, SeriesKey>;

pub(crate) type Samples = BTreeMap<Heading, FieldSamples>;

// Keeps the series of a column as the sample of its field.
fn put_sample(
    alloc: Global,
    samples: &mut Samples,
    heading: &Heading,
    column: &Column,
) -> Result<(), AllocError>
    ensures ok { OnOk result ((m f : List ℕ) → sample_of samples.new m f
        ≡ cond (is_at (text_cmp heading.now) m && is_at (text_cmp column.now.field) f) (Some column.now.series) (sample_of samples.old m f)) }
    ensures err { OnErr result ((m f : List ℕ) → sample_of samples.new m f ≡ sample_of samples.old m f) }
{
    add_heading(alloc, samples, heading)?;
    match samples.get_mut(heading) {
        Some(fields) => put_field_sample(fields, column),
        None => Err(AllocError),
    }
}

fn add_heading(alloc: Global, samples: &mut Samples, heading: &Heading) -> Result<(), AllocError>
    ensures ok { OnOk result (IsSome (get text_cmp samples.new heading.now)) }
    ensures kept { (m f : List ℕ) → sample_of samples.new m f ≡ sample_of samples.old m f }
{
    if samples.contains_key(heading) {
        return Ok(());
    }
    samples.insert(heading.carry()?, BTreeMap::new(alloc))?;
    Ok(())
}

fn put_field_sample(fields: &mut FieldSamples, column: &Column) -> Result<(), AllocError>
    ensures ok { OnOk result ((f : List ℕ) → get text_cmp fields.new f
        ≡ cond (is_at (text_cmp column.now.field) f) (Some column.now.series) (get text_cmp fields.old f)) }
    ensures err { OnErr result ((f : List ℕ) → get text_cmp fields.new f ≡ get text_cmp fields.old f) }
{
    let field = column.field.carry()?;
    let series = column.series.carry()?;
    fields.insert(field, series)?;
    Ok(())
}

// Takes the series of a column as the sample of its field, where that has no sample with points.
fn take_sample(
    alloc: Global,
    cache: &PointCache,
    samples: &mut Samples,
    heading: &Heading,
    buffer: &mut Vec<u8>,
    column: &Column,
) -> Result<(), AllocError>
    requires { heading.now ≡ measurement_head column.now.series }
    ensures kept { SamplesOne cache.now.runs column.now samples.old samples.new }
    ensures ok { OnOk result (IsSome (kind_in cache.now.runs samples.new heading.now column.now.field)
        ⊎ (sample_of samples.new heading.now column.now.field ≡ Some column.now.series)) }
{
    let kind = kind_of_field(cache, samples, buffer, heading, &column.field)?;
    if kind.is_some() {
        return Ok(());
    }
    put_sample(alloc, samples, heading, column)
}

// Makes a column known, and sees to it that its field has a sample. A column with points is known and sampled already.
fn learn_column(
    alloc: Global,
    cache: &PointCache,
    keys: &mut Keys,
    samples: &mut Samples,
    heading: &mut Heading,
    buffer: &mut Vec<u8>,
    column: &Column,
) -> Result<(), AllocError>
    requires { IsLearnedWhere cache.now.runs keys.old samples.old column.now }
    ensures adds { Adds (key_of_column column.now) keys.old keys.new }
    ensures kept { SamplesKnown cache.now.runs column.now keys.new samples.old samples.new }
    ensures known { OnOk result (IsKnown keys.new (key_of_column column.now)) }
    ensures sampled { OnOk result (IsSome (kind_of_column cache.now.runs samples.new column.now)
        ⊎ (sample_of samples.new (measurement_head column.now.series) column.now.field ≡ Some column.now.series)) }
{
    if kind_at(cache, buffer, &column.series, &column.field)?.is_some() {
        return Ok(());
    }
    add_key(keys, column)?;
    heading.read(&column.series)?;
    take_sample(alloc, cache, samples, heading, buffer, column)
}

// Makes the columns known, and sees to it that the field of each has a sample, which has points or is a series of these columns.
pub(crate) fn learn_columns(
    alloc: Global,
    cache: &PointCache,
    keys: &mut Keys,
    samples: &mut Samples,
    columns: &[Column],
) -> Result<(), AllocError>
    requires holds { Holds cache.now.runs keys.old samples.old }
    requires marked { (column : Column) → IsAmong columns.now column → IsFirstMark (composite (key_of_column column)) (length column.series) }
    ensures keys { Learns columns.now keys.old keys.new }
    ensures samples { Resamples cache.now.runs columns.now keys.new samples.old samples.new }
    ensures known { OnOk result ((column : Column) → IsAmong columns.now column → IsKnown keys.new (key_of_column column)) }
    ensures sampled { OnOk result ((column : Column) → IsAmong columns.now column → IsSampled cache.now.runs columns.now samples.new column) }
{
    let mut heading = Heading::new(alloc);
    let mut buffer = Vec::new(alloc);
    for column in columns {
        learn_column(
            alloc,
            cache,
            keys,
            samples,
            &mut heading,
            &mut buffer,
            column,
        )?;
    }
    Ok(())
}
