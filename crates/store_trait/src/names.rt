// The fields and tag keys of a measurement in a store in memory.
ghost use Rattle.std.specs.Prelude.{◌≡◌, IfOk, IfSome};
ghost use Rattle.std.specs.BTreeMap.{get, IsOrdered};
ghost use Rattle.tsdb_types.specs.Names.{IsName};
ghost use Rattle.tsdb_types.specs.Series.{measurement_text};
ghost use Rattle.store_trait.specs.Gathered.{kinds_listed, kinds_of};
ghost use Rattle.store_trait.specs.Slots.{text_cmp};

use crate::heading::Heading;
use crate::samples::{FieldSamples, Samples};
use crate::slots::{Slots, value_in};
use std::alloc::{AllocError, Global};
use tsdb_types::{Kind, Name, SeriesKey, Tags};

/// The measurement as the text of its series begins with it.
pub fn heading_of(alloc: Global, measurement: &Name) -> Result<Heading, AllocError>
    ensures heading { IfOk result (λ heading. heading ≡ measurement_text measurement.now) }
    ensures name { IsName measurement.now }
{
    let untagged = untagged(alloc, measurement)?;
    let mut heading = Heading::new(alloc);
    heading.read(&untagged)?;
    Ok(heading)
}

fn untagged(alloc: Global, measurement: &Name) -> Result<SeriesKey, AllocError>
    ensures text { IfOk result (λ series. series ≡ measurement_text measurement.now) }
    ensures name { IsName measurement.now }
{
    let _ = measurement.as_str();
    match SeriesKey::make(alloc, measurement.carry()?, Tags::new(Vec::new(alloc))) {
        Ok(series) => Ok(series),
        Err(_) => Err(AllocError),
    }
}

// The fields of a measurement with their kinds.
pub(crate) fn fields_of(
    alloc: Global,
    slots: &Slots,
    samples: &Samples,
    heading: &Heading,
) -> Result<Vec<(Name, Kind)>, AllocError>
    ensures fields { IfOk result (λ fields. fields.items ≡ kinds_of slots.now samples.now heading.now) }
    ensures ordered { IfSome (get text_cmp samples.now heading.now) (λ fields. IsOrdered text_cmp fields) }
{
    match samples.get(heading) {
        None => Ok(Vec::new(alloc)),
        Some(fields) => fields_with_values(alloc, slots, fields),
    }
}

fn fields_with_values(
    alloc: Global,
    slots: &Slots,
    fields: &FieldSamples,
) -> Result<Vec<(Name, Kind)>, AllocError>
    ensures fields { IfOk result (λ found. found.items ≡ kinds_listed slots.now fields.now.entries) }
    ensures ordered { IsOrdered text_cmp fields.now }
{
    let _ = fields.len();
    let mut found = Vec::new(alloc);
    for (field, cell) in fields {
        if let Some(value) = value_in(slots, cell) {
            found.push((field.carry()?, value.kind()))?;
        }
    }
    Ok(found)
}
