// What a deletion takes away of a store in memory.
ghost use Rattle.std.specs.Prelude.{◌≡◌, ◌&&◌, ℕ, ℤ, List, cond, false, is_some, IfOk, OnOk, Some, None};
ghost use Rattle.std.specs.BTreeMap.{get, is_at, IsOrdered};
ghost use Rattle.std.specs.Option.{option_or};
ghost use Rattle.std.specs.Ordering.{int_cmp};
ghost use Rattle.tsdb_types.specs.declared.point.Cell.{Cell};
ghost use Rattle.point_model.specs.Deletions.{is_deleted};
ghost use Rattle.store_trait.specs.Gathered.{AreOrderedRows};
ghost use Rattle.store_trait.specs.Removals as spec;
ghost use Rattle.store_trait.specs.Removals.{first_offered, is_within, time_kept, cell_kept, series_kept, AreOrderedOf, IsRemovalOf};
ghost use Rattle.store_trait.specs.Slots.{slot_of, slot_in, slot_at, sample_of, text_cmp};

use crate::gather::is_between;
use crate::heading::Heading;
use crate::names::heading_of;
use crate::samples::{FieldSamples, Samples};
use crate::slots::{Fields, Rows, Slots};
use point_model::Deletion;
use std::alloc::{AllocError, Global};
use std::collections::BTreeMap;
use tsdb_types::{Cell, Name, SeriesKey, Time, Value};

// All the memory that a deletion takes: the samples that the fields of its measurement have then.
#[derive(Drop)]
pub(crate) struct Removal {
    heading: Heading,
    samples: FieldSamples,
}

// Makes the removal of a deletion. The slots stay as they are.
pub(crate) fn removal_of(
    alloc: Global,
    slots: &Slots,
    deletion: &Deletion,
) -> Result<Removal, AllocError>
    ensures { IfOk result (IsRemovalOf deletion.now slots.now) }
{
    let heading = heading_of(alloc, &deletion.measurement)?;
    let samples = samples_left(alloc, slots, deletion)?;
    Ok(Removal { heading, samples })
}

// The samples that the fields of the measurement have once the points are gone.
fn samples_left(
    alloc: Global,
    slots: &Slots,
    deletion: &Deletion,
) -> Result<FieldSamples, AllocError>
    ensures samples { IfOk result (λ samples. (field : List ℕ) → get text_cmp samples field ≡ first_offered (series_kept deletion.now field) slots.now.entries) }
    ensures ordered { IsOrdered text_cmp slots.now }
    ensures all_ordered { OnOk result (AreOrderedOf deletion.now slots.now.entries) }
{
    let _ = slots.len();
    let mut samples = BTreeMap::new(alloc);
    for (series, fields) in slots {
        if series.is_of(&deletion.measurement) {
            let met = deletion.tags.meets(series);
            offer_fields(deletion, met, &mut samples, series, fields)?;
        }
    }
    Ok(samples)
}

// Offers a cell of each column of a series that keeps a value.
fn offer_fields(
    deletion: &Deletion,
    met: bool,
    samples: &mut FieldSamples,
    series: &SeriesKey,
    fields: &Fields,
) -> Result<(), AllocError>
    ensures samples { OnOk result ((f : List ℕ) → get text_cmp samples.new f
        ≡ option_or (get text_cmp samples.old f) (first_offered (cell_kept deletion.now met series.now f) fields.now.entries)) }
    ensures ordered { IsOrdered text_cmp fields.now }
    ensures all_ordered { OnOk result (AreOrderedRows fields.now.entries) }
{
    let _ = fields.len();
    for (field, column) in fields {
        offer_column(deletion, met, samples, series, field, column)?;
    }
    Ok(())
}

// Offers the first cell of a column that keeps its value, where the field has no sample yet.
fn offer_column(
    deletion: &Deletion,
    met: bool,
    samples: &mut FieldSamples,
    series: &SeriesKey,
    field: &Name,
    column: &Rows,
) -> Result<(), AllocError>
    ensures samples { OnOk result ((f : List ℕ) → get text_cmp samples.new f
        ≡ option_or (get text_cmp samples.old f) (cell_kept deletion.now met series.now f (field.now, column.now))) }
    ensures ordered { IsOrdered int_cmp column.now }
{
    let _ = column.len();
    if samples.contains_key(field) {
        return Ok(());
    }
    match first_kept(deletion, met, column) {
        Some(time) => put_kept(samples, series, field, time),
        None => Ok(()),
    }
}

// The time of the first row of a column that keeps its value.
fn first_kept(deletion: &Deletion, met: bool, column: &Rows) -> Option<Time>
    ensures { result ≡ first_offered (time_kept deletion.now met) column.now.entries }
{
    for (time, slot) in column {
        if is_kept(deletion, met, *time, slot) {
            return Some(*time);
        }
    }
    None
}

fn is_kept(deletion: &Deletion, met: bool, time: Time, slot: &Option<Value>) -> bool
    ensures { result ≡ spec.is_kept deletion.now met time slot.now }
{
    slot.is_some() && !(met && is_between(time, deletion.from, deletion.to))
}

// The cell becomes the sample of its field.
fn put_kept(
    samples: &mut FieldSamples,
    series: &SeriesKey,
    field: &Name,
    time: Time,
) -> Result<(), AllocError>
    ensures { OnOk result ((f : List ℕ) → get text_cmp samples.new f
        ≡ cond (is_at (text_cmp field.now) f) (Some (record { time = time; series = series.now; field = field.now })) (get text_cmp samples.old f)) }
{
    let sample = Cell {
        time,
        series: series.carry()?,
        field: field.carry()?,
    };
    samples.insert(field.carry()?, sample)?;
    Ok(())
}

// Takes away the slots that the deletion meets, and series and columns without any. It takes no memory.
pub(crate) fn take_away(slots: &mut Slots, deletion: &Deletion)
    ensures { (q : Cell) → slot_at slots.new q ≡ cond (is_deleted deletion.now q) None (slot_at slots.old q) }
{
    slots.retain(|series, fields| take_series(deletion, series, fields));
}

// Takes away the slots of a series that the deletion meets, and tells whether any may be left.
fn take_series(deletion: &Deletion, series: &SeriesKey, fields: &mut Fields) -> bool
    ensures taken { (f : List ℕ) (t : ℤ) → slot_in fields.new f t
        ≡ cond (spec.is_met deletion.now series.now && is_within deletion.now.from deletion.now.to t) None (slot_in fields.old f t) }
    ensures left { result ≡ false → (f : List ℕ) (t : ℤ) → slot_in fields.new f t ≡ None }
{
    if !is_met(deletion, series) {
        return true;
    }
    take_fields(fields, deletion.from, deletion.to)
}

fn is_met(deletion: &Deletion, series: &SeriesKey) -> bool
    ensures { result ≡ spec.is_met deletion.now series.now }
{
    series.is_of(&deletion.measurement) && deletion.tags.meets(series)
}

// Takes away the slots of a series between two times, and tells whether any may be left.
fn take_fields(fields: &mut Fields, from: Time, to: Time) -> bool
    ensures taken { (f : List ℕ) (t : ℤ) → slot_in fields.new f t ≡ cond (is_within from to t) None (slot_in fields.old f t) }
    ensures left { result ≡ false → (f : List ℕ) (t : ℤ) → slot_in fields.new f t ≡ None }
{
    fields.retain(|_field, rows| take_rows(rows, from, to));
    !fields.is_empty()
}

// Takes away the slots of a column between two times, and tells whether any is left.
fn take_rows(rows: &mut Rows, from: Time, to: Time) -> bool
    ensures taken { (t : ℤ) → slot_of rows.new t ≡ cond (is_within from to t) None (slot_of rows.old t) }
    ensures left { result ≡ false → (t : ℤ) → slot_of rows.new t ≡ None }
{
    rows.retain(|time, _slot| !is_between(*time, from, to));
    !rows.is_empty()
}

// The samples of the measurement give place to those of the removal, where it has any.
pub(crate) fn put_samples(samples: &mut Samples, removal: Removal)
    ensures { (m f : List ℕ) → sample_of samples.new m f
        ≡ cond (is_at (text_cmp removal.heading) m && is_some (get text_cmp samples.old removal.heading)) (get text_cmp removal.samples f) (sample_of samples.old m f) }
{
    let Removal {
        heading,
        samples: left,
    } = removal;
    put_fields(samples, &heading, left);
}

fn put_fields(samples: &mut Samples, heading: &Heading, fields: FieldSamples)
    ensures { (m f : List ℕ) → sample_of samples.new m f
        ≡ cond (is_at (text_cmp heading.now) m && is_some (get text_cmp samples.old heading.now)) (get text_cmp fields f) (sample_of samples.old m f) }
{
    match samples.get_mut(heading) {
        Some(place) => replace(place, fields),
        None => {}
    }
}

fn replace(place: &mut FieldSamples, fields: FieldSamples)
    ensures { place.new ≡ fields }
{
    *place = fields;
}
