// For each field of a measurement a cell of it, by which the kind of the field is found.
ghost use Rattle.std.specs.Prelude.{◌≡◌, ◌⊎◌, ◌&&◌, ℕ, List, cond, Some, IsSome, IfOk, OnOk, OnErr};
ghost use Rattle.std.specs.BTreeMap.{get, is_at};
ghost use Rattle.std.specs.Option.{option_map};
ghost use Rattle.tsdb_types.specs.declared.point.Cell.{Cell};
ghost use Rattle.tsdb_types.specs.declared.point.Point.{Point};
ghost use Rattle.store_trait.specs.Slots.{sample_of, text_cmp};
ghost use Rattle.tsdb_types.specs.Values.{kind_of};
ghost use Rattle.point_model.specs.Acceptance.{is_same_kind};
ghost use Rattle.point_model.specs.Measurements.{measurement_head};
ghost use Rattle.store_trait.specs.Plain.{sample_value, SamplesOne, Resamples, IsSampled, IsIn, unlike, conflict_of, conflict_in};

use crate::heading::Heading;
use crate::slots::{Slots, value_in};
use std::alloc::{AllocError, Global};
use std::collections::BTreeMap;
use tsdb_types::{Cell, Kind, Name, Point, Value};

pub(crate) type FieldSamples = BTreeMap<Name, Cell>;

pub(crate) type Samples = BTreeMap<Heading, FieldSamples>;

// The value of the sample of a field.
pub(crate) fn value_of_sample(
    slots: &Slots,
    samples: &Samples,
    heading: &Heading,
    field: &Name,
) -> Option<Value>
    ensures { result ≡ sample_value slots.now samples.now heading.now field.now }
{
    match samples.get(heading) {
        None => None,
        Some(fields) => match fields.get(field) {
            None => None,
            Some(cell) => value_in(slots, cell),
        },
    }
}

// Keeps a cell as the sample of its field.
fn put_sample(
    alloc: Global,
    samples: &mut Samples,
    heading: &Heading,
    cell: &Cell,
) -> Result<(), AllocError>
    ensures ok { OnOk result ((m f : List ℕ) → sample_of samples.new m f
        ≡ cond (is_at (text_cmp heading.now) m && is_at (text_cmp cell.now.field) f) (Some cell.now) (sample_of samples.old m f)) }
    ensures err { OnErr result ((m f : List ℕ) → sample_of samples.new m f ≡ sample_of samples.old m f) }
{
    add_heading(alloc, samples, heading)?;
    match samples.get_mut(heading) {
        Some(fields) => put_field_sample(fields, cell),
        None => Err(AllocError),
    }
}

fn add_heading(alloc: Global, samples: &mut Samples, heading: &Heading) -> Result<(), AllocError>
    ensures ok { OnOk result (IsSome (get text_cmp samples.new heading.now)) }
    ensures kept { (m f : List ℕ) → sample_of samples.new m f ≡ sample_of samples.old m f }
{
    if samples.contains_key(heading) {
        return Ok(());
    }
    samples.insert(heading.carry()?, BTreeMap::new(alloc))?;
    Ok(())
}

fn put_field_sample(fields: &mut FieldSamples, cell: &Cell) -> Result<(), AllocError>
    ensures ok { OnOk result ((f : List ℕ) → get text_cmp fields.new f
        ≡ cond (is_at (text_cmp cell.now.field) f) (Some cell.now) (get text_cmp fields.old f)) }
    ensures err { OnErr result ((f : List ℕ) → get text_cmp fields.new f ≡ get text_cmp fields.old f) }
{
    let field = cell.field.carry()?;
    let sample = carry_cell(cell)?;
    fields.insert(field, sample)?;
    Ok(())
}

fn carry_cell(cell: &Cell) -> Result<Cell, AllocError>
    ensures { IfOk result (λ carried. carried ≡ cell.now) }
{
    Ok(Cell {
        time: cell.time,
        series: cell.series.carry()?,
        field: cell.field.carry()?,
    })
}

// Takes the cell of a point as the sample of its field, where that has no sample with a value.
fn take_sample(
    alloc: Global,
    slots: &Slots,
    samples: &mut Samples,
    heading: &Heading,
    point: &Point,
) -> Result<(), AllocError>
    requires { heading.now ≡ measurement_head point.now.cell.series }
    ensures kept { SamplesOne slots.now point.now samples.old samples.new }
    ensures ok { OnOk result (IsSome (sample_value slots.now samples.new heading.now point.now.cell.field)
        ⊎ (sample_of samples.new heading.now point.now.cell.field ≡ Some point.now.cell)) }
{
    if value_of_sample(slots, samples, heading, &point.cell.field).is_some() {
        return Ok(());
    }
    put_sample(alloc, samples, heading, &point.cell)
}

// Sees to it that the field of each point has a sample, which has a value or is a cell of these points.
pub(crate) fn take_samples(
    alloc: Global,
    slots: &Slots,
    samples: &mut Samples,
    points: &[Point],
) -> Result<(), AllocError>
    ensures kept { Resamples slots.now points.now samples.old samples.new }
    ensures ok { OnOk result ((point : Point) → IsIn points.now point → IsSampled slots.now points.now samples.new point) }
{
    let mut heading = Heading::new(alloc);
    for point in points {
        heading.read(&point.cell.series)?;
        take_sample(alloc, slots, samples, &heading, point)?;
    }
    Ok(())
}

// The first point whose field has another kind, and that kind.
pub(crate) fn find_conflict(
    alloc: Global,
    slots: &Slots,
    samples: &Samples,
    points: &[Point],
) -> Result<Option<(Name, Kind)>, AllocError>
    ensures { IfOk result (λ found. option_map conflict_of found ≡ conflict_in slots.now samples.now points.now) }
{
    let mut heading = Heading::new(alloc);
    for point in points {
        heading.read(&point.cell.series)?;
        if let Some(held) = other_kind(slots, samples, &heading, point) {
            let field = point.cell.field.carry()?;
            return Ok(Some((field, held)));
        }
    }
    Ok(None)
}

fn other_kind(slots: &Slots, samples: &Samples, heading: &Heading, point: &Point) -> Option<Kind>
    ensures { result ≡ unlike (kind_of point.now.value) (sample_value slots.now samples.now heading.now point.now.cell.field) }
{
    match value_of_sample(slots, samples, heading, &point.cell.field) {
        None => None,
        Some(value) => {
            if is_same(value.kind(), point.value.kind()) {
                return None;
            }
            Some(value.kind())
        }
    }
}

fn is_same(kind: Kind, other: Kind) -> bool
    ensures { result ≡ is_same_kind kind other }
{
    match kind {
        Kind::Integer => matches!(other, Kind::Integer),
        Kind::Unsigned => matches!(other, Kind::Unsigned),
        Kind::Boolean => matches!(other, Kind::Boolean),
    }
}
