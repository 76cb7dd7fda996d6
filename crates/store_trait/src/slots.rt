// The values of a store in memory, by series, field and time. A slot is made first, vacant, and then takes its value
// without memory, so that a batch is kept whole or not at all.
ghost use Rattle.std.specs.Prelude.{◌≡◌, ◌&&◌, ℤ, ℕ, List, cond, Some, IsSome, OnOk};
ghost use Rattle.std.specs.BTreeMap.{get, is_at};
ghost use Rattle.std.specs.Ordering.{int_cmp};
ghost use Rattle.tsdb_types.specs.declared.point.Cell.{Cell};
ghost use Rattle.tsdb_types.specs.Moments.{IsMoment};
ghost use Rattle.tsdb_types.specs.declared.point.Point.{Point};
ghost use Rattle.point_model.specs.Points.{Points, cell_cmp};
ghost use Rattle.point_model.specs.Histories.{with_points};
ghost use Rattle.store_trait.specs.Plain.{IsIn, Agrees};
ghost use Rattle.store_trait.specs.Slots.{slot_of, slot_in, slot_at, held, text_cmp, Stays};

use std::alloc::{AllocError, Global};
use std::collections::BTreeMap;
use tsdb_types::{Cell, Name, Point, SeriesKey, Time, Value};

pub(crate) type Rows = BTreeMap<Time, Option<Value>>;

pub(crate) type Fields = BTreeMap<Name, Rows>;

pub(crate) type Slots = BTreeMap<SeriesKey, Fields>;

// Makes the slot of a cell, vacant, where there is none.
pub(crate) fn make_slot(alloc: Global, slots: &mut Slots, cell: &Cell) -> Result<(), AllocError>
    ensures ok { OnOk result (IsSome (slot_at slots.new cell.now)) }
    ensures kept { (q : Cell) → Stays (slot_at slots.old q) (slot_at slots.new q) }
{
    add_series(alloc, slots, &cell.series)?;
    match slots.get_mut(&cell.series) {
        Some(fields) => make_field_slot(alloc, fields, &cell.field, cell.time),
        None => Ok(()),
    }
}

fn add_series(alloc: Global, slots: &mut Slots, series: &SeriesKey) -> Result<(), AllocError>
    ensures ok { OnOk result (IsSome (get text_cmp slots.new series.now)) }
    ensures kept { (q : Cell) → Stays (slot_at slots.old q) (slot_at slots.new q) }
{
    if slots.contains_key(series) {
        return Ok(());
    }
    slots.insert(series.carry()?, BTreeMap::new(alloc))?;
    Ok(())
}

fn make_field_slot(
    alloc: Global,
    fields: &mut Fields,
    field: &Name,
    time: Time,
) -> Result<(), AllocError>
    ensures ok { OnOk result (IsSome (slot_in fields.new field.now time)) }
    ensures kept { (f : List ℕ) (t : ℤ) → Stays (slot_in fields.old f t) (slot_in fields.new f t) }
{
    add_field(alloc, fields, field)?;
    match fields.get_mut(field) {
        Some(rows) => make_row_slot(rows, time),
        None => Ok(()),
    }
}

fn add_field(alloc: Global, fields: &mut Fields, field: &Name) -> Result<(), AllocError>
    ensures ok { OnOk result (IsSome (get text_cmp fields.new field.now)) }
    ensures kept { (f : List ℕ) (t : ℤ) → Stays (slot_in fields.old f t) (slot_in fields.new f t) }
{
    if fields.contains_key(field) {
        return Ok(());
    }
    fields.insert(field.carry()?, BTreeMap::new(alloc))?;
    Ok(())
}

fn make_row_slot(rows: &mut Rows, time: Time) -> Result<(), AllocError>
    ensures ok { OnOk result (IsSome (slot_of rows.new time)) }
    ensures kept { (t : ℤ) → Stays (slot_of rows.old t) (slot_of rows.new t) }
{
    if rows.contains_key(&time) {
        return Ok(());
    }
    rows.insert(time, None)?;
    Ok(())
}

// Sets the value of a cell whose slot is there.
pub(crate) fn set_value(slots: &mut Slots, cell: &Cell, value: Value)
    requires { IsSome (slot_at slots.old cell.now) }
    ensures { (q : Cell) → slot_at slots.new q ≡ cond (is_at (cell_cmp cell.now) q) (Some (Some value)) (slot_at slots.old q) }
{
    if let Some(fields) = slots.get_mut(&cell.series) {
        set_field_value(fields, &cell.field, cell.time, value);
    }
}

fn set_field_value(fields: &mut Fields, field: &Name, time: Time, value: Value)
    requires { IsSome (slot_in fields.old field.now time) }
    ensures { (f : List ℕ) (t : ℤ) → slot_in fields.new f t
        ≡ cond (is_at (text_cmp field.now) f && is_at (int_cmp time) t) (Some (Some value)) (slot_in fields.old f t) }
{
    if let Some(rows) = fields.get_mut(field) {
        set_row_value(rows, time, value);
    }
}

fn set_row_value(rows: &mut Rows, time: Time, value: Value)
    requires { IsSome (slot_of rows.old time) }
    ensures { (t : ℤ) → slot_of rows.new t ≡ cond (is_at (int_cmp time) t) (Some (Some value)) (slot_of rows.old t) }
{
    let _ = rows.insert(time, Some(value));
}

// The value of a cell.
pub(crate) fn value_in(slots: &Slots, cell: &Cell) -> Option<Value>
    ensures { result ≡ held (slot_at slots.now cell.now) }
{
    match slots.get(&cell.series) {
        None => None,
        Some(fields) => match fields.get(&cell.field) {
            None => None,
            Some(rows) => match rows.get(&cell.time) {
                None => None,
                Some(value) => *value,
            },
        },
    }
}

// Makes the slots of all points.
pub(crate) fn make_slots(
    alloc: Global,
    slots: &mut Slots,
    points: &[Point],
) -> Result<(), AllocError>
    ensures ok { OnOk result ((point : Point) → IsIn points.now point → IsSome (slot_at slots.new point.cell)) }
    ensures timed { OnOk result ((point : Point) → IsIn points.now point → IsMoment point.cell.time) }
    ensures kept { (q : Cell) → Stays (slot_at slots.old q) (slot_at slots.new q) }
{
    for point in points {
        look_at(point.cell.time);
        make_slot(alloc, slots, &point.cell)?;
    }
    Ok(())
}

// The type of a time knows that it is a moment.
fn look_at(time: Time)
    ensures { IsMoment time }
{
    let _ = time.get();
}

// Sets the points, whose slots are there, in their order.
pub(crate) fn set_values(slots: &mut Slots, points: &[Point])
    requires { (point : Point) → IsIn points.now point → IsSome (slot_at slots.old point.cell) }
    ensures { (stored : Points) → Agrees slots.old stored → Agrees slots.new (with_points stored points.now) }
{
    for point in points {
        set_value(slots, &point.cell, point.value);
    }
}
