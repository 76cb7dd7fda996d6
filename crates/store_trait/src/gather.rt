// The keys and rows that a view takes of the slots.
ghost use Rattle.std.specs.Prelude.{◌≡◌, ◌&&◌, ◌++◌, map, reverse, int_le, IfOk, OnOk};
ghost use Rattle.std.specs.BTreeMap.{IsOrdered};
ghost use Rattle.std.specs.Map.{keys_of};
ghost use Rattle.std.specs.Ordering.{int_cmp};
ghost use Rattle.tsdb_types.specs.Series.{is_series_of};
ghost use Rattle.point_model.specs.Conditions.{meets};
ghost use Rattle.store_trait.specs.Gathered.{has_value, rows_set, rows_taken, fields_listed, listed, AreOrdered, AreOrderedRows};
ghost use Rattle.store_trait.specs.Lists.{lists_of};
ghost use Rattle.store_trait.specs.Slots.{text_cmp};

use crate::slots::{Fields, Rows, Slots};
use point_model::Need;
use std::alloc::{AllocError, Global};
use tsdb_types::{Name, SeriesKey, Time, Value};

// The rows of each key are put in with the next one last.
pub(crate) fn gather(
    alloc: Global,
    slots: &Slots,
    need: &Need,
    keys: &mut Vec<(SeriesKey, Name)>,
    rows: &mut Vec<Vec<(Time, Value)>>,
) -> Result<(), AllocError>
    ensures keys { OnOk result (keys.new.items ≡ keys.old.items ++ keys_of (listed need.now slots.now.entries)) }
    ensures rows { OnOk result (lists_of rows.new.items ≡ lists_of rows.old.items ++ map (λ e. rows_taken need.now e.1) (listed need.now slots.now.entries)) }
    ensures ordered { IsOrdered text_cmp slots.now }
    ensures all_ordered { OnOk result (AreOrdered need.now slots.now.entries) }
{
    let _ = slots.len();
    for (series, fields) in slots {
        if is_needed(need, series) {
            gather_fields(alloc, series, fields, need, keys, rows)?;
        }
    }
    Ok(())
}

fn is_needed(need: &Need, series: &SeriesKey) -> bool
    ensures { result ≡ (is_series_of need.now.measurement series.now && meets need.now.tags series.now) }
{
    series.is_of(&need.measurement) && need.tags.meets(series)
}

fn gather_fields(
    alloc: Global,
    series: &SeriesKey,
    fields: &Fields,
    need: &Need,
    keys: &mut Vec<(SeriesKey, Name)>,
    rows: &mut Vec<Vec<(Time, Value)>>,
) -> Result<(), AllocError>
    ensures keys { OnOk result (keys.new.items ≡ keys.old.items ++ keys_of (fields_listed series.now fields.now.entries)) }
    ensures rows { OnOk result (lists_of rows.new.items ≡ lists_of rows.old.items ++ map (λ e. rows_taken need.now e.1) (fields_listed series.now fields.now.entries)) }
    ensures ordered { IsOrdered text_cmp fields.now }
    ensures all_ordered { OnOk result (AreOrderedRows fields.now.entries) }
{
    let _ = fields.len();
    for (field, column) in fields {
        if has_values(column) {
            keys.push((series.carry()?, field.carry()?))?;
            rows.push(gather_rows(alloc, column, need)?)?;
        }
    }
    Ok(())
}

pub(crate) fn has_values(column: &Rows) -> bool
    ensures value { result ≡ has_value column.now.entries }
    ensures ordered { IsOrdered int_cmp column.now }
{
    let _ = column.len();
    for (_time, slot) in column {
        if slot.is_some() {
            return true;
        }
    }
    false
}

fn gather_rows(alloc: Global, column: &Rows, need: &Need) -> Result<Vec<(Time, Value)>, AllocError>
    ensures { IfOk result (λ rows. reverse rows.items ≡ rows_taken need.now column.now) }
{
    let mut rows = rows_within(alloc, column, need.from, need.to)?;
    if need.descending {
        return Ok(rows);
    }
    rows.reverse();
    Ok(rows)
}

fn rows_within(
    alloc: Global,
    column: &Rows,
    from: Time,
    to: Time,
) -> Result<Vec<(Time, Value)>, AllocError>
    ensures { IfOk result (λ rows. rows.items ≡ rows_set from to column.now.entries) }
{
    let mut rows = Vec::new(alloc);
    for (time, slot) in column {
        if let Some(value) = slot {
            if is_between(*time, from, to) {
                rows.push((*time, *value))?;
            }
        }
    }
    Ok(rows)
}

pub(crate) fn is_between(time: Time, from: Time, to: Time) -> bool
    ensures { result ≡ (int_le from time && int_le time to) }
{
    from.get() <= time.get() && time.get() <= to.get()
}
