// The points of a line.
ghost use Rattle.std.specs.Prelude.{◌≡◌, ◌++◌, ◌∷◌, [], true, ℕ, List, length, Some, slice_get, IfOk, OnOk, IsTrue};
ghost use Rattle.tsdb_types.specs.Columns.{columns_of};
ghost use Rattle.tsdb_types.specs.Series.{tag_ends_at};
ghost use Rattle.tsdb_types.specs.Spelled.{unescaped};
ghost use Rattle.tsdb_types.specs.declared.point.Point.{Point};
ghost use Rattle.line_protocol.specs.Fields.{field_spelled, fields_spelled};
ghost use Rattle.line_protocol.specs.Lines.{with_points};
ghost use Rattle.line_protocol.specs.Lines as spec;
ghost use Rattle.line_protocol.specs.Readings.{Gives};

use crate::fault::{LineCode, Refusal};
use crate::heads::is_text;
use crate::known::Known;
use crate::name::{TAG_ENDS, name_of};
use crate::spelled_field::SpelledField;
use std::alloc::{AllocError, Global};
use tsdb_types::{BatchBuilder, Cell, Column, Name, Point, SeriesKey, Time, mark_in_series};

const MOST_BYTES: usize = 65535;

const MARK_LEN: usize = 4;

// Adds a point for each field, up to the first whose key has a fault. The columns of the line before may stand from `names` on.
pub fn add_points(
    alloc: Global,
    known: &Known<'_>,
    names: u32,
    fields: &[SpelledField<'_>],
    time: Time,
    points: &mut BatchBuilder,
) -> Result<(), Refusal>
    ensures { Gives (λ _. points.new) result (with_points points.old time known.now.series (fields_spelled fields.now)) }
{
    let mut own = known.first;
    let mut other = names;
    for field in fields {
        match add_point(alloc, known, own, other, field, time, points) {
            Ok(()) => {}
            Err(refusal) => return Err(refusal),
        }
        own = own.wrapping_add(1);
        other = other.wrapping_add(1);
    }
    Ok(())
}

// Adds the point of a field, whose column may be that at one place, and whose name that of the column at another.
fn add_point(
    alloc: Global,
    known: &Known<'_>,
    own: u32,
    other: u32,
    field: &SpelledField<'_>,
    time: Time,
    points: &mut BatchBuilder,
) -> Result<(), Refusal>
    ensures { Gives (λ _. points.new) result (with_points points.old time known.now.series (field_spelled field.now ∷ [])) }
{
    if is_column(points, own, known, field.key) {
        return add_further(known, own, field, time, points);
    }
    let name = found_name(alloc, points, other, field)?;
    match key_step(known, name.as_str().len()) {
        Err(refusal) => Err(refusal),
        Ok(()) => {
            let cell = Cell {
                time,
                series: known.series.carry()?,
                field: name,
            };
            points.push(Point {
                cell,
                value: field.value,
            })?;
            Ok(())
        }
    }
}

// Adds a further point of a column.
fn add_further(
    known: &Known<'_>,
    place: u32,
    field: &SpelledField<'_>,
    time: Time,
    points: &mut BatchBuilder,
) -> Result<(), Refusal>
    requires column { slice_get (columns_of points.old) place ≡ Some (record { series = known.now.series; field = unescaped tag_ends_at field.now.key.now }) }
    requires plain { unescaped tag_ends_at field.now.key.now ≡ field.now.key.now }
    ensures { Gives (λ _. points.new) result (with_points points.old time known.now.series (field_spelled field.now ∷ [])) }
{
    match key_step(known, field.key.len()) {
        Err(refusal) => Err(refusal),
        Ok(()) => {
            points.push_at(place, time, field.value)?;
            Ok(())
        }
    }
}

// Whether the column at a place is that of the series and of the field that is spelled so, without an escape.
fn is_column(points: &BatchBuilder, place: u32, known: &Known<'_>, key: &[u8]) -> bool
    ensures column { IsTrue result → slice_get (columns_of points.now) place ≡ Some (record { series = known.now.series; field = unescaped tag_ends_at key.now }) }
    ensures plain { IsTrue result → unescaped tag_ends_at key.now ≡ key.now }
{
    match points.columns().get(place as usize) {
        None => false,
        Some(column) => is_spelled(&column.field, key) && column.series == known.series,
    }
}

// Whether a name is spelled so, without an escape.
fn is_spelled(name: &Name, key: &[u8]) -> bool
    ensures name { IsTrue result → name.now ≡ unescaped tag_ends_at key.now }
    ensures plain { IsTrue result → unescaped tag_ends_at key.now ≡ key.now }
{
    is_text(name.as_str().as_bytes(), key) && !key.contains(&b'\\')
}

// The name of a field, which may be that of the column at a place.
fn found_name(
    alloc: Global,
    points: &BatchBuilder,
    place: u32,
    field: &SpelledField<'_>,
) -> Result<Name, AllocError>
    ensures { IfOk result (λ name. name ≡ unescaped tag_ends_at field.now.key.now) }
{
    match points.columns().get(place as usize) {
        None => name_of(alloc, field.key, TAG_ENDS),
        Some(column) => {
            if is_spelled(&column.field, field.key) {
                return column.field.carry();
            }
            name_of(alloc, field.key, TAG_ENDS)
        }
    }
}

// The step over the key of a field whose name has this length.
fn key_step(known: &Known<'_>, len: usize) -> Result<(), Refusal>
    ensures { (name : List ℕ) → length name ≡ len → Gives (λ _. true) result (spec.key_step known.now.series name) }
{
    let series = known.series.text().len();
    if series.saturating_add(MARK_LEN).saturating_add(len) > MOST_BYTES {
        return Err(Refusal::Code(LineCode::KeyTooLong));
    }
    if known.marked {
        return Err(Refusal::Code(LineCode::MarkInKey));
    }
    Ok(())
}

// Whether a mark cuts the keys of a series.
pub fn is_marked(series: &SeriesKey) -> bool
    ensures { (field : List ℕ) → spec.is_cut_short series.now field ≡ result }
{
    match mark_in_series(series) {
        None => false,
        Some(_at) => true,
    }
}
