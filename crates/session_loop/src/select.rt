//! The rows of a field, read through a view of a store.
ghost use Rattle.std.specs.Prelude.{◌≡◌, ◌<◌, [], false, nat_eq, map, length, slice_get, All, Some, IfOk, OnOk};
ghost use Rattle.std.specs.Cmp.Lexicographic.{pointwise};
ghost use Rattle.point_model.specs.Cursors.{Key, Told};
ghost use Rattle.point_model.specs.Troubles.{CursorHasCause};
ghost use Rattle.session_model.specs.declared.statement.Statement.TheVariants.{Select as Selects};
ghost use Rattle.session_model.specs.Readable.{IsReadable, IsReadableShown, Lacks};
ghost use Rattle.session_model.specs.Replies.{shown};
ghost use Rattle.session_loop.specs.Merged.{AreRowsOf, TakesKey, TakesField, TakesRows, AreInOrder, AsksAll, IsReadableFound, row_found};
ghost use Rattle.session_loop.specs.Steps.{Serves, stored};
ghost use Rattle.session_loop.specs.Texts.{IsTextOf, reply_of_view};
ghost use Rattle.std.specs.List.Sorted.{IsPermutation};

use crate::replies::ReplyText;
use point_model::{CursorFault, Need, PointCursor, TagCond, TagTest};
use session_io::{Gate, Place};
use std::alloc::{AllocError, Global};
use store_trait::{Store, ViewFault};
use tsdb_types::{Name, SeriesKey, Time, Value};

/// Writes the text of the reply to a SELECT, and gives the number that the store told for it.
pub fn select<S: Store, G: Gate>(
    alloc: Global,
    store: &mut S,
    gate: &G,
    who: u32,
    field: &Name,
    measurement: Name,
    text: &mut ReplyText,
) -> Option<u64>
    requires none_out { (S.told store.old).out ≡ [] }
    ensures served { Serves (stored S.told S.health store.old) (Selects field.now measurement) text.new result (stored S.told S.health store.new) }
    ensures none_out { (S.told store.new).out ≡ [] }
{
    match all_of(alloc, measurement) {
        Ok(need) => look(alloc, store, gate, who, field, &need, text),
        Err(AllocError) => {
            text.out_of_memory();
            None
        }
    }
}

/// The same of all points of a measurement, which are asked for.
fn look<S: Store, G: Gate>(
    alloc: Global,
    store: &mut S,
    gate: &G,
    who: u32,
    field: &Name,
    need: &Need,
    text: &mut ReplyText,
) -> Option<u64>
    requires none_out { (S.told store.old).out ≡ [] }
    requires all { AsksAll need.now }
    ensures served { Serves (stored S.told S.health store.old) (Selects field.now need.now.measurement) text.new result (stored S.told S.health store.new) }
    ensures none_out { (S.told store.new).out ≡ [] }
{
    match store.begin_view(need) {
        Ok(view) => {
            let mut view = view;
            gate.reach(who, Place::View);
            let number = view.number();
            let rows = rows_of(alloc, &mut view, field);
            store.end_view(view);
            show(number, &need.measurement, field, rows, text);
            Some(number)
        }
        Err(ViewFault::TooManyViews { .. }) => unreachable!(),
        Err(ViewFault::Memory) => {
            text.out_of_memory();
            None
        }
        Err(ViewFault::Fault) => {
            text.device_fault();
            None
        }
    }
}

/// All points of a measurement.
fn all_of(alloc: Global, measurement: Name) -> Result<Need, AllocError>
    ensures measurement { IfOk result (λ need. need.measurement ≡ measurement) }
    ensures all { IfOk result AsksAll }
{
    Ok(Need {
        measurement,
        tags: TagCond::new(alloc, TagTest::True)?,
        from: Time::new(-9_223_372_036_854_775_806).unwrap(),
        to: Time::new(9_223_372_036_854_775_806).unwrap(),
        descending: false,
    })
}

/// Writes the reply to what was read.
fn show(
    number: u64,
    measurement: &Name,
    field: &Name,
    rows: Result<Vec<(Time, Value)>, CursorFault>,
    text: &mut ReplyText,
)
    requires { IfOk rows (λ rows. All IsReadableFound rows.items) }
    ensures spelled { IsTextOf (reply_of_view (λ v. v.items) number measurement.now field.now rows) text.new }
    ensures readable { IsReadable (reply_of_view (λ v. v.items) number measurement.now field.now rows) }
{
    match rows {
        Ok(rows) => {
            one_line(measurement);
            one_line(field);
            text.found(number, measurement, field, &rows);
        }
        Err(CursorFault::Memory) => text.out_of_memory(),
        Err(CursorFault::Fault) => text.device_fault(),
        Err(CursorFault::Damaged(damage)) => text.damaged(damage.file, damage.offset),
    }
}

/// A name stands on one line.
fn one_line(name: &Name)
    ensures { Lacks 10 name.now }
{
    let text = name.as_str();
}

/// A row, and the place of its key among those of the view.
#[derive(Clone, Copy)]
struct Found {
    time: Time,
    key: usize,
    value: Value,
}

/// The rows of a field, by their times and, at one time, by their series.
fn rows_of<V: PointCursor>(
    alloc: Global,
    view: &mut V,
    field: &Name,
) -> Result<Vec<(Time, Value)>, CursorFault>
    requires usable { V.is_spent view.old ≡ false }
    ensures ok { IfOk result (λ rows. AreRowsOf field.now (V.shown view.old) rows.items) }
    ensures fault { CursorHasCause result (V.can_be_damaged view.old) (V.health view.old) (V.health view.new) }
    ensures loan { V.loan view.new ≡ V.loan view.old }
    ensures readable { IfOk result (λ rows. All IsReadableFound rows.items) }
{
    let mut found = Vec::new(alloc);
    take_rows(view, field, &mut found)?;
    sort(found.as_mut_slice());
    Ok(rows_found(alloc, &found)?)
}

/// The rows without the places of their keys.
fn rows_found(alloc: Global, found: &[Found]) -> Result<Vec<(Time, Value)>, AllocError>
    ensures rows { IfOk result (λ rows. rows.items ≡ map row_found found.now) }
    ensures readable { IfOk result (λ rows. All IsReadableFound rows.items) }
{
    let mut rows = Vec::new(alloc);
    for row in found {
        rows.push(row_at(row.time, row.value))?;
    }
    Ok(rows)
}

/// A row. Its numbers are of 64 bits.
fn row_at(time: Time, value: Value) -> (Time, Value)
    ensures row { result ≡ (time, value) }
    ensures readable { IsReadableFound result }
{
    let nanoseconds = time.get();
    match value {
        Value::Int(number) => (time, signed(number)),
        Value::Uint(number) => (time, unsigned(number)),
        Value::Bool(_) => (time, value),
    }
}

fn signed(number: i64) -> Value
    ensures value { result ≡ Value.Int number }
    ensures readable { IsReadableShown (shown result) }
{
    Value::Int(number)
}

fn unsigned(number: u64) -> Value
    ensures value { result ≡ Value.Uint number }
    ensures readable { IsReadableShown (shown result) }
{
    Value::Uint(number)
}

fn sort(found: &mut [Found])
    ensures same { IsPermutation found.old found.new }
    ensures sorted { AreInOrder found.new }
{
    found.sort_unstable_by_key(|row: &Found| (row.time, row.key));
}

/// Adds the rows of all keys of a field.
fn take_rows<V: PointCursor>(
    view: &mut V,
    field: &Name,
    found: &mut Vec<Found>,
) -> Result<(), CursorFault>
    requires usable { V.is_spent view.old ≡ false }
    ensures ok { OnOk result (TakesRows field.now (V.shown view.old) found.old.items found.new.items) }
    ensures fault { CursorHasCause result (V.can_be_damaged view.old) (V.health view.old) (V.health view.new) }
    ensures loan { V.loan view.new ≡ V.loan view.old }
{
    for key in 0..view.keys().len() {
        take_of(view, key, field, found)?;
    }
    Ok(())
}

/// Adds the rows of a key, where it is one of the field.
fn take_of<V: PointCursor>(
    view: &mut V,
    key: usize,
    field: &Name,
    found: &mut Vec<Found>,
) -> Result<(), CursorFault>
    requires place { key < length (V.shown view.old).keys }
    requires usable { V.is_spent view.old ≡ false }
    ensures ok { OnOk result (Told (TakesField field.now (V.shown view.old).keys key found.old.items found.new.items) (V.shown view.old).left (V.shown view.new).left) }
    ensures keys { OnOk result ((V.shown view.new).keys ≡ (V.shown view.old).keys) }
    ensures usable { OnOk result (V.is_spent view.new ≡ false) }
    ensures fault { CursorHasCause result (V.can_be_damaged view.old) (V.health view.old) (V.health view.new) }
    ensures can_be_damaged { V.can_be_damaged view.new ≡ V.can_be_damaged view.old }
    ensures loan { V.loan view.new ≡ V.loan view.old }
{
    if !is_of(view.keys(), key, field) {
        return Ok(());
    }
    take_key(view, key, found)
}

/// Whether the key at this place is one of the field.
fn is_of(keys: &[(SeriesKey, Name)], key: usize, field: &Name) -> bool
    requires { key < length keys.now }
    ensures { (k : Key) → slice_get keys.now key ≡ Some k → result ≡ pointwise nat_eq k.1 field.now }
{
    keys[key].1 == *field
}

/// Adds the rows of a key.
fn take_key<V: PointCursor>(
    view: &mut V,
    key: usize,
    found: &mut Vec<Found>,
) -> Result<(), CursorFault>
    requires place { key < length (V.shown view.old).keys }
    requires usable { V.is_spent view.old ≡ false }
    ensures ok { OnOk result (Told (TakesKey key found.old.items found.new.items) (V.shown view.old).left (V.shown view.new).left) }
    ensures keys { OnOk result ((V.shown view.new).keys ≡ (V.shown view.old).keys) }
    ensures usable { OnOk result (V.is_spent view.new ≡ false) }
    ensures fault { CursorHasCause result (V.can_be_damaged view.old) (V.health view.old) (V.health view.new) }
    ensures can_be_damaged { V.can_be_damaged view.new ≡ V.can_be_damaged view.old }
    ensures loan { V.loan view.new ≡ V.loan view.old }
{
    for _ in 0..u64::MAX {
        match view.next(key)? {
            None => return Ok(()),
            Some(row) => found.push(Found {
                time: row.0,
                key,
                value: row.1,
            })?,
        }
    }
    Err(CursorFault::Memory)
}
