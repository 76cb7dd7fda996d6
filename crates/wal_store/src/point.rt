// A value, a moment and a point of a group, put and taken.
ghost use Rattle.std.specs.Prelude.{◌≡◌, ◌≢◌, ◌++◌, ◌∷◌, [], ℕ, ℤ, List, ◌≤◌, length, IfOk, IfSome, IfNone, OnOk};
ghost use Rattle.fixed_width.specs.Fields.{bytes_of_u64, bytes_of_i64};
ghost use Rattle.tsdb_types.specs.Moments.{IsMoment};
ghost use Rattle.tsdb_types.specs.declared.point.Point.{Point};
ghost use Rattle.tsdb_types.specs.declared.value.Value.{Value};
ghost use Rattle.wal_store.specs.Form.{point_bytes, value_bytes, IsPointOf, IsValue};

use crate::text::{put_text, take_name};
use fixed_width::{put_i64, put_u64, take_i64, take_u64};
use std::alloc::{AllocError, Global};
use tsdb_types::{Cell, Point, SeriesKey, Time, Value};

// The bytes that say of which type a value is.
const INTEGER: u8 = 1;

const BOOLEAN: u8 = 2;

const UNSIGNED: u8 = 4;

/// Puts a point of a group.
pub fn put_point(out: &mut Vec<u8>, point: &Point) -> Result<(), AllocError>
    requires { length point.now.cell.field ≤ 65535 }
    ensures ok { OnOk result (out.new.items ≡ out.old.items ++ point_bytes point.now) }
    ensures point { OnOk result (IsPointOf point.now.cell.series point.now) }
{
    put_text(out, point.cell.field.as_str())?;
    put_i64(out, point.cell.time.get())?;
    put_value(out, point.value)
}

fn put_value(out: &mut Vec<u8>, value: Value) -> Result<(), AllocError>
    ensures ok { OnOk result (out.new.items ≡ out.old.items ++ value_bytes value) }
    ensures value { IsValue value }
{
    match value {
        Value::Int(number) => {
            out.push(INTEGER)?;
            put_i64(out, number)
        }
        Value::Uint(number) => put_bits(out, UNSIGNED, number),
        Value::Bool(true) => put_bits(out, BOOLEAN, 1),
        Value::Bool(false) => put_bits(out, BOOLEAN, 0),
    }
}

fn put_bits(out: &mut Vec<u8>, kind: u8, bits: u64) -> Result<(), AllocError>
    ensures { OnOk result (out.new.items ≡ out.old.items ++ kind ∷ bytes_of_u64 bits) }
{
    out.push(kind)?;
    put_u64(out, bits)
}

/// The point of this series at the front of the bytes, and the bytes behind it.
pub fn take_point<'a>(
    alloc: Global,
    series: &SeriesKey,
    bytes: &'a [u8],
) -> Result<Option<(Point, &'a [u8])>, AllocError>
    ensures found { IfOk result (λ taken. IfSome taken (λ found. bytes.now ≡ point_bytes found.0 ++ found.1.now)) }
    ensures point { IfOk result (λ taken. IfSome taken (λ found. IsPointOf series.now found.0)) }
    ensures none { IfOk result (λ taken. IfNone taken ((point : Point) (rest : List ℕ) → IsPointOf series.now point → bytes.now ≢ point_bytes point ++ rest)) }
{
    let Some((field, rest)) = take_name(alloc, bytes)? else {
        return Ok(None);
    };
    let Some((time, value, rest)) = take_stamped(rest) else {
        return Ok(None);
    };
    let series = series.carry()?;
    let cell = Cell {
        time,
        series,
        field,
    };
    Ok(Some((Point { cell, value }, rest)))
}

/// The moment and the value at the front of the bytes, and the bytes behind them.
fn take_stamped(bytes: &[u8]) -> Option<(Time, Value, &[u8])>
    ensures found { IfSome result (λ taken. bytes.now ≡ bytes_of_i64 taken.0 ++ (value_bytes taken.1 ++ taken.2.now)) }
    ensures moment { IfSome result (λ taken. IsMoment taken.0) }
    ensures value { IfSome result (λ taken. IsValue taken.1) }
    ensures none { IfNone result ((time : ℤ) (value : Value) (rest : List ℕ) → IsMoment time → IsValue value → bytes.now ≢ bytes_of_i64 time ++ (value_bytes value ++ rest)) }
{
    let (nanoseconds, rest) = take_i64(bytes)?;
    let (value, rest) = take_value(rest)?;
    match Time::new(nanoseconds) {
        Some(time) => Some((time, value, rest)),
        None => None,
    }
}

/// The value at the front of the bytes, and the bytes behind it.
fn take_value(bytes: &[u8]) -> Option<(Value, &[u8])>
    ensures found { IfSome result (λ taken. bytes.now ≡ value_bytes taken.0 ++ taken.1.now) }
    ensures value { IfSome result (λ taken. IsValue taken.0) }
    ensures none { IfNone result ((value : Value) (rest : List ℕ) → IsValue value → bytes.now ≢ value_bytes value ++ rest) }
{
    let Some((kind, number)) = take_byte(bytes) else {
        return None;
    };
    match kind {
        INTEGER => {
            let (number, rest) = take_i64(number)?;
            Some((Value::Int(number), rest))
        }
        BOOLEAN => {
            let (bits, rest) = take_u64(number)?;
            match bits {
                0 => Some((Value::Bool(false), rest)),
                1 => Some((Value::Bool(true), rest)),
                _ => None,
            }
        }
        UNSIGNED => {
            let (number, rest) = take_u64(number)?;
            Some((Value::Uint(number), rest))
        }
        _ => None,
    }
}

/// The first byte, and those behind it.
pub fn take_byte(bytes: &[u8]) -> Option<(u8, &[u8])>
    ensures found { IfSome result (λ taken. bytes.now ≡ taken.0 ∷ taken.1.now) }
    ensures none { IfNone result (bytes.now ≡ []) }
{
    match bytes {
        [] => None,
        [first, behind @ ..] => Some((*first, behind)),
    }
}
