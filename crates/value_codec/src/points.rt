ghost use Rattle.std.specs.Prelude.{◌≡◌, ◌≢◌, ◌≤◌, ◌+◌, ◌∷◌, ℕ, List, All, IfOk, length, map};
ghost use Rattle.tsdb_types.specs.declared.value.Value.{Value};
ghost use Rattle.value_codec.specs.Steps.{steps_from};
ghost use Rattle.value_codec.specs.Coding.{number_of, AreOf, IsSpelled, IsInRange};

use crate::bits::decode_booleans;
use crate::integers::decode_steps;
use crate::numbers::{number_after, value_with};
use std::alloc::{AllocError, Global};
use tsdb_types::{BlockFault, Kind, Time, Value};

/// The points of these times whose values have these bytes. Numbers are decoded straight into their points.
pub fn decode_points(
    alloc: Global,
    kind: Kind,
    bytes: &[u8],
    times: &[Time],
) -> Result<Vec<(Time, Value)>, BlockFault>
    ensures times { IfOk result (λ points. map (λ point. point.0) points.items ≡ times.now) }
    ensures found { IfOk result (λ points. IsSpelled kind (length times.now) bytes.now (map (λ point. point.1) points.items)) }
    ensures range { IfOk result (λ points. All IsInRange (map (λ point. point.1) points.items)) }
    ensures bad_block { result ≡ Err BlockFault.BadBlock → (values : List Value) → ¬ (IsSpelled kind (length times.now) bytes.now values) }
    ensures no_kind { (byte : ℕ) → result ≢ Err (BlockFault.BadKind byte) }
{
    if times.is_empty() || times.len() > 1000 {
        return Err(BlockFault::BadBlock);
    }
    match kind {
        Kind::Boolean => boolean_points(alloc, bytes, times),
        _ => number_points(alloc, kind, bytes, times),
    }
}

/// Points of Booleans.
fn boolean_points(
    alloc: Global,
    bytes: &[u8],
    times: &[Time],
) -> Result<Vec<(Time, Value)>, BlockFault>
    requires some { 1 ≤ length times.now }
    requires most { length times.now ≤ 1000 }
    ensures times { IfOk result (λ points. map (λ point. point.0) points.items ≡ times.now) }
    ensures found { IfOk result (λ points. IsSpelled Kind.Boolean (length times.now) bytes.now (map (λ point. point.1) points.items)) }
    ensures range { IfOk result (λ points. All IsInRange (map (λ point. point.1) points.items)) }
    ensures bad_block { result ≡ Err BlockFault.BadBlock → (values : List Value) → ¬ (IsSpelled Kind.Boolean (length times.now) bytes.now values) }
    ensures no_kind { (byte : ℕ) → result ≢ Err (BlockFault.BadKind byte) }
{
    let values = decode_booleans(alloc, bytes, times.len())?;
    let points = joined(alloc, times, values.as_slice())?;
    Ok(points)
}

/// Points of numbers.
fn number_points(
    alloc: Global,
    kind: Kind,
    bytes: &[u8],
    times: &[Time],
) -> Result<Vec<(Time, Value)>, BlockFault>
    requires some { 1 ≤ length times.now }
    requires most { length times.now ≤ 1000 }
    requires numbers { kind ≢ Kind.Boolean }
    ensures times { IfOk result (λ points. map (λ point. point.0) points.items ≡ times.now) }
    ensures found { IfOk result (λ points. IsSpelled kind (length times.now) bytes.now (map (λ point. point.1) points.items)) }
    ensures range { IfOk result (λ points. All IsInRange (map (λ point. point.1) points.items)) }
    ensures bad_block { result ≡ Err BlockFault.BadBlock → (values : List Value) → ¬ (IsSpelled kind (length times.now) bytes.now values) }
    ensures no_kind { (byte : ℕ) → result ≢ Err (BlockFault.BadKind byte) }
{
    let (first, rest) = decode_steps(alloc, bytes, times.len() - 1)?;
    let points = points_with(alloc, kind, times, first, rest.as_slice())?;
    Ok(points)
}

/// Times, each with its value.
fn joined(alloc: Global, times: &[Time], values: &[Value]) -> Result<Vec<(Time, Value)>, AllocError>
    requires { length times.now ≡ length values.now }
    ensures times { IfOk result (λ points. map (λ point. point.0) points.items ≡ times.now) }
    ensures values { IfOk result (λ points. map (λ point. point.1) points.items ≡ values.now) }
{
    let mut points = Vec::with_capacity(alloc, times.len())?;
    for (time, value) in times.iter().zip(values) {
        points.push((*time, *value))?;
    }
    Ok(points)
}

/// Times, each with its value of a kind of numbers, which have these steps.
// Which kind it is, is told before the points are written and not at each.
fn points_with(
    alloc: Global,
    kind: Kind,
    times: &[Time],
    first: u64,
    rest: &[u64],
) -> Result<Vec<(Time, Value)>, AllocError>
    requires numbers { kind ≢ Kind.Boolean }
    requires size { length times.now ≡ length rest.now + 1 }
    ensures times { IfOk result (λ points. map (λ point. point.0) points.items ≡ times.now) }
    ensures steps { IfOk result (λ points. steps_from 0 (map number_of (map (λ point. point.1) points.items)) ≡ first ∷ rest.now) }
    ensures kind { IfOk result (λ points. AreOf kind (map (λ point. point.1) points.items)) }
    ensures range { IfOk result (λ points. All IsInRange (map (λ point. point.1) points.items)) }
{
    match kind {
        Kind::Integer => points_of_kind(alloc, Kind::Integer, times, first, rest),
        _ => points_of_kind(alloc, Kind::Unsigned, times, first, rest),
    }
}

#[inline(always)]
fn points_of_kind(
    alloc: Global,
    kind: Kind,
    times: &[Time],
    first: u64,
    rest: &[u64],
) -> Result<Vec<(Time, Value)>, AllocError>
    requires numbers { kind ≢ Kind.Boolean }
    requires size { length times.now ≡ length rest.now + 1 }
    ensures times { IfOk result (λ points. map (λ point. point.0) points.items ≡ times.now) }
    ensures steps { IfOk result (λ points. steps_from 0 (map number_of (map (λ point. point.1) points.items)) ≡ first ∷ rest.now) }
    ensures kind { IfOk result (λ points. AreOf kind (map (λ point. point.1) points.items)) }
    ensures range { IfOk result (λ points. All IsInRange (map (λ point. point.1) points.items)) }
{
    let mut points = Vec::with_capacity(alloc, times.len())?;
    let mut number = number_after(0, first);
    points.push_reserved((times[0], value_with(kind, number)));
    for k in 0..rest.len() {
        number = number_after(number, rest[k]);
        points.push_reserved((times[k + 1], value_with(kind, number)));
    }
    Ok(points)
}
