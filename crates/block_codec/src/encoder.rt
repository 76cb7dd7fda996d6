ghost use Rattle.std.specs.Prelude.{◌≡◌, All, IfOk, map};
ghost use Rattle.tsdb_types.specs.declared.value.Kind.{Kind};
ghost use Rattle.value_codec.specs.Coding.{AreOf, IsInRange};
ghost use Rattle.time_codec.specs.Times.{AreTimes};
ghost use Rattle.block_codec.specs.Blocks.{coded_block, times_of, values_of};

use crate::kind::byte_of;
use std::alloc::{AllocError, Global};
use tsdb_types::{Time, Value};
use word_codec::write_uvarint;

/// The block of 1 to 1,000 points of one kind, each later than the one before.
pub fn encode_block(alloc: Global, points: &[(Time, Value)]) -> Result<Vec<u8>, AllocError>
    requires times { AreTimes (times_of points.now) }
    requires one_kind { (kind : Kind) × AreOf kind (values_of points.now) }
    ensures ok { (kind : Kind) → AreOf kind (values_of points.now) → IfOk result (λ bytes. bytes.items ≡ coded_block kind points.now) }
    // As all values are, so that `decode_block` owes its callers these points again.
    ensures range { IfOk result (λ _. All IsInRange (values_of points.now)) }
{
    let times = times_in(alloc, points)?;
    let values = values_in(alloc, points)?;
    let times = time_codec::encode(alloc, times.as_slice())?;
    let kind = values[0].kind();
    let values = value_codec::encode(alloc, values.as_slice())?;
    let room = times.len().saturating_add(values.len()).saturating_add(3);
    let mut out = Vec::with_capacity(alloc, room)?;
    out.push(byte_of(kind))?;
    write_uvarint(&mut out, times.len() as u64)?;
    out.extend_from_slice(times.as_slice())?;
    out.extend_from_slice(values.as_slice())?;
    Ok(out)
}

fn times_in(alloc: Global, points: &[(Time, Value)]) -> Result<Vec<Time>, AllocError>
    ensures { IfOk result (λ times. times.items ≡ times_of points.now) }
{
    let mut times = Vec::with_capacity(alloc, points.len())?;
    for (time, _) in points {
        times.push(*time)?;
    }
    Ok(times)
}

fn values_in(alloc: Global, points: &[(Time, Value)]) -> Result<Vec<Value>, AllocError>
    ensures values { IfOk result (λ values. values.items ≡ values_of points.now) }
    ensures range { IfOk result (λ values. All IsInRange values.items) }
{
    let mut values = Vec::with_capacity(alloc, points.len())?;
    for (_, value) in points {
        values.push(of_its_type(*value))?;
    }
    Ok(values)
}

/// A value, whose number has 64 bits.
#[inline(always)]
fn of_its_type(value: Value) -> Value
    ensures same { result ≡ value }
    ensures range { IsInRange result }
{
    match value {
        Value::Int(number) => Value::Int(number),
        Value::Uint(number) => Value::Uint(number),
        Value::Bool(truth) => Value::Bool(truth),
    }
}
