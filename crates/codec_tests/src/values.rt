ghost use Rattle.std.specs.Prelude.{◌≤◌, length};
ghost use Rattle.tsdb_types.specs.declared.value.Kind.{Kind};
ghost use Rattle.value_codec.specs.Coding.{AreOf};

use std::alloc::Global;
use std::process::Abort;
use std::test::Fail;
use tsdb_types::{Kind, Time, Value};
use value_codec::*;

/// The values have these bytes, and the bytes these values.
fn check(
    rt: &impl Abort,
    alloc: Global,
    kind: Kind,
    values: &[Value],
    bytes: &[u8],
) -> Result<(), Fail>
    requires some { 1 ≤ length values.now }
    requires most { length values.now ≤ 1000 }
    requires one_kind { (kind : Kind) × AreOf kind values.now }
{
    let coded = encode(alloc, values)?;
    assert_eq!(rt; coded.as_slice(), bytes);
    let read = decode(alloc, kind, bytes, values.len())?;
    assert_eq!(rt; read.as_slice(), values);
    Ok(())
}

#[test]
fn three_integers(rt: HostRuntime) -> Result<(), Fail> {
    let values = [Value::Int(1), Value::Int(1), Value::Int(1)];
    check(
        &rt,
        rt.alloc(),
        Kind::Integer,
        &values,
        &[0x20, 0, 0, 0, 0, 0, 0, 0, 2, 0, 2],
    )
}

#[test]
fn three_booleans(rt: HostRuntime) -> Result<(), Fail> {
    let values = [Value::Bool(true), Value::Bool(false), Value::Bool(true)];
    check(&rt, rt.alloc(), Kind::Boolean, &values, &[0x10, 3, 0xa0])
}

/// A whole byte, and one bit of another.
#[test]
fn nine_booleans(rt: HostRuntime) -> Result<(), Fail> {
    let values = [
        Value::Bool(true),
        Value::Bool(false),
        Value::Bool(true),
        Value::Bool(false),
        Value::Bool(false),
        Value::Bool(true),
        Value::Bool(true),
        Value::Bool(false),
        Value::Bool(true),
    ];
    check(
        &rt,
        rt.alloc(),
        Kind::Boolean,
        &values,
        &[0x10, 9, 0xa6, 0x80],
    )
}

#[test]
fn points_of_three_integers(rt: HostRuntime) -> Result<(), Fail> {
    let first = Time::new(10).ok_or("no moment")?;
    let last = Time::new(30).ok_or("no moment")?;
    let bytes = [0x20, 0, 0, 0, 0, 0, 0, 0, 2, 0, 2];
    let points = decode_points(rt.alloc(), Kind::Integer, &bytes, &[first, first, last])?;
    assert_eq!(rt; points.len(), 3);
    let (time, value) = *points.as_slice().last().ok_or("no point")?;
    assert_eq!(rt; time, last);
    assert_eq!(rt; value, Value::Int(1));
    Ok(())
}

/// The one value 2^62 has a step of 2^63, which no word holds.
#[test]
fn one_wide_value(rt: HostRuntime) -> Result<(), Fail> {
    let bytes = [0, 0x80, 0, 0, 0, 0, 0, 0, 0];
    check(
        &rt,
        rt.alloc(),
        Kind::Unsigned,
        &[Value::Uint(4611686018427387904)],
        &bytes,
    )
}

/// Bytes that are cut, go on, say another count, or are written in a form that the encoder would not take.
#[test]
fn other_bytes_are_refused(rt: HostRuntime) {
    let alloc = rt.alloc();
    assert!(rt; decode(alloc, Kind::Boolean, &[0x10, 3, 0xa0, 0], 3).is_err());
    assert!(rt; decode(alloc, Kind::Boolean, &[0x10, 3, 0xa1], 3).is_err());
    assert!(rt; decode(alloc, Kind::Boolean, &[0x10, 3, 0xa0], 2).is_err());
    assert!(rt;
        decode(
            alloc,
            Kind::Integer,
            &[0x20, 0, 0, 0, 0, 0, 0, 0, 2, 0, 1],
            2
        )
        .is_err()
    );
    assert!(rt; decode(alloc, Kind::Integer, &[0, 0, 0, 0, 0, 0, 0, 0, 2], 1).is_err());
    assert!(rt; decode(alloc, Kind::Integer, &[0x10, 0, 0, 0, 0, 0, 0, 0], 1).is_err());
    assert!(rt; decode(alloc, Kind::Integer, &[], 0).is_err());
}
