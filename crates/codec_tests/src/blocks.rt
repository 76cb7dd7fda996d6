use block_codec::*;
use std::test::Fail;
use tsdb_types::{BlockFault, Time, Value};

/// The points (10, 1), (20, 1) and (30, 1), laid out by hand.
const BLOCK: [u8; 24] = [
    0x01, 0x0b, 0x21, 0, 0, 0, 0, 0, 0, 0, 0x0a, 0x01, 0x03, 0x20, 0, 0, 0, 0, 0, 0, 0, 0x02, 0,
    0x02,
];

/// Types of no kind, floats (0) and strings (3) among them; a block that is cut, one that a byte follows, and no bytes.
const REFUSED: [(&[u8], BlockFault); 6] = [
    (&[0, 0x0b], BlockFault::BadKind { byte: 0 }),
    (&[3, 0x0b], BlockFault::BadKind { byte: 3 }),
    (&[5], BlockFault::BadKind { byte: 5 }),
    (
        &[2, 9, 0x1c, 0, 0, 0, 0, 0, 0, 0, 0x0a, 0x10, 1],
        BlockFault::BadBlock,
    ),
    (
        &[2, 9, 0x1c, 0, 0, 0, 0, 0, 0, 0, 0x0a, 0x10, 1, 0x80, 0],
        BlockFault::BadBlock,
    ),
    (&[], BlockFault::BadBlock),
];

#[test]
fn a_block_by_hand(rt: HostRuntime) -> Result<(), Fail> {
    let points = decode_block(rt.alloc(), &BLOCK)?;
    assert_eq!(rt; points.len(), 3);
    let (time, value) = *points.as_slice().last().ok_or("no point")?;
    assert_eq!(rt; time.get(), 30);
    assert_eq!(rt; value, Value::Int(1));
    Ok(())
}

#[test]
fn one_point(rt: HostRuntime) -> Result<(), Fail> {
    let time = Time::new(10).ok_or("no moment")?;
    let bytes = encode_block(rt.alloc(), &[(time, Value::Bool(true))])?;
    let by_hand = [2, 9, 0x1c, 0, 0, 0, 0, 0, 0, 0, 0x0a, 0x10, 1, 0x80];
    assert_eq!(rt; bytes.as_slice(), by_hand.as_slice());
    Ok(())
}

#[test]
fn other_bytes_are_refused(rt: HostRuntime) {
    for (bytes, fault) in REFUSED {
        assert_eq!(rt;
            decode_block(rt.alloc(), bytes).err(),
            Some(fault),
            "{bytes:?}"
        );
    }
}
