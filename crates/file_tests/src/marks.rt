use shard_disk::{Damage, FormatFault, Why};
use std::test::Fail;
use tombstones::{TombSet, read_v2, write_v2};
use tsdb_types::Time;

fn at(number: i64) -> Time {
    Time::new(number).unwrap_or_default()
}

// The range 1 to 2 of one key, byte by byte.
const ONE: [u8; 32] = [
    0x00, 0x00, 0x15, 0x02, 0x00, 0x00, 0x00, 0x08, 0x63, 0x70, 0x75, 0x23, 0x21, 0x7E, 0x23, 0x76,
    0x00, 0x00, 0x00, 0x00, 0x00, 0x00, 0x00, 0x01, 0x00, 0x00, 0x00, 0x00, 0x00, 0x00, 0x00, 0x02,
];

#[test]
fn one_range_is_these_bytes(rt: HostRuntime) -> Result<(), Fail> {
    let mut set = TombSet::new(rt.alloc());
    set.add(b"cpu#!~#v", at(1), at(2))?;
    let bytes = write_v2(rt.alloc(), &set)?;
    assert!(rt; bytes.as_slice() == ONE.as_slice());
    let back = read_v2(rt.alloc(), &ONE, 7)?.carry()?;
    assert!(rt; back.covers(b"cpu#!~#v", at(2)));
    assert!(rt; !back.covers(b"cpu#!~#v", at(3)));
    assert!(rt; !back.covers(b"cpu#!~#w", at(2)));
    Ok(())
}

#[test]
fn a_file_that_is_none_is_named(rt: HostRuntime) -> Result<(), Fail> {
    let head = read_v2(rt.alloc(), &ONE[1..], 7).err();
    assert!(rt;
        head == Some(FormatFault::Damaged(Damage {
            file: 7,
            offset: 0,
            why: Why::Head
        }))
    );
    let body = read_v2(rt.alloc(), &ONE[..31], 7).err();
    assert!(rt;
        body == Some(FormatFault::Damaged(Damage {
            file: 7,
            offset: 4,
            why: Why::Body
        }))
    );
    let none = read_v2(rt.alloc(), &ONE[..4], 7)?;
    assert!(rt; none.is_empty());
    Ok(())
}
