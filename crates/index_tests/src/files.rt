use index_file::{Content, read, write};
use shard_disk::{Damage, FormatFault, Why};
use std::alloc::Global;
use std::test::Fail;

// The series 0 and 2 of `cpu` have the field `v`, and 2 has the tag `host=a`. The last four bytes are the checksum that
// zlib has of the others.
const ONE: [u8; 74] = [
    0x54, 0x53, 0x49, 0x50, 0x01, 0x00, 0x00, 0x00, 0x01, 0x00, 0x03, 0x63, 0x70, 0x75, 0x00, 0x00,
    0x00, 0x02, 0x00, 0x00, 0x00, 0x00, 0x00, 0x00, 0x00, 0x02, 0x00, 0x00, 0x00, 0x01, 0x00, 0x01,
    0x76, 0x00, 0x00, 0x00, 0x02, 0x00, 0x00, 0x00, 0x00, 0x00, 0x00, 0x00, 0x02, 0x00, 0x00, 0x00,
    0x01, 0x00, 0x04, 0x68, 0x6F, 0x73, 0x74, 0x00, 0x00, 0x00, 0x01, 0x00, 0x01, 0x61, 0x00, 0x00,
    0x00, 0x01, 0x00, 0x00, 0x00, 0x02, 0xAB, 0x83, 0x1D, 0x8A,
];

// No measurement.
const NONE: [u8; 13] = [
    0x54, 0x53, 0x49, 0x50, 0x01, 0x00, 0x00, 0x00, 0x00, 0xF2, 0x63, 0xE1, 0x1C,
];

fn fault_of(alloc: Global, bytes: &[u8]) -> Option<FormatFault> {
    read(alloc, bytes, 7).err()
}

fn damage(offset: u64, why: Why) -> Option<FormatFault> {
    Some(FormatFault::Damaged(Damage {
        file: 7,
        offset,
        why,
    }))
}

#[test]
fn a_file_is_its_content_both_ways(rt: HostRuntime) -> Result<(), Fail> {
    let alloc = rt.alloc();
    let content = read(alloc, ONE.as_slice(), 7)?;
    for cpu in content.measurements.as_slice() {
        assert!(rt; cpu.name.as_str() == "cpu" && cpu.ids.as_slice() == [0, 2].as_slice());
        for field in cpu.fields.as_slice() {
            assert!(rt; field.name.as_str() == "v" && field.ids.as_slice() == [0, 2].as_slice());
        }
        for tag in cpu.tags.as_slice() {
            assert!(rt; tag.key.as_str() == "host");
            for value in tag.values.as_slice() {
                assert!(rt; value.name.as_str() == "a" && value.ids.as_slice() == [2].as_slice());
            }
        }
    }
    let bytes = write(alloc, &content)?;
    assert!(rt; bytes.as_slice() == ONE.as_slice());
    let none = read(alloc, NONE.as_slice(), 7)?;
    assert!(rt; none.measurements.as_slice().is_empty());
    let bytes = write(alloc, &none)?;
    assert!(rt; bytes.as_slice() == NONE.as_slice());
    Ok(())
}

#[test]
fn damage_is_named_at_its_place(rt: HostRuntime) -> Result<(), Fail> {
    let alloc = rt.alloc();
    // twelve bytes, and another version
    assert!(rt; fault_of(alloc, &NONE[..12]) == damage(0, Why::Head));
    let mut other = NONE;
    other[4] = 2;
    assert!(rt; fault_of(alloc, other.as_slice()) == damage(0, Why::Head));
    // a byte of the name
    let mut other = ONE;
    other[11] = b'd';
    assert!(rt;
        fault_of(alloc, other.as_slice())
            == damage(
                70,
                Why::Sum {
                    stored: 0xAB83_1D8A,
                    computed: 0x6E16_021C,
                },
            )
    );
    // an id of a tag that no field has: the measurement is wrong
    let mut other = ONE;
    other[69] = 1;
    end_with(&mut other, [0x32, 0x8A, 0x4C, 0x30]);
    assert!(rt; fault_of(alloc, other.as_slice()) == damage(9, Why::Body));
    // one measurement more is wanted: behind the last one
    let mut other = ONE;
    other[8] = 2;
    end_with(&mut other, [0xAA, 0xDE, 0x3B, 0x5B]);
    assert!(rt; fault_of(alloc, other.as_slice()) == damage(70, Why::Body));
    // none is wanted
    let mut other = ONE;
    other[8] = 0;
    end_with(&mut other, [0x1D, 0x98, 0xFD, 0xFA]);
    assert!(rt; fault_of(alloc, other.as_slice()) == damage(9, Why::Body));
    Ok(())
}

// The bytes with another checksum.
fn end_with(bytes: &mut [u8; 74], sum: [u8; 4]) {
    bytes[70] = sum[0];
    bytes[71] = sum[1];
    bytes[72] = sum[2];
    bytes[73] = sum[3];
}
