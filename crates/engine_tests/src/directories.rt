use crate::engines::{Seen, after, run};
use mem_disk::MemDisk;
use shard_steps::Settings;
use std::test::Fail;

// One edit that names series file 1, segment 2 and floor 0, and the closed gate. The checksum is zlib's.
const FIRST: [u8; 33] = [
    0x01, 0x00, 0x00, 0x00, 0x17, 0xC4, 0x2C, 0x71, 0xEC, 0x00, 0x00, 0x00, 0x03, 0x07, 0x00, 0x00,
    0x00, 0x01, 0x01, 0x00, 0x00, 0x00, 0x02, 0x06, 0x00, 0x00, 0x00, 0x00, 0x00, 0x00, 0x00, 0x00,
    0x00,
];

#[test]
fn a_new_directory_is_these_bytes(rt: HostRuntime) -> Result<(), Fail> {
    let alloc = rt.alloc();
    let disk = MemDisk::new(alloc, Vec::new(alloc));
    let (disk, seen) = run(&rt, disk, Settings::usual(), &[]);
    assert_eq!(rt; seen, Seen::all(None, after(0)));
    assert_eq!(rt; disk.bytes(0), Some(FIRST.as_slice()));
    assert_eq!(rt; disk.bytes(1), Some([0].as_slice()));
    assert_eq!(rt; disk.bytes(2), Some([0].as_slice()));
    assert!(rt; disk.bytes(3).is_none());
    let (disk, seen) = run(&rt, disk.image(&[])?, Settings::usual(), &[]);
    assert_eq!(rt; seen, Seen::all(None, after(0)));
    assert_eq!(rt; disk.bytes(0), Some(FIRST.as_slice()));
    assert_eq!(rt; disk.bytes(2), Some([0].as_slice()));
    Ok(())
}
