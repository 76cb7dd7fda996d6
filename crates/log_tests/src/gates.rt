use gate_log::{Frame, Log};
use mem_disk::{Fail, Fuse, MemDisk};
use std::alloc::{AllocError, Global};
use std::test::Fail as Failed;

/// An empty disk on which the disk's call at this place fails.
fn disk_failing_at(alloc: Global, place: u64) -> Result<MemDisk, AllocError> {
    let mut failing = Vec::new(alloc);
    failing.push(Fail::Disk(place))?;
    Ok(MemDisk::new(alloc, failing))
}

#[test]
fn a_record_is_added(rt: HostRuntime) -> Result<(), Failed> {
    let alloc = rt.alloc();
    let mut disk = MemDisk::new(alloc, Vec::new(alloc));
    let mut log = Log::make(&mut disk)?;
    assert_eq!(rt; log.file(), 0);
    assert_eq!(rt; disk.bytes(0), Some([0].as_slice()));
    log.append(&mut disk, &Frame::new(alloc, &[0xAA])?)?;
    // The checksum of the one byte AA is zlib's.
    let bytes = [1, 0, 0, 0, 1, 0xE4, 0x01, 0xA5, 0x7B, 0xAA, 0];
    assert_eq!(rt; disk.bytes(0), Some(bytes.as_slice()));
    assert!(rt; !log.in_doubt());
    Ok(())
}

// Making the log takes the calls 0 and 1, an append four: write and sync of the record, write and sync of its gate. So each sync fails here.
#[test]
fn a_fault_is_settled(rt: HostRuntime) -> Result<(), Failed> {
    let alloc = rt.alloc();
    let bytes = [1, 0, 0, 0, 1, 0x3C, 0x0C, 0x8E, 0xA1, 2, 0];
    for (place, doubt) in [(3, false), (5, true)] {
        let mut disk = disk_failing_at(alloc, place)?;
        let mut log = Log::make(&mut disk)?;
        assert!(rt; log.append(&mut disk, &Frame::new(alloc, &[1])?).is_err());
        assert_eq!(rt; log.in_doubt(), doubt);
        log.settle(&mut disk)?;
        assert_eq!(rt; (log.in_doubt(), gate_at(&disk, 0)), (false, Some(0)));
        log.append(&mut disk, &Frame::new(alloc, &[2])?)?;
        assert_eq!(rt; disk.bytes(0), Some(bytes.as_slice()));
    }
    Ok(())
}

#[test]
fn each_image_of_each_stop_has_two_or_three_records(rt: HostRuntime) -> Result<(), Failed> {
    let alloc = rt.alloc();
    for k in 0..6 {
        let mut disk = MemDisk::new(alloc, Vec::new(alloc));
        let mut log = Log::make(&mut disk)?;
        log.append(&mut disk, &Frame::new(alloc, &[1])?)?;
        log.append(&mut disk, &Frame::new(alloc, &[2, 2])?)?;
        let mut fuse = Fuse::new(disk, k);
        let stopped = log
            .append(&mut fuse, &Frame::new(alloc, &[3, 3, 3])?)
            .is_err();
        assert_eq!(rt; stopped, k < 4);
        let (fewest, most) = counts_left(alloc, &fuse.into_disk())?;
        // The third record can't be there before its gate is written, and is there once that is synced.
        assert_eq!(rt; fewest, if k < 4 { 2 } else { 3 });
        assert_eq!(rt; most, if k < 2 { 2 } else { 3 });
    }
    Ok(())
}

/// How few and how many records the images of a disk have, over choices of two bytes.
fn counts_left(alloc: Global, disk: &MemDisk) -> Result<(usize, usize), Failed> {
    let mut fewest = usize::MAX;
    let mut most = 0;
    for first in 0..=u8::MAX {
        for second in [0, 1, 2, first, u8::MAX] {
            let count = count_left(alloc, disk, &[first, second])?;
            fewest = fewest.min(count);
            most = most.max(count);
        }
    }
    Ok((fewest, most))
}

/// How many records the log in one image has, where they begin as the three do.
fn count_left(alloc: Global, disk: &MemDisk, choice: &[u8]) -> Result<usize, Failed> {
    let mut image = disk.image(choice)?;
    if image.bytes(0).is_none() {
        return Ok(0);
    }
    let (_, records) = Log::read(alloc, &mut image, 0)?;
    let all: [&[u8]; 3] = [&[1], &[2, 2], &[3, 3, 3]];
    for (record, expected) in records.iter().zip(all) {
        if record.as_slice() != expected {
            return Ok(0);
        }
    }
    Ok(records.len())
}

fn gate_at(disk: &MemDisk, place: usize) -> Option<u8> {
    match disk.bytes(0) {
        Some(bytes) => bytes.get(place).copied(),
        None => None,
    }
}
