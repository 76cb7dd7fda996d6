ghost use Rattle.std.specs.Prelude.{OnOk};
ghost use Rattle.shard_disk.specs.Directory.{IsPresent};

use gate_log::{Frame, Log, LogFault};
use mem_disk::MemDisk;
use point_model::Entry;
use shard_disk::{Damage, Disk, Why};
use std::alloc::{AllocError, Global};
use std::test::Fail as Failed;
use tsdb_types::Seed;
use wal_store::{Place, Replay, Wal};

// The body of the record of entry 1, by which client 0 writes `cpu v=1i 10`.
const BODY: [u8; 46] = [
    0x00, 0x00, 0x00, 0x00, 0x00, 0x00, 0x00, 0x01, 0x00, 0x00, 0x00, 0x00, 0x01, 0x00, 0x00, 0x00,
    0x01, 0x00, 0x03, 0x63, 0x70, 0x75, 0x00, 0x00, 0x00, 0x01, 0x00, 0x01, 0x76, 0x00, 0x00, 0x00,
    0x00, 0x00, 0x00, 0x00, 0x0A, 0x01, 0x00, 0x00, 0x00, 0x00, 0x00, 0x00, 0x00, 0x01,
];

/// The record of the same entry with another number, which takes 55 bytes of a log.
fn numbered(alloc: Global, number: u8) -> Result<Frame, AllocError> {
    let mut body = BODY;
    body[7] = number;
    Frame::new(alloc, &body)
}

fn is_there(disk: &MemDisk, file: u32) -> Result<(), Failed>
    ensures { OnOk result (IsPresent (⟦<MemDisk as Disk>⟧.files disk.now) file) }
{
    match disk.bytes(file) {
        Some(_) => Ok(()),
        None => Err("no such file".into()),
    }
}

/// The place of the next entry, which client 0 writes.
fn next_place(replay: &mut Replay) -> Result<Place, Failed> {
    let Some((place, entry)) = replay.next()? else {
        return Err("no entry".into());
    };
    let Entry::Write { client: 0, points } = entry else {
        return Err("another entry".into());
    };
    if points.points().len() != 1 {
        return Err("other points".into());
    }
    Ok(place)
}

#[test]
fn entries_past_the_floor_have_their_places(rt: HostRuntime) -> Result<(), Failed> {
    let alloc = rt.alloc();
    let mut disk = MemDisk::new(alloc, Vec::new(alloc));
    let mut first = Log::make(&mut disk)?;
    first.append(&mut disk, &numbered(alloc, 1)?)?;
    first.append(&mut disk, &numbered(alloc, 2)?)?;
    first.append(&mut disk, &numbered(alloc, 3)?)?;
    let mut second = Log::make(&mut disk)?;
    second.append(&mut disk, &numbered(alloc, 4)?)?;
    is_there(&disk, 0)?;
    let mut replay = Replay::open(alloc, Seed::new(7), &mut disk, 0, 1)?;
    assert_eq!(rt;
        next_place(&mut replay)?,
        Place {
            file: 0,
            offset: 55
        }
    );
    assert_eq!(rt;
        next_place(&mut replay)?,
        Place {
            file: 0,
            offset: 110
        }
    );
    let None = replay.next()? else {
        return Err("an entry more".into());
    };
    is_there(&disk, 1)?;
    replay.go_on(&mut disk, 1)?;
    assert_eq!(rt; next_place(&mut replay)?, Place { file: 1, offset: 0 });
    let None = replay.next()? else {
        return Err("an entry more".into());
    };
    let wal = replay.into_wal();
    assert_eq!(rt; (wal.segments(), wal.last()), ([0, 1].as_slice(), 4));
    assert_eq!(rt; (wal.settled(3), wal.settled(2)), (1, 0));
    Ok(())
}

#[test]
fn a_number_that_is_not_the_next_one_is_named(rt: HostRuntime) -> Result<(), Failed> {
    let alloc = rt.alloc();
    let mut disk = MemDisk::new(alloc, Vec::new(alloc));
    let mut log = Log::make(&mut disk)?;
    log.append(&mut disk, &numbered(alloc, 1)?)?;
    log.append(&mut disk, &numbered(alloc, 3)?)?;
    let (_, entries) = Wal::replay(alloc, Seed::new(7), &mut disk, &[0], 2)?;
    assert_eq!(rt; entries.len(), 1);
    let fault = Wal::replay(alloc, Seed::new(7), &mut disk, &[0], 0).err();
    assert!(rt;
        matches!(
            fault,
            Some(LogFault::Damaged(Damage {
                file: 0,
                offset: 55,
                why: Why::Number
            }))
        )
    );
    Ok(())
}
