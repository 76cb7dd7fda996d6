ghost use Rattle.std.specs.Prelude.{◌≡◌, ◌≢◌, All, OnOk};
ghost use Rattle.shard_disk.specs.Stage.{Finished, Refused};
ghost use Rattle.tsm_file.specs.ReadBlocks.{IsWithin};

use mem_disk::{Fail, MemDisk, MemReader};
use point_model::CursorFault;
use shard_disk::{Damage, Disk, Trouble, Why, Writer};
use std::alloc::{AllocError, Global};
use std::test::Fail as Failed;
use tombstones::TombSet;
use tsdb_types::{Time, Value};
use tsm_file::{TsmCursor, TsmIndex};

// The key `cpu#!~#v` with the points (10, 1), (20, 1) and (30, 1), byte by byte. The checksum at 5 is zlib's.
const FILE: [u8; 82] = [
    0x16, 0xD1, 0x16, 0xD1, 0x01, 0xD8, 0x26, 0xC8, 0x64, 0x01, 0x0B, 0x21, 0x00, 0x00, 0x00, 0x00,
    0x00, 0x00, 0x00, 0x0A, 0x01, 0x03, 0x20, 0x00, 0x00, 0x00, 0x00, 0x00, 0x00, 0x00, 0x02, 0x00,
    0x02, 0x00, 0x08, 0x63, 0x70, 0x75, 0x23, 0x21, 0x7E, 0x23, 0x76, 0x01, 0x00, 0x01, 0x00, 0x00,
    0x00, 0x00, 0x00, 0x00, 0x00, 0x0A, 0x00, 0x00, 0x00, 0x00, 0x00, 0x00, 0x00, 0x1E, 0x00, 0x00,
    0x00, 0x00, 0x00, 0x00, 0x00, 0x05, 0x00, 0x00, 0x00, 0x1C, 0x00, 0x00, 0x00, 0x00, 0x00, 0x00,
    0x00, 0x21,
];

const KEY: &[u8] = b"cpu#!~#v";

fn at(number: i64) -> Time {
    Time::new(number).unwrap_or_default()
}

/// A reader of a file of these bytes, whose read at this place fails.
fn opened(alloc: Global, bytes: &[u8], failing: Option<u64>) -> Result<MemReader, Trouble> {
    let mut named = Vec::new(alloc);
    if let Some(place) = failing {
        named.push(Fail::Reader(2, place))?;
    }
    let mut disk = MemDisk::new(alloc, named);
    let mut writer = disk.begin()?;
    if let Err(trouble) = fill(&mut writer, bytes) {
        disk.drop_writer(writer);
        return Err(trouble);
    }
    match disk.adopt(writer) {
        Ok(no) => disk.open(no),
        Err((writer, trouble)) => {
            disk.drop_writer(writer);
            Err(trouble)
        }
    }
}

fn fill<W: Writer>(writer: &mut W, bytes: &[u8]) -> Result<(), Trouble>
    requires { W.stage writer.old ≢ Refused }
    ensures { OnOk result (W.stage writer.new ≡ Finished) }
{
    writer.append(bytes)?;
    writer.finish()?;
    Ok(())
}

/// The times of a cursor's points, up to 5,000 of them.
fn drained(
    alloc: Global,
    cursor: &mut TsmCursor,
    reader: &mut MemReader,
    tombs: &TombSet,
) -> Result<Vec<i64>, CursorFault>
    requires { All (IsWithin reader.old.bytes.items) cursor.old.blocks }
{
    let mut times = Vec::new(alloc);
    for _ in 0..5000 {
        match cursor.next(reader, tombs)? {
            Some((time, _)) => times.push(time.get())?,
            None => return Ok(times),
        }
    }
    Ok(times)
}

/// What is asked for, and how.
#[derive(Clone, Copy)]
struct Ask {
    from: i64,
    to: i64,
    descending: bool,
}

/// The times that a cursor gives over the file that is read.
fn times_of(
    alloc: Global,
    reader: &mut MemReader,
    key: &[u8],
    ask: Ask,
    tombs: &TombSet,
) -> Result<Vec<i64>, CursorFault> {
    let index = TsmIndex::read(alloc, reader, 7)?;
    let from = at(ask.from);
    let to = at(ask.to);
    let mut cursor = TsmCursor::new(alloc, &index, key, from, to, ask.descending)?;
    drained(alloc, &mut cursor, reader, tombs)
}

/// The fault of a file of these bytes, if it has one.
fn fault_of(alloc: Global, bytes: &[u8]) -> Result<Option<CursorFault>, Trouble> {
    let mut reader = opened(alloc, bytes, None)?;
    Ok(TsmIndex::read(alloc, &mut reader, 7).err())
}

fn damaged(offset: u64, why: Why) -> Option<CursorFault> {
    Some(CursorFault::Damaged(Damage {
        file: 7,
        offset,
        why,
    }))
}

#[test]
fn wrong_files_are_named(rt: HostRuntime) -> Result<(), Failed> {
    let alloc = rt.alloc();
    assert_eq!(rt; fault_of(alloc, &FILE)?, None);
    assert_eq!(rt; fault_of(alloc, &FILE[..12])?, damaged(0, Why::Foot));
    // place, byte, offset, why: another version; a footer past its own place, and one at it, so that no key is left; a
    // block that ends before the index; a key without its mark; a block whose first time is behind its last
    let wrong = [
        (4, 3, 0, Why::Head),
        (81, 75, 74, Why::Foot),
        (81, 74, 74, Why::Keys),
        (73, 27, 33, Why::Keys),
        (38, 0x24, 33, Why::Keys),
        (53, 31, 33, Why::Keys),
    ];
    for (place, byte, offset, why) in wrong {
        let mut bytes = FILE;
        assert!(rt; place < 82);
        bytes[place] = byte;
        assert_eq!(rt; fault_of(alloc, &bytes)?, damaged(offset, why));
    }
    Ok(())
}

#[test]
fn a_cursor_gives_the_live_points(rt: HostRuntime) -> Result<(), Failed> {
    let alloc = rt.alloc();
    let none = TombSet::new(alloc);
    let mut middle = TombSet::new(alloc);
    middle.add(KEY, at(11), at(20))?;
    middle.add(b"cpu#!~#w", at(0), at(99))?;
    let all = Ask {
        from: 0,
        to: 99,
        descending: false,
    };
    let mut reader = opened(alloc, &FILE, None)?;
    let times = times_of(alloc, &mut reader, KEY, all, &none)?;
    assert_eq!(rt; times.as_slice(), [10, 20, 30].as_slice());
    let times = times_of(alloc, &mut reader, KEY, all, &middle)?;
    assert_eq!(rt; times.as_slice(), [10, 30].as_slice());
    let falling = Ask {
        from: 10,
        to: 29,
        descending: true,
    };
    let times = times_of(alloc, &mut reader, KEY, falling, &none)?;
    assert_eq!(rt; times.as_slice(), [20, 10].as_slice());
    // header, footer, index and block, four times over but the last, which reads no block
    assert_eq!(rt; reader.reads(), 12);
    let behind = Ask {
        from: 31,
        to: 99,
        descending: false,
    };
    assert!(rt; times_of(alloc, &mut reader, KEY, behind, &none)?.is_empty());
    assert_eq!(rt; reader.reads(), 15);
    assert!(rt; times_of(alloc, &mut reader, b"cpu#!~#w", all, &none)?.is_empty());
    Ok(())
}

#[test]
fn wrong_blocks_are_named(rt: HostRuntime) -> Result<(), Failed> {
    let alloc = rt.alloc();
    let none = TombSet::new(alloc);
    let all = Ask {
        from: 0,
        to: 99,
        descending: false,
    };
    let sum = Why::Sum {
        stored: 0xD826_C864,
        computed: 0x4529_2912,
    };
    // one bit of the block; another kind, another first and another last time in the index
    for (place, byte, why) in [
        (19, 0x0B, sum),
        (43, 2, Why::Block),
        (53, 9, Why::Block),
        (61, 31, Why::Block),
    ] {
        let mut bytes = FILE;
        assert!(rt; place < 82);
        bytes[place] = byte;
        let mut reader = opened(alloc, &bytes, None)?;
        let fault = times_of(alloc, &mut reader, KEY, all, &none).err();
        assert_eq!(rt; fault, damaged(5, why));
    }
    // each read fails in turn: the header, the footer, the index and the block
    for place in 0..4 {
        let mut reader = opened(alloc, &FILE, Some(place))?;
        let fault = times_of(alloc, &mut reader, KEY, all, &none).err();
        assert_eq!(rt; fault, Some(CursorFault::Fault));
    }
    Ok(())
}
