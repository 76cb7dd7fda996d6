ghost use Rattle.std.specs.Prelude.{◌≡◌, ◌+◌, ◌≤◌, ◌<◌, ℕ, List, length, Option, None, Some, IsTrue, OnOk};
ghost use Rattle.tsdb_types.specs.Keys.{MarkAt};
ghost use Rattle.tsm_format.specs.Rows.{IsAbove};
ghost use Rattle.tsm_file.specs.Tried.{HasPushed};

use mem_disk::MemDisk;
use shard_disk::{Disk, Trouble, Writer};
use std::alloc::Global;
use std::test::Fail as Failed;
use tsdb_types::{Time, Value};
use tsm_file::{TsmFacts, TsmWriter};

// The key `cpu#!~#v` with the points (10, 1), (20, 1) and (30, 1), byte by byte. The checksum at 5 is zlib's.
const FILE: [u8; 82] = [
    0x16, 0xD1, 0x16, 0xD1, 0x01, 0xD8, 0x26, 0xC8, 0x64, 0x01, 0x0B, 0x21, 0x00, 0x00, 0x00, 0x00,
    0x00, 0x00, 0x00, 0x0A, 0x01, 0x03, 0x20, 0x00, 0x00, 0x00, 0x00, 0x00, 0x00, 0x00, 0x02, 0x00,
    0x02, 0x00, 0x08, 0x63, 0x70, 0x75, 0x23, 0x21, 0x7E, 0x23, 0x76, 0x01, 0x00, 0x01, 0x00, 0x00,
    0x00, 0x00, 0x00, 0x00, 0x00, 0x0A, 0x00, 0x00, 0x00, 0x00, 0x00, 0x00, 0x00, 0x1E, 0x00, 0x00,
    0x00, 0x00, 0x00, 0x00, 0x00, 0x05, 0x00, 0x00, 0x00, 0x1C, 0x00, 0x00, 0x00, 0x00, 0x00, 0x00,
    0x00, 0x21,
];

const KEY: [u8; 8] = *b"cpu#!~#v";

/// The value 1 at so many times of a key that comes behind the last one: 10, 20, 30 and so on.
fn push_run<W: Writer>(writer: &mut TsmWriter<W>, key: &[u8], count: u16) -> Result<(), Trouble>
    requires before { (most : ℕ) × (last : Option (List ℕ)) × HasPushed (IsTrue W.tells) W.content W.stage writer.old most last
        × IsAbove last key.now × (most < 1000000) }
    requires mark { (at : ℕ) × MarkAt key.now at }
    requires fits { length key.now ≤ 65535 }
    requires some { 0 < count }
    ensures { OnOk result ((most : ℕ) (last : Option (List ℕ)) → HasPushed (IsTrue W.tells) W.content W.stage writer.old most last → IsAbove last key.now
        → HasPushed (IsTrue W.tells) W.content W.stage writer.new (most + count) (Some key.now)) }
{
    for n in 0..count {
        let Some(time) = Time::new(i64::from(10 * u32::from(n) + 10)) else {
            return Err(Trouble::Memory);
        };
        writer.push(key, time, Value::Int(1))?;
    }
    Ok(())
}

/// So many points of the key.
fn fill<W: Writer>(writer: &mut TsmWriter<W>, count: u16) -> Result<(), Trouble>
    requires new { HasPushed (IsTrue W.tells) W.content W.stage writer.old 0 None }
    requires some { 0 < count }
    ensures { OnOk result ((most : ℕ) × (last : List ℕ) × HasPushed (IsTrue W.tells) W.content W.stage writer.new most (Some last)) }
{
    push_run(writer, &KEY, count)?;
    Ok(())
}

/// A file with so many points of the key, and its facts.
fn file_of(alloc: Global, disk: &mut MemDisk, count: u16) -> Result<TsmFacts, Trouble>
    requires { 0 < count }
{
    let device = disk.begin()?;
    let mut writer = match TsmWriter::new(alloc, device) {
        Ok(writer) => writer,
        Err((device, trouble)) => {
            disk.drop_writer(device);
            return Err(trouble);
        }
    };
    if let Err(trouble) = fill(&mut writer, count) {
        disk.drop_writer(writer.give_up());
        return Err(trouble);
    }
    match writer.finish() {
        Ok((device, facts)) => {
            if let Err((device, trouble)) = disk.adopt(device) {
                disk.drop_writer(device);
                return Err(trouble);
            }
            Ok(facts)
        }
        Err((device, trouble)) => {
            disk.drop_writer(device);
            Err(trouble)
        }
    }
}

#[test]
fn three_points_are_82_bytes(rt: HostRuntime) -> Result<(), Failed> {
    let alloc = rt.alloc();
    let mut disk = MemDisk::new(alloc, Vec::new(alloc));
    let facts = file_of(alloc, &mut disk, 3)?;
    assert_eq!(rt; disk.bytes(0), Some(FILE.as_slice()));
    assert_eq!(rt; facts.points, 3);
    assert_eq!(rt; facts.most_entries, 1);
    assert_eq!(rt; facts.index.len(), 1);
    Ok(())
}

#[test]
fn blocks_have_a_thousand_points(rt: HostRuntime) -> Result<(), Failed> {
    let alloc = rt.alloc();
    for (count, blocks) in [(1000, 1), (1001, 2), (2000, 2), (2001, 3)] {
        let mut disk = MemDisk::new(alloc, Vec::new(alloc));
        let facts = file_of(alloc, &mut disk, count)?;
        assert_eq!(rt; facts.points, u64::from(count));
        assert_eq!(rt; facts.most_entries, blocks);
    }
    Ok(())
}
