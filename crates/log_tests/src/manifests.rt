ghost use Rattle.std.specs.Prelude.{◌≡◌, ◌≢◌, OnOk};
ghost use Rattle.shard_disk.specs.Stage.{Finished, Refused};

use manifest_log::Manifest;
use mem_disk::MemDisk;
use shard_disk::{Disk, Trouble, Writer};
use std::alloc::Global;
use std::test::Fail;

// One record with each of the changes: the segments 11 and 12 added and 11 forgotten, the floor 9, the file 13 of
// generation 9 with tombstones in 15 and then in 16, the series file 17, the index in 18 and 19 (hexadecimal).
const EACH: [u8; 95] = [
    0x01, 0x00, 0x00, 0x00, 0x55, 0x59, 0x9E, 0xDF, 0xDC, 0x00, 0x00, 0x00, 0x08, 0x01, 0x00, 0x00,
    0x00, 0x11, 0x01, 0x00, 0x00, 0x00, 0x12, 0x02, 0x00, 0x00, 0x00, 0x11, 0x06, 0x00, 0x00, 0x00,
    0x00, 0x00, 0x00, 0x00, 0x09, 0x03, 0x00, 0x00, 0x00, 0x13, 0x00, 0x00, 0x00, 0x00, 0x00, 0x00,
    0x00, 0x09, 0x00, 0x00, 0x00, 0x02, 0x03, 0x00, 0x00, 0x00, 0x00, 0x00, 0x00, 0x00, 0x07, 0x00,
    0x00, 0x00, 0x05, 0x00, 0x00, 0x00, 0x15, 0x05, 0x00, 0x00, 0x00, 0x13, 0x00, 0x00, 0x00, 0x16,
    0x07, 0x00, 0x00, 0x00, 0x17, 0x08, 0x00, 0x00, 0x00, 0x18, 0x00, 0x00, 0x00, 0x1A, 0x00,
];

/// A disk whose file 0 has these bytes.
fn disk_of(alloc: Global, bytes: &[u8]) -> Result<MemDisk, Trouble> {
    let mut disk = MemDisk::new(alloc, Vec::new(alloc));
    let mut writer = disk.begin()?;
    if let Err(trouble) = fill(&mut writer, bytes) {
        disk.drop_writer(writer);
        return Err(trouble);
    }
    match disk.adopt(writer) {
        Ok(_) => Ok(disk),
        Err((writer, trouble)) => {
            disk.drop_writer(writer);
            Err(trouble)
        }
    }
}

fn fill<W: Writer>(writer: &mut W, bytes: &[u8]) -> Result<(), Trouble>
    requires { W.stage writer.old ≢ Refused }
    ensures { OnOk result (W.stage writer.new ≡ Finished) }
{
    writer.append(bytes)?;
    writer.finish()?;
    Ok(())
}

#[test]
fn each_change_is_read(rt: HostRuntime) -> Result<(), Fail> {
    let mut disk = disk_of(rt.alloc(), &EACH)?;
    let (_, directory) = Manifest::read(rt.alloc(), &mut disk)?.ok_or("no edit")?;
    assert!(rt; directory.segments.as_slice() == [0x12].as_slice());
    assert_eq!(rt; directory.files.as_slice().len(), 1);
    let row = directory.files.as_slice()[0];
    assert_eq!(rt;
        (row.no, row.generation, row.sequence, row.level),
        (0x13, 9, 2, 3)
    );
    assert_eq!(rt;
        (row.points, row.most_entries, row.tomb),
        (7, 5, Some(0x16))
    );
    assert_eq!(rt; (directory.floor, directory.series), (9, Some(0x17)));
    assert_eq!(rt;
        (directory.index_log, directory.index_file),
        (Some(0x18), Some(0x19))
    );
    Ok(())
}
