ghost use Rattle.std.specs.Prelude.{IsTrue};
ghost use Rattle.shard_disk.specs.Directory.{IsPresent};

use mem_disk::{Fail, MemDisk};
use shard_disk::{Disk, Trouble, Writer};
use std::test::Fail as Failed;

/// A file of these bytes, adopted.
fn adopted(disk: &mut MemDisk, bytes: &[u8]) -> Result<u32, Trouble> {
    let mut writer = disk.begin()?;
    if writer.append(bytes).is_err() {
        disk.drop_writer(writer);
        return Err(Trouble::Memory);
    }
    if writer.finish().is_err() {
        disk.drop_writer(writer);
        return Err(Trouble::Fault);
    }
    match disk.adopt(writer) {
        Ok(no) => Ok(no),
        Err((writer, trouble)) => {
            disk.drop_writer(writer);
            Err(trouble)
        }
    }
}

fn is_there(disk: &MemDisk, no: u32) -> bool
    ensures { IsTrue result → IsPresent (⟦<MemDisk as Disk>⟧.files disk.now) no }
{
    disk.bytes(no).is_some()
}

#[test]
fn a_choice_picks_what_a_write_leaves(rt: HostRuntime) -> Result<(), Failed> {
    let alloc = rt.alloc();
    let mut disk = MemDisk::new(alloc, Vec::new(alloc));
    let no = adopted(&mut disk, b"abc")?;
    assert!(rt; is_there(&disk, no));
    disk.write_at(no, 0, b"WXYZ")?;
    let cases: [(&[u8], &[u8]); 5] = [
        (b"", &[0, 0, 0, 0]),
        (&[0], &[0, 0, 0, 0]),
        (&[1], &[1, 1, 1, 1]),
        (&[0, 1], &[1, 0, 1, 0]),
        // The one byte past the old end is lost.
        (&[2, 7], &[7, 2, 7]),
    ];
    for (choice, left) in cases {
        let image = disk.image(choice)?;
        assert_eq!(rt; image.bytes(no), Some(left));
    }
    // After a sync nothing is open.
    assert!(rt; is_there(&disk, no));
    disk.sync(no)?;
    assert_eq!(rt; disk.image(&[1])?.bytes(no), Some(b"WXYZ".as_slice()));
    Ok(())
}

#[test]
fn a_choice_picks_which_files_are_left(rt: HostRuntime) -> Result<(), Failed> {
    let alloc = rt.alloc();
    // The second adoption is refused after it was begun.
    let mut disk = MemDisk::new(alloc, [Fail::Disk(3)].to_vec(alloc)?);
    let kept = adopted(&mut disk, b"a")?;
    assert_eq!(rt; adopted(&mut disk, b"b"), Err(Trouble::Fault));
    for (choice, left) in [([0], None), ([1], Some(b"b".as_slice()))] {
        let image = disk.image(&choice)?;
        assert_eq!(rt; image.bytes(kept), Some(b"a".as_slice()));
        assert_eq!(rt; image.bytes(1), left);
    }
    Ok(())
}
