//! What every disk does, in a table that each implementation runs.
ghost use Rattle.std.specs.Prelude.{◌≡◌, ◌≢◌, ℕ, IsTrue, IfOk, OnOk};
ghost use Rattle.shard_disk.specs.Directory.{IsPresent};
ghost use Rattle.shard_disk.specs.Stage.{Finished, Refused};

use host_disk::HostDisk;
use mem_disk::{Fuse, MemDisk};
use shard_disk::{Disk, Reader, Trouble, Writer};
use std::alloc::Global;
use std::fs;
use std::test::Fail;

/// A file of these bytes, over which others are written at a place, and how it reads then.
#[derive(Clone, Copy)]
struct Case {
    before: &'static [u8],
    at: u64,
    bytes: &'static [u8],
    after: &'static [u8],
}

const CASES: [Case; 7] = [
    Case {
        before: b"abc",
        at: 0,
        bytes: b"",
        after: b"abc",
    },
    Case {
        before: b"abc",
        at: 0,
        bytes: b"X",
        after: b"Xbc",
    },
    Case {
        before: b"abc",
        at: 1,
        bytes: b"YZ",
        after: b"aYZ",
    },
    Case {
        before: b"abc",
        at: 1,
        bytes: b"VWXYZ",
        after: b"aVWXYZ",
    },
    Case {
        before: b"abc",
        at: 3,
        bytes: b"de",
        after: b"abcde",
    },
    Case {
        before: b"",
        at: 0,
        bytes: b"q",
        after: b"q",
    },
    Case {
        before: b"",
        at: 0,
        bytes: b"",
        after: b"",
    },
];

/// What the first case wants that a disk doesn't meet. There is none where it meets them all.
fn first_unmet<D: Disk>(alloc: Global, disk: &mut D) -> Result<Option<&'static [u8]>, Trouble>
    requires { (n : ℕ) → (D.handed_out disk.old).readers n ≡ 0 }
{
    for case in &CASES {
        if !meets(alloc, disk, case)? {
            return Ok(Some(case.after));
        }
    }
    Ok(None)
}

/// Whether the file reads so, from the disk and from a reader, is listed, and isn't any more once it is removed.
fn meets<D: Disk>(alloc: Global, disk: &mut D, case: &Case) -> Result<bool, Trouble>
    requires { (n : ℕ) → (D.handed_out disk.old).readers n ≡ 0 }
    ensures { (n : ℕ) → (D.handed_out disk.new).readers n ≡ 0 }
{
    let no = put(disk, case.before)?;
    if disk.len(no)? < case.at {
        return Ok(false);
    }
    disk.write_at(no, case.at, case.bytes)?;
    disk.sync(no)?;
    let read = read_all(alloc, disk, no)?;
    let by_reader = read_by_reader(alloc, disk, no)?;
    let was_listed = disk.list()?.contains(&no);
    disk.remove(no)?;
    let is_listed = disk.list()?.contains(&no);
    Ok(
        read.as_slice() == case.after
            && by_reader.as_slice() == case.after
            && was_listed
            && !is_listed,
    )
}

/// Puts a file in.
fn put<D: Disk>(disk: &mut D, bytes: &[u8]) -> Result<u32, Trouble>
    ensures there { IfOk result (λ no. IsTrue D.tells → IsPresent (D.files disk.new) no) }
    ensures readers { (D.handed_out disk.new).readers ≡ (D.handed_out disk.old).readers }
{
    let mut writer = disk.begin()?;
    if let Err(trouble) = fill(&mut writer, bytes) {
        disk.drop_writer(writer);
        return Err(trouble);
    }
    match disk.adopt(writer) {
        Ok(no) => Ok(no),
        Err((writer, trouble)) => {
            disk.drop_writer(writer);
            Err(trouble)
        }
    }
}

fn fill<W: Writer>(writer: &mut W, bytes: &[u8]) -> Result<(), Trouble>
    requires { W.stage writer.old ≢ Refused }
    ensures { OnOk result (W.stage writer.new ≡ Finished) }
{
    writer.append(bytes)?;
    writer.finish()?;
    Ok(())
}

fn read_all<D: Disk>(alloc: Global, disk: &mut D, no: u32) -> Result<Vec<u8>, Trouble>
    requires { IsTrue D.tells → IsPresent (D.files disk.old) no }
    ensures files { D.files disk.new ≡ D.files disk.old }
    ensures handed_out { D.handed_out disk.new ≡ D.handed_out disk.old }
{
    let len = disk.len(no)?;
    let mut bytes = vec![in alloc; 0; len as usize]?;
    disk.read_at(no, 0, bytes.as_mut_slice())?;
    Ok(bytes)
}

fn read_by_reader<D: Disk>(alloc: Global, disk: &mut D, no: u32) -> Result<Vec<u8>, Trouble>
    requires { IsTrue D.tells → IsPresent (D.files disk.old) no }
    ensures files { D.files disk.new ≡ D.files disk.old }
    ensures readers { ((n : ℕ) → (D.handed_out disk.old).readers n ≡ 0) → (n : ℕ) → (D.handed_out disk.new).readers n ≡ 0 }
{
    let mut reader = disk.open(no)?;
    let bytes = read_reader(alloc, &mut reader);
    disk.close(reader);
    bytes
}

fn read_reader<R: Reader>(alloc: Global, reader: &mut R) -> Result<Vec<u8>, Trouble>
    ensures { R.file reader.new ≡ R.file reader.old }
{
    let mut bytes = vec![in alloc; 0; reader.len() as usize]?;
    reader.read_at(0, bytes.as_mut_slice())?;
    Ok(bytes)
}

#[test]
fn a_disk_in_memory_meets_every_case(rt: HostRuntime) -> Result<(), Fail> {
    let alloc = rt.alloc();
    let mut disk = MemDisk::new(alloc, Vec::new(alloc));
    assert_eq!(rt; first_unmet(alloc, &mut disk)?, None);
    Ok(())
}

#[test]
fn a_fuse_meets_every_case(rt: HostRuntime) -> Result<(), Fail> {
    let alloc = rt.alloc();
    let disk = MemDisk::new(alloc, Vec::new(alloc));
    let mut fuse = Fuse::new(disk, u64::MAX);
    assert_eq!(rt; first_unmet(alloc, &mut fuse)?, None);
    Ok(())
}

#[test]
fn a_folder_meets_every_case(rt: HostRuntime) -> Result<(), Fail> {
    let temporary = std::env::temp_dir(&rt)?;
    let path = format!(in rt.alloc(); "{}/tsmd_disk_cases", temporary.as_path().to_string_lossy())?;
    let path = path.as_str();
    let _ = fs::remove_dir_all(&rt, path);
    let mut disk = HostDisk::open(rt, path)?;
    assert_eq!(rt; first_unmet(rt.alloc(), &mut disk)?, None);
    drop(disk);
    fs::remove_dir_all(&rt, path)?;
    Ok(())
}
