//! The disk of a folder: which system calls it makes in which order, what is left alone, and what a second opening finds.
ghost use Rattle.std.specs.Prelude.{◌≡◌, ℕ, IfOk};

use crate::watched::Watched;
use host_disk::{Folder, HostDisk, HostFolder};
use shard_disk::{Disk, Trouble, Writer};
use std::fs::{self, File};
use std::test::Fail;
use std::{env, io, process};

/// A place of one test, which isn't there yet.
fn room(rt: HostRuntime, name: &str) -> io::Result<String> {
    let temporary = env::temp_dir(&rt)?;
    let temporary = temporary.as_path().to_string_lossy();
    let id = process::id(rt.process());
    Ok(format!(in rt.alloc(); "{temporary}/tsmd_{name}_{id}")?)
}

/// A disk over a folder of this place that is watched: its calls go to the file beside it.
fn watched(rt: HostRuntime, path: &str, failing: &'static str) -> io::Result<HostDisk<Watched>>
    ensures { IfOk result (λ disk. (n : ℕ) → (⟦<HostDisk<Watched> as Disk>⟧.handed_out disk).readers n ≡ 0) }
{
    let folder = HostFolder::new(rt, format!(in rt.alloc(); "{path}/disk")?.as_str())?;
    let trace = File::create(&rt, format!(in rt.alloc(); "{path}/calls")?.as_str())?;
    match HostDisk::over(rt.alloc(), Watched::new(rt.alloc(), folder, trace, failing)) {
        Ok(disk) => Ok(disk),
        Err(_) => Err(io::Error::from(io::ErrorKind::Other)),
    }
}

/// What was called.
fn calls(rt: HostRuntime, path: &str) -> io::Result<String> {
    fs::read_to_string(&rt, format!(in rt.alloc(); "{path}/calls")?.as_str())
}

/// Puts a file in.
fn put<F: Folder + Send>(disk: &mut HostDisk<F>, bytes: &[u8]) -> Result<u32, Trouble>
where
    F::File: Send,
{
    let mut writer = disk.begin()?;
    if writer.append(bytes).is_err() || writer.finish().is_err() {
        disk.drop_writer(writer);
        return Err(Trouble::Fault);
    }
    match disk.adopt(writer) {
        Ok(no) => Ok(no),
        Err((writer, trouble)) => {
            disk.drop_writer(writer);
            Err(trouble)
        }
    }
}

/// The bytes of a file of three.
fn three<F: Folder + Send>(disk: &mut HostDisk<F>, no: u32) -> Option<[u8; 3]>
where
    F::File: Send,
{
    let mut bytes = [0; 3];
    match disk.read_at(no, 0, &mut bytes) {
        Ok(()) => Some(bytes),
        Err(_) => None,
    }
}

const ORDER: &str = "sync folder
create 0.tmp
write 0.tmp
write 0.tmp
write 0.tmp
sync 0.tmp
rename to 0.tsd
sync folder
create 1.tmp
write 1.tmp
sync 1.tmp
rename to 1.tsd
sync folder
open 0.tsd
write 0.tsd
write 0.tsd
write 0.tsd
write 0.tsd
write 0.tsd
sync 0.tsd
open 0.tsd
write 0.tsd
sync 0.tsd
";

const REMOVED: &str = "sync folder
remove 1.tsd
sync folder
";

fn write_twice(disk: &mut HostDisk<Watched>) -> Result<(), Trouble> {
    put(disk, b"abc")?;
    put(disk, b"d")?;
    disk.write_at(0, 1, b"BC")?;
    disk.sync(0)?;
    disk.write_at(0, 0, b"A")?;
    disk.sync(0)?;
    Ok(())
}

// Two bytes written at a time are two writes; before the first sync of a file all its bytes are written again.
#[test]
fn each_step_is_durable_before_the_next(rt: HostRuntime) -> Result<(), Fail> {
    let path = room(rt, "order")?;
    let mut disk = watched(rt, path.as_str(), "")?;
    let written = write_twice(&mut disk);
    drop(disk);
    assert_eq!(rt; written, Ok(()));
    assert_eq!(rt; calls(rt, path.as_str())?.as_str(), ORDER);
    let mut disk = watched(rt, path.as_str(), "")?;
    let removed = disk.remove(1);
    let read = three(&mut disk, 0);
    drop(disk);
    assert_eq!(rt; removed, Ok(()));
    assert_eq!(rt; read, Some(*b"ABC"));
    assert_eq!(rt; calls(rt, path.as_str())?.as_str(), REMOVED);
    fs::remove_dir_all(&rt, path.as_str())?;
    Ok(())
}

fn write_both(disk: &mut HostDisk<Watched>) -> Result<(), Trouble> {
    put(disk, b"abc")?;
    put(disk, b"def")?;
    disk.write_at(0, 0, b"x")?;
    disk.write_at(1, 0, b"y")
}

const AGAIN: &str = "sync folder
open 1.tsd
write 1.tsd
write 1.tsd
write 1.tsd
sync 1.tsd
";

// A sync fails, and then another file's, and an adoption; what the next opening syncs first it writes again.
#[test]
fn a_failed_sync_ends_all_promises(rt: HostRuntime) -> Result<(), Fail> {
    let path = room(rt, "doubt")?;
    let mut disk = watched(rt, path.as_str(), "sync 0.tsd")?;
    let written = write_both(&mut disk);
    let synced = (disk.sync(0).is_ok(), disk.sync(1).is_ok());
    let adopted = put(&mut disk, b"ghi").is_ok();
    drop(disk);
    let mut disk = watched(rt, path.as_str(), "")?;
    let synced_again = disk.sync(1).is_ok();
    let read = (three(&mut disk, 0), three(&mut disk, 1));
    drop(disk);
    assert_eq!(rt; written, Ok(()));
    assert_eq!(rt; synced, (false, false));
    assert!(rt; !adopted);
    assert!(rt; synced_again);
    assert_eq!(rt; read, (Some(*b"xbc"), Some(*b"yef")));
    assert_eq!(rt; calls(rt, path.as_str())?.as_str(), AGAIN);
    fs::remove_dir_all(&rt, path.as_str())?;
    Ok(())
}

// A rename fails, and then another adoption and each sync; the next opening goes on with the number above those there.
#[test]
fn a_failed_adoption_ends_all_promises(rt: HostRuntime) -> Result<(), Fail> {
    let path = room(rt, "adoption")?;
    let mut disk = watched(rt, path.as_str(), "rename to 1.tsd")?;
    let adopted = (
        put(&mut disk, b"abc"),
        put(&mut disk, b"def"),
        put(&mut disk, b"ghi"),
    );
    let synced = disk.sync(0).is_ok();
    drop(disk);
    let mut disk = watched(rt, path.as_str(), "")?;
    let adopted_again = (put(&mut disk, b"jkl"), put(&mut disk, b"mno"));
    let read = (
        three(&mut disk, 0),
        three(&mut disk, 1),
        three(&mut disk, 2),
    );
    drop(disk);
    assert_eq!(rt; adopted, (Ok(0), Err(Trouble::Fault), Err(Trouble::Fault)));
    assert!(rt; !synced);
    assert_eq!(rt; adopted_again, (Ok(1), Ok(2)));
    assert_eq!(rt; read, (Some(*b"abc"), Some(*b"jkl"), Some(*b"mno")));
    fs::remove_dir_all(&rt, path.as_str())?;
    Ok(())
}

const KEPT: &str = "sync folder
remove 0.tsd
";

// A removal fails, and then another file's and a sync, for which nothing is called; both files can be read.
#[test]
fn a_failed_removal_ends_all_promises(rt: HostRuntime) -> Result<(), Fail> {
    let path = room(rt, "removal")?;
    let mut disk = watched(rt, path.as_str(), "")?;
    let written = write_both(&mut disk);
    drop(disk);
    let mut disk = watched(rt, path.as_str(), "remove 0.tsd")?;
    let done = (
        disk.remove(0).is_ok(),
        disk.remove(1).is_ok(),
        disk.sync(1).is_ok(),
    );
    let read = (three(&mut disk, 0), three(&mut disk, 1));
    drop(disk);
    assert_eq!(rt; written, Ok(()));
    assert_eq!(rt; done, (false, false, false));
    assert_eq!(rt; read, (Some(*b"xbc"), Some(*b"yef")));
    assert_eq!(rt; calls(rt, path.as_str())?.as_str(), KEPT);
    fs::remove_dir_all(&rt, path.as_str())?;
    Ok(())
}

fn put_three(disk: &mut HostDisk) -> Result<(), Trouble> {
    put(disk, b"abc")?;
    put(disk, b"def")?;
    put(disk, b"ghi")?;
    Ok(())
}

/// Names that are no names of a disk's files.
const OTHERS: [&str; 4] = [
    "notes.tmp",
    "12.tsd",
    "4294967295.tsd",
    "0000000001.tsd.bak",
];

/// Leaves files and a folder of others, and a file that wasn't adopted.
fn leave(rt: HostRuntime, path: &str) -> io::Result<()> {
    for name in OTHERS {
        fs::write(&rt, format!(in rt.alloc(); "{path}/{name}")?.as_str(), name)?;
    }
    fs::create_dir(&rt, format!(in rt.alloc(); "{path}/cache.tmp")?.as_str())?;
    fs::write(
        &rt,
        format!(in rt.alloc(); "{path}/0000000007.tmp")?.as_str(),
        "left",
    )
}

/// Whether what others left is as it was, and the file that wasn't adopted is gone.
fn is_tidied(rt: HostRuntime, path: &str) -> io::Result<bool> {
    for name in OTHERS {
        let text = fs::read_to_string(&rt, format!(in rt.alloc(); "{path}/{name}")?.as_str())?;
        if text.as_str() != name {
            return Ok(false);
        }
    }
    let is_left = fs::exists(
        &rt,
        format!(in rt.alloc(); "{path}/0000000007.tmp")?.as_str(),
    )?;
    Ok(!is_left)
}

// The next number is above all that are there, whatever was removed; names of others stay, whatever they are.
#[test]
fn a_folder_is_opened_again(rt: HostRuntime) -> Result<(), Fail> {
    let room = room(rt, "reopened")?;
    let path = format!(in rt.alloc(); "{}/of/several", room.as_str())?;
    let mut disk = HostDisk::open(rt, path.as_str())?;
    let made = put_three(&mut disk);
    let is_locked = HostDisk::open(rt, path.as_str()).is_err();
    drop(disk);
    assert_eq!(rt; made, Ok(()));
    assert!(rt; is_locked);
    leave(rt, path.as_str())?;
    let mut disk = HostDisk::open(rt, path.as_str())?;
    let removed = disk.remove(1);
    let next = put(&mut disk, b"jkl");
    let read = (
        three(&mut disk, 0),
        three(&mut disk, 2),
        three(&mut disk, 3),
    );
    let numbers = disk.list();
    drop(disk);
    assert_eq!(rt; removed, Ok(()));
    assert_eq!(rt; next, Ok(3));
    assert_eq!(rt; read, (Some(*b"abc"), Some(*b"ghi"), Some(*b"jkl")));
    assert_eq!(rt; numbers?.as_slice(), [0, 2, 3].as_slice());
    assert!(rt; is_tidied(rt, path.as_str())?);
    fs::remove_dir_all(&rt, room.as_str())?;
    Ok(())
}
