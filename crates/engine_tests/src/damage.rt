ghost use Rattle.std.specs.Prelude.{IfSome};
ghost use Rattle.manifest_log.specs.Calls.{HasNoReader};

use crate::engines::{SCRIPT, Seen, after, run};
use mem_disk::MemDisk;
use shard_disk::{Damage, Disk, Fault, Trouble, Why};
use shard_opening::OpenFault;
use shard_recover::is_there;
use shard_steps::Settings;
use std::test::Fail;

// A disk with the three entries of the script, as it is opened again: file 1 has two records of a series each, the second at 18, and
// file 2 the three entries, the second at 55.
fn written(rt: &HostRuntime) -> Option<MemDisk>
    ensures { IfSome result (λ disk. HasNoReader (⟦<MemDisk as Disk>⟧.handed_out disk)) }
{
    let alloc = rt.alloc();
    let (disk, _) = run(
        rt,
        MemDisk::new(alloc, Vec::new(alloc)),
        Settings::usual(),
        &SCRIPT,
    );
    disk.image(&[]).ok()
}

// A gate that is closed at a place of a file, where it is there.
fn close_gate<D: Disk>(disk: &mut D, no: u32, at: u64) -> Result<bool, Trouble>
    requires { HasNoReader (D.handed_out disk.old) }
    ensures { HasNoReader (D.handed_out disk.new) }
{
    let numbers = disk.list()?;
    if !is_there(&numbers, no) {
        return Ok(false);
    }
    if disk.len(no)? < at {
        return Ok(false);
    }
    disk.write_at(no, at, &[0])?;
    Ok(true)
}

// What opening shows where a gate is closed.
fn changed(rt: &HostRuntime, no: u32, at: u64) -> Option<Seen> {
    let mut disk = written(rt)?;
    close_gate(&mut disk, no, at).ok()?;
    Some(run(rt, disk, Settings::usual(), &[]).1)
}

// A file less.
fn take_away<D: Disk>(disk: &mut D, no: u32) -> Result<(), Fault>
    requires unread { HasNoReader (D.handed_out disk.old) }
    ensures unread { HasNoReader (D.handed_out disk.new) }
{
    disk.remove(no)
}

// What opening shows where a file isn't there.
fn without(rt: &HostRuntime, no: u32) -> Option<Seen> {
    let mut disk = written(rt)?;
    take_away(&mut disk, no).ok()?;
    Some(run(rt, disk, Settings::usual(), &[]).1)
}

fn refused(file: u32, offset: u64, why: Why) -> Option<Seen> {
    Some(Seen::Refused(OpenFault::Damaged(Damage { file, offset, why })))
}

#[test]
fn a_missing_file_is_told_where_it_is_read(rt: HostRuntime) -> Result<(), Fail> {
    assert_eq!(rt; without(&rt, 0), refused(0, 0, Why::NoManifest));
    assert_eq!(rt; without(&rt, 1), refused(1, 0, Why::Missing));
    assert_eq!(rt; without(&rt, 2), refused(2, 0, Why::Missing));
    Ok(())
}

#[test]
fn entries_and_series_behind_a_closed_gate_are_gone(rt: HostRuntime) -> Result<(), Fail> {
    // An entry without its series is told at its gate; entries that are gone are none.
    assert_eq!(rt; changed(&rt, 1, 0), refused(2, 0, Why::Body));
    assert_eq!(rt; changed(&rt, 1, 18), refused(2, 55, Why::Body));
    assert_eq!(rt; changed(&rt, 2, 55), Some(Seen::all(None, after(1))));
    Ok(())
}
