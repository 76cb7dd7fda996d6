ghost use Rattle.manifest_log.specs.Calls.{HasNoReader};

use crate::engines::{SCRIPT, Seen, after, run};
use mem_disk::{Fuse, MemDisk};
use shard_disk::Disk;
use shard_opening::OpenFault;
use shard_steps::Settings;
use std::test::Fail;

/// What picks the images that are looked at.
const CHOICES: [&[u8]; 5] = [&[0], &[1], &[255], &[0, 1, 2], &[2, 1, 0]];

/// More calls than opening, the script and closing take.
const MOST_CALLS: u64 = 48;

/// More calls than opening takes.
const MOST_OPENING_CALLS: u64 = 20;

// A disk whose calls behind the first k fail.
fn fused(disk: MemDisk, k: u64) -> Fuse
    requires { HasNoReader (⟦<MemDisk as Disk>⟧.handed_out disk) }
    ensures { HasNoReader (⟦<Fuse as Disk>⟧.handed_out result) }
{
    Fuse::new(disk, k)
}

// The disk that the script leaves where each call behind the first k fails, and the number of its last accepted entry.
fn stopped(rt: &HostRuntime, k: u64) -> (MemDisk, u64) {
    let alloc = rt.alloc();
    let fuse = fused(MemDisk::new(alloc, Vec::new(alloc)), k);
    let (fuse, seen) = run(rt, fuse, Settings::usual(), &SCRIPT);
    (fuse.into_disk(), seen.number())
}

// Where the directory opens to what a prefix of the script leaves, with all entries that were accepted and at most one more:
// whether it has one more.
fn further(rt: &HostRuntime, image: MemDisk, accepted: u64) -> Option<bool>
    requires { HasNoReader (⟦<MemDisk as Disk>⟧.handed_out image) }
{
    let (_, seen) = run(rt, image, Settings::usual(), &[]);
    let number = seen.number();
    if seen != Seen::all(None, after(number)) {
        return None;
    }
    if number == accepted {
        return Some(false);
    }
    if number == accepted.saturating_add(1) && number <= 3 {
        Some(true)
    } else {
        None
    }
}

#[test]
fn each_image_of_each_stop_has_what_was_accepted(rt: HostRuntime) -> Result<(), Fail> {
    let mut most = 0;
    let mut doubts: u64 = 0;
    for k in 0..MOST_CALLS {
        let (disk, accepted) = stopped(&rt, k);
        assert!(rt; most <= accepted);
        most = accepted;
        for choice in CHOICES {
            let further = further(&rt, disk.image(choice)?, accepted);
            assert!(rt; further.is_some());
            if further == Some(true) {
                doubts = doubts.saturating_add(1);
            }
        }
    }
    assert_eq!(rt; most, 3);
    // Each entry is left by some image although its last sync failed.
    assert!(rt; doubts >= 3);
    Ok(())
}

#[test]
fn each_image_of_a_stopped_opening_has_it_too(rt: HostRuntime) -> Result<(), Fail> {
    for k in 0..MOST_CALLS {
        let (disk, accepted) = stopped(&rt, k);
        let mut opened = false;
        for calls in 0..MOST_OPENING_CALLS {
            let fuse = fused(disk.image(&[1])?, calls);
            let (fuse, seen) = run(&rt, fuse, Settings::usual(), &[]);
            opened = seen != Seen::Refused(OpenFault::Fault);
            assert!(rt; further(&rt, fuse.into_disk().image(&[2, 0])?, accepted).is_some());
        }
        assert!(rt; opened);
    }
    Ok(())
}
