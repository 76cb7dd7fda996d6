//! Deletions over an engine: what they leave is there again behind an opening, and one that met a fault is made by the next call.
ghost use Rattle.std.specs.Prelude.{◌≡◌, ◌≤◌, IfSome, length};
ghost use Rattle.manifest_log.specs.Calls.{HasNoReader};
ghost use Rattle.point_model.specs.Conditions.{True};
ghost use Rattle.point_model.specs.Deletions.{IsLoggable};
ghost use Rattle.shard_steps.specs.Shards.{IsReady};

use crate::engines::{Seen, Summary, at, put_all, run, summary};
use mem_disk::{Fail as Failing, MemDisk};
use point_model::{Deletion, TagCond, TagTest};
use shard_disk::Disk;
use shard_opening::{close, open};
use shard_steps::{Settings, Shard, delete};
use std::alloc::Global;
use std::hash::RandomState;
use std::test::Fail;
use store_trait::DeleteFault;
use tsdb_types::{Name, Seed, Value};

/// More calls than opening, two writes, two deletions and closing take.
const MOST_CALLS: u64 = 48;

/// What a run with deletions showed: how many met a fault, the answer to the last, and what was there at the end.
#[derive(Debug, PartialEq, Drop)]
struct Deleted {
    faults: u64,
    last: Option<Result<u64, DeleteFault>>,
    found: Option<Summary>,
}

// Deletes what a measurement has from one time to another, one range after another.
fn delete_all<D: Disk>(
    alloc: Global,
    shard: &mut Shard<D>,
    ranges: &[(&str, i64, i64)],
) -> (u64, Option<Result<u64, DeleteFault>>)
    requires ready { IsReady D.Disk shard.old }
    ensures ready { IsReady D.Disk shard.new }
{
    let mut faults: u64 = 0;
    let mut last = None;
    for range in ranges {
        last = delete_range(alloc, shard, range.0, range.1, range.2);
        if matches!(last, Some(Err(DeleteFault::Fault))) {
            faults = faults.saturating_add(1);
        }
    }
    (faults, last)
}

fn delete_range<D: Disk>(
    alloc: Global,
    shard: &mut Shard<D>,
    measurement: &str,
    from: i64,
    to: i64,
) -> Option<Result<u64, DeleteFault>>
    requires ready { IsReady D.Disk shard.old }
    ensures ready { IsReady D.Disk shard.new }
{
    let deletion = deletion(alloc, measurement, from, to)?;
    Some(delete(shard, 0, &deletion))
}

// The deletion of all series of a measurement whose name is short.
fn deletion(alloc: Global, measurement: &str, from: i64, to: i64) -> Option<Deletion>
    ensures { IfSome result (λ deletion. IsLoggable deletion) }
{
    if measurement.len() > 99 {
        return None;
    }
    match Name::new(alloc, measurement) {
        Ok(name) => match TagCond::new(alloc, TagTest::True) {
            Ok(tags) => Some(short(name, tags, from, to)),
            Err(_) => None,
        },
        Err(_) => None,
    }
}

fn short(measurement: Name, tags: TagCond, from: i64, to: i64) -> Deletion
    requires short { length measurement ≤ 99 }
    requires tags { tags ≡ True }
    ensures { IsLoggable result }
{
    Deletion {
        measurement,
        tags,
        from: at(from),
        to: at(to),
    }
}

// Opens the disk's directory, writes lines as entries, deletes, looks, and closes.
fn run_deleting(
    rt: &HostRuntime,
    disk: MemDisk,
    lines: &[&str],
    ranges: &[(&str, i64, i64)],
) -> (MemDisk, Option<Deleted>)
    requires unread { HasNoReader (⟦<MemDisk as Disk>⟧.handed_out disk) }
{
    let Ok(hashing) = RandomState::new(rt) else {
        return (disk, None);
    };
    match open(rt.alloc(), Seed::new(7), hashing, disk, Settings::usual()) {
        Ok(shard) => serve(rt.alloc(), shard, lines, ranges),
        Err((disk, _)) => (disk, None),
    }
}

fn serve<D: Disk>(
    alloc: Global,
    shard: Shard<D>,
    lines: &[&str],
    ranges: &[(&str, i64, i64)],
) -> (D, Option<Deleted>)
    requires ready { IsReady D.Disk shard }
{
    let mut shard = shard;
    let _ = put_all(alloc, &mut shard, lines);
    let (faults, last) = delete_all(alloc, &mut shard, ranges);
    let found = summary(alloc, &mut shard);
    let (disk, _) = close(shard);
    (
        disk,
        Some(Deleted {
            faults,
            last,
            found,
        }),
    )
}

#[test]
fn what_was_deleted_stays_away(rt: HostRuntime) -> Result<(), Fail> {
    let alloc = rt.alloc();
    let disk = MemDisk::new(alloc, Vec::new(alloc));
    let lines = ["cpu v=1i 10\ncpu,host=a v=2i 20", "mem b=true,u=2u 20"];
    let ranges = [("cpu", 0, 10), ("mem", 0, 100)];
    let found = (4, Some((at(20), Value::Int(2))), 0);
    let (disk, deleted) = run_deleting(&rt, disk, &lines, &ranges);
    let all = Deleted {
        faults: 0,
        last: Some(Ok(4)),
        found: Some(found),
    };
    assert_eq!(rt; deleted, Some(all));
    let (disk, seen) = run(&rt, disk.image(&[])?, Settings::usual(), &[]);
    assert_eq!(rt; seen, Seen::all(None, found));
    // The field has no kind any more.
    let (_, seen) = run(&rt, disk.image(&[])?, Settings::usual(), &["mem b=7i 30"]);
    assert_eq!(rt;
        seen,
        Seen::all(Some(5), (5, Some((at(20), Value::Int(2))), 1))
    );
    Ok(())
}

#[test]
fn a_deletion_that_met_a_fault_is_made_again(rt: HostRuntime) -> Result<(), Fail> {
    let alloc = rt.alloc();
    let mut again: u64 = 0;
    for place in 0..MOST_CALLS {
        let disk = MemDisk::new(alloc, [Failing::Disk(place)].to_vec(alloc)?);
        let lines = ["cpu v=1i 10", "mem b=true 20"];
        let ranges = [("cpu", 10, 10), ("cpu", 10, 10)];
        let (disk, deleted) = run_deleting(&rt, disk, &lines, &ranges);
        let made = Deleted {
            faults: 1,
            last: Some(Ok(3)),
            found: Some((3, None, 1)),
        };
        if deleted == Some(made) {
            again = again.saturating_add(1);
            let (_, seen) = run(&rt, disk.image(&[])?, Settings::usual(), &[]);
            assert_eq!(rt; seen, Seen::all(None, (3, None, 1)));
        }
    }
    assert!(rt; again >= 1);
    Ok(())
}
