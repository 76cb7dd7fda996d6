ghost use Rattle.std.specs.Prelude.{◌≤◌};
ghost use Rattle.manifest_log.specs.Calls.{HasNoReader};

use crate::engines::{Seen, Summary, after, run};
use mem_disk::MemDisk;
use shard_disk::Disk;
use shard_steps::Settings;
use std::alloc::Global;
use std::test::Fail;
use store_trait::WriteFault;

fn empty(alloc: Global) -> MemDisk
    ensures { HasNoReader (⟦<MemDisk as Disk>⟧.handed_out result) }
{
    MemDisk::new(alloc, Vec::new(alloc))
}

// A run whose last line was refused.
fn refused(fault: WriteFault, found: Summary) -> Seen {
    Seen::Ran {
        last: Some(Err(fault)),
        found: Some(found),
        closed: true,
    }
}

fn settings(cache_points: u64, series: u64) -> Settings
    requires points { (1 ≤ cache_points) × (cache_points ≤ 65535000) }
    requires series { (1 ≤ series) × (series ≤ 10000000) }
{
    Settings {
        cache_points,
        series,
        views: 1,
    }
}

#[test]
fn a_further_series_or_point_is_refused(rt: HostRuntime) -> Result<(), Fail> {
    let series = ["cpu v=1i 10", "mem b=t 10"];
    let (disk, seen) = run(&rt, empty(rt.alloc()), settings(9, 1), &series);
    assert_eq!(rt; seen, refused(WriteFault::SeriesFull { held: 1 }, after(1)));
    let (_, seen) = run(&rt, disk.image(&[])?, settings(9, 1), &["cpu v=3i 20"]);
    assert_eq!(rt; seen.number(), 2);
    let points = ["cpu v=1i 10", "cpu v=1i,w=2i 20"];
    let (_, seen) = run(&rt, empty(rt.alloc()), settings(2, 9), &points);
    assert_eq!(rt; seen, refused(WriteFault::CacheFull { held: 1 }, after(1)));
    Ok(())
}
