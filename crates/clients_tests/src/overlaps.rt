use crate::gates::{Hold, Step};
use crate::runs::{both, told};
use mem_disk::MemDisk;
use session_io::Place;
use std::test::Fail;

const fn step(who: u32, place: Place, times: u64) -> Step {
    Step { who, place, times }
}

#[test]
fn calls_overlap(rt: HostRuntime) -> Result<(), Fail> {
    // The first client goes on behind its first reply once the second has replied.
    let holds = [Hold {
        at: step(0, Place::Reply, 1),
        until: step(1, Place::Reply, 1),
    }];
    let disk = MemDisk::new(rt.alloc(), Vec::new(rt.alloc()));
    let left = both(
        &rt,
        rt.alloc(),
        disk,
        &holds,
        "INSERT cpu v=1i 10\nAFTER 2\n",
        "INSERT cpu v=2i 20\n",
    )?;
    assert!(rt; left.in_time);
    assert_eq!(rt; left.number, Some(2));
    assert!(rt; told(&left.first, b"ok 1\nat 2\n") || told(&left.first, b"ok 2\nat 2\n"));
    Ok(())
}

#[test]
fn reads_outside_turn(rt: HostRuntime) -> Result<(), Fail> {
    // The second client writes while the first one's view is out.
    let holds = [
        Hold {
            at: step(1, Place::Reply, 1),
            until: step(0, Place::View, 1),
        },
        Hold {
            at: step(0, Place::View, 1),
            until: step(1, Place::Reply, 2),
        },
    ];
    let disk = MemDisk::new(rt.alloc(), Vec::new(rt.alloc()));
    let left = both(
        &rt,
        rt.alloc(),
        disk,
        &holds,
        "INSERT cpu v=1i 10\nSELECT v FROM cpu\n",
        "AFTER 0\nINSERT cpu v=2i 20\n",
    )?;
    assert!(rt; left.in_time);
    assert!(rt; told(&left.first, b"ok 1\nat 1\nname: cpu\ntime v\n10 1\n.\n"));
    Ok(())
}

#[test]
fn reader_sees_write(rt: HostRuntime) -> Result<(), Fail> {
    // The second client asks again once the first one's write was answered.
    let holds = [Hold {
        at: step(1, Place::Reply, 1),
        until: step(0, Place::Reply, 1),
    }];
    let disk = MemDisk::new(rt.alloc(), Vec::new(rt.alloc()));
    let left = both(
        &rt,
        rt.alloc(),
        disk,
        &holds,
        "INSERT cpu v=1i 10\n",
        "AFTER 0\nSELECT v FROM cpu\n",
    )?;
    assert!(rt; left.in_time);
    assert!(rt;
        told(&left.second, b"at 0\nat 1\nname: cpu\ntime v\n10 1\n.\n")
            || told(&left.second, b"at 1\nat 1\nname: cpu\ntime v\n10 1\n.\n")
    );
    Ok(())
}

#[test]
fn what_another_wrote_is_deleted(rt: HostRuntime) -> Result<(), Fail> {
    // The second client deletes once the first one's write was answered, and the first one looks once that was.
    let holds = [
        Hold {
            at: step(1, Place::Reply, 1),
            until: step(0, Place::Reply, 1),
        },
        Hold {
            at: step(0, Place::Reply, 1),
            until: step(1, Place::Reply, 2),
        },
    ];
    let disk = MemDisk::new(rt.alloc(), Vec::new(rt.alloc()));
    let left = both(
        &rt,
        rt.alloc(),
        disk,
        &holds,
        "INSERT cpu v=1i 10\nSELECT v FROM cpu\nINSERT cpu v=true 20\n",
        "AFTER 0\nDELETE FROM cpu WHERE time <= 10\n",
    )?;
    assert!(rt; left.in_time);
    assert_eq!(rt; left.number, Some(3));
    // The field has no kind once its last value is gone.
    assert!(rt; told(&left.first, b"ok 1\nat 2\n.\nok 3\n"));
    assert!(rt; told(&left.second, b"at 0\nok 2\n") || told(&left.second, b"at 1\nok 2\n"));
    let left = both(
        &rt,
        rt.alloc(),
        left.disk.image(&[])?,
        &[],
        "SELECT v FROM cpu\n",
        "AFTER 3\n",
    )?;
    assert!(rt; told(&left.first, b"at 3\nname: cpu\ntime v\n20 true\n.\n"));
    Ok(())
}

#[test]
fn what_was_written_is_there_again(rt: HostRuntime) -> Result<(), Fail> {
    let disk = MemDisk::new(rt.alloc(), Vec::new(rt.alloc()));
    let left = both(
        &rt,
        rt.alloc(),
        disk,
        &[],
        "INSERT cpu v=1i 10\n",
        "INSERT cpu v=2i 20\n",
    )?;
    assert_eq!(rt; left.number, Some(2));
    let left = both(
        &rt,
        rt.alloc(),
        left.disk.image(&[])?,
        &[],
        "SELECT v FROM cpu\n",
        "AFTER 2\n",
    )?;
    assert!(rt; told(&left.first, b"at 2\nname: cpu\ntime v\n10 1\n20 2\n.\n"));
    assert!(rt; told(&left.second, b"at 2\n"));
    Ok(())
}
