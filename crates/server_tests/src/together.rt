//! Two clients of `run` at once over one directory: one history explains what both were told.
use crate::directories::{Left, client, run, shell};
use mem_disk::MemDisk;
use std::alloc::{AllocError, Global};
use std::test::Fail;

// Ten values of one cell, and how far the entries have come.
const FIRST: &str =
    "INSERT cpu v=1i 1\nINSERT cpu v=2i 1\nINSERT cpu v=3i 1\nINSERT cpu v=4i 1\nINSERT cpu v=5i 1\n\
    INSERT cpu v=6i 1\nINSERT cpu v=7i 1\nINSERT cpu v=8i 1\nINSERT cpu v=9i 1\nINSERT cpu v=10i 1\nAFTER 20\n";

// Ten others of the same cell.
const SECOND: &str =
    "INSERT cpu v=11i 1\nINSERT cpu v=12i 1\nINSERT cpu v=13i 1\nINSERT cpu v=14i 1\nINSERT cpu v=15i 1\n\
    INSERT cpu v=16i 1\nINSERT cpu v=17i 1\nINSERT cpu v=18i 1\nINSERT cpu v=19i 1\nINSERT cpu v=20i 1\nAFTER 20\n";

/// What two clients were told behind `ok 1` to `ok 20`, each of which one of them was told, in this order.
fn behind_writes<'a>(
    alloc: Global,
    first: &'a str,
    second: &'a str,
) -> Result<Option<(&'a str, &'a str)>, AllocError> {
    let mut first = first;
    let mut second = second;
    for number in 1..=20_u32 {
        let line = format!(in alloc; "ok {number}\n")?;
        if let Some(rest) = first.strip_prefix(line.as_str()) {
            first = rest;
        } else if let Some(rest) = second.strip_prefix(line.as_str()) {
            second = rest;
        } else {
            return Ok(None);
        }
    }
    Ok(Some((first, second)))
}

/// Whether a client that has ten entries was told how far the twenty have come.
fn tells_how_far(told: &str) -> bool {
    told == "at 20\n" || (told.starts_with("notyet 1") && told.len() == 10)
}

/// What the cell has in the end by the client that was told of the last entry, and has seen it.
fn last_value(left: &Left) -> &'static str {
    if left.told(0).ends_with("ok 20\nat 20\n") {
        return "at 20\nname: cpu\ntime v\n1 10\n.\n";
    }
    if left.told(1).ends_with("ok 20\nat 20\n") {
        return "at 20\nname: cpu\ntime v\n1 20\n.\n";
    }
    "nobody was told of the last entry"
}

#[test]
fn two_clients_have_one_history(rt: HostRuntime) -> Result<(), Fail> {
    let alloc = rt.alloc();
    let disk = MemDisk::new(alloc, Vec::new(alloc));
    let first = client(alloc, "a", "b", FIRST)?;
    let second = client(alloc, "c", "d", SECOND)?;
    let clients = vec![in alloc; first, second]?;
    let left = run(
        &rt,
        alloc,
        &["run", "db", "a", "b", "c", "d"],
        &disk,
        clients,
    )?;
    assert_eq!(rt; (left.status, left.printed.as_str()), (0, ""));
    let behind = behind_writes(alloc, left.told(0), left.told(1))?;
    assert!(rt;
        behind.is_some_and(|(first, second)| tells_how_far(first) && tells_how_far(second))
    );
    let value = last_value(&left);
    let Some(disk) = left.into_image() else {
        assert!(rt; false, "the directory was closed");
        return Ok(());
    };
    let seen = shell(&rt, alloc, &disk, "SELECT v FROM cpu\n")?;
    assert_eq!(rt; seen.told(0), value);
    Ok(())
}
