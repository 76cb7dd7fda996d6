ghost use Rattle.std.specs.Prelude.{◌≡◌, ◌∷◌, [], codes, IfOk};

use gate_log::Log;
use mem_disk::{Fail, MemDisk};
use series_store::Series;
use shard_disk::Trouble;
use std::alloc::Global;
use std::test::Fail as Failed;
use tsdb_types::{Seed, SeriesKey};

// The record of `cpu` and `cpu,host=a`, and the closed gate. The checksum is zlib's.
const TWO: [u8; 31] = [
    0x01, 0x00, 0x00, 0x00, 0x15, 0x32, 0x74, 0x1A, 0xA9, 0x00, 0x00, 0x00, 0x02, 0x00, 0x03, 0x63,
    0x70, 0x75, 0x00, 0x0A, 0x63, 0x70, 0x75, 0x2C, 0x68, 0x6F, 0x73, 0x74, 0x3D, 0x61, 0x00,
];

fn key(alloc: Global, text: &str) -> Result<SeriesKey, Failed>
    ensures { IfOk result (λ key. key ≡ text.now) }
{
    match SeriesKey::from_text(alloc, text)? {
        Some(key) => Ok(key),
        None => Err("no series".into()),
    }
}

/// `cpu` and `cpu,host=a`.
fn two_keys(alloc: Global) -> Result<Vec<SeriesKey>, Failed>
    ensures { IfOk result (λ keys. keys.items ≡ codes "cpu" ∷ codes "cpu,host=a" ∷ []) }
{
    let mut keys = Vec::new(alloc);
    keys.push(key(alloc, "cpu")?)?;
    keys.push(key(alloc, "cpu,host=a")?)?;
    Ok(keys)
}

#[test]
fn two_series_are_these_bytes(rt: HostRuntime) -> Result<(), Failed> {
    let alloc = rt.alloc();
    let mut disk = MemDisk::new(alloc, Vec::new(alloc));
    let log = Log::make(&mut disk)?;
    let mut series = Series::new(alloc, Seed::new(7), log);
    let keys = two_keys(alloc)?;
    let new = series.prepare(&keys)?;
    series.add(&mut disk, new)?;
    assert_eq!(rt; disk.bytes(series.file()), Some(TWO.as_slice()));
    assert_eq!(rt; (series.len(), series.in_doubt()), (2, false));
    assert_eq!(rt; series.id(&keys[1]), Some(1));
    Ok(())
}

// Making the log takes the disk's calls 0 and 1, an append four: write and sync of the record, write and sync of its gate.

/// Adds two series while the disk's call at this place fails, and again. Tells whether there was a doubt in between.
fn add_again(alloc: Global, seed: Seed, place: u64) -> Result<(MemDisk, Series, bool), Failed> {
    let mut failing = Vec::new(alloc);
    failing.push(Fail::Disk(place))?;
    let mut disk = MemDisk::new(alloc, failing);
    let log = Log::make(&mut disk)?;
    let mut series = Series::new(alloc, seed, log);
    let keys = two_keys(alloc)?;
    let new = series.prepare(&keys)?;
    let Err(Trouble::Fault) = series.add(&mut disk, new) else {
        return Err("no fault".into());
    };
    if !series.is_empty() {
        return Err("a refused series has an id".into());
    }
    let doubt = series.in_doubt();
    let new = series.prepare(&keys)?;
    series.add(&mut disk, new)?;
    Ok((disk, series, doubt))
}

#[test]
fn a_series_of_a_failed_sync_has_one_id(rt: HostRuntime) -> Result<(), Failed> {
    let alloc = rt.alloc();
    let host = key(alloc, "cpu,host=a")?;
    for place in [3, 5] {
        let (disk, series, doubt) = add_again(alloc, Seed::new(7), place)?;
        assert_eq!(rt; doubt, place == 5);
        assert_eq!(rt; disk.bytes(series.file()), Some(TWO.as_slice()));
        assert_eq!(rt; (series.len(), series.id(&host)), (2, Some(1)));
    }
    Ok(())
}
