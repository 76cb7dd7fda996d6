ghost use Rattle.std.specs.Prelude.{◌≡◌, All};
ghost use Rattle.tsm_file.specs.ReadBlocks.{IsWithin};
ghost use Rattle.tsm_file.specs.ReadIndex.{HasIndex};

use crate::plan::{Plan, since};
use crate::sum::Sum;
use anyhow::{Context, Result, bail};
use mem_disk::MemReader;
use shard_disk::Reader;
use std::alloc::Global;
use std::time::CpuClock;
use tombstones::TombSet;
use tsdb_types::Time;
use tsm_file::{TsmCursor, TsmIndex};

/// The number of the file that is read.
const FILE: u32 = 0;

/// The greatest moment.
const LATEST: i64 = 9_223_372_036_854_775_806;

/// The bytes of the file.
pub fn whole_file(alloc: Global, reader: &mut MemReader) -> Result<Vec<u8>> {
    let len = reader.len() as usize;
    let mut bytes = vec![in alloc; 0; len]?;
    reader.read_at(0, bytes.as_mut_slice())?;
    Ok(bytes)
}

/// Reads the points of each key of the file.
pub fn run<R: Eprint + CpuClock + AllocGlobal>(
    rt: &R,
    plan: Plan,
    reader: &mut MemReader,
) -> Result<(TsmIndex, Sum)> {
    let start = rt.process_cpu_time()?;
    let index = TsmIndex::read(rt.alloc(), reader, FILE)?;
    let sum = with_keys(rt.alloc(), reader, &index)?;
    plan.tell(rt, "points read", sum.points, since(rt, start)?)?;
    Ok((index, sum))
}

/// The sum of the points of all keys.
fn with_keys(alloc: Global, reader: &mut MemReader, index: &TsmIndex) -> Result<Sum>
    requires { HasIndex reader.old.bytes.items index.now.rows }
{
    let latest = Time::new(LATEST).context("no moment is that late")?;
    let mut sum = Sum::new();
    for place in 0..index.len() {
        let key = index.row(place).key.as_slice();
        let mut cursor = TsmCursor::new(alloc, index, key, Time::default(), latest, false)?;
        sum = drained(alloc, &mut cursor, reader, sum)?;
    }
    Ok(sum)
}

/// The sum with the points that a cursor gives.
fn drained(alloc: Global, cursor: &mut TsmCursor, reader: &mut MemReader, sum: Sum) -> Result<Sum>
    requires { All (IsWithin reader.old.bytes.items) cursor.old.blocks }
    ensures { reader.new.bytes.items ≡ reader.old.bytes.items }
{
    let tombs = TombSet::new(alloc);
    let mut sum = sum;
    for _ in 0..u64::MAX {
        match cursor.next(reader, &tombs)? {
            Some((time, value)) => sum = sum.with(time, value),
            None => return Ok(sum),
        }
    }
    bail!("a cursor gives points without end")
}
