ghost use Rattle.std.specs.Prelude.{length, ◌≤◌, ◌≡◌};
ghost use Rattle.tsdb_types.specs.declared.value.Kind.{Kind};
ghost use Rattle.time_codec.specs.Times.{AreTimes};
ghost use Rattle.value_codec.specs.Coding.{AreOf};
ghost use Rattle.block_codec.specs.Blocks.{times_of, values_of};

use crate::plan::Plan;
use crate::times::regular;
use crate::values::integers;
use anyhow::Result;
use block_codec::{decode_block, encode_block};
use std::alloc::Global;
use std::time::CpuClock;
use tsdb_types::{Time, Value};
use word_codec::{crc32, write_uvarint};

pub fn run<R: Print + Eprint + CpuClock + AllocGlobal>(rt: &R, plan: Plan) -> Result<()> {
    let bytes = assembled(rt.alloc())?;
    let points = decode_block(rt.alloc(), bytes.as_slice())?;
    coded(rt, plan, points.as_slice())
}

/// A block of a thousand points of a counter, ten seconds apart, put together from its parts.
fn assembled(alloc: Global) -> Result<Vec<u8>> {
    let times = regular(alloc)?;
    let values = integers(alloc, 0, 100)?;
    let times = time_codec::encode(alloc, times.as_slice())?;
    let values = value_codec::encode(alloc, values.as_slice())?;
    let mut bytes = Vec::new(alloc);
    bytes.push(1)?;
    write_uvarint(&mut bytes, times.len() as u64)?;
    bytes.extend_from_slice(times.as_slice())?;
    bytes.extend_from_slice(values.as_slice())?;
    Ok(bytes)
}

fn coded<R: Print + Eprint + CpuClock + AllocGlobal>(
    rt: &R,
    plan: Plan,
    points: &[(Time, Value)],
) -> Result<()>
    requires times { AreTimes (times_of points.now) }
    requires one_kind { (kind : Kind) × AreOf kind (values_of points.now) }
{
    let start = rt.process_cpu_time()?;
    let mut bytes = Vec::new(rt.alloc());
    for _ in 0..plan.rounds {
        bytes = encode_block(rt.alloc(), points)?;
    }
    plan.tell(rt, "points encoded", points.len(), start)?;
    let start = rt.process_cpu_time()?;
    let mut count = 0;
    for _ in 0..plan.rounds {
        count = decode_block(rt.alloc(), bytes.as_slice())?.len();
    }
    plan.tell(rt, "points decoded", points.len(), start)?;
    let len = bytes.len();
    let sum = crc32(bytes.as_slice());
    println!(rt; "block of a counter: {count} points in {len} bytes, {sum:08x}")?;
    Ok(())
}
