ghost use Rattle.std.specs.Prelude.{◌^◌, ◌<◌, All, IfOk};
ghost use Rattle.time_codec.specs.Times.{AreTimes};

use crate::plan::Plan;
use crate::words::{bytes_of, list};
use anyhow::Result;
use std::alloc::Global;
use std::time::CpuClock;
use tsdb_types::Time;
use word_codec::crc32;

/// A moment in 2023.
const FIRST: [u8; 8] = [0x17, 0x97, 0x9C, 0xFE, 0x36, 0x2A, 0x00, 0x00];

pub fn run<R: Print + Eprint + CpuClock + AllocGlobal>(rt: &R, plan: Plan) -> Result<()> {
    let regular = regular(rt.alloc())?;
    coded(rt, plan, "regular", regular.as_slice())?;
    let milliseconds = list(rt.alloc(), 999, 9_990, 21)?;
    let words = packed(rt.alloc(), milliseconds.as_slice())?;
    let jittered = decoded(rt.alloc(), 0x16, words.as_slice())?;
    coded(rt, plan, "to the millisecond", jittered.as_slice())?;
    let nanoseconds = list(rt.alloc(), 999, 9_990_000_000, 20_000_000)?;
    let words = packed(rt.alloc(), nanoseconds.as_slice())?;
    let jittered = decoded(rt.alloc(), 0x10, words.as_slice())?;
    coded(rt, plan, "to the nanosecond", jittered.as_slice())
}

/// A thousand times, ten seconds apart.
pub fn regular(alloc: Global) -> Result<Vec<Time>>
    ensures { IfOk result (λ times. AreTimes times.items) }
{
    decoded(alloc, 0x2A, &[0x01, 0xE8, 0x07])
}

/// The words of 999 differences, as bytes.
fn packed(alloc: Global, values: &[u64]) -> Result<Vec<u8>>
    requires { All (λ value. value < 2 ^ 60) values.now }
{
    let words = simple8b::encode(alloc, values)?;
    Ok(bytes_of(alloc, words.as_slice())?)
}

/// The times whose first byte and differences these are.
fn decoded(alloc: Global, head: u8, differences: &[u8]) -> Result<Vec<Time>>
    ensures { IfOk result (λ times. AreTimes times.items) }
{
    let mut bytes = Vec::new(alloc);
    bytes.push(head)?;
    bytes.extend_from_slice(&FIRST)?;
    bytes.extend_from_slice(differences)?;
    let times = time_codec::decode(alloc, bytes.as_slice())?;
    Ok(times)
}

fn coded<R: Print + Eprint + CpuClock + AllocGlobal>(
    rt: &R,
    plan: Plan,
    name: &str,
    times: &[Time],
) -> Result<()>
    requires { AreTimes times.now }
{
    let start = rt.process_cpu_time()?;
    let mut bytes = Vec::new(rt.alloc());
    for _ in 0..plan.rounds {
        bytes = time_codec::encode(rt.alloc(), times)?;
    }
    plan.tell(rt, "times encoded", times.len(), start)?;
    let start = rt.process_cpu_time()?;
    let mut count = 0;
    for _ in 0..plan.rounds {
        count = time_codec::decode(rt.alloc(), bytes.as_slice())?.len();
    }
    plan.tell(rt, "times decoded", times.len(), start)?;
    let len = bytes.len();
    let sum = crc32(bytes.as_slice());
    println!(rt; "times, {name}: {count} in {len} bytes, {sum:08x}")?;
    Ok(())
}
