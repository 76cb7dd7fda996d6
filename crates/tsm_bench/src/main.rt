//! Writes a TSM file in memory, reads it back and codes the same blocks alone, and prints what was written and read, the
//! same at each run. With a number of keys and of points a key as its arguments it also tells on standard error how fast
//! each of the three went.
#![tactic(auto)]

mod blocks;
mod keys;
mod plan;
mod points;
mod reading;
mod sum;
mod writing;

use anyhow::{Result, bail};
use plan::Plan;
use points::counter;
use sum::Sum;
use word_codec::crc32;

fn main(rt: HostRuntime) -> Result<()> {
    let plan = Plan::read(&rt)?;
    let points = counter(rt.alloc(), plan.points)?;
    let mut reader = writing::run(&rt, plan, points.as_slice())?;
    let bytes = reading::whole_file(rt.alloc(), &mut reader)?;
    let len = bytes.len();
    let sum = crc32(bytes.as_slice());
    println!(rt;
        "{} keys of {} points: {len} bytes, {sum:08x}",
        plan.keys, plan.points
    )?;
    let (index, found) = reading::run(&rt, plan, &mut reader)?;
    println!(rt; "read back: {} points, {:016x}", found.points, found.sum)?;
    if found != Sum::of_keys(plan.keys, points.as_slice()) {
        bail!("other points are read than were written");
    }
    blocks::run(&rt, plan, &index, bytes.as_slice())
}
