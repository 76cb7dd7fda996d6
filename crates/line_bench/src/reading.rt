use crate::long::Long;
use crate::plan::Plan;
use crate::shape::Shape;
use anyhow::Result;
use line_protocol::read_batch;
use std::alloc::{AllocError, Global};
use std::time::CpuClock;
use tsdb_types::Time;

/// How many lines a batch has, the most that there may be.
const LINES: u32 = 5000;

/// Reads a batch of lines of one shape as often as the plan says.
pub fn run<R: Print + Eprint + CpuClock + AllocGlobal>(
    rt: &R,
    plan: Plan,
    shape: Shape,
) -> Result<()> {
    let text = batch(rt.alloc(), shape)?;
    let start = rt.process_cpu_time()?;
    let mut points = 0;
    for _ in 0..plan.rounds {
        points = count(rt.alloc(), text.as_str())?;
    }
    plan.tell(rt, shape.name(), LINES, start)?;
    let name = shape.name();
    let len = text.len();
    println!(rt; "{name}: {points} points in {len} bytes")?;
    Ok(())
}

/// Reads long lines as often as the plan says.
pub fn run_long<R: Print + Eprint + CpuClock + AllocGlobal>(
    rt: &R,
    plan: Plan,
    long: Long,
) -> Result<()> {
    let text = long.text(rt.alloc(), plan.lines)?;
    let start = rt.process_cpu_time()?;
    let mut points = 0;
    for _ in 0..plan.rounds {
        points = count(rt.alloc(), text.as_str())?;
    }
    plan.tell(rt, "long lines", plan.lines, start)?;
    let len = text.len();
    println!(rt; "long lines: {points} points in {len} bytes")?;
    Ok(())
}

/// How many points a batch has.
fn count(alloc: Global, text: &str) -> Result<usize> {
    let batch = read_batch(alloc, text.as_bytes(), Time::default())?;
    Ok(batch.points().len())
}

/// The text of a batch.
fn batch(alloc: Global, shape: Shape) -> Result<String, AllocError> {
    let mut text = String::new(alloc);
    for k in 0..LINES {
        let line = shape.line(alloc, k)?;
        text.push_str(line.as_str())?;
    }
    Ok(text)
}
