ghost use Rattle.std.specs.Prelude.{◌≡◌, ◌<ℤ◌, None, length, IfOk};
ghost use Rattle.tsm_bench.specs.Runs.{Run};

use anyhow::{Result, bail};
use std::alloc::Global;
use tsdb_types::{Time, Value};

/// A moment in 2020, in nanoseconds from the beginning of 1970.
const FIRST: i64 = 1_600_000_000_000_000_000;

/// Ten seconds in nanoseconds.
const STEP: i64 = 10_000_000_000;

/// So many points of a counter that grows by less than a hundred in ten seconds.
pub fn counter(alloc: Global, count: usize) -> Result<Vec<(Time, Value)>>
    ensures run { IfOk result (λ points. Run None points.items) }
    ensures count { IfOk result (λ points. length points.items ≡ count) }
{
    let mut points = Vec::with_capacity(alloc, count)?;
    let mut time = moment(FIRST)?;
    let mut state: u64 = 1;
    let mut value: i64 = 0;
    for _ in 0..count {
        points.push((time, Value::Int(value)))?;
        time = later(time)?;
        state = next_state(state);
        value = value.wrapping_add(growth(state));
    }
    Ok(points)
}

/// The time ten seconds later.
fn later(time: Time) -> Result<Time>
    ensures { IfOk result (λ next. time <ℤ next) }
{
    let Some(next) = time.get().checked_add(STEP) else {
        bail!("there is no time that late");
    };
    moment(next)
}

fn moment(nanoseconds: i64) -> Result<Time>
    ensures { IfOk result (λ time. time ≡ nanoseconds) }
{
    match Time::new(nanoseconds) {
        Some(time) => Ok(time),
        None => bail!("there is no time that late"),
    }
}

/// Numbers that look random and are the same at each run.
fn next_state(state: u64) -> u64 {
    state
        .wrapping_mul(6_364_136_223_846_793_005)
        .wrapping_add(1_442_695_040_888_963_407)
}

/// By how much the counter grows: 0 to 99.
fn growth(state: u64) -> i64 {
    ((state >> 20) % 100).cast_signed()
}
