//! Codes fixed lists and prints a checksum of what it coded, the same at each run. With a number of rounds as its
//! argument it codes each list as often, and tells on standard error how fast that went.
#![tactic(auto)]

mod blocks;
mod generator;
mod plan;
mod texts;
mod times;
mod values;
mod words;

use anyhow::Result;
use plan::Plan;

fn main(rt: HostRuntime) -> Result<()> {
    let plan = Plan::read(&rt)?;
    texts::run(&rt, plan)?;
    words::run(&rt, plan)?;
    times::run(&rt, plan)?;
    values::run(&rt, plan)?;
    blocks::run(&rt, plan)
}
