//! Reads fixed batches of lines and prints how many points each has, the same at each run. With a number of rounds as its
//! argument it reads each batch as often, and tells on standard error how fast that went; with `head`, `fields` or `names` and a
//! number behind it, so many lines of 65,536 bytes in their place.
#![tactic(auto)]

mod long;
mod plan;
mod reading;
mod shape;

use anyhow::Result;
use plan::Plan;
use shape::Shape;

fn main(rt: HostRuntime) -> Result<()> {
    let plan = Plan::read(&rt)?;
    if let Some(long) = plan.long {
        return reading::run_long(&rt, plan, long);
    }
    for shape in Shape::ALL {
        reading::run(&rt, plan, shape)?;
    }
    Ok(())
}
