ghost use Rattle.std.specs.Prelude.{◌*◌, ◌<◌, ◌≤◌, IfOk};

use anyhow::{Context, Result, bail};
use std::env;
use std::rt::Env;
use std::time::{CpuClock, Duration};

/// How many points are written at most: as many as one key may have.
const MOST_POINTS: usize = 65_535_000;

/// How many keys are written, how many points each has, and whether the rates are told.
#[derive(Clone, Copy)]
pub struct Plan {
    pub keys: usize,
    pub points: usize,
    pub rates: bool,
}

impl Plan {
    /// Ten keys of a thousand points, or as the two arguments say.
    pub fn read(rt: &(impl Env + AllocGlobal)) -> Result<Plan>
        ensures keys { IfOk result (λ plan. 0 < plan.keys) }
        ensures points { IfOk result (λ plan. 0 < plan.points) }
        ensures most { IfOk result (λ plan. plan.keys * plan.points ≤ 65535000) }
    {
        let mut args = env::args(rt)?;
        let _program = args.next();
        let Some(keys) = args.next() else {
            return Ok(Plan {
                keys: 10,
                points: 1000,
                rates: false,
            });
        };
        let keys = keys
            .as_str()
            .parse::<usize>()
            .context("the keys are no number")?;
        let points = args.next().context("the points of a key are missing")?;
        let points = points
            .as_str()
            .parse::<usize>()
            .context("the points of a key are no number")?;
        Plan::of(keys, points)
    }

    /// So many keys of so many points, with the rates.
    fn of(keys: usize, points: usize) -> Result<Plan>
        ensures keys { IfOk result (λ plan. 0 < plan.keys) }
        ensures points { IfOk result (λ plan. 0 < plan.points) }
        ensures most { IfOk result (λ plan. plan.keys * plan.points ≤ 65535000) }
    {
        if keys == 0 || points == 0 {
            bail!("there is nothing to write");
        }
        let all = keys.checked_mul(points).context("too many points")?;
        if all > MOST_POINTS {
            bail!("too many points");
        }
        Ok(Plan {
            keys,
            points,
            rates: true,
        })
    }

    /// How many of so many were done in a microsecond of the processor's time, on standard error.
    pub fn tell(self, rt: &impl Eprint, what: &str, all: usize, spent: Duration) -> Result<()> {
        if !self.rates {
            return Ok(());
        }
        let micros = spent.as_micros().max(1);
        let tenths = (all as u128).saturating_mul(10) / micros;
        let whole = tenths / 10;
        let tenth = tenths % 10;
        eprintln!(rt; "{what}: {whole}.{tenth} a microsecond, {micros} microseconds")?;
        Ok(())
    }
}

/// How long the processor was at work since then.
pub fn since(rt: &impl CpuClock, start: Duration) -> Result<Duration> {
    Ok(rt.process_cpu_time()?.saturating_sub(start))
}
