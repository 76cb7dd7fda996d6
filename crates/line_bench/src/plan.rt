use crate::long::Long;
use anyhow::{Context, Result};
use std::env;
use std::rt::Env;
use std::time::{CpuClock, Duration};

/// How often each batch is read, and whether the rates are told; and the long lines that are read in place of the batches.
#[derive(Clone, Copy)]
pub struct Plan {
    pub rounds: u64,
    pub rates: bool,
    pub long: Option<Long>,
    pub lines: u32,
}

impl Plan {
    /// One round, or as many as the first argument says; behind it the name of long lines and their number.
    pub fn read(rt: &(impl Env + AllocGlobal)) -> Result<Plan> {
        let mut args = env::args(rt)?;
        let _program = args.next();
        match args.next() {
            None => Ok(Plan {
                rounds: 1,
                rates: false,
                long: None,
                lines: 0,
            }),
            Some(text) => {
                let rounds = text
                    .as_str()
                    .parse::<u64>()
                    .context("the rounds are no number")?;
                let long = args.next().and_then(|name| Long::named(name.as_str()));
                let lines = args
                    .next()
                    .and_then(|count| count.as_str().parse::<u32>().ok());
                Ok(Plan {
                    rounds,
                    rates: true,
                    long,
                    lines: lines.unwrap_or(1),
                })
            }
        }
    }

    /// How many nanoseconds of the processor's time one of so many lines a round took, on standard error.
    pub fn tell(
        self,
        rt: &(impl Eprint + CpuClock),
        what: &str,
        lines: u32,
        start: Duration,
    ) -> Result<()> {
        if !self.rates {
            return Ok(());
        }
        let nanoseconds = rt.process_cpu_time()?.saturating_sub(start).as_nanos();
        let count = (lines as u128).saturating_mul(self.rounds as u128).max(1);
        let each = nanoseconds / count;
        eprintln!(rt; "{what}: {each} ns a line")?;
        Ok(())
    }
}
