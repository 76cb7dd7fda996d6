use anyhow::{Context, Result};
use std::env;
use std::rt::Env;
use std::time::{CpuClock, Duration};

/// How often each list is coded, and whether the rates are told.
#[derive(Clone, Copy)]
pub struct Plan {
    pub rounds: u64,
    pub rates: bool,
}

impl Plan {
    /// One round, or as many as the first argument says.
    pub fn read(rt: &(impl Env + AllocGlobal)) -> Result<Plan> {
        let mut args = env::args(rt)?;
        let _program = args.next();
        match args.next() {
            None => Ok(Plan {
                rounds: 1,
                rates: false,
            }),
            Some(text) => {
                let rounds = text
                    .as_str()
                    .parse::<u64>()
                    .context("the rounds are no number")?;
                Ok(Plan {
                    rounds,
                    rates: true,
                })
            }
        }
    }

    /// How many of so many a round were done in a microsecond of the processor's time, on standard error.
    pub fn tell(
        self,
        rt: &(impl Eprint + CpuClock),
        what: &str,
        each: usize,
        start: Duration,
    ) -> Result<()> {
        if !self.rates {
            return Ok(());
        }
        let micros = rt
            .process_cpu_time()?
            .saturating_sub(start)
            .as_micros()
            .max(1);
        let tenths = (each as u128)
            .saturating_mul(self.rounds as u128)
            .saturating_mul(10)
            / micros;
        let whole = tenths / 10;
        let tenth = tenths % 10;
        eprintln!(rt; "{what}: {whole}.{tenth} a microsecond")?;
        Ok(())
    }
}
