ghost use Rattle.std.specs.Prelude.{◌^◌, ◌<◌, ◌≤◌, All, IfOk};

use crate::generator::Generator;
use crate::plan::Plan;
use anyhow::Result;
use std::alloc::{AllocError, Global};
use std::time::CpuClock;
use word_codec::crc32;

pub fn run<R: Print + Eprint + CpuClock + AllocGlobal>(rt: &R, plan: Plan) -> Result<()> {
    let ones = list(rt.alloc(), 1000, 1, 1)?;
    coded(rt, plan, "ones", ones.as_slice())?;
    let small = list(rt.alloc(), 1000, 0, 8)?;
    coded(rt, plan, "below 8", small.as_slice())?;
    let middle = list(rt.alloc(), 1000, 1, 4000)?;
    coded(rt, plan, "below 4001", middle.as_slice())?;
    let wide = list(rt.alloc(), 1000, 0, 1 << 40)?;
    coded(rt, plan, "below 2^40", wide.as_slice())
}

/// So many values from `least` on, below `least + span`.
pub fn list(alloc: Global, count: u32, least: u64, span: u64) -> Result<Vec<u64>, AllocError>
    requires some { 0 < span }
    requires least { least < 2 ^ 59 }
    requires span { span < 2 ^ 59 }
    ensures { IfOk result (λ values. All (λ value. value < 2 ^ 60) values.items) }
{
    let mut generator = Generator::new(span);
    let mut values = Vec::with_capacity(alloc, count as usize)?;
    for _ in 0..count {
        let value = least + generator.below(span);
        values.push(value)?;
    }
    Ok(values)
}

fn coded<R: Print + Eprint + CpuClock + AllocGlobal>(
    rt: &R,
    plan: Plan,
    name: &str,
    values: &[u64],
) -> Result<()>
    requires { All (λ value. value < 2 ^ 60) values.now }
{
    let start = rt.process_cpu_time()?;
    let mut words = Vec::new(rt.alloc());
    for _ in 0..plan.rounds {
        words = simple8b::encode(rt.alloc(), values)?;
    }
    plan.tell(rt, "simple8b values encoded", values.len(), start)?;
    let start = rt.process_cpu_time()?;
    let mut len = 0;
    for _ in 0..plan.rounds {
        len = simple8b::decode(rt.alloc(), words.as_slice(), values.len())?.len();
    }
    plan.tell(rt, "simple8b values decoded", values.len(), start)?;
    let bytes = bytes_of(rt.alloc(), words.as_slice())?;
    let sum = crc32(bytes.as_slice());
    let count = words.len();
    println!(rt; "simple8b, {name}: {len} values in {count} words, {sum:08x}")?;
    Ok(())
}

/// The words in eight bytes each, the highest first.
pub fn bytes_of(alloc: Global, words: &[u64]) -> Result<Vec<u8>, AllocError> {
    let mut bytes = Vec::new(alloc);
    for word in words {
        bytes.extend_from_slice(&word.to_be_bytes())?;
    }
    Ok(bytes)
}
