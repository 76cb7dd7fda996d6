use crate::generator::Generator;
use crate::plan::Plan;
use anyhow::Result;
use std::alloc::{AllocError, Global};
use std::time::CpuClock;
use word_codec::{crc32, read_uvarint, write_uvarint};

/// How long the text is.
const TEXT: usize = 1_000_000;

pub fn run<R: Print + Eprint + CpuClock + AllocGlobal>(rt: &R, plan: Plan) -> Result<()> {
    let text = random_text(rt.alloc(), TEXT)?;
    let start = rt.process_cpu_time()?;
    let mut sum = 0;
    for _ in 0..plan.rounds {
        sum = crc32(text.as_slice());
    }
    plan.tell(rt, "crc32 bytes", TEXT, start)?;
    println!(rt; "crc32 of a random text: {sum:08x}")?;
    numbers(rt, plan)
}

fn random_text(alloc: Global, len: usize) -> Result<Vec<u8>, AllocError> {
    let mut generator = Generator::new(1);
    let mut text = Vec::with_capacity(alloc, len)?;
    for _ in 0..len {
        text.push(generator.below(256) as u8)?;
    }
    Ok(text)
}

fn numbers<R: Print + Eprint + CpuClock + AllocGlobal>(rt: &R, plan: Plan) -> Result<()> {
    let start = rt.process_cpu_time()?;
    let mut bytes = Vec::new(rt.alloc());
    for _ in 0..plan.rounds {
        bytes.clear();
        write_numbers(&mut bytes)?;
    }
    plan.tell(rt, "uvarints written", 1000, start)?;
    let start = rt.process_cpu_time()?;
    let mut count = 0;
    for _ in 0..plan.rounds {
        count = count_numbers(bytes.as_slice());
    }
    plan.tell(rt, "uvarints read", 1000, start)?;
    let len = bytes.len();
    let sum = crc32(bytes.as_slice());
    println!(rt; "uvarints: {count} numbers in {len} bytes, {sum:08x}")?;
    Ok(())
}

fn write_numbers(bytes: &mut Vec<u8>) -> Result<(), AllocError> {
    let mut generator = Generator::new(2);
    for place in 0..1000u32 {
        let limit = 1u64 << (1 + place % 60);
        write_uvarint(bytes, generator.below(limit))?;
    }
    Ok(())
}

/// How many numbers stand at the front, a thousand at most.
fn count_numbers(bytes: &[u8]) -> usize {
    let mut rest = bytes;
    for count in 0..1000 {
        let Ok((_, len)) = read_uvarint(rest) else {
            return count;
        };
        let (_, behind) = rest.split_at(len);
        rest = behind;
    }
    1000
}
