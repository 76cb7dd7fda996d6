ghost use Rattle.std.specs.Prelude.{◌≡◌, ◌≤◌, length, IfOk};
ghost use Rattle.value_codec.specs.Coding.{AreOf};

use crate::generator::Generator;
use crate::plan::Plan;
use anyhow::Result;
use std::alloc::{AllocError, Global};
use std::time::CpuClock;
use tsdb_types::{Kind, Value};
use word_codec::crc32;

pub fn run<R: Print + Eprint + CpuClock + AllocGlobal>(rt: &R, plan: Plan) -> Result<()> {
    let counter = integers(rt.alloc(), 0, 100)?;
    coded(rt, plan, "a counter", Kind::Integer, counter.as_slice())?;
    let gauge = integers(rt.alloc(), -1_000_000, 2_000_001)?;
    coded(rt, plan, "a gauge", Kind::Integer, gauge.as_slice())?;
    let truths = truths(rt.alloc())?;
    coded(rt, plan, "Booleans", Kind::Boolean, truths.as_slice())
}

/// A thousand integers, each `least` or up to `span` more beyond the one before.
pub fn integers(alloc: Global, least: i64, span: u64) -> Result<Vec<Value>, AllocError>
    ensures kind { IfOk result (λ values. AreOf Kind.Integer values.items) }
    ensures size { IfOk result (λ values. length values.items ≡ 1000) }
{
    let mut generator = Generator::new(span);
    let mut values = Vec::with_capacity(alloc, 1000)?;
    let mut value: i64 = 0;
    for _ in 0..1000u32 {
        let more = generator.below(span.max(1)).cast_signed();
        value = value.wrapping_add(least).wrapping_add(more);
        values.push(Value::Int(value))?;
    }
    Ok(values)
}

/// A thousand Booleans.
fn truths(alloc: Global) -> Result<Vec<Value>, AllocError>
    ensures kind { IfOk result (λ values. AreOf Kind.Boolean values.items) }
    ensures size { IfOk result (λ values. length values.items ≡ 1000) }
{
    let mut generator = Generator::new(3);
    let mut values = Vec::with_capacity(alloc, 1000)?;
    for _ in 0..1000u32 {
        let truth = generator.below(2) == 1;
        values.push(Value::Bool(truth))?;
    }
    Ok(values)
}

fn coded<R: Print + Eprint + CpuClock + AllocGlobal>(
    rt: &R,
    plan: Plan,
    name: &str,
    kind: Kind,
    values: &[Value],
) -> Result<()>
    requires kind { AreOf kind values.now }
    requires size { length values.now ≡ 1000 }
{
    let start = rt.process_cpu_time()?;
    let mut bytes = Vec::new(rt.alloc());
    for _ in 0..plan.rounds {
        bytes = value_codec::encode(rt.alloc(), values)?;
    }
    plan.tell(rt, "values encoded", values.len(), start)?;
    let start = rt.process_cpu_time()?;
    let mut count = 0;
    for _ in 0..plan.rounds {
        count = value_codec::decode(rt.alloc(), kind, bytes.as_slice(), values.len())?.len();
    }
    plan.tell(rt, "values decoded", values.len(), start)?;
    let len = bytes.len();
    let sum = crc32(bytes.as_slice());
    println!(rt; "values, {name}: {count} in {len} bytes, {sum:08x}")?;
    Ok(())
}
