ghost use Rattle.std.specs.Prelude.{◌≡◌};
ghost use Rattle.tsdb_types.specs.declared.value.Kind.{Kind};
ghost use Rattle.time_codec.specs.Times.{AreTimes};
ghost use Rattle.value_codec.specs.Coding.{AreOf};
ghost use Rattle.block_codec.specs.Blocks.{times_of, values_of};

use crate::plan::{Plan, since};
use anyhow::{Context, Result, bail};
use block_codec::{decode_block, encode_block};
use std::time::{CpuClock, Duration};
use tsdb_types::{Time, Value};
use tsm_file::TsmIndex;
use tsm_format::Entry;

/// The bytes of a checksum, which stands before each block.
const CHECKSUM: u64 = 4;

/// What was coded, and how long that took.
#[derive(Clone, Copy)]
struct Coded {
    points: usize,
    bytes: usize,
    encoding: Duration,
    decoding: Duration,
}

impl Coded {
    fn new() -> Self {
        Coded {
            points: 0,
            bytes: 0,
            encoding: Duration::ZERO,
            decoding: Duration::ZERO,
        }
    }

    fn and(self, other: Coded) -> Self {
        Coded {
            points: self.points.saturating_add(other.points),
            bytes: self.bytes.saturating_add(other.bytes),
            encoding: self.encoding.saturating_add(other.encoding),
            decoding: self.decoding.saturating_add(other.decoding),
        }
    }
}

/// Codes the blocks of the first key alone, each as often as there are keys.
pub fn run<R: Print + Eprint + CpuClock + AllocGlobal>(
    rt: &R,
    plan: Plan,
    index: &TsmIndex,
    bytes: &[u8],
) -> Result<()> {
    if index.len() == 0 {
        bail!("the file has no key");
    }
    let mut all = Coded::new();
    for entry in index.row(0).entries.as_slice() {
        let block = block_of(bytes, entry).context("a block lies outside the file")?;
        let points = decode_block(rt.alloc(), block)?;
        all = all.and(code_often(rt, plan.keys, points.as_slice())?);
    }
    let points = all.points;
    let len = all.bytes;
    println!(rt; "blocks of the first key: {points} points in {len} bytes")?;
    let done = points.saturating_mul(plan.keys);
    plan.tell(rt, "points encoded alone", done, all.encoding)?;
    plan.tell(rt, "points decoded alone", done, all.decoding)
}

/// The block of an entry, behind its checksum.
fn block_of<'a>(bytes: &'a [u8], entry: &Entry) -> Option<&'a [u8]> {
    let start = entry.offset.checked_add(CHECKSUM)?;
    let end = entry.offset.checked_add(u64::from(entry.size))?;
    bytes.get(start as usize..end as usize)
}

/// Codes a block so often.
fn code_often<R: CpuClock + AllocGlobal>(
    rt: &R,
    rounds: usize,
    points: &[(Time, Value)],
) -> Result<Coded>
    requires times { AreTimes (times_of points.now) }
    requires one_kind { (kind : Kind) × AreOf kind (values_of points.now) }
{
    let start = rt.process_cpu_time()?;
    let mut bytes = Vec::new(rt.alloc());
    for _ in 0..rounds {
        bytes = encode_block(rt.alloc(), points)?;
    }
    let encoding = since(rt, start)?;
    let start = rt.process_cpu_time()?;
    let mut count = 0;
    for _ in 0..rounds {
        count = decode_block(rt.alloc(), bytes.as_slice())?.len();
    }
    Ok(Coded {
        points: count,
        bytes: bytes.len(),
        encoding,
        decoding: since(rt, start)?,
    })
}
