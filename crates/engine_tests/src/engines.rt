// Engines that are opened, written to, looked at and closed.
ghost use Rattle.std.specs.Prelude.{◌≡◌, IfSome};
ghost use Rattle.manifest_log.specs.Calls.{HasNoReader};
ghost use Rattle.point_model.specs.Acceptance.{IsWritable};
ghost use Rattle.shard_steps.specs.Shards.{IsReady};

use line_protocol::read_batch;
use point_model::{Need, PointCursor, TagCond, TagTest};
use shard_disk::Disk;
use shard_opening::{OpenFault, close, open};
use shard_steps::{Settings, Shard, begin_view, end_view, write};
use std::alloc::{AllocError, Global};
use std::hash::RandomState;
use store_trait::{ListView, WriteFault};
use tsdb_types::{Batch, Name, Seed, Time, Value};

/// What a script writes, one entry after another.
pub(crate) const SCRIPT: [&str; 3] = ["cpu v=1i 10", "mem b=true,u=2u 20", "cpu v=3i 10"];

/// An engine's number, the first row of `cpu`, and how many keys `mem` has.
pub(crate) type Summary = (u64, Option<(Time, Value)>, usize);

pub(crate) fn at(number: i64) -> Time {
    Time::new(number).unwrap_or_default()
}

/// What the script has left after so many of its entries.
pub(crate) fn after(number: u64) -> Summary {
    match number {
        0 => (0, None, 0),
        1 => (1, Some((at(10), Value::Int(1))), 0),
        2 => (2, Some((at(10), Value::Int(1))), 2),
        _ => (number, Some((at(10), Value::Int(3))), 2),
    }
}

/// What one run showed, from opening to closing.
#[derive(Debug, PartialEq, Drop)]
pub(crate) enum Seen {
    /// The directory was refused.
    Refused(OpenFault),
    /// The answer to the last line that was written, what was there at the end, and whether closing was accepted.
    Ran {
        last: Option<Result<u64, WriteFault>>,
        found: Option<Summary>,
        closed: bool,
    },
}

impl Seen {
    /// A run in which all was accepted, up to this number.
    pub(crate) fn all(last: Option<u64>, found: Summary) -> Seen {
        Seen::Ran {
            last: match last {
                Some(number) => Some(Ok(number)),
                None => None,
            },
            found: Some(found),
            closed: true,
        }
    }

    /// The number at the end.
    pub(crate) fn number(&self) -> u64 {
        match self {
            Seen::Ran {
                last: _,
                found: Some((number, _, _)),
                closed: _,
            } => *number,
            _ => 0,
        }
    }
}

/// Opens the disk's directory, writes lines as entries of client 0 up to the first that is refused, looks, and closes.
pub(crate) fn run<D: Disk>(
    rt: &HostRuntime,
    disk: D,
    settings: Settings,
    lines: &[&str],
) -> (D, Seen)
    requires unread { HasNoReader (D.handed_out disk) }
{
    let Ok(hashing) = RandomState::new(rt) else {
        return (disk, Seen::Refused(OpenFault::Memory));
    };
    match open(rt.alloc(), Seed::new(7), hashing, disk, settings) {
        Ok(shard) => serve(rt.alloc(), shard, lines),
        Err((disk, fault)) => (disk, Seen::Refused(fault)),
    }
}

fn serve<D: Disk>(alloc: Global, shard: Shard<D>, lines: &[&str]) -> (D, Seen)
    requires ready { IsReady D.Disk shard }
{
    let mut shard = shard;
    let last = put_all(alloc, &mut shard, lines);
    let found = summary(alloc, &mut shard);
    let (disk, closed) = close(shard);
    let closed = closed.is_ok();
    (
        disk,
        Seen::Ran {
            last,
            found,
            closed,
        },
    )
}

/// Writes lines up to the first that is refused, and gives the answer to the last.
pub(crate) fn put_all<D: Disk>(
    alloc: Global,
    shard: &mut Shard<D>,
    lines: &[&str],
) -> Option<Result<u64, WriteFault>>
    requires ready { IsReady D.Disk shard.old }
    ensures ready { IsReady D.Disk shard.new }
{
    let mut last = None;
    for line in lines {
        last = put(alloc, shard, line);
        if !matches!(last, Some(Ok(_))) {
            break;
        }
    }
    last
}

/// Writes lines as one entry; `None` where they are no batch.
fn put<D: Disk>(alloc: Global, shard: &mut Shard<D>, lines: &str) -> Option<Result<u64, WriteFault>>
    requires ready { IsReady D.Disk shard.old }
    ensures ready { IsReady D.Disk shard.new }
{
    let batch = batch(alloc, lines)?;
    Some(write(shard, 0, &batch))
}

fn batch(alloc: Global, lines: &str) -> Option<Batch>
    ensures { IfSome result (λ batch. IsWritable batch) }
{
    match read_batch(alloc, lines.as_bytes(), at(7)) {
        Ok(batch) => Some(batch),
        Err(_) => None,
    }
}

/// What the engine shows.
pub(crate) fn summary<D: Disk>(alloc: Global, shard: &mut Shard<D>) -> Option<Summary>
    requires ready { IsReady D.Disk shard.old }
    ensures ready { IsReady D.Disk shard.new }
{
    let (row, _) = shown(alloc, shard, "cpu")?;
    let (_, keys) = shown(alloc, shard, "mem")?;
    Some((shard.number(), row, keys))
}

/// The first row of the first key of a measurement, and how many keys it has.
fn shown<D: Disk>(
    alloc: Global,
    shard: &mut Shard<D>,
    measurement: &str,
) -> Option<(Option<(Time, Value)>, usize)>
    requires ready { IsReady D.Disk shard.old }
    ensures ready { IsReady D.Disk shard.new }
{
    let need = need(alloc, measurement).ok()?;
    let mut view = begin_view(shard, &need).ok()?;
    let row = first_row(&mut view);
    let keys = view.keys().len();
    end_view(shard, view);
    Some((row, keys))
}

fn first_row(view: &mut ListView) -> Option<(Time, Value)> {
    if view.keys().is_empty() {
        return None;
    }
    view.next(0).ok()?
}

fn need(alloc: Global, measurement: &str) -> Result<Need, AllocError> {
    Ok(Need {
        measurement: name(alloc, measurement)?,
        tags: TagCond::new(alloc, TagTest::True)?,
        from: at(0),
        to: at(100),
        descending: false,
    })
}

fn name(alloc: Global, text: &str) -> Result<Name, AllocError> {
    Name::new(alloc, text).map_err(|_| AllocError)
}
