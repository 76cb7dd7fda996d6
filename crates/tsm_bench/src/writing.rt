ghost use Rattle.std.specs.Prelude.{◌≡◌, ◌≢◌, ◌+◌, ◌*◌, ◌<◌, ◌≤◌, ℕ, List, [], length, Option, None, Some, IsTrue, OnOk, IfOk};
ghost use Rattle.shard_disk.specs.Stage.{Open, Finished};
ghost use Rattle.mem_disk.specs.Progress.{stage_of};
ghost use Rattle.tsdb_types.specs.Keys.{MarkAt};
ghost use Rattle.tsm_format.specs.Rows.{IsAbove};
ghost use Rattle.tsm_file.specs.Tried.{HasPushed};
ghost use Rattle.tsm_bench.specs.Runs.{Run};

use crate::keys::key_of;
use crate::plan::{Plan, since};
use anyhow::{Result, bail};
use mem_disk::{MemDisk, MemReader, MemWriter};
use shard_disk::{Disk, Trouble, Writer};
use std::alloc::Global;
use std::cmp::Ordering;
use std::time::CpuClock;
use tsdb_types::{Time, Value};
use tsm_file::TsmWriter;

/// A reader of a file in which each key of the plan has these points.
pub fn run<R: Eprint + CpuClock + AllocGlobal>(
    rt: &R,
    plan: Plan,
    points: &[(Time, Value)],
) -> Result<MemReader>
    requires run { Run None points.now }
    requires count { length points.now ≡ plan.points }
    requires keys { 0 < plan.keys }
    requires some { 0 < plan.points }
    requires most { plan.keys * plan.points ≤ 65535000 }
{
    let mut disk = MemDisk::new(rt.alloc(), Vec::new(rt.alloc()));
    let device = disk.begin()?;
    let start = rt.process_cpu_time()?;
    let device = file_of(rt.alloc(), device, plan.keys, points)?;
    let all = plan.keys.saturating_mul(plan.points);
    plan.tell(rt, "points written", all, since(rt, start)?)?;
    match disk.adopt(device) {
        Ok(no) => Ok(disk.open(no)?),
        Err((device, trouble)) => {
            disk.drop_writer(device);
            bail!(trouble)
        }
    }
}

/// A finished file in which so many keys have these points.
fn file_of(
    alloc: Global,
    device: MemWriter,
    keys: usize,
    points: &[(Time, Value)],
) -> Result<MemWriter>
    requires empty { device.bytes.items ≡ [] }
    requires open { stage_of device.progress ≡ Open }
    requires run { Run None points.now }
    requires some { points.now ≢ [] }
    requires keys { 0 < keys }
    requires most { keys * length points.now ≤ 65535000 }
    ensures { IfOk result (λ finished. stage_of finished.progress ≡ Finished) }
{
    let mut writer = match TsmWriter::new(alloc, device) {
        Ok(writer) => writer,
        Err((_device, trouble)) => bail!(trouble),
    };
    if let Err(refused) = push_keys(alloc, &mut writer, keys, points) {
        let _device = writer.give_up();
        return Err(refused);
    }
    match writer.finish() {
        Ok((device, _facts)) => Ok(device),
        Err((_device, trouble)) => bail!(trouble),
    }
}

/// Pushes these points under each of so many keys.
fn push_keys<W: Writer>(
    alloc: Global,
    writer: &mut TsmWriter<W>,
    keys: usize,
    points: &[(Time, Value)],
) -> Result<()>
    requires new { HasPushed (IsTrue W.tells) W.content W.stage writer.old 0 None }
    requires run { Run None points.now }
    requires some { points.now ≢ [] }
    requires keys { 0 < keys }
    requires most { keys * length points.now ≤ 65535000 }
    ensures { OnOk result ((most : ℕ) × (last : List ℕ) × HasPushed (IsTrue W.tells) W.content W.stage writer.new most (Some last)) }
{
    let mut last = key_of(alloc, 0)?;
    push_points(writer, last.as_slice(), points)?;
    for number in 1..keys {
        let key = key_of(alloc, number)?;
        if !is_above(last.as_slice(), key.as_slice()) {
            bail!("the keys don't ascend");
        }
        push_points(writer, key.as_slice(), points)?;
        last = key;
    }
    Ok(())
}

/// Whether a key comes after the last one.
fn is_above(last: &[u8], key: &[u8]) -> bool
    ensures { IsTrue result → IsAbove (Some last.now) key.now }
{
    match last.cmp(key) {
        Ordering::Less => true,
        Ordering::Equal | Ordering::Greater => false,
    }
}

/// Pushes these points under a key behind the last one.
fn push_points<W: Writer>(
    writer: &mut TsmWriter<W>,
    key: &[u8],
    points: &[(Time, Value)],
) -> Result<(), Trouble>
    requires before { (most : ℕ) × (last : Option (List ℕ)) × HasPushed (IsTrue W.tells) W.content W.stage writer.old most last
        × IsAbove last key.now × (most + length points.now ≤ 65535000) }
    requires mark { (at : ℕ) × MarkAt key.now at }
    requires fits { length key.now ≤ 65535 }
    requires run { Run None points.now }
    requires some { points.now ≢ [] }
    ensures { OnOk result ((most : ℕ) (last : Option (List ℕ)) → HasPushed (IsTrue W.tells) W.content W.stage writer.old most last
        → IsAbove last key.now → HasPushed (IsTrue W.tells) W.content W.stage writer.new (most + length points.now) (Some key.now)) }
{
    let mut rest = points;
    while let Some(((time, value), behind)) = rest.split_first() {
        writer.push(key, *time, *value)?;
        rest = behind;
    }
    Ok(())
}
