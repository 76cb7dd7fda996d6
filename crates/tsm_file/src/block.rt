// A block as it stands in a file.
ghost use Rattle.std.specs.Prelude.{◌≡◌, ◌↔◌, List, Err, IsTrue, IfOk, IsErrOf, MatchResult};
ghost use Rattle.shard_disk.specs.Health.{Ages, Failed};
ghost use Rattle.shard_disk.specs.declared.damage.Damage.{Damage};
ghost use Rattle.point_model.specs.Rows.{Row};
ghost use Rattle.tsm_file.specs.ReadBlocks.{AnswersBlock, BeginsAs, BeginsAt, EndsAt, IsBlockOf, IsWrong, IsWithin, Spans, held_at};

use crate::bytes::bytes_of;
use block_codec::decode_block;
use fixed_width::take_u32;
use point_model::CursorFault;
use shard_disk::{Damage, FormatFault, Reader, Why};
use std::alloc::Global;
use tsdb_types::{BlockFault, Kind, Time, Value};
use tsm_format::Entry;
use word_codec::crc32;

/// The points of a block of a file.
pub fn read_block<R: Reader>(
    alloc: Global,
    reader: &mut R,
    file: u32,
    kind: Kind,
    entry: &Entry,
) -> Result<Vec<(Time, Value)>, CursorFault>
    requires { IsTrue R.tells → IsWithin (R.content reader.old) entry.now }
    ensures found { IfOk result (λ points. IsTrue R.tells → IsBlockOf kind entry.now (held_at (R.content reader.old) entry.now) points.items) }
    ensures damaged { (damage : Damage) → result ≡ Err (CursorFault.Damaged damage) → IsTrue R.tells
        → IsWrong file kind entry.now (held_at (R.content reader.old) entry.now) damage }
    // A sound block is read as its points, and is never damaged.
    ensures sound { IsTrue R.tells → (points : List Row) → IsBlockOf kind entry.now (held_at (R.content reader.old) entry.now) points → AnswersBlock result points }
    ensures fault { IsErrOf result CursorFault.Fault → Failed (R.health reader.old) (R.health reader.new) }
    ensures content { R.content reader.new ≡ R.content reader.old }
    ensures file { R.file reader.new ≡ R.file reader.old }
    ensures ages { Ages (R.health reader.old) (R.health reader.new) }
{
    let held = bytes_of(alloc, reader, entry.offset, entry.size as usize)?;
    match points_of(alloc, file, kind, entry, &held) {
        Ok(points) => Ok(points),
        Err(FormatFault::Damaged(damage)) => Err(CursorFault::Damaged(damage)),
        Err(FormatFault::Memory) => Err(CursorFault::Memory),
    }
}

/// The points of the block that these bytes hold behind their checksum.
fn points_of(
    alloc: Global,
    file: u32,
    kind: Kind,
    entry: &Entry,
    held: &[u8],
) -> Result<Vec<(Time, Value)>, FormatFault>
    ensures found { IfOk result (λ points. IsBlockOf kind entry.now held.now points.items) }
    ensures damaged { (damage : Damage) → result ≡ Err (FormatFault.Damaged damage) → IsWrong file kind entry.now held.now damage }
    ensures sound { (points : List Row) → IsBlockOf kind entry.now held.now points → MatchResult result (λ found. found.items ≡ points) (λ e. e ≡ FormatFault.Memory) }
{
    let Some((stored, block)) = take_u32(held) else {
        return Err(damage(file, entry, Why::Block));
    };
    let computed = crc32(block);
    if stored != computed {
        return Err(damage(file, entry, Why::Sum { stored, computed }));
    }
    let points = match decode_block(alloc, block) {
        Ok(points) => points,
        Err(BlockFault::Memory) => return Err(FormatFault::Memory),
        Err(BlockFault::BadKind { .. }) => return Err(damage(file, entry, Why::Block)),
        Err(BlockFault::BadBlock) => return Err(damage(file, entry, Why::Block)),
    };
    if !agrees(&points, kind, entry) {
        return Err(damage(file, entry, Why::Block));
    }
    Ok(points)
}

fn damage(file: u32, entry: &Entry, why: Why) -> FormatFault
    ensures { result ≡ FormatFault.Damaged (record { file = file; offset = entry.now.offset; why = why }) }
{
    FormatFault::Damaged(Damage {
        file,
        offset: entry.offset,
        why,
    })
}

/// Whether the kind, the first and the last time of the points are those of the index.
fn agrees(points: &[(Time, Value)], kind: Kind, entry: &Entry) -> bool
    ensures { IsTrue result ↔ (BeginsAs kind points.now × Spans entry.now points.now) }
{
    if !begins_at(points, kind, entry.min) {
        return false;
    }
    ends_at(points, entry.max)
}

fn begins_at(points: &[(Time, Value)], kind: Kind, time: Time) -> bool
    ensures { IsTrue result ↔ (BeginsAs kind points.now × BeginsAt time points.now) }
{
    let Some((point, _)) = points.split_first() else {
        return false;
    };
    if point.1.kind() != kind {
        return false;
    }
    point.0 == time
}

fn ends_at(points: &[(Time, Value)], time: Time) -> bool
    ensures { IsTrue result ↔ EndsAt time points.now }
{
    let Some(point) = points.last() else {
        return false;
    };
    point.0 == time
}
