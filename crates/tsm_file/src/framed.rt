// Blocks as they stand in a file.
ghost use Rattle.std.specs.Prelude.{◌≡◌, ◌≢◌, ◌+◌, ◌<◌, ◌≤◌, ◌^◌, ◌⊎◌, [], max, fold, map, length, All, OnOk, IfSome, IfNone};
ghost use Rattle.tsdb_types.specs.Moments.{IsMoment};
ghost use Rattle.tsdb_types.specs.Values.{kind_of};
ghost use Rattle.tsdb_types.specs.declared.value.Kind.{Kind};
ghost use Rattle.time_codec.specs.Times.{AreTimes};
ghost use Rattle.value_codec.specs.Coding.{AreOf, IsInRange};
ghost use Rattle.block_codec.specs.Blocks.{times_of, values_of};
ghost use Rattle.tsm_file.specs.ReadBlocks.{last_time};
ghost use Rattle.tsm_file.specs.Written.{block_bytes, first_time};

use block_codec::encode_block;
use fixed_width::put_u32;
use std::alloc::{AllocError, Global};
use tsdb_types::{Kind, Time, Value};
use tsm_format::{Entry, KeyRow};
use word_codec::crc32;

/// The checksum of the block of these points, and the block, in place of what the buffer held.
pub fn frame_block(
    alloc: Global,
    buffer: &mut Vec<u8>,
    points: &[(Time, Value)],
) -> Result<(), AllocError>
    requires times { AreTimes (times_of points.now) }
    requires one_kind { (kind : Kind) × AreOf kind (values_of points.now) }
    ensures { OnOk result ((kind : Kind) → AreOf kind (values_of points.now) → buffer.new.items ≡ block_bytes kind points.now) }
{
    let block = encode_block(alloc, points)?;
    buffer.clear();
    put_u32(buffer, crc32(&block))?;
    buffer.extend_from_slice(&block)?;
    Ok(())
}

/// What the index says of a block of these points that begins at this place and has so many bytes.
pub fn entry_at(points: &[(Time, Value)], offset: u64, size: u32) -> Entry
    requires { points.now ≢ [] }
    ensures { result ≡ record { min = first_time points.now; max = last_time (first_time points.now) points.now; offset = offset; size = size } }
{
    let (min, _) = points[0];
    let (max, _) = points[points.len() - 1];
    Entry {
        min,
        max,
        offset,
        size,
    }
}

/// The size as the index has it, and the place behind so many bytes that begin at this one, where the numbers hold them.
pub fn room_behind(place: u64, size: usize) -> Option<(u32, u64)>
    ensures is { IfSome result (λ room. (room.0 ≡ size) × (room.1 ≡ place + size)) }
    ensures fits { IfSome result (λ room. (room.0 < 2 ^ 32) × (room.1 < 2 ^ 64)) }
    ensures none { IfNone result ((2 ^ 32 ≤ size) ⊎ (2 ^ 64 ≤ place + size)) }
{
    let size = u32::try_from(size).ok()?;
    let end = place.checked_add(u64::from(size))?;
    Some((size, end))
}

/// The kind of a value.
pub fn kind_in(time: Time, value: Value) -> Kind
    ensures kind { result ≡ kind_of value }
    ensures moment { IsMoment time }
    ensures range { IsInRange value }
{
    time.get();
    match value {
        Value::Int(_) => Kind::Integer,
        Value::Uint(_) => Kind::Unsigned,
        Value::Bool(_) => Kind::Boolean,
    }
}

/// The greatest count of blocks of a key.
pub fn most_blocks(rows: &[KeyRow]) -> u32
    requires { All (λ row. length row.entries < 2 ^ 16) rows.now }
    ensures { result ≡ fold max 0 (map (λ row. length row.entries) rows.now) }
{
    let mut most = 0;
    for row in rows {
        most = most.max(row.entries.as_slice().len() as u32);
    }
    most
}
