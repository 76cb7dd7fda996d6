// The keys that may have points, and how a composite key is written.
ghost use Rattle.std.specs.Prelude.{◌≡◌, ◌≤◌, length, vec_capacity, IsOk, OnOk};
ghost use Rattle.tsdb_types.specs.Keys.{key_of};
ghost use Rattle.live_points.specs.Known.{IsKnown};
ghost use Rattle.live_points.specs.Learned.{Adds, key_of_column};

use std::alloc::AllocError;
use std::collections::BTreeSet;
use tsdb_types::{Column, Name, SeriesKey};

const MARK: &[u8] = b"#!~#";

// Series and fields, by the text of the series, then by field.
pub(crate) type Keys = BTreeSet<(SeriesKey, Name)>;

// Writes the composite key over what the buffer held. Where the buffer has the room, it takes no memory.
pub(crate) fn write_key(
    buffer: &mut Vec<u8>,
    series: &SeriesKey,
    field: &Name,
) -> Result<(), AllocError>
    ensures ok { OnOk result (buffer.new.items ≡ key_of series.now field.now) }
    ensures capacity { vec_capacity buffer.old ≤ vec_capacity buffer.new }
    ensures room { OnOk result (length (key_of series.now field.now) ≤ vec_capacity buffer.new) }
    ensures succeeds { length (key_of series.now field.now) ≤ vec_capacity buffer.old → IsOk result }
{
    buffer.clear();
    buffer.extend_from_slice(series.text().as_bytes())?;
    buffer.extend_from_slice(MARK)?;
    buffer.extend_from_slice(field.as_str().as_bytes())?;
    Ok(())
}

// Makes the key of a column known.
pub(crate) fn add_key(keys: &mut Keys, column: &Column) -> Result<(), AllocError>
    ensures adds { Adds (key_of_column column.now) keys.old keys.new }
    ensures ok { OnOk result (IsKnown keys.new (key_of_column column.now)) }
{
    let key = (column.series.carry()?, column.field.carry()?);
    keys.insert(key)?;
    Ok(())
}
