ghost use Rattle.std.specs.Prelude.{ℕ, ◌≤◌, length, IfOk};
ghost use Rattle.tsdb_types.specs.Keys.{MarkAt};

use anyhow::{Result, bail};
use std::alloc::Global;
use tsdb_types::{Name, SeriesKey, Tag, Tags, composite};

/// The greatest length of a key.
const MOST_BYTES: usize = 65535;

/// The key of the series `cpu,host=h00000007` and the field `usage`, for the number 7.
pub fn key_of(alloc: Global, number: usize) -> Result<Vec<u8>>
    ensures mark { IfOk result (λ key. (at : ℕ) × MarkAt key.items at) }
    ensures fits { IfOk result (λ key. length key.items ≤ 65535) }
{
    let series = series_of(alloc, number)?;
    let field = Name::new(alloc, "usage")?;
    let key = composite(alloc, &series, &field)?;
    if key.len() > MOST_BYTES {
        bail!("a key is too long");
    }
    Ok(key)
}

fn series_of(alloc: Global, number: usize) -> Result<SeriesKey> {
    let host = format!(in alloc; "h{number:08}")?;
    let tag = Tag {
        key: Name::new(alloc, "host")?,
        value: Name::new(alloc, host.as_str())?,
    };
    let mut tags = Vec::new(alloc);
    tags.push(tag)?;
    let series = SeriesKey::make(alloc, Name::new(alloc, "cpu")?, Tags::new(tags))?;
    Ok(series)
}
