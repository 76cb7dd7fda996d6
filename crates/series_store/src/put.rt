ghost use Rattle.std.specs.Prelude.{◌≡◌, ◌++◌, ◌≤◌, ◌^◌, length, OnOk, IfOk};
ghost use Rattle.std.specs.List.{AllByRecursion};
ghost use Rattle.series_store.specs.Format.{HasRoom, IsKey, record_bytes, series_bytes};

use fixed_width::{put_u16, put_u32};
use std::alloc::{AllocError, Global};
use tsdb_types::SeriesKey;

/// The bytes of a record.
pub fn record_of(alloc: Global, series: &[SeriesKey]) -> Result<Vec<u8>, AllocError>
    requires room { AllByRecursion HasRoom series.now }
    requires short { length (record_bytes series.now) ≤ 2 ^ 30 }
    ensures bytes { IfOk result (λ bytes. bytes.items ≡ record_bytes series.now) }
    ensures keys { AllByRecursion IsKey series.now }
{
    let mut out = Vec::with_capacity(alloc, size_of(series))?;
    put_u32(&mut out, series.len() as u32)?;
    for key in series {
        put_series(&mut out, key)?;
    }
    Ok(out)
}

/// How many bytes the record takes.
fn size_of(series: &[SeriesKey]) -> usize
    requires { length (record_bytes series.now) ≤ 2 ^ 30 }
    ensures size { result ≡ length (record_bytes series.now) }
    ensures keys { AllByRecursion IsKey series.now }
{
    let mut size = 4;
    for key in series {
        size += size_with(key);
    }
    size
}

/// How many bytes one series takes.
fn size_with(key: &SeriesKey) -> usize
    requires { length key.now ≤ 2 ^ 30 }
    ensures size { result ≡ length (series_bytes key.now) }
    ensures key { IsKey key.now }
{
    2 + key.text().len()
}

fn put_series(out: &mut Vec<u8>, key: &SeriesKey) -> Result<(), AllocError>
    requires { HasRoom key.now }
    ensures { OnOk result (out.new.items ≡ out.old.items ++ series_bytes key.now) }
{
    let text = key.text().as_bytes();
    put_u16(out, text.len() as u16)?;
    out.extend_from_slice(text)
}
