ghost use Rattle.std.specs.Prelude.{◌≡◌, ◌++◌, ◌<◌, ◌^◌, ℕ, length, OnOk, IfOk};
ghost use Rattle.std.specs.List.{flat_map};
ghost use Rattle.tsm_format.specs.Rows.{AreIndex};
ghost use Rattle.tsm_format.specs.Format.{entry_bytes, head_bytes, row_bytes, index_bytes, byte_of};

use crate::{Entry, KeyRow};
use fixed_width::{put_i64, put_u16, put_u32, put_u64};
use std::alloc::{AllocError, Global};
use tsdb_types::Kind;

/// The index of these rows: for each the length of its key (2 bytes), the key, the type byte, the count of its blocks
/// (2), and for each block its first and its last time (8 bytes each), its offset (8) and its size (4).
pub fn write_index(alloc: Global, rows: &[KeyRow]) -> Result<Vec<u8>, AllocError>
    requires { (start : ℕ) × AreIndex start rows.now }
    ensures { IfOk result (λ bytes. bytes.items ≡ index_bytes rows.now) }
{
    let mut out = Vec::new(alloc);
    for row in rows {
        put_row(&mut out, row)?;
    }
    Ok(out)
}

fn put_row(out: &mut Vec<u8>, row: &KeyRow) -> Result<(), AllocError>
    requires key { length row.now.key < 2 ^ 16 }
    requires count { length row.now.entries < 2 ^ 16 }
    ensures { OnOk result (out.new.items ≡ out.old.items ++ row_bytes row.now) }
{
    let entries = row.entries.as_slice();
    put_head(out, row.key.as_slice(), row.kind, entries.len() as u16)?;
    put_entries(out, entries)
}

fn put_head(out: &mut Vec<u8>, key: &[u8], kind: Kind, count: u16) -> Result<(), AllocError>
    requires { length key.now < 2 ^ 16 }
    ensures { OnOk result (out.new.items ≡ out.old.items ++ head_bytes key.now kind count) }
{
    put_u16(out, key.len() as u16)?;
    out.extend_from_slice(key)?;
    out.push(kind_byte(kind))?;
    put_u16(out, count)
}

fn put_entries(out: &mut Vec<u8>, entries: &[Entry]) -> Result<(), AllocError>
    ensures { OnOk result (out.new.items ≡ out.old.items ++ flat_map entry_bytes entries.now) }
{
    for entry in entries {
        put_entry(out, *entry)?;
    }
    Ok(())
}

fn put_entry(out: &mut Vec<u8>, entry: Entry) -> Result<(), AllocError>
    ensures { OnOk result (out.new.items ≡ out.old.items ++ entry_bytes entry) }
{
    put_i64(out, entry.min.get())?;
    put_i64(out, entry.max.get())?;
    put_u64(out, entry.offset)?;
    put_u32(out, entry.size)
}

fn kind_byte(kind: Kind) -> u8
    ensures { result ≡ byte_of kind }
{
    match kind {
        Kind::Integer => 1,
        Kind::Boolean => 2,
        Kind::Unsigned => 4,
    }
}
