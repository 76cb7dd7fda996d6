// A row at the front of bytes.
ghost use Rattle.std.specs.Prelude.{◌≡◌, ◌≢◌, ◌+◌, ◌*◌, ◌<◌, ◌^◌, ◌++◌, ◌↔◌, ℕ, List, length, drop, Option, None, IsTrue, IfOk, IfSome, IfNone};
ghost use Rattle.tsm_format.specs.Rows.{IsRow, IsAbove, size_of};
ghost use Rattle.tsm_format.specs.Format.{row_bytes};
ghost use Rattle.tsm_format.specs.Faults.{BeginsNone, last_key};
ghost use Rattle.tsm_format.specs.Places.{StandsFor};

use crate::entries::{end_of, take_entries};
use crate::head::take_head;
use crate::{Entries, Key, KeyRow};
use std::alloc::{AllocError, Global};
use std::cmp::Ordering;
use tsdb_types::split;

/// The row at the front that may follow these rows, whose blocks end at the place.
pub fn take_row(
    alloc: Global,
    bytes: &[u8],
    rows: &[KeyRow],
    place: Option<u64>,
) -> Result<Option<KeyRow>, AllocError>
    ensures found { IfOk result (λ taken. IfSome taken (λ row. bytes.now ≡ row_bytes row ++ drop (5 + length row.key + 28 * length row.entries) bytes.now)) }
    ensures good { IfOk result (λ taken. IfSome taken (λ row. (at : ℕ) → StandsFor place at → IsRow (last_key None rows.now) at row)) }
    ensures none { IfOk result (λ taken. IfNone taken ((at : ℕ) → StandsFor place at → BeginsNone (last_key None rows.now) at bytes.now)) }
{
    let Some(head) = take_head(bytes) else {
        return Ok(None);
    };
    if head.count == 0 {
        return Ok(None);
    }
    if split(head.key).is_none() {
        return Ok(None);
    }
    if !is_above(rows, head.key) {
        return Ok(None);
    }
    let Some(entries) = take_entries(alloc, head.behind, head.count, place)? else {
        return Ok(None);
    };
    let key = Vec::from_slice(alloc, head.key)?;
    Ok(Some(KeyRow {
        key: Key::new(key),
        kind: head.kind,
        entries: Entries::new(entries),
    }))
}

// Whether the key comes behind those of the rows.
fn is_above(rows: &[KeyRow], key: &[u8]) -> bool
    ensures { IsTrue result ↔ IsAbove (last_key None rows.now) key.now }
{
    if rows.is_empty() {
        return true;
    }
    let last = &rows[rows.len() - 1];
    match last.key.as_slice().cmp(key) {
        Ordering::Less => true,
        _ => false,
    }
}

/// Where the blocks of a row end, if 64 bits hold it.
pub fn row_end(row: &KeyRow) -> Option<u64>
    ensures { (last : Option (List ℕ)) (at : ℕ) → IsRow last at row.now → StandsFor result (at + size_of row.now.entries) }
{
    match row.entries.as_slice().last() {
        Some(entry) => end_of(entry),
        None => None,
    }
}

/// The bytes of a row.
pub fn row_len(row: &KeyRow) -> usize
    requires { 5 + length row.now.key + 28 * length row.now.entries < 2 ^ 64 }
    ensures { result ≡ 5 + length row.now.key + 28 * length row.now.entries }
{
    5 + row.key.as_slice().len() + 28 * row.entries.as_slice().len()
}
