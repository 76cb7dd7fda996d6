// The blocks of a row at the front of bytes.
ghost use Rattle.std.specs.Prelude.{◌≡◌, ◌≢◌, ◌+◌, ◌*◌, ◌++◌, ℕ, List, [], length, drop, None, IfOk, IfSome, IfNone};
ghost use Rattle.std.specs.List.{flat_map};
ghost use Rattle.tsm_format.specs.Rows.{IsEntry, IsLater, AreEntries, size_of};
ghost use Rattle.tsm_format.specs.Format.{entry_bytes};
ghost use Rattle.tsm_format.specs.Places.{StandsFor};
ghost use Rattle.tsm_format.specs.declared.entry.Entry.{Entry};

use crate::Entry;
use crate::take::{checked, take_raw};
use std::alloc::{AllocError, Global};
use tsdb_types::Time;

/// The bytes of an entry.
pub const ENTRY_LEN: usize = 28;

/// The entry at the front that may follow blocks which end at the place with this last time.
pub fn next_entry(bytes: &[u8], last: Option<Time>, place: Option<u64>) -> Option<Entry>
    ensures found { IfSome result (λ entry. bytes.now ≡ entry_bytes entry ++ drop 28 bytes.now) }
    ensures good { IfSome result (λ entry. (at : ℕ) → StandsFor place at → IsEntry at entry × IsLater last entry.min) }
    ensures none { IfNone result ((entry : Entry) (rest : List ℕ) (at : ℕ) → StandsFor place at → IsEntry at entry → IsLater last entry.min
        → bytes.now ≢ entry_bytes entry ++ rest) }
{
    let raw = take_raw(bytes)?;
    checked(&raw, last, place)
}

/// So many entries at the front whose blocks begin at the place.
pub fn take_entries(
    alloc: Global,
    bytes: &[u8],
    count: u16,
    place: Option<u64>,
) -> Result<Option<Vec<Entry>>, AllocError>
    ensures found { IfOk result (λ taken. IfSome taken (λ entries. bytes.now ≡ flat_map entry_bytes entries.items ++ drop (28 * count) bytes.now)) }
    ensures count { IfOk result (λ taken. IfSome taken (λ entries. length entries.items ≡ count)) }
    ensures good { IfOk result (λ taken. IfSome taken (λ entries. (at : ℕ) → StandsFor place at → AreEntries None at entries.items)) }
    ensures none { IfOk result (λ taken. IfNone taken ((entries : List Entry) (rest : List ℕ) (at : ℕ) → StandsFor place at → length entries ≡ count → AreEntries None at entries
        → bytes.now ≢ flat_map entry_bytes entries ++ rest)) }
{
    let mut entries = Vec::with_capacity(alloc, count as usize)?;
    let mut last = None;
    let mut end = place;
    let mut rest = bytes;
    for _ in 0..count {
        let Some(entry) = next_entry(rest, last, end) else {
            return Ok(None);
        };
        last = Some(last_time(&entry));
        end = end_of(&entry);
        let (_, behind) = rest.split_at(ENTRY_LEN);
        rest = behind;
        entries.push(entry)?;
    }
    Ok(Some(entries))
}

/// Where the block ends, if 64 bits hold it.
pub fn end_of(entry: &Entry) -> Option<u64>
    ensures { (at : ℕ) → IsEntry at entry.now → StandsFor result (at + entry.now.size) }
{
    entry.offset.checked_add(entry.size as u64)
}

fn last_time(entry: &Entry) -> Time
    ensures { result ≡ entry.now.max }
{
    entry.max
}
