// A record of a segment: an entry behind its number.
ghost use Rattle.std.specs.Prelude.{ℕ, IfOk, IfSome, IfNone};
ghost use Rattle.point_model.specs.declared.entry.Entry.{Entry};
ghost use Rattle.wal_store.specs.Segments.{SpellsRecord};

use crate::entry::take_entry;
use fixed_width::take_u64;
use point_model::Entry;
use std::alloc::{AllocError, Global};
use tsdb_types::Seed;

// The greatest number of an entry.
const LAST_NUMBER: u64 = 9223372036854775807;

/// The number and the entry of the record whose body these bytes are, where they are one's.
pub fn take_record(
    alloc: Global,
    seed: Seed,
    bytes: &[u8],
) -> Result<Option<(u64, Entry)>, AllocError>
    ensures found { IfOk result (λ taken. IfSome taken (λ record_. SpellsRecord record_.0 record_.1 bytes.now)) }
    ensures none { IfOk result (λ taken. IfNone taken ((number : ℕ) (entry : Entry) → SpellsRecord number entry bytes.now → ⊥)) }
{
    let Some((number, body)) = take_u64(bytes) else {
        return Ok(None);
    };
    if number > LAST_NUMBER {
        return Ok(None);
    }
    match take_entry(alloc, seed, body)? {
        Some(entry) => Ok(Some((number, entry))),
        None => Ok(None),
    }
}
