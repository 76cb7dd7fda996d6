// One entry of a row at the front of bytes.
ghost use Rattle.std.specs.Prelude.{◌≡◌, ◌≢◌, ◌++◌, ◌<◌, ◌^◌, ℕ, ℤ, List, length, IfSome, IfNone, IsTrue, ◌↔◌};
ghost use Rattle.tsm_format.specs.Rows.{IsEntry, IsLater};
ghost use Rattle.tsm_format.specs.Format.{entry_bytes};
ghost use Rattle.tsm_format.specs.Places.{StandsFor};
ghost use Rattle.tsm_format.specs.Raw.{entry_of};
ghost use Rattle.tsm_format.specs.declared.entry.Entry.{Entry};

use crate::Entry;
use fixed_width::{take_i64, take_u32, take_u64};
use tsdb_types::Time;

/// The numbers of an entry, and the bytes behind them.
#[derive(Drop)]
pub struct Raw<'a> {
    pub min: i64,
    pub max: i64,
    pub offset: u64,
    pub size: u32,
    pub behind: &'a [u8],
}

/// The numbers at the front. `None` where there are too few bytes.
pub fn take_raw(bytes: &[u8]) -> Option<Raw<'_>>
    ensures found { IfSome result (λ raw. bytes.now ≡ entry_bytes (entry_of raw) ++ raw.behind.now) }
    ensures cut { IfNone result (length bytes.now < 28) }
{
    let (min, rest) = take_i64(bytes)?;
    let (max, rest) = take_i64(rest)?;
    let (offset, rest) = take_u64(rest)?;
    let (size, behind) = take_u32(rest)?;
    Some(Raw {
        min,
        max,
        offset,
        size,
        behind,
    })
}

/// The entry of these numbers, where it may follow blocks that end at the place with this last time.
pub fn checked(raw: &Raw<'_>, last: Option<Time>, place: Option<u64>) -> Option<Entry>
    ensures same { IfSome result (λ entry. entry ≡ entry_of raw.now) }
    ensures good { IfSome result (λ entry. (at : ℕ) → StandsFor place at → IsEntry at entry × IsLater last entry.min) }
    ensures none { IfNone result ((at : ℕ) → StandsFor place at → ¬ (IsEntry at (entry_of raw.now) × IsLater last raw.now.min)) }
{
    let min = Time::new(raw.min)?;
    let max = Time::new(raw.max)?;
    if place != Some(raw.offset) || raw.size < 4 || max < min || !is_later(last, min) {
        return None;
    }
    Some(Entry {
        min,
        max,
        offset: raw.offset,
        size: raw.size,
    })
}

fn is_later(last: Option<Time>, time: Time) -> bool
    ensures { IsTrue result ↔ IsLater last time }
{
    match last {
        Some(last) => last < time,
        None => true,
    }
}
