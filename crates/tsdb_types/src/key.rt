ghost use Rattle.std.specs.Prelude.{◌≡◌, ◌↔◌, ℕ, ◌+◌, ◌<◌, ◌≤◌, ◌^◌, List, ◌++◌, length, IfSome, IfNone, IfOk, Some, Err, IsTrue};
ghost use Rattle.tsdb_types.specs.Keys.{mark, key_of, MarkAt, IsFirstMark, IsTooLong, IsCutShort};
ghost use Rattle.tsdb_types.specs.declared.key.KeyFault.TheVariants as key_fault;

use crate::{Name, SeriesKey};
use std::alloc::{AllocError, AllocFailed, Global};
use thiserror::Error;

const MARK: &[u8] = b"#!~#";

const MOST_BYTES: usize = 65535;

/// Why a series and a field were joined to no key.
#[derive(Clone, Copy, Debug, Error, PartialEq, Eq)]
pub enum KeyFault {
    /// The key would be longer than 65,535 bytes.
    #[error("a key of {len} bytes is too long")]
    KeyTooLong { len: usize },
    /// A mark `#!~#` begins before the end of the series, so that the key would be cut there.
    #[error("a mark stands in the series at byte {at}")]
    MarkInKey { at: usize },
    #[error("out of memory")]
    Memory,
}

impl From<AllocError> for KeyFault {
    ghost from_gives = { λ _ e. e ≡ key_fault.Memory };

    fn from(_: AllocError) -> Self {
        KeyFault::Memory
    }
}

/// The key of a field of a series: the text of the series, `#!~#` and the field. `split` finds the end of the series in it.
pub fn composite(alloc: Global, series: &SeriesKey, field: &Name) -> Result<Vec<u8>, KeyFault>
    ensures ok { IfOk result (λ key. key.items ≡ key_of series.now field.now) }
    ensures split { IfOk result (λ key. IsFirstMark key.items (length series.now)) }
    ensures key_too_long { (len : ℕ) → (result ≡ Err (KeyFault.KeyTooLong len)) ↔ IsTooLong (key_of series.now field.now) len }
    ensures mark_in_key { (at : ℕ) → (result ≡ Err (KeyFault.MarkInKey at)) ↔ IsCutShort series.now field.now at }
{
    match key_fault(series, field) {
        Some(fault) => Err(fault),
        None => match joined(alloc, series.text().as_bytes(), field.as_str().as_bytes()) {
            Ok(key) => Ok(key),
            Err(_) => Err(KeyFault::Memory),
        },
    }
}

/// What `composite` would refuse, found without making the key; `Memory` for a length that no `usize` holds.
pub fn key_fault(series: &SeriesKey, field: &Name) -> Option<KeyFault>
    ensures none { IfNone result (IsFirstMark (key_of series.now field.now) (length series.now)) }
    ensures key_too_long { (len : ℕ) → (result ≡ Some (KeyFault.KeyTooLong len)) ↔ IsTooLong (key_of series.now field.now) len }
    ensures mark_in_key { (at : ℕ) → (result ≡ Some (KeyFault.MarkInKey at)) ↔ IsCutShort series.now field.now at }
    ensures memory { (result ≡ Some KeyFault.Memory) ↔ (2 ^ 64 ≤ length (key_of series.now field.now)) }
{
    let series = series.text().as_bytes();
    let Some(len) = joined_len(series, field.as_str().as_bytes()) else {
        return Some(KeyFault::Memory);
    };
    if len > MOST_BYTES {
        return Some(KeyFault::KeyTooLong { len });
    }
    match mark_before_end(series) {
        Some(at) => Some(KeyFault::MarkInKey { at }),
        None => None,
    }
}

/// The place of a mark that begins before the end of the series in the key of each of its fields: `composite` refuses them all.
pub fn mark_in_series(series: &SeriesKey) -> Option<usize>
    ensures found { IfSome result (λ at. at < length series.now) }
    ensures first { IfSome result (λ at. (field : List ℕ) → IsFirstMark (key_of series.now field) at) }
    ensures none { IfNone result ((field : List ℕ) → IsFirstMark (key_of series.now field) (length series.now)) }
{
    mark_before_end(series.text().as_bytes())
}

/// The place of the first mark `#!~#`, where the series of a key ends.
pub fn split(bytes: &[u8]) -> Option<usize>
    ensures found { IfSome result (IsFirstMark bytes.now) }
    ensures none { IfNone result ((at : ℕ) → ¬ MarkAt bytes.now at) }
{
    for (at, byte) in bytes.iter().enumerate() {
        if *byte != b'#' {
            continue;
        }
        if is_marked(bytes, at) {
            return Some(at);
        }
    }
    None
}

fn is_marked(bytes: &[u8], at: usize) -> bool
    requires { at ≤ length bytes.now }
    ensures { IsTrue result ↔ MarkAt bytes.now at }
{
    let (_, behind) = bytes.split_at(at);
    behind.starts_with(MARK)
}

// `None` for a length that no `usize` holds.
fn joined_len(series: &[u8], field: &[u8]) -> Option<usize>
    ensures found { IfSome result (λ len. len ≡ length (key_of series.now field.now)) }
    ensures none { IfNone result (2 ^ 64 ≤ length (key_of series.now field.now)) }
{
    let series = series.len().checked_add(MARK.len())?;
    series.checked_add(field.len())
}

// Where a mark stands in the key of any field of the series, before the series ends.
fn mark_before_end(series: &[u8]) -> Option<usize>
    ensures found { IfSome result (λ at. at < length series.now) }
    ensures first { IfSome result (λ at. (field : List ℕ) → IsFirstMark (key_of series.now field) at) }
    ensures none { IfNone result ((field : List ℕ) → IsFirstMark (key_of series.now field) (length series.now)) }
{
    if let Some(at) = split(series) {
        return Some(at);
    }
    if series.ends_with(b"#!~") {
        return Some(series.len() - 3);
    }
    None
}

fn joined(alloc: Global, series: &[u8], field: &[u8]) -> Result<Vec<u8>, AllocError>
    ensures { IfOk result (λ key. key.items ≡ key_of series.now field.now) }
{
    let mut key = Vec::new(alloc);
    key.extend_from_slice(series)?;
    key.extend_from_slice(MARK)?;
    key.extend_from_slice(field)?;
    Ok(key)
}
