ghost use Rattle.std.specs.Prelude.{◌≡◌, ◌≢◌, ◌++◌, ◌<◌, ◌∷◌, ℕ, List, [], length, IfSome, IfNone, IfOk};
ghost use Rattle.std.specs.List.{flat_map, AllByRecursion};
ghost use Rattle.fixed_width.specs.Fields.{bytes_of_u32};
ghost use Rattle.manifest_log.specs.declared.change.Change.{Change};
ghost use Rattle.manifest_log.specs.Format.{HasRoom, IsWritable, number_of, change_bytes, edit_bytes};

use crate::Change;
use fixed_width::{take_u32, take_u64};
use std::alloc::{AllocError, Global};

/// The changes of an edit that may be written, of which these are the bytes and nothing else.
pub fn take_edit(alloc: Global, body: &[u8]) -> Result<Option<Vec<Change>>, AllocError>
    ensures found { IfOk result (λ taken. IfSome taken (λ changes. body.now ≡ edit_bytes changes.items)) }
    ensures writable { IfOk result (λ taken. IfSome taken (λ changes. IsWritable changes.items)) }
    ensures none { IfOk result (λ taken. IfNone taken ((changes : List Change) → IsWritable changes → body.now ≢ edit_bytes changes)) }
{
    if body.len() > 1 << 30 {
        return Ok(None);
    }
    let Some((count, rest)) = take_u32(body) else {
        return Ok(None);
    };
    take_changes(alloc, rest, count)
}

/// So many changes, of which these are the bytes and nothing else.
fn take_changes(alloc: Global, bytes: &[u8], count: u32) -> Result<Option<Vec<Change>>, AllocError>
    ensures found { IfOk result (λ taken. IfSome taken (λ changes. bytes.now ≡ flat_map change_bytes changes.items)) }
    ensures count { IfOk result (λ taken. IfSome taken (λ changes. length changes.items ≡ count)) }
    ensures room { IfOk result (λ taken. IfSome taken (λ changes. AllByRecursion HasRoom changes.items)) }
    ensures none { IfOk result (λ taken. IfNone taken ((changes : List Change) → AllByRecursion HasRoom changes → length changes ≡ count → bytes.now ≢ flat_map change_bytes changes)) }
{
    let mut changes = Vec::new(alloc);
    let mut rest = bytes;
    for _ in 0..count {
        let Some((change, behind)) = take_change(rest) else {
            return Ok(None);
        };
        changes.push(change)?;
        rest = behind;
    }
    if !rest.is_empty() {
        return Ok(None);
    }
    Ok(Some(changes))
}

/// The change at the front of the bytes, and the bytes behind it.
fn take_change(bytes: &[u8]) -> Option<(Change, &[u8])>
    ensures found { IfSome result (λ taken. bytes.now ≡ change_bytes taken.0 ++ taken.1.now) }
    ensures room { IfSome result (λ taken. HasRoom taken.0) }
    ensures none { IfNone result ((change : Change) (rest : List ℕ) → bytes.now ≢ change_bytes change ++ rest) }
{
    match take_byte(bytes) {
        Some((kind, fields)) => take_fields(kind, fields),
        None => None,
    }
}

/// The first byte, and those behind it.
fn take_byte(bytes: &[u8]) -> Option<(u8, &[u8])>
    ensures found { IfSome result (λ taken. bytes.now ≡ taken.0 ∷ taken.1.now) }
    ensures none { IfNone result (bytes.now ≡ []) }
{
    match bytes {
        [] => None,
        [first, behind @ ..] => Some((*first, behind)),
    }
}

/// The change of this kind whose fields stand at the front of the bytes.
fn take_fields(kind: u8, fields: &[u8]) -> Option<(Change, &[u8])>
    ensures found { IfSome result (λ taken. kind ∷ fields.now ≡ change_bytes taken.0 ++ taken.1.now) }
    ensures room { IfSome result (λ taken. HasRoom taken.0) }
    ensures none { IfNone result ((change : Change) (rest : List ℕ) → kind ∷ fields.now ≢ change_bytes change ++ rest) }
{
    match kind {
        1 => {
            let (no, rest) = take_u32(fields)?;
            Some((Change::AddSegment { no }, rest))
        }
        2 => {
            let (no, rest) = take_u32(fields)?;
            Some((Change::ForgetSegment { no }, rest))
        }
        3 => take_file(fields),
        4 => {
            let (no, rest) = take_u32(fields)?;
            Some((Change::RemoveFile { no }, rest))
        }
        5 => {
            let (no, tomb, rest) = take_two(fields)?;
            Some((Change::NameTombs { no, tomb }, rest))
        }
        6 => {
            let (number, rest) = take_u64(fields)?;
            Some((Change::SetFloor { number }, rest))
        }
        7 => {
            let (no, rest) = take_u32(fields)?;
            Some((Change::NameSeries { no }, rest))
        }
        8 => {
            let (log, file, rest) = take_two(fields)?;
            let file = file_of(file);
            Some((Change::NameIndex { log, file }, rest))
        }
        _ => None,
    }
}

fn take_two(fields: &[u8]) -> Option<(u32, u32, &[u8])>
    ensures found { IfSome result (λ taken. fields.now ≡ bytes_of_u32 taken.0 ++ (bytes_of_u32 taken.1 ++ taken.2.now)) }
    ensures cut { IfNone result (length fields.now < 8) }
{
    let (first, rest) = take_u32(fields)?;
    let (second, rest) = take_u32(rest)?;
    Some((first, second, rest))
}

/// The change that adds a TSM file.
fn take_file(fields: &[u8]) -> Option<(Change, &[u8])>
    ensures found { IfSome result (λ taken. 3 ∷ fields.now ≡ change_bytes taken.0 ++ taken.1.now) }
    ensures room { IfSome result (λ taken. HasRoom taken.0) }
    ensures cut { IfNone result (length fields.now < 33) }
{
    let (no, rest) = take_u32(fields)?;
    let (generation, rest) = take_u64(rest)?;
    let (sequence, rest) = take_u32(rest)?;
    let (level, rest) = take_byte(rest)?;
    let (points, rest) = take_u64(rest)?;
    let (most_entries, tomb, rest) = take_two(rest)?;
    let change = Change::AddFile {
        no,
        generation,
        sequence,
        level,
        points,
        most_entries,
        tomb: file_of(tomb),
    };
    Some((change, rest))
}

/// A file that may be missing, of one number.
fn file_of(number: u32) -> Option<u32>
    ensures { number_of result ≡ number }
{
    if number == 0 {
        return None;
    }
    Some(number - 1)
}
