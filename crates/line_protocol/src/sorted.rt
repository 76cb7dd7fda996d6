ghost use Rattle.std.specs.Prelude.{◌≡◌, ◌↔◌, ◌++◌, ◌∷◌, [], length, All, IfOk, OnOk, IsTrue};
ghost use Rattle.std.specs.List.{AllAdjacentBelow};
ghost use Rattle.std.specs.List.Sorted.{IsPermutation, IsSorted};
ghost use Rattle.std.specs.Str.{IsUtf8};
ghost use Rattle.line_protocol.specs.Parts.{parts_behind};
ghost use Rattle.line_protocol.specs.Sorted.{texts_of, AreCut, part_cmp, joined};
ghost use Rattle.line_protocol.specs.Texts.{IsOneLine, StartsAscii};

use crate::cut::cut;
use std::alloc::{AllocError, AllocFailed, Global};
use std::cmp::Ordering;
use tsdb_types::compare_spelled;

// A tag as it stands in a line: its key, and the whole of it.
#[derive(Clone, Copy)]
pub struct Part<'a> {
    pub key: &'a [u8],
    pub text: &'a [u8],
}

// Reads the tags behind the commas of a text into emptied room, in ascending order of the keys that they spell.
pub fn sort_parts<'a>(parts: &mut Vec<Part<'a>>, text: &'a [u8]) -> Result<(), AllocError>
    requires start { StartsAscii text.now }
    requires one_line { IsOneLine text.now }
    ensures same { OnOk result (IsPermutation (parts_behind 44 text.now) (texts_of parts.new.items)) }
    ensures cut { OnOk result (AreCut parts.new.items) }
    ensures sorted { OnOk result (IsSorted part_cmp parts.new.items) }
    ensures utf8 { OnOk result (All (λ part. IsUtf8 part.text.now) parts.new.items) }
{
    read_parts(parts, text)?;
    sort(parts);
    Ok(())
}

// Reads the tags behind the commas of a text into emptied room, as they stand.
fn read_parts<'a>(parts: &mut Vec<Part<'a>>, text: &'a [u8]) -> Result<(), AllocError>
    requires start { StartsAscii text.now }
    requires one_line { IsOneLine text.now }
    ensures texts { OnOk result (texts_of parts.new.items ≡ parts_behind 44 text.now) }
    ensures cut { OnOk result (AreCut parts.new.items) }
    ensures utf8 { OnOk result (All (λ part. IsUtf8 part.text.now) parts.new.items) }
{
    parts.clear();
    let mut left = text;
    'tags: while let Some((_comma, behind)) = left.split_first() {
        let (text, rest) = cut(behind, b',');
        let (key, _) = cut(text, b'=');
        parts.push(Part { key, text })?;
        left = rest;
    }
    Ok(())
}

fn sort(parts: &mut Vec<Part<'_>>)
    ensures same { IsPermutation parts.old.items parts.new.items }
    ensures sorted { IsSorted part_cmp parts.new.items }
{
    parts.sort_unstable_by(|part, other| compare_spelled(part.key, other.key));
}

// Whether each key is below the next one.
pub fn ascend(parts: &[Part<'_>]) -> bool
    ensures { IsTrue result ↔ AllAdjacentBelow (λ part next. part_cmp part next ≡ Ordering.Less) parts.now (length parts.now) }
{
    for at in 1..parts.len() {
        if !is_below(&parts[at - 1], &parts[at]) {
            return false;
        }
    }
    true
}

fn is_below(part: &Part<'_>, next: &Part<'_>) -> bool
    ensures { IsTrue result ↔ (part_cmp part.now next.now ≡ Ordering.Less) }
{
    matches!(compare_spelled(part.key, next.key), Ordering::Less)
}

// A measurement as it stands, and the tags behind it.
pub fn spelled(
    alloc: Global,
    len: usize,
    measurement: &[u8],
    parts: &[Part<'_>],
) -> Result<Vec<u8>, AllocError>
    ensures { IfOk result (λ text. text.items ≡ measurement.now ++ joined (texts_of parts.now)) }
{
    let mut text = Vec::with_capacity(alloc, len)?;
    text.extend_from_slice(measurement)?;
    for part in parts {
        push_part(&mut text, part.text)?;
    }
    Ok(text)
}

// Writes a tag behind a comma.
fn push_part(text: &mut Vec<u8>, part: &[u8]) -> Result<(), AllocError>
    ensures { OnOk result (text.new.items ≡ text.old.items ++ joined (part.now ∷ [])) }
{
    text.push(b',')?;
    text.extend_from_slice(part)?;
    Ok(())
}
