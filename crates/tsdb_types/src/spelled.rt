ghost use Rattle.std.specs.Prelude.{◌≡◌, ◌≢◌, ◌==◌, ◌<◌, ◌++◌, ◌∷◌, [], false, ℕ, List, length, slice_index, ◌-◌, IfSome, IfNone, IsTrue, ◌↔◌};
ghost use Rattle.std.specs.Ordering.{nat_cmp};
ghost use Rattle.std.specs.Cmp.Lexicographic.{slice_cmp};
ghost use Rattle.tsdb_types.specs.Names.{IsName};
ghost use Rattle.tsdb_types.specs.Series.{is_one_of, escaped, tag_ends_at, tags_text, IsSeriesText};
ghost use Rattle.tsdb_types.specs.Spelled.{unescaped, EndsName, IsNameFirst, IsTagFirst, IsTagsText};
ghost use Rattle.tsdb_types.specs.Spelled as spec;
ghost use Rattle.tsdb_types.specs.declared.tag.Tag.{Tag};

use crate::series::{MEASUREMENT_ENDS, TAG_ENDS};
use std::cmp::Ordering;

/// Compares the keys of two tags by their parts of a line or of a key, in which a backslash stands before each comma, equals
/// sign and space of the key. No part is copied.
pub fn compare_spelled(key: &[u8], other: &[u8]) -> Ordering
    ensures { result ≡ slice_cmp nat_cmp (unescaped tag_ends_at key.now) (unescaped tag_ends_at other.now) }
{
    let mut left = key;
    let mut right = other;
    'bytes: loop {
        match first_spelled(left) {
            None => return compare_end(right),
            Some((byte, behind)) => match first_spelled(right) {
                None => return Ordering::Greater,
                Some((second, rest)) => {
                    if byte != second {
                        return byte.cmp(&second);
                    }
                    left = behind;
                    right = rest;
                }
            },
        }
    }
}

// Compares the empty name with the one that a part spells.
fn compare_end(part: &[u8]) -> Ordering
    ensures { result ≡ slice_cmp nat_cmp [] (unescaped tag_ends_at part.now) }
{
    match first_spelled(part) {
        None => Ordering::Equal,
        Some(_) => Ordering::Less,
    }
}

// The first byte of the name that a part spells, and the part behind it.
fn first_spelled(part: &[u8]) -> Option<(u8, &[u8])>
    ensures some { IfSome result (λ first. unescaped tag_ends_at part.now ≡ first.0 ∷ unescaped tag_ends_at first.1.now) }
    ensures shorter { IfSome result (λ first. length first.1.now < length part.now) }
    ensures none { IfNone result (unescaped tag_ends_at part.now ≡ []) }
{
    match part.split_first() {
        None => None,
        Some((first, behind)) => {
            if *first != b'\\' {
                return Some((*first, behind));
            }
            match behind.split_first() {
                None => Some((*first, behind)),
                Some((second, rest)) => {
                    if TAG_ENDS.contains(second) {
                        return Some((*second, rest));
                    }
                    Some((*first, behind))
                }
            }
        }
    }
}

// Whether a text is the key of some series.
pub fn is_series_text(text: &[u8]) -> bool
    ensures { IsTrue result ↔ IsSeriesText text.now }
{
    match name_first(text, MEASUREMENT_ENDS) {
        None => false,
        Some((_measurement, tags)) => are_tags(tags),
    }
}

// Whether a text is the tags of some series.
fn are_tags(text: &[u8]) -> bool
    ensures { IsTrue result ↔ IsTagsText text.now }
{
    let mut left = text;
    let mut last: &[u8] = b"";
    'tags: while !left.is_empty() {
        match tag_first(left) {
            None => return false,
            Some((key, rest)) => {
                if !is_below(last, key) {
                    return false;
                }
                last = key;
                left = rest;
            }
        }
    }
    true
}

fn is_below(key: &[u8], next: &[u8]) -> bool
    ensures { IsTrue result ↔ (slice_cmp nat_cmp (unescaped tag_ends_at key.now) (unescaped tag_ends_at next.now) ≡ Ordering.Less) }
{
    matches!(compare_spelled(key, next), Ordering::Less)
}

// How the text spells the key of the tag that it begins with, and what stands behind the tag.
fn tag_first(text: &[u8]) -> Option<(&[u8], &[u8])>
    ensures found { IfSome result (λ first. IsTagFirst first.0.now first.1.now text.now) }
    ensures none { IfNone result ((tag : Tag) (tags : List Tag) → IsName tag.key → IsName tag.value → text.now ≡ tags_text (tag ∷ tags) → ⊥) }
{
    let behind = behind_byte(text, b',')?;
    let (key, behind) = name_first(behind, TAG_ENDS)?;
    let behind = behind_byte(behind, b'=')?;
    let (_value, rest) = name_first(behind, TAG_ENDS)?;
    Some((key, rest))
}

// The rest of a text that begins with this byte.
fn behind_byte(text: &[u8], byte: u8) -> Option<&[u8]>
    ensures found { IfSome result (λ behind. text.now ≡ byte ∷ behind.now) }
    ensures none { IfNone result ((behind : List ℕ) → text.now ≡ byte ∷ behind → ⊥) }
{
    match text.split_first() {
        None => None,
        Some((first, behind)) => { if *first == byte { Some(behind) } else { None } }
    }
}

// The spelling of the name that a text begins with, and what stands behind it.
fn name_first<'a>(text: &'a [u8], ends: &[u8]) -> Option<(&'a [u8], &'a [u8])>
    requires slash { is_one_of ends.now 92 ≡ false }
    requires newline { is_one_of ends.now 10 ≡ false }
    ensures found { IfSome result (λ first. IsNameFirst (is_one_of ends.now) first.0.now first.1.now text.now) }
    ensures none { IfNone result ((name rest : List ℕ) → IsName name → EndsName (is_one_of ends.now) rest → text.now ≡ escaped (is_one_of ends.now) name ++ rest → ⊥) }
{
    let (name, rest) = cut_name(text, ends);
    if is_open(name) {
        return None;
    }
    if is_broken(rest) {
        return None;
    }
    Some((name, rest))
}

// The front of a text up to where a name stops, and the rest.
fn cut_name<'a>(text: &'a [u8], ends: &[u8]) -> (&'a [u8], &'a [u8])
    ensures front { result.0.now ≡ spec.name_front (is_one_of ends.now) false text.now }
    ensures rest { result.1.now ≡ spec.name_rest (is_one_of ends.now) false text.now }
{
    let mut slash = false;
    for (at, byte) in text.iter().enumerate() {
        if stops_name(*byte, ends, slash) {
            return text.split_at(at);
        }
        slash = *byte == b'\\';
    }
    text.split_at(text.len())
}

fn stops_name(byte: u8, ends: &[u8], slash: bool) -> bool
    ensures { result ≡ spec.stops_name (is_one_of ends.now) slash byte }
{
    byte == b'\n' || (ends.contains(&byte) && !slash)
}

// Whether a spelling is empty or ends with a backslash.
fn is_open(spelling: &[u8]) -> bool
    ensures closed { result ≡ false → (0 < length spelling.now) × (slice_index spelling.now (length spelling.now - 1) ≢ 92) }
    ensures open { IsTrue result → 0 < length spelling.now → slice_index spelling.now (length spelling.now - 1) ≡ 92 }
{
    match spelling.last() {
        None => true,
        Some(last) => *last == b'\\',
    }
}

fn is_broken(rest: &[u8]) -> bool
    ensures { result ≡ spec.begins_with (λ byte. byte == 10) rest.now }
{
    match rest.first() {
        None => false,
        Some(first) => *first == b'\n',
    }
}
