// The measurement and the tags of a series, as its text tells them.
ghost use Rattle.std.specs.Prelude.{◌≡◌, ◌<◌, ◌∷◌, [], false, length, IfOk, IfSome, IfNone};
ghost use Rattle.std.specs.Str.{bytes_eq};
ghost use Rattle.tsdb_types.specs.Series.{tag_ends_at};
ghost use Rattle.tsdb_types.specs.Spelled.{unescaped};
ghost use Rattle.point_model.specs.Measurements as measurements;
ghost use Rattle.point_model.specs.Tags as spec;

use std::alloc::{AllocError, Global};
use tsdb_types::{Name, SeriesKey};

const TAG_ENDS: &[u8] = b",= ";

/// The measurement of a series, as its text begins with it: with a backslash before each comma and space.
pub fn measurement_head(series: &SeriesKey) -> &[u8]
    ensures { result.now ≡ measurements.measurement_head series.now }
{
    let (head, _tags) = cut(series.text().as_bytes(), b',');
    head
}

/// The text that the tag with this key has in a series, without the backslashes of the series' text; none where it has no such
/// tag.
pub fn text_of_tag(alloc: Global, series: &SeriesKey, key: &Name) -> Result<Vec<u8>, AllocError>
    ensures { IfOk result (λ text. text.items ≡ spec.tag_text key.now series.now) }
{
    let spelled = tag_value(series.text().as_bytes(), key.as_str().as_bytes());
    let mut text = Vec::with_capacity(alloc, spelled.len())?;
    let mut left = spelled;
    while let Some((byte, behind)) = first_spelled(left) {
        text.push(byte)?;
        left = behind;
    }
    Ok(text)
}

// Whether the tag with this key has this text in the series. A tag that the series lacks has the empty text.
pub(crate) fn has_tag_text(series: &SeriesKey, key: &Name, text: &[u8]) -> bool
    ensures { result ≡ bytes_eq (spec.tag_text key.now series.now) text.now }
{
    spells(
        tag_value(series.text().as_bytes(), key.as_str().as_bytes()),
        text,
    )
}

// How a series spells the value of the tag with this key; nothing where it has none.
fn tag_value<'a>(series: &'a [u8], key: &[u8]) -> &'a [u8]
    ensures { unescaped tag_ends_at result.now ≡ spec.tag_text key.now series.now }
{
    let (_measurement, tags) = cut(series, b',');
    let mut left = tags;
    'tags: while let Some((_comma, behind)) = left.split_first() {
        let (tag, rest) = cut(behind, b',');
        let (spelled, value) = cut(tag, b'=');
        if spells(spelled, key) {
            return behind_first(value);
        }
        left = rest;
    }
    b""
}

// The front of a text up to the first of these bytes that no backslash stands before, and the rest from that byte on.
fn cut(text: &[u8], mark: u8) -> (&[u8], &[u8])
    ensures front { result.0.now ≡ spec.front mark false text.now }
    ensures rest { result.1.now ≡ spec.rest mark false text.now }
{
    let mut slash = false;
    for (at, byte) in text.iter().enumerate() {
        if *byte == mark && !slash {
            return text.split_at(at);
        }
        slash = *byte == b'\\';
    }
    text.split_at(text.len())
}

fn behind_first(text: &[u8]) -> &[u8]
    ensures { result.now ≡ spec.behind text.now }
{
    match text.split_first() {
        None => text,
        Some((_first, behind)) => behind,
    }
}

// Whether a part of a series, with its escapes, spells this text.
fn spells(part: &[u8], text: &[u8]) -> bool
    ensures { result ≡ bytes_eq (unescaped tag_ends_at part.now) text.now }
{
    let mut left = part;
    for byte in text {
        match first_spelled(left) {
            None => return false,
            Some((first, behind)) => {
                if first != *byte {
                    return false;
                }
                left = behind;
            }
        }
    }
    first_spelled(left).is_none()
}

// The first byte that a part spells, and the part behind it.
fn first_spelled(part: &[u8]) -> Option<(u8, &[u8])>
    ensures some { IfSome result (λ first. unescaped tag_ends_at part.now ≡ first.0 ∷ unescaped tag_ends_at first.1.now) }
    ensures shorter { IfSome result (λ first. length first.1.now < length part.now) }
    ensures none { IfNone result (unescaped tag_ends_at part.now ≡ []) }
{
    match part.split_first() {
        None => None,
        Some((first, behind)) => {
            if *first != b'\\' {
                return Some((*first, behind));
            }
            match behind.split_first() {
                None => Some((*first, behind)),
                Some((second, rest)) => {
                    if TAG_ENDS.contains(second) {
                        return Some((*second, rest));
                    }
                    Some((*first, behind))
                }
            }
        }
    }
}
