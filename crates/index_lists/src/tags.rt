// The terms of a series, as its text tells them.
ghost use Rattle.std.specs.Prelude.{◌≡◌, ◌++◌, ◌∷◌, false, IfOk, OnOk};
ghost use Rattle.tsdb_types.specs.Series.{is_one_of};
ghost use Rattle.tsdb_types.specs.Spelled.{begins_with, unescaped};
ghost use Rattle.point_model.specs.Tags as spec;
ghost use Rattle.index_lists.specs.Terms as terms;

use crate::Term;
use point_model::measurement_head;
use std::alloc::{AllocError, Global};
use tsdb_types::{Name, SeriesKey};

const MEASUREMENT_ENDS: &[u8] = b", ";

const TAG_ENDS: &[u8] = b",= ";

/// The measurement that a series is of.
pub fn measurement_of(alloc: Global, series: &SeriesKey) -> Result<Name, AllocError>
    ensures { IfOk result (λ name. name ≡ terms.measurement_of series.now) }
{
    name_of(alloc, measurement_head(series), MEASUREMENT_ENDS)
}

/// The terms of a series of this measurement, but for its fields.
pub fn series_terms(
    alloc: Global,
    measurement: &Name,
    series: &SeriesKey,
) -> Result<Vec<Term>, AllocError>
    requires { measurement.now ≡ terms.measurement_of series.now }
    ensures { IfOk result (λ found. found.items ≡ terms.series_terms series.now) }
{
    let mut found = Vec::new(alloc);
    found.push(Term::Measurement(measurement.carry()?))?;
    add_tags(alloc, measurement, series, &mut found)?;
    Ok(found)
}

// Puts the terms of the tags of a series behind others.
fn add_tags(
    alloc: Global,
    measurement: &Name,
    series: &SeriesKey,
    found: &mut Vec<Term>,
) -> Result<(), AllocError>
    ensures { OnOk result (found.new.items ≡ found.old.items ++ terms.tags_terms measurement.now (spec.tags_in series.now)) }
{
    let (_measurement, tags) = cut(series.text().as_bytes(), b',');
    let mut left = tags;
    'tags: while let Some((_comma, behind)) = left.split_first() {
        let (tag, rest) = cut(behind, b',');
        add_tag(alloc, measurement, tag, found)?;
        left = rest;
    }
    Ok(())
}

// Puts the terms of a tag, as a series spells it, behind others.
fn add_tag(
    alloc: Global,
    measurement: &Name,
    tag: &[u8],
    found: &mut Vec<Term>,
) -> Result<(), AllocError>
    ensures { OnOk result (found.new.items ≡ found.old.items ++ terms.tag_terms measurement.now (spec.tag_of tag.now)) }
{
    let (spelled, equals) = cut(tag, b'=');
    let key = name_of(alloc, spelled, TAG_ENDS)?;
    let value = name_of(alloc, behind_first(equals), TAG_ENDS)?;
    found.push(Term::TagKey(measurement.carry()?, key.carry()?))?;
    found.push(Term::TagValue(measurement.carry()?, key, value))?;
    Ok(())
}

// The front of a text up to the first of these bytes that no backslash stands before, and the rest from that byte on.
fn cut(text: &[u8], mark: u8) -> (&[u8], &[u8])
    ensures front { result.0.now ≡ spec.front mark false text.now }
    ensures rest { result.1.now ≡ spec.rest mark false text.now }
{
    let mut slash = false;
    for (at, byte) in text.iter().enumerate() {
        if *byte == mark && !slash {
            return text.split_at(at);
        }
        slash = *byte == b'\\';
    }
    text.split_at(text.len())
}

fn behind_first(text: &[u8]) -> &[u8]
    ensures { result.now ≡ spec.behind text.now }
{
    match text.split_first() {
        None => text,
        Some((_first, behind)) => behind,
    }
}

// The name that an escaped text spells. What a series has is text and spells names, so that memory alone can be wanting.
fn name_of(alloc: Global, escaped: &[u8], ends: &[u8]) -> Result<Name, AllocError>
    ensures { IfOk result (λ name. name ≡ unescaped (is_one_of ends.now) escaped.now) }
{
    let text = spelled(alloc, escaped, ends)?;
    match str::from_utf8(text.as_slice()) {
        Ok(text) => match Name::new(alloc, text) {
            Ok(name) => Ok(name),
            Err(_) => Err(AllocError),
        },
        Err(_) => Err(AllocError),
    }
}

fn spelled(alloc: Global, escaped: &[u8], ends: &[u8]) -> Result<Vec<u8>, AllocError>
    ensures { IfOk result (λ text. text.items ≡ unescaped (is_one_of ends.now) escaped.now) }
{
    let mut text = Vec::with_capacity(alloc, escaped.len())?;
    let mut left = escaped;
    while let Some((byte, behind)) = left.split_first() {
        push_named(&mut text, *byte, behind, ends)?;
        left = behind;
    }
    Ok(text)
}

// Writes a byte, but for a backslash that one of the ends stands behind.
fn push_named(text: &mut Vec<u8>, byte: u8, behind: &[u8], ends: &[u8]) -> Result<(), AllocError>
    ensures { OnOk result (text.new.items ++ unescaped (is_one_of ends.now) behind.now ≡ text.old.items ++ unescaped (is_one_of ends.now) (byte ∷ behind.now)) }
{
    if byte == b'\\' && begins_with_end(behind, ends) {
        return Ok(());
    }
    text.push(byte)?;
    Ok(())
}

fn begins_with_end(text: &[u8], ends: &[u8]) -> bool
    ensures { result ≡ begins_with (is_one_of ends.now) text.now }
{
    match text.split_first() {
        None => false,
        Some((first, _behind)) => ends.contains(first),
    }
}
