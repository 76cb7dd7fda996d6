// The keys of the tags of series.
ghost use Rattle.std.specs.Prelude.{◌≡◌, ◌↔◌, ◌&&◌, ◌++◌, ◌∷◌, ℕ, false, List, Some, Contains, IfOk, OnOk, slice_get};
ghost use Rattle.std.specs.BTreeMap.{IsOrdered};
ghost use Rattle.std.specs.Map.{keys_of};
ghost use Rattle.std.specs.List.Sorted.{IsStrictlySortedBy};
ghost use Rattle.tsdb_types.specs.Series.{tag_ends_at, is_series_of, IsSeriesText};
ghost use Rattle.tsdb_types.specs.Spelled.{begins_with, unescaped};
ghost use Rattle.point_model.specs.Conditions.{meets};
ghost use Rattle.point_model.specs.Tags as spec;
ghost use Rattle.store_trait.specs.Gathered.{fields_listed, listed, whole, AreOrdered, AreOrderedRows, AreSeriesTexts};
ghost use Rattle.store_trait.specs.Slots.{text_cmp};
ghost use Rattle.store_trait.specs.Tags.{IsTagKeyOf, keys_in, keys_within};

use crate::gather::has_values;
use crate::slots::{Fields, Slots};
use point_model::Need;
use std::alloc::{AllocError, AllocFailed, Global};
use tsdb_types::{Name, SeriesKey};

const TAG_ENDS: &[u8] = b",= ";

// The keys of the tags that the series with points have in the measurement, each once, in ascending order.
pub(crate) fn tag_keys_of(
    alloc: Global,
    slots: &Slots,
    need: &Need,
) -> Result<Vec<Name>, AllocError>
    ensures ascend { IfOk result (λ found. IsStrictlySortedBy text_cmp found.items) }
    ensures exact { IfOk result (λ found. (key : List ℕ) → Contains found.items key
        ↔ ((place : ℕ) × (series field : List ℕ) × (slice_get (keys_of (listed (whole need.now) slots.now.entries)) place ≡ Some (series, field)) × IsTagKeyOf key series)) }
    ensures all_ordered { OnOk result (AreOrdered (whole need.now) slots.now.entries) }
{
    let mut found = all_tag_keys(alloc, slots, need)?;
    found.sort_unstable();
    found.dedup();
    Ok(found)
}

// Those keys, in the order of the series and of their tags, once for each field.
fn all_tag_keys(alloc: Global, slots: &Slots, need: &Need) -> Result<Vec<Name>, AllocError>
    ensures keys { IfOk result (λ found. found.items ≡ keys_within (keys_of (listed (whole need.now) slots.now.entries))) }
    ensures series { OnOk result (AreSeriesTexts (whole need.now) slots.now.entries) }
    ensures all_ordered { OnOk result (AreOrdered (whole need.now) slots.now.entries) }
{
    let mut found = Vec::new(alloc);
    for (series, fields) in slots {
        if is_of_whole(need, series) {
            add_series_keys(alloc, series, fields, &mut found)?;
        }
    }
    Ok(found)
}

// The tag keys of a measurement are asked of all its series, whichever meet the condition.
fn is_of_whole(need: &Need, series: &SeriesKey) -> bool
    ensures { result ≡ (is_series_of (whole need.now).measurement series.now && meets (whole need.now).tags series.now) }
{
    series.is_of(&need.measurement)
}

fn add_series_keys(
    alloc: Global,
    series: &SeriesKey,
    fields: &Fields,
    found: &mut Vec<Name>,
) -> Result<(), AllocError>
    ensures keys { OnOk result (found.new.items ≡ found.old.items ++ keys_within (keys_of (fields_listed series.now fields.now.entries))) }
    ensures series { IsSeriesText series.now }
    ensures ordered { IsOrdered text_cmp fields.now }
    ensures all_ordered { OnOk result (AreOrderedRows fields.now.entries) }
{
    let _ = series.text();
    let _ = fields.len();
    for (_field, column) in fields {
        if has_values(column) {
            add_tag_keys(alloc, series, found)?;
        }
    }
    Ok(())
}

/// Puts the keys of the tags of a series behind those that were found before.
pub fn add_tag_keys(
    alloc: Global,
    series: &SeriesKey,
    found: &mut Vec<Name>,
) -> Result<(), AllocError>
    ensures keys { OnOk result (found.new.items ≡ found.old.items ++ keys_in series.now) }
{
    let (_measurement, tags) = cut(series.text().as_bytes(), b',');
    let mut left = tags;
    'tags: while let Some((_comma, behind)) = left.split_first() {
        let (tag, rest) = cut(behind, b',');
        let (key, _value) = cut(tag, b'=');
        found.push(name_of(alloc, key)?)?;
        left = rest;
    }
    Ok(())
}

// The front of a text up to the first of these bytes that no backslash stands before, and the rest from that byte on.
fn cut(text: &[u8], mark: u8) -> (&[u8], &[u8])
    ensures front { result.0.now ≡ spec.front mark false text.now }
    ensures rest { result.1.now ≡ spec.rest mark false text.now }
{
    let mut slash = false;
    for (at, byte) in text.iter().enumerate() {
        if *byte == mark && !slash {
            return text.split_at(at);
        }
        slash = *byte == b'\\';
    }
    text.split_at(text.len())
}

// The name that an escaped key spells. The keys of a series are text and spell names, so that memory alone can be wanting.
fn name_of(alloc: Global, key: &[u8]) -> Result<Name, AllocError>
    ensures { IfOk result (λ name. name ≡ unescaped tag_ends_at key.now) }
{
    let text = spelled(alloc, key)?;
    match str::from_utf8(text.as_slice()) {
        Ok(text) => match Name::new(alloc, text) {
            Ok(name) => Ok(name),
            Err(_) => Err(AllocError),
        },
        Err(_) => Err(AllocError),
    }
}

fn spelled(alloc: Global, key: &[u8]) -> Result<Vec<u8>, AllocError>
    ensures { IfOk result (λ text. text.items ≡ unescaped tag_ends_at key.now) }
{
    let mut text = Vec::with_capacity(alloc, key.len())?;
    let mut left = key;
    while let Some((byte, behind)) = left.split_first() {
        push_named(&mut text, *byte, behind)?;
        left = behind;
    }
    Ok(text)
}

// Writes a byte, but for a backslash that a comma, an equals sign or a space stands behind.
fn push_named(text: &mut Vec<u8>, byte: u8, behind: &[u8]) -> Result<(), AllocError>
    ensures { OnOk result (text.new.items ++ unescaped tag_ends_at behind.now ≡ text.old.items ++ unescaped tag_ends_at (byte ∷ behind.now)) }
{
    if byte == b'\\' && begins_with_end(behind) {
        return Ok(());
    }
    text.push(byte)?;
    Ok(())
}

fn begins_with_end(text: &[u8]) -> bool
    ensures { result ≡ begins_with tag_ends_at text.now }
{
    match text.split_first() {
        None => false,
        Some((first, _behind)) => TAG_ENDS.contains(first),
    }
}
