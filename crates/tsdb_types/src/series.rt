ghost use Rattle.std.specs.Prelude.{◌≡◌, ◌≢◌, ◌↔◌, ℕ, ◌+◌, ◌<◌, false, List, [], ◌∷◌, ◌++◌, string_bytes, Some, IsSome, IfSome, IfNone, IfOk, OnOk, IsErrOf, IsTrue, All, nat_eq, refl};
ghost use Rattle.std.specs.Str.{IsUtf8};
ghost use Rattle.std.specs.Ordering.{nat_cmp};
ghost use Rattle.std.specs.declared.cmp.Ordering.TheVariants.{Less};
ghost use Rattle.std.specs.Cmp.Lexicographic.{pointwise, slice_cmp, nat_list_eq_equiv, nat_list_cmp_total, texts_ties, texts_po};
ghost use Rattle.std.specs.Cmp.{partial_equiv_from_equiv};
ghost use Rattle.std.specs.Cmp.Rules.{hashing};
ghost use Rattle.std.specs.Hash as fed;
ghost use Rattle.std.proofs.Common.{rules};
ghost use Rattle.tsdb_types.specs.Names.{IsName};
ghost use Rattle.tsdb_types.specs.Series.{is_one_of, escaped, measurement_ends_at, measurement_text, tags_text, series_text, Ascend, KeysDiffer, IsKeyOf, IsSeriesText, ReadsOnce, is_key_with, is_series_of};
ghost use Rattle.tsdb_types.specs.declared.series.SeriesFault.TheVariants as series_fault;

use crate::spelled::is_series_text;
use crate::{Name, Tag, Tags};
use std::alloc::{AllocError, AllocFailed, Global};
use std::cmp::Ordering;
use std::hash::{Hash, Hasher};
use std::marker::Model;
use std::sync::ArcStr;
use thiserror::Error;

// The bytes before which a key has a backslash in a measurement.
pub const MEASUREMENT_ENDS: &[u8] = b", ";

// The same in the key and the value of a tag.
pub const TAG_ENDS: &[u8] = b",= ";

/// The key of a series, as its escaped text: the measurement, with a backslash before each comma and space, then for
/// each tag in ascending order of key a comma, the key, an equals sign and the value, with a backslash before each comma,
/// equals sign and space. A contract sees the bytes of that text. Keys that were carried from one another share it.
#[derive(Debug, Drop)]
pub struct SeriesKey {
    text: ArcStr,
}

impl Model for SeriesKey {
    ghost use Rattle.std.specs.Prelude.{ℕ, List};
    ghost use Rattle.std.specs.Arc.{arc_str_bytes};
    ghost use Rattle.tsdb_types.specs.Series.{IsSeriesText};

    ghost Value = { List ℕ };

    ghost view = { λ s. arc_str_bytes s.text };

    ghost invariant = { λ s. IsSeriesText (arc_str_bytes s.text) };
}

/// Why a measurement and tags were made no key.
#[derive(Clone, Copy, Debug, Error, PartialEq, Eq)]
pub enum SeriesFault {
    #[error("two tags have one key")]
    DuplicateTag,
    #[error("out of memory")]
    Memory,
}

impl From<AllocError> for SeriesFault {
    ghost from_gives = { λ _ e. e ≡ series_fault.Memory };

    fn from(_: AllocError) -> Self {
        SeriesFault::Memory
    }
}

impl SeriesKey {
    /// The series of a measurement with these tags, which may stand in any order.
    pub fn make(alloc: Global, measurement: Name, tags: Tags) -> Result<SeriesKey, SeriesFault>
        ensures ok { IfOk result (IsKeyOf measurement tags) }
        ensures duplicate_tag { IsErrOf result SeriesFault.DuplicateTag ↔ ¬ (KeysDiffer tags) }
    {
        let mut tags = tags.into_vec();
        tags.sort_unstable();
        if !ascend(tags.as_slice()) {
            return Err(SeriesFault::DuplicateTag);
        }
        let text = spelled(alloc, &measurement, tags.as_slice())?;
        let key = SeriesKey::from_string(text)?;
        Ok(key)
    }

    /// The key with this text; `None` exactly where no key has it.
    pub fn from_text(alloc: Global, text: &str) -> Result<Option<SeriesKey>, AllocError>
        ensures found { IfOk result (λ found. IfSome found (λ key. key ≡ text.now)) }
        ensures exact { IfOk result (λ found. IsSome found ↔ IsSeriesText text.now) }
    {
        if !is_series_text(text.as_bytes()) {
            return Ok(None);
        }
        let text = ArcStr::from_str(alloc, text)?;
        Ok(Some(SeriesKey { text }))
    }

    /// The key that this text is. The text isn't copied; what shares it is made.
    pub fn from_string(text: String) -> Result<SeriesKey, AllocError>
        requires series { IsSeriesText (string_bytes text) }
        ensures text { IfOk result (λ key. key ≡ string_bytes text) }
    {
        let text = ArcStr::from_string(text)?;
        Ok(SeriesKey { text })
    }

    /// The series without tags of a measurement whose text needs no escape: it holds no comma and no space.
    pub fn untagged(measurement: Name) -> SeriesKey
        requires plain { measurement_text measurement ≡ measurement }
        ensures text { result ≡ measurement_text measurement }
    {
        SeriesKey {
            text: measurement.into_shared(),
        }
    }

    /// The escaped text.
    pub fn text(&self) -> &str
        ensures text { result.now ≡ self.now }
        ensures series { IsSeriesText result.now }
    {
        self.text.as_str()
    }

    /// Whether the series is one of this measurement.
    pub fn is_of(&self, measurement: &Name) -> bool
        ensures { result ≡ is_series_of measurement.now self.now }
    {
        let mut left = self.text().as_bytes();
        for byte in measurement.as_str().as_bytes() {
            match behind_spelled(*byte, left) {
                None => return false,
                Some(rest) => left = rest,
            }
        }
        match left.first() {
            None => true,
            Some(first) => *first == b',',
        }
    }

    /// An equal key that shares the text: nothing is copied or allocated. It is refused where the count of those that share
    /// it is full, at 2^63.
    pub fn carry(&self) -> Result<SeriesKey, AllocError>
        ensures { IfOk result (λ key. key ≡ self.now) }
    {
        let text = self.text.clone()?;
        Ok(SeriesKey { text })
    }
}

/// A key is that of one measurement and of one list of tags.
pub fn reads_once()
    ensures { ReadsOnce }
{}

// Whether each key is below the next one.
fn ascend(tags: &[Tag]) -> bool
    ensures { IsTrue result ↔ Ascend tags.now }
{
    for at in 1..tags.len() {
        if !is_below(&tags[at - 1], &tags[at]) {
            return false;
        }
    }
    true
}

fn is_below(tag: &Tag, next: &Tag) -> bool
    ensures { IsTrue result ↔ (slice_cmp nat_cmp tag.now.key next.now.key ≡ Less) }
{
    tag.key < next.key
}

// The text of a series whose tags stand in order.
fn spelled(alloc: Global, measurement: &Name, tags: &[Tag]) -> Result<String, AllocError>
    requires { Ascend tags.now }
    ensures text { IfOk result (λ text. string_bytes text ≡ series_text measurement.now tags.now) }
    ensures series { IfOk result (λ text. IsSeriesText (string_bytes text)) }
{
    let mut text = Vec::new(alloc);
    push_escaped(&mut text, measurement.as_str().as_bytes(), MEASUREMENT_ENDS)?;
    for tag in tags {
        push_tag(&mut text, tag)?;
    }
    match String::from_utf8(text) {
        Ok(text) => Ok(text),
        Err(_) => unreachable!(),
    }
}

// Writes a tag behind a comma.
fn push_tag(text: &mut Vec<u8>, tag: &Tag) -> Result<(), AllocError>
    ensures text { OnOk result (text.new.items ≡ text.old.items ++ tags_text (tag.now ∷ [])) }
    ensures utf8 { OnOk result (IsUtf8 (tags_text (tag.now ∷ []))) }
    ensures named { OnOk result (IsName tag.now.key × IsName tag.now.value) }
{
    text.push(b',')?;
    push_escaped(text, tag.key.as_str().as_bytes(), TAG_ENDS)?;
    text.push(b'=')?;
    push_escaped(text, tag.value.as_str().as_bytes(), TAG_ENDS)
}

// Writes a name with a backslash before each of these bytes.
fn push_escaped(text: &mut Vec<u8>, name: &[u8], ends: &[u8]) -> Result<(), AllocError>
    ensures { OnOk result (text.new.items ≡ text.old.items ++ escaped (is_one_of ends.now) name.now) }
{
    for byte in name {
        push_byte(text, *byte, ends)?;
    }
    Ok(())
}

fn push_byte(text: &mut Vec<u8>, byte: u8, ends: &[u8]) -> Result<(), AllocError>
    ensures { OnOk result (text.new.items ≡ text.old.items ++ escaped (is_one_of ends.now) (byte ∷ [])) }
{
    if !ends.contains(&byte) {
        text.push(byte)?;
        return Ok(());
    }
    text.push(b'\\')?;
    text.push(byte)?;
    Ok(())
}

// The rest of a key that begins with this byte of a measurement, a backslash before it where it is a comma or a space.
fn behind_spelled(byte: u8, key: &[u8]) -> Option<&[u8]>
    ensures found { IfSome result (λ rest. (name : List ℕ) → is_series_of (byte ∷ name) key.now ≡ is_series_of name rest.now) }
    ensures other { IfNone result ((name : List ℕ) → is_series_of (byte ∷ name) key.now ≡ false) }
{
    if !MEASUREMENT_ENDS.contains(&byte) {
        return behind(byte, key);
    }
    match behind(b'\\', key) {
        None => None,
        Some(escaped) => match behind(byte, escaped) {
            None => None,
            Some(rest) => Some(rest),
        },
    }
}

// The rest of a key that begins with this byte.
fn behind(byte: u8, key: &[u8]) -> Option<&[u8]>
    ensures found { IfSome result (λ rest. (text : List ℕ) → is_key_with (byte ∷ text) key.now ≡ is_key_with text rest.now) }
    ensures other { IfNone result ((text : List ℕ) → is_key_with (byte ∷ text) key.now ≡ false) }
{
    match key.split_first() {
        None => None,
        Some((first, rest)) => { if *first == byte { Some(rest) } else { None } }
    }
}

impl PartialEq for SeriesKey {
    ghost eq = { pointwise nat_eq };

    ghost laws = { partial_equiv_from_equiv nat_list_eq_equiv };

    fn eq(&self, other: &SeriesKey) -> bool {
        self.text() == other.text()
    }
}

impl Eq for SeriesKey {
    ghost laws = { nat_list_eq_equiv };
}

impl PartialOrd for SeriesKey {
    ghost partial_cmp = { λ x y. Some (slice_cmp nat_cmp x y) };

    ghost laws = { texts_po };

    fn partial_cmp(&self, other: &SeriesKey) -> Option<Ordering> {
        Some(self.cmp(other))
    }
}

impl Ord for SeriesKey {
    ghost cmp = { slice_cmp nat_cmp };

    ghost total = { nat_list_cmp_total };

    ghost matches_partial_cmp = { λ x y. refl };

    ghost matches_eq = { texts_ties };

    fn cmp(&self, other: &SeriesKey) -> Ordering {
        self.text().cmp(other.text())
    }
}

impl Hash for SeriesKey {
    ghost hash_input = { λ key. fed.str key };

    ghost respects_eq = { Prim.search (hashing, rules) };

    fn hash<H: Hasher>(&self, state: &mut H) {
        self.text().hash(state);
    }
}
