ghost use Rattle.std.specs.Prelude.{◌≡◌, ◌↔◌, All, IfOk, IfErr, IsTrue};
ghost use Rattle.std.specs.Str.{IsUtf8};
ghost use Rattle.tsdb_types.specs.Series.{KeysDiffer, IsKeyOf, IsSeriesText};
ghost use Rattle.line_protocol.specs.Heads.{measurement_part, measurement_of, tag_parts, tags_of};
ghost use Rattle.line_protocol.specs.Readings.{IsRefusal};
ghost use Rattle.line_protocol.specs.Texts.{IsOneLine};
ghost use Rattle.line_protocol.specs.Tokens.{SpellsTag, IsNamed};

use crate::cut::cut;
use crate::fault::{LineCode, Refusal};
use crate::sorted::{Part, ascend, sort_parts, spelled};
use crate::walk::Walk;
use std::alloc::{AllocError, AllocFailed, Global};
use tsdb_types::SeriesKey;

// The key of the series that a head names, refused where two tags have one key. Tags that don't ascend are sorted in the room.
pub fn read_series<'a>(
    alloc: Global,
    walk: &Walk<'a>,
    parts: &mut Vec<Part<'a>>,
) -> Result<SeriesKey, Refusal>
    requires one_line { IsOneLine walk.now.head.now }
    requires measurement { walk.now.measurement.now ≡ measurement_part walk.now.head.now }
    requires named { IsNamed walk.now.head.now walk.now.measurement.now walk.now.ascend }
    requires spells { All SpellsTag (tag_parts walk.now.head.now) }
    ensures ok { IfOk result (IsKeyOf (measurement_of walk.now.head.now) (tags_of walk.now.head.now)) }
    ensures refused { IfErr result (λ refusal. IsRefusal refusal (λ code. (code ≡ LineCode.DuplicateTag) × ¬ (KeysDiffer (tags_of walk.now.head.now)))) }
{
    if walk.ascend {
        let text = Vec::from_slice(alloc, walk.head)?;
        let key = key_of(text)?;
        return Ok(key);
    }
    let (_, tags) = cut(walk.head, b',');
    sort_parts(parts, tags)?;
    if !ascend(parts.as_slice()) {
        return Err(Refusal::Code(LineCode::DuplicateTag));
    }
    let text = spelled(alloc, walk.head.len(), walk.measurement, parts.as_slice())?;
    let key = key_of(text)?;
    Ok(key)
}

// The key with this text.
fn key_of(text: Vec<u8>) -> Result<SeriesKey, AllocError>
    requires utf8 { IsUtf8 text.items }
    requires series { IsSeriesText text.items }
    ensures { IfOk result (λ key. key ≡ text.items) }
{
    match String::from_utf8(text) {
        Ok(text) => SeriesKey::from_string(text),
        Err(_) => unreachable!(),
    }
}

// Whether no two tags of a head have one key. It may be the end of a line, where a value may end with a backslash.
pub fn keys_differ<'a>(parts: &mut Vec<Part<'a>>, head: &'a [u8]) -> Result<bool, AllocError>
    requires { IsOneLine head.now }
    ensures { IfOk result (λ differ. IsTrue differ ↔ KeysDiffer (tags_of head.now)) }
{
    let (_, tags) = cut(head, b',');
    sort_parts(parts, tags)?;
    Ok(ascend(parts.as_slice()))
}
