// A condition on tags in prefix form, put and taken part by part.
ghost use Rattle.std.specs.Prelude.{◌≡◌, ◌≢◌, ◌++◌, ◌∷◌, [], ◌<◌, ◌≤◌, ℕ, List, length, All, IfOk, IfSome, IfNone, OnOk};
ghost use Rattle.point_model.specs.Conditions.{Condition, texts_of};
ghost use Rattle.wal_store.specs.Form.{text_bytes};
ghost use Rattle.wal_store.specs.Conditions.{condition_bytes, part_bytes, AreComparisons, HasShortPart, IsComparison, IsCondition, IsPart};
ghost use Rattle.wal_store.specs.Spelling.{most_nested};
ghost use Rattle.wal_store.specs.Stack.{IsNode};

use crate::point::take_byte;
use crate::text::{put_text, take_name, take_text};
use point_model::{Join, Part, ReadCond, TagCond, TagCondReader, TagTest, TagText};
use std::alloc::{AllocError, Global};
use tsdb_types::Name;

// How many joins may be open at one place.
const MOST_NESTED: usize = 65_536;

/// The condition at the front of the bytes, and the bytes behind it.
pub fn take_condition(alloc: Global, bytes: &[u8]) -> Result<Option<(TagCond, &[u8])>, AllocError>
    ensures found { IfOk result (λ taken. IfSome taken (λ found. bytes.now ≡ condition_bytes found.0 ++ found.1.now)) }
    ensures condition { IfOk result (λ taken. IfSome taken (λ found. IsCondition most_nested found.0)) }
    ensures none { IfOk result (λ taken. IfNone taken ((condition : Condition) (rest : List ℕ) → IsCondition most_nested condition
        → bytes.now ≢ condition_bytes condition ++ rest)) }
{
    let mut reader = TagCondReader::new(alloc);
    let mut rest = bytes;
    'parts: loop {
        let Some((part, behind)) = take_part(alloc, rest)? else {
            return Ok(None);
        };
        rest = behind;
        match part {
            Part::Join(join) => {
                if reader.nesting() >= MOST_NESTED {
                    return Ok(None);
                }
                reader = reader.join(join)?;
            }
            Part::Test(test) => match reader.test(test)? {
                ReadCond::Whole(whole) => return Ok(Some((whole, rest))),
                ReadCond::Open(open) => reader = open,
            },
        }
    }
}

/// What stands at the front of the bytes of a condition, and the bytes behind it.
fn take_part(alloc: Global, bytes: &[u8]) -> Result<Option<(Part, &[u8])>, AllocError>
    ensures found { IfOk result (λ taken. IfSome taken (λ found. IsNode found.0 bytes.now found.1.now)) }
    ensures shorter { IfOk result (λ taken. IfSome taken (λ found. length found.1.now < length bytes.now)) }
    ensures none { IfOk result (λ taken. IfNone taken ((condition : Condition) (rest : List ℕ) → AreComparisons condition → bytes.now ≢ condition_bytes condition ++ rest)) }
{
    let Some((kind, behind)) = take_byte(bytes) else {
        return Ok(None);
    };
    match kind {
        0 => Ok(Some((Part::Test(TagTest::True), behind))),
        1 => match take_comparison(alloc, behind)? {
            Some((key, text, rest)) => Ok(Some((Part::Test(TagTest::Eq(key, text)), rest))),
            None => Ok(None),
        },
        2 => match take_comparison(alloc, behind)? {
            Some((key, text, rest)) => Ok(Some((Part::Test(TagTest::Ne(key, text)), rest))),
            None => Ok(None),
        },
        3 => Ok(Some((Part::Join(Join::And), behind))),
        4 => Ok(Some((Part::Join(Join::Or), behind))),
        _ => Ok(None),
    }
}

/// The key and the text of a comparison at the front of the bytes, and the bytes behind them.
fn take_comparison(
    alloc: Global,
    bytes: &[u8],
) -> Result<Option<(Name, TagText, &[u8])>, AllocError>
    ensures found { IfOk result (λ taken. IfSome taken (λ found. bytes.now ≡ (text_bytes found.0 ++ text_bytes found.1) ++ found.2.now)) }
    ensures comparison { IfOk result (λ taken. IfSome taken (λ found. IsComparison (found.0, found.1))) }
    ensures none { IfOk result (λ taken. IfNone taken ((key text rest : List ℕ) → IsComparison (key, text) → bytes.now ≢ (text_bytes key ++ text_bytes text) ++ rest)) }
{
    let Some((key, behind)) = take_name(alloc, bytes)? else {
        return Ok(None);
    };
    let Some((text, rest)) = take_text(behind) else {
        return Ok(None);
    };
    let text = TagText::new(String::from_str(alloc, text)?);
    Ok(Some((key, text, rest)))
}

/// Puts a condition.
pub fn put_condition(out: &mut Vec<u8>, condition: &TagCond) -> Result<(), AllocError>
    requires { All (λ text. length text ≤ 65535) (texts_of condition.now) }
    ensures ok { OnOk result (out.new.items ≡ out.old.items ++ condition_bytes condition.now) }
    ensures comparisons { OnOk result (AreComparisons condition.now) }
{
    for placed in condition.parts() {
        put_part(out, &placed.1)?;
    }
    Ok(())
}

/// Puts a part of a condition, without the sides of a join.
fn put_part(out: &mut Vec<u8>, part: &Part) -> Result<(), AllocError>
    requires { HasShortPart part.now }
    ensures ok { OnOk result (out.new.items ≡ out.old.items ++ part_bytes part.now) }
    ensures part { OnOk result (IsPart part.now) }
{
    match part {
        Part::Test(TagTest::True) => put_byte(out, 0),
        Part::Test(TagTest::Eq(key, text)) => put_comparison(out, 1, key, text),
        Part::Test(TagTest::Ne(key, text)) => put_comparison(out, 2, key, text),
        Part::Join(Join::And) => put_byte(out, 3),
        Part::Join(Join::Or) => put_byte(out, 4),
    }
}

fn put_comparison(out: &mut Vec<u8>, kind: u8, key: &Name, text: &TagText) -> Result<(), AllocError>
    requires key { length key.now ≤ 65535 }
    requires text { length text.now ≤ 65535 }
    ensures ok { OnOk result (out.new.items ≡ out.old.items ++ kind ∷ (text_bytes key.now ++ text_bytes text.now)) }
    ensures comparison { OnOk result (IsComparison (key.now, text.now)) }
{
    out.push(kind)?;
    put_text(out, key.as_str())?;
    put_text(out, text.as_str())
}

fn put_byte(out: &mut Vec<u8>, byte: u8) -> Result<(), AllocError>
    ensures { OnOk result (out.new.items ≡ out.old.items ++ byte ∷ []) }
{
    out.push(byte)?;
    Ok(())
}
