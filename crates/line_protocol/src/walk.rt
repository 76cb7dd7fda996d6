ghost use Rattle.std.specs.Prelude.{◌≡◌, ◌==◌, ◌||◌, false, All, IfOk, IfErr, IfSome, IfNone, IsTrue, ◌≢◌, ◌∷◌, ℕ, Some};
ghost use Rattle.std.specs.List.{list_all};
ghost use Rattle.std.specs.Ordering.{nat_cmp};
ghost use Rattle.std.specs.Cmp.Lexicographic.{slice_cmp};
ghost use Rattle.std.specs.Str.{bytes_eq};
ghost use Rattle.tsdb_types.specs.Series.{measurement_ends_at, tag_ends_at};
ghost use Rattle.tsdb_types.specs.Spelled.{EndsName};
ghost use Rattle.line_protocol.specs.Heads.{head_code, time_word};
ghost use Rattle.line_protocol.specs.Names as names;
ghost use Rattle.line_protocol.specs.Names.{unescaped};
ghost use Rattle.line_protocol.specs.Parts.{front};
ghost use Rattle.line_protocol.specs.Tokens.{token_ends, parts_at, IsTagAt, AreTags, IsWalk};
ghost use Rattle.line_protocol.specs.Tokens as spec;

use crate::fault::LineCode;
use std::cmp::Ordering;
use tsdb_types::compare_spelled;

// The head of a line as it stands there.
#[derive(Clone, Copy)]
pub struct Walk<'a> {
    pub head: &'a [u8],
    pub measurement: &'a [u8],
    // What stands behind the head, from the space on.
    pub behind: &'a [u8],
    // Each tag key is below the next one.
    pub ascend: bool,
    // A tag is named `time`.
    pub reserved: bool,
}

// The tags behind a measurement.
#[derive(Clone, Copy)]
struct TagWalk<'a> {
    behind: &'a [u8],
    ascend: bool,
    reserved: bool,
}

// Walks once over the head of a line, from token to token. Refused where the measurement is empty, or a comma behind it has no
// key, no equals sign or no value.
pub fn walk_head(line: &[u8]) -> Result<Walk<'_>, LineCode>
    requires { All (λ byte. byte ≢ 10) line.now }
    ensures ok { IfOk result (λ walk. IsWalk line.now walk.head.now walk.measurement.now walk.behind.now walk.ascend walk.reserved) }
    ensures refused { IfErr result (λ code. head_code (front 32 false line.now) ≡ Some code) }
{
    let (measurement, tags) = cut_token(line, false);
    if measurement.is_empty() {
        return Err(LineCode::NoMeasurement);
    }
    match walk_tags(tags) {
        None => Err(LineCode::BadTag),
        Some(walk) => {
            let (head, behind) = line.split_at(line.len() - walk.behind.len());
            Ok(Walk {
                head,
                measurement,
                behind,
                ascend: walk.ascend,
                reserved: walk.reserved,
            })
        }
    }
}

// Walks over the tags that a text begins with; `None` where a comma has no key, no equals sign or no value behind it.
fn walk_tags(text: &[u8]) -> Option<TagWalk<'_>>
    requires start { EndsName measurement_ends_at text.now }
    requires unbroken { All (λ byte. byte ≢ 10) text.now }
    ensures found { IfSome result (λ walk. AreTags text.now walk.behind.now walk.ascend walk.reserved) }
    ensures none { IfNone result (list_all names.is_tag (parts_at text.now) ≡ false) }
{
    let mut left = text;
    let mut last: &[u8] = b"";
    let mut ascend = true;
    let mut reserved = false;
    'tags: while let Some(behind) = behind_byte(left, b',') {
        match tag_at(behind) {
            None => return None,
            Some((key, rest)) => {
                ascend = goes_on(ascend, last, key);
                reserved = either_time(reserved, key);
                last = key;
                left = rest;
            }
        }
    }
    Some(TagWalk {
        behind: left,
        ascend,
        reserved,
    })
}

// Whether the keys ascend so far, up to the next one too.
fn goes_on(ascend: bool, key: &[u8], next: &[u8]) -> bool
    ensures before { IsTrue result → IsTrue ascend }
    ensures below { IsTrue result → slice_cmp nat_cmp (unescaped tag_ends_at key.now) (unescaped tag_ends_at next.now) ≡ Ordering.Less }
{
    ascend && matches!(compare_spelled(key, next), Ordering::Less)
}

// Whether a key is `time`, or one before was.
fn either_time(before: bool, key: &[u8]) -> bool
    ensures { result ≡ (before || bytes_eq key.now time_word) }
{
    before || key == b"time".as_slice()
}

// The key of the tag that a text begins with, and what stands behind the tag.
fn tag_at(text: &[u8]) -> Option<(&[u8], &[u8])>
    ensures found { IfSome result (λ tag. IsTagAt text.now tag.0.now tag.1.now) }
    ensures none { IfNone result (names.is_tag (front 44 false (front 32 false text.now)) ≡ false) }
{
    let (key, behind) = cut_token(text, true);
    if key.is_empty() {
        return None;
    }
    match behind_byte(behind, b'=') {
        None => None,
        Some(text) => {
            let (value, rest) = cut_token(text, true);
            if value.is_empty() {
                return None;
            }
            if starts_with(rest, b'=') {
                return None;
            }
            Some((key, rest))
        }
    }
}

// The rest of a text that begins with this byte.
pub fn behind_byte(text: &[u8], byte: u8) -> Option<&[u8]>
    ensures found { IfSome result (λ behind. text.now ≡ byte ∷ behind.now) }
    ensures none { IfNone result (spec.starts_with byte text.now ≡ false) }
{
    match text.split_first() {
        None => None,
        Some((first, behind)) => { if *first == byte { Some(behind) } else { None } }
    }
}

fn starts_with(text: &[u8], byte: u8) -> bool
    ensures { result ≡ spec.starts_with byte text.now }
{
    match text.first() {
        None => false,
        Some(first) => *first == byte,
    }
}

// The token that a text begins with, and the rest.
pub fn cut_token(text: &[u8], in_tag: bool) -> (&[u8], &[u8])
    ensures front { result.0.now ≡ spec.front_where (token_ends in_tag) false text.now }
    ensures rest { result.1.now ≡ spec.rest_where (token_ends in_tag) false text.now }
{
    let mut slash = false;
    for (at, byte) in text.iter().enumerate() {
        if ends_token(*byte, in_tag) && !slash {
            return text.split_at(at);
        }
        slash = *byte == b'\\';
    }
    text.split_at(text.len())
}

fn ends_token(byte: u8, in_tag: bool) -> bool
    ensures { result ≡ token_ends in_tag byte }
{
    byte == b',' || byte == b' ' || (in_tag && byte == b'=')
}
