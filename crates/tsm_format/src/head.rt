// The head of a row at the front of bytes.
ghost use Rattle.std.specs.Prelude.{◌≡◌, ◌≢◌, ◌++◌, ◌<◌, ◌^◌, ℕ, List, length, IfSome, IfNone};
ghost use Rattle.tsdb_types.specs.declared.value.Kind.{Kind};
ghost use Rattle.tsm_format.specs.Format.{byte_of, head_bytes};

use fixed_width::take_u16;
use tsdb_types::Kind;

/// What a row begins with, and the bytes behind it.
#[derive(Drop)]
pub struct RowHead<'a> {
    pub key: &'a [u8],
    pub kind: Kind,
    pub count: u16,
    pub behind: &'a [u8],
}

/// The head at the front of the bytes.
pub fn take_head(bytes: &[u8]) -> Option<RowHead<'_>>
    ensures found { IfSome result (λ head. bytes.now ≡ head_bytes head.key.now head.kind head.count ++ head.behind.now) }
    ensures key { IfSome result (λ head. length head.key.now < 2 ^ 16) }
    ensures none { IfNone result ((key : List ℕ) (kind : Kind) (count : ℕ) (rest : List ℕ) → length key < 2 ^ 16 → bytes.now ≢ head_bytes key kind count ++ rest) }
{
    let (len, rest) = take_u16(bytes)?;
    let len = len as usize;
    if rest.len() < len + 3 {
        return None;
    }
    let (key, rest) = rest.split_at(len);
    let (byte, rest) = rest.split_at(1);
    let kind = kind_of(byte[0])?;
    let (count, behind) = take_u16(rest)?;
    Some(RowHead {
        key,
        kind,
        count,
        behind,
    })
}

fn kind_of(byte: u8) -> Option<Kind>
    ensures found { IfSome result (λ kind. byte_of kind ≡ byte) }
    ensures none { IfNone result ((kind : Kind) → byte_of kind ≢ byte) }
{
    match byte {
        1 => Some(Kind::Integer),
        2 => Some(Kind::Boolean),
        4 => Some(Kind::Unsigned),
        _ => None,
    }
}
