ghost use Rattle.std.specs.Prelude.{◌≡◌, ◌++◌, IfSome, IfNone};
ghost use Rattle.tombstones.specs.Format.{BeginsNone, IsWritable, tomb_bytes};
ghost use Rattle.tombstones.specs.Raw.{tomb_of};

use fixed_width::{take_i64, take_u32};

/// A tombstone at the front of bytes, and the bytes behind it.
#[derive(Drop)]
pub struct Raw<'a> {
    pub key: &'a [u8],
    pub from: i64,
    pub to: i64,
    pub behind: &'a [u8],
}

/// The tombstone at the front of the bytes.
pub fn take_tomb(bytes: &[u8]) -> Option<Raw<'_>>
    ensures found { IfSome result (λ raw. bytes.now ≡ tomb_bytes (tomb_of raw) ++ raw.behind.now) }
    ensures writable { IfSome result (λ raw. IsWritable (tomb_of raw)) }
    ensures cut { IfNone result (BeginsNone bytes.now) }
{
    let (len, rest) = take_u32(bytes)?;
    let len = len as usize;
    if rest.len() < len {
        return None;
    }
    let (key, rest) = rest.split_at(len);
    let (from, rest) = take_i64(rest)?;
    let (to, behind) = take_i64(rest)?;
    Some(Raw {
        key,
        from,
        to,
        behind,
    })
}
