ghost use Rattle.std.specs.Prelude.{◌≡◌, ◌≢◌, ◌++◌, ℕ, List, ◌≤◌, length, IfOk, IfSome, IfNone, OnOk};
ghost use Rattle.wal_store.specs.Form.{text_bytes, IsText, IsNameText};

use fixed_width::{put_u16, take_u16};
use std::alloc::{AllocError, Global};
use tsdb_types::{Name, NameFault};

/// Puts a text behind its length.
pub fn put_text(out: &mut Vec<u8>, text: &str) -> Result<(), AllocError>
    requires { length text.now ≤ 65535 }
    ensures ok { OnOk result (out.new.items ≡ out.old.items ++ text_bytes text.now) }
    ensures text { IsText text.now }
{
    put_u16(out, text.len() as u16)?;
    out.extend_from_slice(text.as_bytes())
}

/// The text at the front of the bytes, and the bytes behind it.
pub fn take_text(bytes: &[u8]) -> Option<(&str, &[u8])>
    ensures found { IfSome result (λ taken. bytes.now ≡ text_bytes taken.0.now ++ taken.1.now) }
    ensures text { IfSome result (λ taken. IsText taken.0.now) }
    ensures none { IfNone result ((text rest : List ℕ) → IsText text → bytes.now ≢ text_bytes text ++ rest) }
{
    let (len, rest) = take_u16(bytes)?;
    let len = len as usize;
    if rest.len() < len {
        return None;
    }
    let (text, rest) = rest.split_at(len);
    match str::from_utf8(text) {
        Ok(text) => Some((text, rest)),
        Err(_) => None,
    }
}

/// The name at the front of the bytes, and the bytes behind it.
pub fn take_name(alloc: Global, bytes: &[u8]) -> Result<Option<(Name, &[u8])>, AllocError>
    ensures found { IfOk result (λ taken. IfSome taken (λ found. bytes.now ≡ text_bytes found.0 ++ found.1.now)) }
    ensures name { IfOk result (λ taken. IfSome taken (λ found. IsNameText found.0)) }
    ensures none { IfOk result (λ taken. IfNone taken ((text rest : List ℕ) → IsNameText text → bytes.now ≢ text_bytes text ++ rest)) }
{
    let Some((text, rest)) = take_text(bytes) else {
        return Ok(None);
    };
    match Name::new(alloc, text) {
        Ok(name) => Ok(Some((name, rest))),
        Err(NameFault::BadName) => Ok(None),
        Err(NameFault::Memory) => Err(AllocError),
    }
}
