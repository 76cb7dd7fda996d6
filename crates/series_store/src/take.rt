ghost use Rattle.std.specs.Prelude.{◌≡◌, ◌≢◌, ◌++◌, ℕ, List, IfSome, IfNone};
ghost use Rattle.series_store.specs.Format.{HasRoom, series_bytes};

use fixed_width::take_u16;

/// The text at the front of the bytes, behind its length, and the bytes behind it.
pub fn take_text(bytes: &[u8]) -> Option<(&[u8], &[u8])>
    ensures found { IfSome result (λ taken. bytes.now ≡ series_bytes taken.0.now ++ taken.1.now) }
    ensures room { IfSome result (λ taken. HasRoom taken.0.now) }
    ensures none { IfNone result ((text rest : List ℕ) → HasRoom text → bytes.now ≢ series_bytes text ++ rest) }
{
    let (size, rest) = take_u16(bytes)?;
    if rest.len() < size as usize {
        return None;
    }
    Some(rest.split_at(size as usize))
}
