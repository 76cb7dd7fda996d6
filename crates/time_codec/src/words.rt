ghost use Rattle.std.specs.Prelude.{◌≡◌, ℕ, ◌^◌, ◌<◌, ◌≤◌, ◌∷◌, List, length, All, IfOk, IfSome, IsSomeAnd};
ghost use Rattle.std.specs.List.{flat_map};
ghost use Rattle.std.specs.Int.{to_be_bytes, cast_unsigned, w64};

use std::alloc::{AllocError, Global};
use tsdb_types::Time;
use word_codec::read_words;

/// The most bytes of the differences of a list.
const MOST_BYTES: usize = 7992;

/// The first byte and the first time, with room for more.
pub fn begun(alloc: Global, room: usize, head: u8, first: Time) -> Result<Vec<u8>, AllocError>
    ensures { IfOk result (λ out. out.items ≡ head ∷ to_be_bytes w64 (cast_unsigned w64 first)) }
{
    let mut out = Vec::with_capacity(alloc, room)?;
    out.push(head)?;
    out.extend_from_slice(&first.get().cast_unsigned().to_be_bytes())?;
    Ok(out)
}

/// The words that make up the bytes, 999 at most; none where the bytes are no such words.
pub fn words_in(alloc: Global, bytes: &[u8]) -> Result<Option<Vec<u64>>, AllocError>
    ensures found { IfOk result (λ found. IfSome found (λ words. flat_map (to_be_bytes w64) words.items ≡ bytes.now)) }
    ensures fit { IfOk result (λ found. IfSome found (λ words. All (λ word. word < 2 ^ 64) words.items)) }
    ensures most { IfOk result (λ found. IfSome found (λ words. length words.items ≤ 999)) }
    ensures only { (words : List ℕ) → All (λ word. word < 2 ^ 64) words → length words ≤ 999 → bytes.now ≡ flat_map (to_be_bytes w64) words
        → IfOk result (λ found. IsSomeAnd found (λ read. read.items ≡ words)) }
{
    if bytes.len() > MOST_BYTES {
        return Ok(None);
    }
    let Some(words) = read_words(alloc, bytes)? else {
        return Ok(None);
    };
    Ok(Some(words))
}
