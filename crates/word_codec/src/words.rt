ghost use Rattle.std.specs.Prelude.{◌≡◌, ◌≢◌, ◌<◌, ◌^◌, ◌++◌, ℕ, List, All, take, OnOk, OnErr, IfOk, IfSome, IfNone};
ghost use Rattle.std.specs.List.{flat_map};
ghost use Rattle.std.specs.Int.{to_be_bytes, w64};

use byteorder::{BigEndian, ByteOrder};
use std::alloc::{AllocError, Global};

/// Appends words of eight bytes each, the highest byte first. Without memory, as many of them as had room are there.
pub fn write_words(out: &mut Vec<u8>, words: &[u64]) -> Result<(), AllocError>
    ensures ok { OnOk result (out.new.items ≡ out.old.items ++ flat_map (to_be_bytes w64) words.now) }
    ensures err { OnErr result ((count : ℕ) × (out.new.items ≡ out.old.items ++ flat_map (to_be_bytes w64) (take count words.now))) }
{
    for word in words {
        out.extend_from_slice(&word.to_be_bytes())?;
    }
    Ok(())
}

/// The words of eight bytes that make up the bytes; none where the last of them is cut.
pub fn read_words(alloc: Global, bytes: &[u8]) -> Result<Option<Vec<u64>>, AllocError>
    ensures found { IfOk result (λ found. IfSome found (λ words. flat_map (to_be_bytes w64) words.items ≡ bytes.now)) }
    ensures fit { IfOk result (λ found. IfSome found (λ words. All (λ word. word < 2 ^ 64) words.items)) }
    ensures cut { IfOk result (λ found. IfNone found ((words : List ℕ) → flat_map (to_be_bytes w64) words ≢ bytes.now)) }
{
    if bytes.len() % 8 != 0 {
        return Ok(None);
    }
    let mut words = vec![in alloc; 0; bytes.len() / 8]?;
    BigEndian::read_u64_into(bytes, words.as_mut_slice());
    Ok(Some(words))
}
