ghost use Rattle.std.specs.Prelude.{◌≡◌, ◌≢◌, ◌<◌, ◌^◌, ◌++◌, ℕ, List, All, IfOk, IfSome, IsNone};
ghost use Rattle.std.specs.List.{flat_map};
ghost use Rattle.word_codec.specs.Uvarint.{uvarint};
ghost use Rattle.value_codec.specs.Steps.{big_endian};

use std::alloc::{AllocError, Global};
use tsdb_types::BlockFault;
use word_codec::read_uvarint;

/// The word that eight bytes are, the highest first.
pub fn word_from(bytes: &[u8; 8]) -> u64
    ensures { big_endian result ≡ bytes.now }
{
    u64::from_be_bytes(*bytes)
}

/// The words of eight bytes that these are, with none left.
pub fn read_words(alloc: Global, bytes: &[u8]) -> Result<Vec<u64>, BlockFault>
    ensures found { IfOk result (λ words. flat_map big_endian words.items ≡ bytes.now) }
    ensures fit { IfOk result (λ words. All (λ word. word < 2 ^ 64) words.items) }
    ensures bad_block { result ≡ Err BlockFault.BadBlock → (words : List ℕ) → flat_map big_endian words ≢ bytes.now }
    ensures no_kind { (byte : ℕ) → result ≢ Err (BlockFault.BadKind byte) }
{
    let Some(words) = word_codec::read_words(alloc, bytes)? else {
        return Err(BlockFault::BadBlock);
    };
    Ok(words)
}

/// The number at the front of the bytes, and what stands behind it.
pub fn split_uvarint(bytes: &[u8]) -> Option<(u64, &[u8])>
    ensures found { IfSome result (λ found. bytes.now ≡ uvarint found.0 ++ found.1.now) }
    ensures fit { IfSome result (λ found. found.0 < 2 ^ 64) }
    ensures none { IsNone result → (number : ℕ) (rest : List ℕ) → number < 2 ^ 64 → bytes.now ≢ uvarint number ++ rest }
{
    match read_uvarint(bytes) {
        Ok((number, len)) => Some((number, bytes.split_at(len).1)),
        Err(_) => None,
    }
}
