ghost use Rattle.std.specs.Prelude.{◌≡◌, ◌≢◌, ◌↔◌, ℕ, ℤ, List, ◌++◌, All, IfOk, IfSome, IsNone, MatchResult, length};
ghost use Rattle.word_codec.specs.Uvarint.{uvarint};
ghost use Rattle.tsdb_types.specs.declared.value.Value.{Value};
ghost use Rattle.value_codec.specs.Coding.{IsInRange};
ghost use Rattle.block_codec.specs.Blocks.{IsBlock, HasBadKind, times_of, values_of};

use crate::kind::kind_with;
use std::alloc::Global;
use tsdb_types::{BlockFault, Time, Value};
use word_codec::read_uvarint;

/// The points whose block these bytes are, in the order of their times.
pub fn decode_block(alloc: Global, bytes: &[u8]) -> Result<Vec<(Time, Value)>, BlockFault>
    ensures found { IfOk result (λ points. IsBlock bytes.now points.items) }
    ensures range { IfOk result (λ points. All IsInRange (values_of points.items)) }
    ensures only { (points : List (ℤ × Value)) → IsBlock bytes.now points → All IsInRange (values_of points)
        → MatchResult result (λ found. found.items ≡ points) (λ e. e ≡ BlockFault.Memory) }
    ensures bad_kind { (byte : ℕ) → (result ≡ Err (BlockFault.BadKind byte)) ↔ HasBadKind byte bytes.now }
    ensures bad_block { result ≡ Err BlockFault.BadBlock → (points : List (ℤ × Value)) → ¬ (IsBlock bytes.now points) }
{
    let Some((head, behind)) = bytes.split_first() else {
        return Err(BlockFault::BadBlock);
    };
    let Some(kind) = kind_with(*head) else {
        return Err(BlockFault::BadKind { byte: *head });
    };
    let Some((times, values)) = split_parts(behind) else {
        return Err(BlockFault::BadBlock);
    };
    let times = time_codec::decode(alloc, times)?;
    let points = value_codec::decode_points(alloc, kind, values, times.as_slice())?;
    Ok(points)
}

/// The bytes of the times, of which their number tells where they end, and those of the values.
fn split_parts(bytes: &[u8]) -> Option<(&[u8], &[u8])>
    ensures found { IfSome result (λ parts. bytes.now ≡ uvarint (length parts.0.now) ++ parts.0.now ++ parts.1.now) }
    ensures none { IsNone result → (times values : List ℕ) → bytes.now ≢ uvarint (length times) ++ times ++ values }
{
    let end = bytes.len();
    let Ok((size, len)) = read_uvarint(bytes) else {
        return None;
    };
    if size > (end - len) as u64 {
        return None;
    }
    Some(bytes.split_at(len).1.split_at(size as usize))
}
