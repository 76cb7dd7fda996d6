ghost use Rattle.std.specs.Prelude.{◌≡◌, ℤ, List, IfOk, IfErr, IfSome, IsSomeAnd, MatchResult};
ghost use Rattle.tsdb_types.specs.Moments.{IsMoment};
ghost use Rattle.std.specs.Int.{to_be_bytes, cast_unsigned, w64};
ghost use Rattle.time_codec.specs.Times.{AreTimes, coded_times, IsRefused};

use super::bodies::{packed_in, raw_in, run_length_in};
use std::alloc::{AllocError, Global};
use tsdb_types::{BlockFault, Time};

/// The times whose bytes these are.
pub fn decode(alloc: Global, bytes: &[u8]) -> Result<Vec<Time>, BlockFault>
    ensures found { IfOk result (λ times. AreTimes times.items × (bytes.now ≡ coded_times times.items)) }
    ensures only { (times : List ℤ) → AreTimes times → bytes.now ≡ coded_times times → MatchResult result (λ found. found.items ≡ times) (λ e. e ≡ BlockFault.Memory) }
    ensures refused { IfErr result (λ e. IsRefused e bytes.now) }
{
    let Some(times) = times_in(alloc, bytes)? else {
        return Err(BlockFault::BadBlock);
    };
    Ok(times)
}

/// The times that the bytes stand for; none where they stand for no times.
fn times_in(alloc: Global, bytes: &[u8]) -> Result<Option<Vec<Time>>, AllocError>
    ensures found { IfOk result (λ found. IfSome found (λ times. AreTimes times.items × (bytes.now ≡ coded_times times.items))) }
    ensures only { (times : List ℤ) → AreTimes times → bytes.now ≡ coded_times times → IfOk result (λ found. IsSomeAnd found (λ read. read.items ≡ times)) }
{
    let Some((head, body)) = bytes.split_first() else {
        return Ok(None);
    };
    let Some((eight, rest)) = body.split_first_chunk::<8>() else {
        return Ok(None);
    };
    let Some(first) = time_in(eight) else {
        return Ok(None);
    };
    let exponent = (*head % 16) as usize;
    if exponent > 12 {
        return Ok(None);
    }
    match *head / 16 {
        2 => run_length_in(alloc, first, exponent, rest),
        1 => packed_in(alloc, first, exponent, rest),
        0 => raw_in(alloc, first, exponent, rest),
        _ => Ok(None),
    }
}

/// The moment in eight bytes, the highest first.
fn time_in(bytes: &[u8; 8]) -> Option<Time>
    ensures found { IfSome result (λ time. IsMoment time × (bytes.now ≡ to_be_bytes w64 (cast_unsigned w64 time))) }
    ensures only { (time : ℤ) → IsMoment time → bytes.now ≡ to_be_bytes w64 (cast_unsigned w64 time) → result ≡ Some time }
{
    Time::new(u64::from_be_bytes(*bytes).cast_signed())
}
