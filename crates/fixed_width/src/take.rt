ghost use Rattle.std.specs.Prelude.{◌≡◌, ◌<◌, ◌++◌, length, IfSome, IfNone};
ghost use Rattle.fixed_width.specs.Fields.{bytes_of_u16, bytes_of_u32, bytes_of_u64, bytes_of_i64};

use byteorder::{BigEndian, ByteOrder};

/// The number in the first two bytes, and the bytes behind them. `None` where there are fewer.
#[tactic(auto, unfolding(crate::specs::Fields::bytes_of_u16))]
pub fn take_u16(bytes: &[u8]) -> Option<(u16, &[u8])>
    ensures found { IfSome result (λ found. bytes.now ≡ bytes_of_u16 found.0 ++ found.1.now) }
    ensures cut { IfNone result (length bytes.now < 2) }
{
    if bytes.len() < 2 {
        return None;
    }
    let (number, rest) = bytes.split_at(2);
    Some((BigEndian::read_u16(number), rest))
}

/// The number in the first four bytes, and the bytes behind them. `None` where there are fewer.
#[tactic(auto, unfolding(crate::specs::Fields::bytes_of_u32))]
pub fn take_u32(bytes: &[u8]) -> Option<(u32, &[u8])>
    ensures found { IfSome result (λ found. bytes.now ≡ bytes_of_u32 found.0 ++ found.1.now) }
    ensures cut { IfNone result (length bytes.now < 4) }
{
    if bytes.len() < 4 {
        return None;
    }
    let (number, rest) = bytes.split_at(4);
    Some((BigEndian::read_u32(number), rest))
}

/// The number in the first eight bytes, and the bytes behind them. `None` where there are fewer.
#[tactic(auto, unfolding(crate::specs::Fields::bytes_of_u64))]
pub fn take_u64(bytes: &[u8]) -> Option<(u64, &[u8])>
    ensures found { IfSome result (λ found. bytes.now ≡ bytes_of_u64 found.0 ++ found.1.now) }
    ensures cut { IfNone result (length bytes.now < 8) }
{
    if bytes.len() < 8 {
        return None;
    }
    let (number, rest) = bytes.split_at(8);
    Some((BigEndian::read_u64(number), rest))
}

/// The signed number in the first eight bytes, and the bytes behind them. `None` where there are fewer.
#[tactic(auto, unfolding(crate::specs::Fields::bytes_of_u64, crate::specs::Fields::bytes_of_i64))]
pub fn take_i64(bytes: &[u8]) -> Option<(i64, &[u8])>
    ensures found { IfSome result (λ found. bytes.now ≡ bytes_of_i64 found.0 ++ found.1.now) }
    ensures cut { IfNone result (length bytes.now < 8) }
{
    match take_u64(bytes) {
        Some((number, rest)) => Some((number.cast_signed(), rest)),
        None => None,
    }
}
