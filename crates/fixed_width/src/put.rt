ghost use Rattle.std.specs.Prelude.{◌≡◌, ◌++◌, OnOk, OnErr};
ghost use Rattle.fixed_width.specs.Fields.{bytes_of_u16, bytes_of_u32, bytes_of_u64, bytes_of_i64};

use byteorder::{BigEndian, ByteOrder};
use std::alloc::AllocError;

/// Appends the two bytes of a number.
#[tactic(auto, unfolding(crate::specs::Fields::bytes_of_u16))]
pub fn put_u16(out: &mut Vec<u8>, number: u16) -> Result<(), AllocError>
    ensures ok { OnOk result (out.new.items ≡ out.old.items ++ bytes_of_u16 number) }
    ensures err { OnErr result (out.new.items ≡ out.old.items) }
{
    let mut bytes = [0; 2];
    BigEndian::write_u16(&mut bytes, number);
    out.extend_from_slice(&bytes)
}

/// Appends the four bytes of a number.
#[tactic(auto, unfolding(crate::specs::Fields::bytes_of_u32))]
pub fn put_u32(out: &mut Vec<u8>, number: u32) -> Result<(), AllocError>
    ensures ok { OnOk result (out.new.items ≡ out.old.items ++ bytes_of_u32 number) }
    ensures err { OnErr result (out.new.items ≡ out.old.items) }
{
    let mut bytes = [0; 4];
    BigEndian::write_u32(&mut bytes, number);
    out.extend_from_slice(&bytes)
}

/// Appends the eight bytes of a number.
#[tactic(auto, unfolding(crate::specs::Fields::bytes_of_u64))]
pub fn put_u64(out: &mut Vec<u8>, number: u64) -> Result<(), AllocError>
    ensures ok { OnOk result (out.new.items ≡ out.old.items ++ bytes_of_u64 number) }
    ensures err { OnErr result (out.new.items ≡ out.old.items) }
{
    let mut bytes = [0; 8];
    BigEndian::write_u64(&mut bytes, number);
    out.extend_from_slice(&bytes)
}

/// Appends the eight bytes of a signed number, in two's complement.
#[tactic(auto, unfolding(crate::specs::Fields::bytes_of_u64, crate::specs::Fields::bytes_of_i64))]
pub fn put_i64(out: &mut Vec<u8>, number: i64) -> Result<(), AllocError>
    ensures ok { OnOk result (out.new.items ≡ out.old.items ++ bytes_of_i64 number) }
    ensures err { OnErr result (out.new.items ≡ out.old.items) }
{
    put_u64(out, number.cast_unsigned())
}
