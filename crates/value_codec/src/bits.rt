ghost use Rattle.std.specs.Prelude.{◌≡◌, ◌≢◌, ◌≤◌, ◌+◌, ◌/◌, ◌++◌, ℕ, Bool, List, All, IfOk, OnOk, length, map};
ghost use Rattle.value_codec.specs.Booleans.{byte_of, bytes_behind, coded_booleans};
ghost use Rattle.value_codec.specs.Coding.{truth_of, AreOf, AddsByte};

use crate::halves::half;
use crate::words::split_uvarint;
use std::alloc::{AllocError, Global};
use tsdb_types::{BlockFault, Kind, Value};
use word_codec::write_uvarint;

/// The bytes of 1 to 1,000 Booleans.
pub fn encode_booleans(alloc: Global, values: &[Value]) -> Result<Vec<u8>, AllocError>
    requires { length values.now ≤ 1000 }
    ensures { IfOk result (λ bytes. bytes.items ≡ coded_booleans (map truth_of values.now)) }
{
    let mut out = Vec::with_capacity(alloc, 3 + values.len() / 8 + 1)?;
    out.push(0x10)?;
    write_uvarint(&mut out, values.len() as u64)?;
    append_bits(&mut out, values)?;
    Ok(out)
}

/// Appends a bit for each value, eight in a byte and the first of them the highest.
fn append_bits(out: &mut Vec<u8>, values: &[Value]) -> Result<(), AllocError>
    ensures { OnOk result (out.new.items ≡ out.old.items ++ bytes_behind 0 (map truth_of values.now)) }
{
    let mut rest = values;
    while let Some((eight, behind)) = rest.split_first_chunk::<8>() {
        out.push(byte_with(eight))?;
        rest = behind;
    }
    if rest.is_empty() {
        return Ok(());
    }
    out.push(byte_with(rest))?;
    Ok(())
}

/// A byte of up to eight Booleans.
// The bits so far are doubled for each, and `unit` is what the last of them counts for in the byte.
#[inline(always)]
fn byte_with(values: &[Value]) -> u8
    requires { length values.now ≤ 8 }
    ensures { result ≡ byte_of 128 (map truth_of values.now) }
{
    let mut bits: u32 = 0;
    let mut unit: u32 = 256;
    for value in values {
        bits = bits * 2 + is_true(value) as u32;
        unit /= 2;
    }
    (bits * unit) as u8
}

// A comparison in place is faster than a match, whose arms are joined again for each bit.
#[inline(always)]
fn is_true(value: &Value) -> bool
    ensures { result ≡ truth_of value.now }
{
    *value == Value::Bool(true)
}

/// So many Booleans.
pub fn decode_booleans(alloc: Global, bytes: &[u8], n: usize) -> Result<Vec<Value>, BlockFault>
    requires { n ≤ 1000 }
    ensures found { IfOk result (λ values. coded_booleans (map truth_of values.items) ≡ bytes.now) }
    ensures size { IfOk result (λ values. length values.items ≡ n) }
    ensures kind { IfOk result (λ values. AreOf Kind.Boolean values.items) }
    ensures bad_block { result ≡ Err BlockFault.BadBlock → (truths : List Bool) → length truths ≡ n → coded_booleans truths ≢ bytes.now }
    ensures no_kind { (byte : ℕ) → result ≢ Err (BlockFault.BadKind byte) }
{
    let Some((head, behind)) = bytes.split_first() else {
        return Err(BlockFault::BadBlock);
    };
    let Some((count, bits)) = split_uvarint(behind) else {
        return Err(BlockFault::BadBlock);
    };
    if *head != 0x10 || count != n as u64 || bits.len() != (n + 7) / 8 {
        return Err(BlockFault::BadBlock);
    }
    read_bits(alloc, bits, n)
}

/// So many Booleans, of which the bytes have just enough room.
fn read_bits(alloc: Global, bits: &[u8], n: usize) -> Result<Vec<Value>, BlockFault>
    requires most { n ≤ 1000 }
    requires room { length bits.now ≡ (n + 7) / 8 }
    ensures found { IfOk result (λ values. bytes_behind 0 (map truth_of values.items) ≡ bits.now) }
    ensures size { IfOk result (λ values. length values.items ≡ n) }
    ensures kind { IfOk result (λ values. AreOf Kind.Boolean values.items) }
    ensures bad_block { result ≡ Err BlockFault.BadBlock → (truths : List Bool) → length truths ≡ n → bytes_behind 0 truths ≢ bits.now }
    ensures no_kind { (byte : ℕ) → result ≢ Err (BlockFault.BadKind byte) }
{
    let mut values = Vec::with_capacity(alloc, n)?;
    for byte in bits {
        let size = (n - values.len()).min(8);
        read_byte(*byte, size, &mut values)?;
    }
    Ok(values)
}

/// Appends the first `size` Booleans of a byte, whose other bits are zero.
fn read_byte(byte: u8, size: usize, values: &mut Vec<Value>) -> Result<(), BlockFault>
    requires { size ≤ 8 }
    ensures found { OnOk result (AddsByte byte size values.old.items values.new.items) }
    ensures bad_block { result ≡ Err BlockFault.BadBlock → (truths : List Bool) → length truths ≡ size → byte_of 128 truths ≢ byte }
    ensures no_kind { (other : ℕ) → result ≢ Err (BlockFault.BadKind other) }
{
    if size < 8 {
        return read_part(byte, size, values);
    }
    read_whole(byte, values)?;
    Ok(())
}

/// Appends the eight Booleans of a byte, four at a time from a table, so that room is tested for twice.
fn read_whole(byte: u8, values: &mut Vec<Value>) -> Result<(), AllocError>
    ensures { OnOk result (AddsByte byte 8 values.old.items values.new.items) }
{
    values.extend_from_slice(half(byte / 16))?;
    values.extend_from_slice(half(byte % 16))?;
    Ok(())
}

/// The same of a byte of which some bits are left, one by one.
fn read_part(byte: u8, size: usize, values: &mut Vec<Value>) -> Result<(), BlockFault>
    requires { size ≤ 8 }
    ensures found { OnOk result (AddsByte byte size values.old.items values.new.items) }
    ensures bad_block { result ≡ Err BlockFault.BadBlock → (truths : List Bool) → length truths ≡ size → byte_of 128 truths ≢ byte }
    ensures no_kind { (other : ℕ) → result ≢ Err (BlockFault.BadKind other) }
{
    let mut rest = byte;
    let mut weight = 128;
    for at in 0..size {
        let truth = rest >= weight;
        if truth {
            rest -= weight;
        }
        values.push(Value::Bool(truth))?;
        weight /= 2;
    }
    if rest != 0 {
        return Err(BlockFault::BadBlock);
    }
    Ok(())
}
