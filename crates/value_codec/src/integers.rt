ghost use Rattle.std.specs.Prelude.{◌≡◌, ◌≢◌, ◌≤◌, ◌<◌, ◌^◌, ◌+◌, ◌∷◌, ◌++◌, ℕ, List, All, IfOk, length};
ghost use Rattle.value_codec.specs.Steps.{AreRead, NoneRead, big_endian, coded_steps, form_byte, tail_of};
ghost use Rattle.value_codec.specs.declared.form.Form.TheVariants as form;

use crate::form::{Form, byte_of, form_for, form_with};
use crate::words::{read_words, split_uvarint, word_from};
use simple8b::WordsFault;
use std::alloc::{AllocError, Global};
use tsdb_types::BlockFault;
use word_codec::{write_uvarint, write_words};

/// The bytes of 1 to 1,000 steps.
pub fn encode_steps(alloc: Global, steps: &[u64]) -> Result<Vec<u8>, AllocError>
    requires some { 1 ≤ length steps.now }
    requires most { length steps.now ≤ 1000 }
    ensures { IfOk result (λ bytes. bytes.items ≡ coded_steps steps.now) }
{
    let (head, rest) = steps.split_at(1);
    let first = head[0];
    match form_for(first, rest) {
        Form::Raw => encode_raw(alloc, first, rest),
        Form::Packed => encode_packed(alloc, first, rest),
        Form::RunLength => encode_run(alloc, first, rest),
    }
}

/// The first byte and the first step, with room for so many bytes behind them.
fn head_of(alloc: Global, form: Form, first: u64, room: usize) -> Result<Vec<u8>, AllocError>
    requires { room ≤ 8000 }
    ensures { IfOk result (λ out. out.items ≡ form_byte form ∷ big_endian first) }
{
    let mut out = Vec::with_capacity(alloc, room + 9)?;
    out.push(byte_of(form))?;
    out.extend_from_slice(&first.to_be_bytes())?;
    Ok(out)
}

fn encode_raw(alloc: Global, first: u64, rest: &[u64]) -> Result<Vec<u8>, AllocError>
    requires { length rest.now < 1000 }
    ensures { IfOk result (λ out. out.items ≡ (form_byte form.Raw ∷ big_endian first) ++ tail_of form.Raw rest.now) }
{
    let mut out = head_of(alloc, Form::Raw, first, 8 * rest.len())?;
    write_words(&mut out, rest)?;
    Ok(out)
}

fn encode_packed(alloc: Global, first: u64, rest: &[u64]) -> Result<Vec<u8>, AllocError>
    requires size { length rest.now < 1000 }
    requires narrow { All (λ step. step < 2 ^ 60) rest.now }
    ensures { IfOk result (λ out. out.items ≡ (form_byte form.Packed ∷ big_endian first) ++ tail_of form.Packed rest.now) }
{
    let words = simple8b::encode(alloc, rest)?;
    let mut out = head_of(alloc, Form::Packed, first, 8 * words.len().min(1000))?;
    write_words(&mut out, words.as_slice())?;
    Ok(out)
}

fn encode_run(alloc: Global, first: u64, rest: &[u64]) -> Result<Vec<u8>, AllocError>
    requires some { 1 ≤ length rest.now }
    requires most { length rest.now < 1000 }
    ensures { IfOk result (λ out. out.items ≡ (form_byte form.RunLength ∷ big_endian first) ++ tail_of form.RunLength rest.now) }
{
    let mut out = head_of(alloc, Form::RunLength, first, 20)?;
    write_uvarint(&mut out, rest[0])?;
    write_uvarint(&mut out, rest.len() as u64)?;
    Ok(out)
}

/// The first step, and the `count` steps behind it.
pub fn decode_steps(
    alloc: Global,
    bytes: &[u8],
    count: usize,
) -> Result<(u64, Vec<u64>), BlockFault>
    requires { count < 1000 }
    ensures found { IfOk result (λ found. coded_steps (found.0 ∷ found.1.items) ≡ bytes.now) }
    ensures size { IfOk result (λ found. length found.1.items ≡ count) }
    ensures bad_block { result ≡ Err BlockFault.BadBlock → (steps : List ℕ) → All (λ step. step < 2 ^ 64) steps
        → length steps ≡ count + 1 → coded_steps steps ≢ bytes.now }
    ensures no_kind { (byte : ℕ) → result ≢ Err (BlockFault.BadKind byte) }
{
    let Some((head, behind)) = bytes.split_first() else {
        return Err(BlockFault::BadBlock);
    };
    let Some(form) = form_with(*head) else {
        return Err(BlockFault::BadBlock);
    };
    let Some((first, tail)) = behind.split_first_chunk::<8>() else {
        return Err(BlockFault::BadBlock);
    };
    let first = word_from(first);
    let rest = read_tail(alloc, form, tail, count)?;
    if byte_of(form_for(first, rest.as_slice())) != *head {
        return Err(BlockFault::BadBlock);
    }
    Ok((first, rest))
}

/// So many steps behind the first.
fn read_tail(alloc: Global, form: Form, bytes: &[u8], count: usize) -> Result<Vec<u64>, BlockFault>
    requires { count < 1000 }
    ensures found { IfOk result (λ rest. AreRead form count bytes.now rest.items) }
    ensures bad_block { result ≡ Err BlockFault.BadBlock → NoneRead form count bytes.now }
    ensures no_kind { (byte : ℕ) → result ≢ Err (BlockFault.BadKind byte) }
{
    match form {
        Form::Raw => read_raw(alloc, bytes, count),
        Form::Packed => read_packed(alloc, bytes, count),
        Form::RunLength => read_run(alloc, bytes, count),
    }
}

fn read_raw(alloc: Global, bytes: &[u8], count: usize) -> Result<Vec<u64>, BlockFault>
    ensures found { IfOk result (λ rest. AreRead form.Raw count bytes.now rest.items) }
    ensures bad_block { result ≡ Err BlockFault.BadBlock → NoneRead form.Raw count bytes.now }
    ensures no_kind { (byte : ℕ) → result ≢ Err (BlockFault.BadKind byte) }
{
    let rest = read_words(alloc, bytes)?;
    if rest.len() != count {
        return Err(BlockFault::BadBlock);
    }
    Ok(rest)
}

fn read_packed(alloc: Global, bytes: &[u8], count: usize) -> Result<Vec<u64>, BlockFault>
    ensures found { IfOk result (λ rest. AreRead form.Packed count bytes.now rest.items) }
    ensures bad_block { result ≡ Err BlockFault.BadBlock → NoneRead form.Packed count bytes.now }
    ensures no_kind { (byte : ℕ) → result ≢ Err (BlockFault.BadKind byte) }
{
    let words = read_words(alloc, bytes)?;
    match simple8b::decode(alloc, words.as_slice(), count) {
        Ok(rest) => Ok(rest),
        Err(WordsFault::BadWords) => Err(BlockFault::BadBlock),
        Err(WordsFault::Memory) => Err(BlockFault::Memory),
    }
}

fn read_run(alloc: Global, bytes: &[u8], count: usize) -> Result<Vec<u64>, BlockFault>
    requires { count < 1000 }
    ensures found { IfOk result (λ rest. AreRead form.RunLength count bytes.now rest.items) }
    ensures bad_block { result ≡ Err BlockFault.BadBlock → NoneRead form.RunLength count bytes.now }
    ensures no_kind { (byte : ℕ) → result ≢ Err (BlockFault.BadKind byte) }
{
    let Some((step, behind)) = split_uvarint(bytes) else {
        return Err(BlockFault::BadBlock);
    };
    let Some((times, after)) = split_uvarint(behind) else {
        return Err(BlockFault::BadBlock);
    };
    if times != count as u64 || count == 0 || !after.is_empty() {
        return Err(BlockFault::BadBlock);
    }
    let rest = vec![in alloc; step; count]?;
    Ok(rest)
}
