ghost use Rattle.std.specs.Prelude.{◌≡◌, ℕ, ◌+◌, ◌^◌, ◌<◌, ◌≤◌, ◌↔◌, ◌⊎◌, List, ◌++◌, length, take, drop, OnOk, OnErr, IfOk};
ghost use Rattle.std.specs.Bool.{OnTrue, OnFalse};
ghost use Rattle.word_codec.specs.Uvarint.{uvarint, IsShort, IsLong};

use super::error::UvarintFault;
use std::alloc::AllocError;

/// Where the last of so many bytes stands.
const LAST_PLACE: usize = 9;

/// Appends a number: seven bits a byte, the lowest first, the high bit set on all bytes but the last.
pub fn write_uvarint(out: &mut Vec<u8>, number: u64) -> Result<(), AllocError>
    ensures ok { OnOk result (out.new.items ≡ out.old.items ++ uvarint number) }
    ensures err { OnErr result (out.new.items ≡ out.old.items) }
{
    let len = out.len();
    match append(out, number) {
        Ok(()) => Ok(()),
        Err(error) => {
            out.truncate(len);
            Err(error)
        }
    }
}

/// The same, but without memory the bytes of it stay that had room.
fn append(out: &mut Vec<u8>, number: u64) -> Result<(), AllocError>
    ensures ok { OnOk result (out.new.items ≡ out.old.items ++ uvarint number) }
    ensures err { OnErr result (take (length out.old.items) out.new.items ≡ out.old.items) }
{
    let mut rest = number;
    while rest >= 128 {
        out.push((rest % 128) as u8 + 128)?;
        rest /= 128;
    }
    out.push(rest as u8)?;
    Ok(())
}

/// The number at the front of the bytes, and how many bytes it takes, 1 to 10. Other bytes may follow it.
#[inline(always)]
pub fn read_uvarint(bytes: &[u8]) -> Result<(u64, usize), UvarintFault>
    ensures found { IfOk result (λ found. (bytes.now ≡ uvarint found.0 ++ drop found.1 bytes.now) × (found.1 ≡ length (uvarint found.0))) }
    // Whatever follows it, a number is read again.
    ensures only { (number : ℕ) (rest : List ℕ) → number < 2 ^ 64 → bytes.now ≡ uvarint number ++ rest → result ≡ Ok (number, length (uvarint number)) }

    ensures short { (result ≡ Err UvarintFault.Short) ↔ IsShort bytes.now }
    ensures long { (result ≡ Err UvarintFault.Long) ↔ IsLong bytes.now }
{
    match bytes.split_first_chunk::<10>() {
        Some((ten, _)) => read_front(ten),
        None => read_front(bytes),
    }
}

/// The same. In an array of ten bytes each has its place and its scale before the program runs.
#[inline(always)]
fn read_front(bytes: &[u8]) -> Result<(u64, usize), UvarintFault>
    ensures found { IfOk result (λ found. (bytes.now ≡ uvarint found.0 ++ drop found.1 bytes.now) × (found.1 ≡ length (uvarint found.0))) }
    ensures only { (number : ℕ) (rest : List ℕ) → number < 2 ^ 64 → bytes.now ≡ uvarint number ++ rest → result ≡ Ok (number, length (uvarint number)) }
    ensures short { (result ≡ Err UvarintFault.Short) ↔ IsShort bytes.now }
    ensures long { (result ≡ Err UvarintFault.Long) ↔ IsLong bytes.now }
{
    let mut low: u64 = 0;
    let mut scale: u64 = 1;
    for (index, byte) in bytes.iter().enumerate() {
        let group = *byte as u64;
        if group < 128 {
            if is_too_long(index, group) {
                return Err(UvarintFault::Long);
            }
            return Ok((low + group * scale, index + 1));
        }
        if index == LAST_PLACE {
            return Err(UvarintFault::Long);
        }
        low += (group - 128) * scale;
        scale *= 128;
    }
    Err(UvarintFault::Short)
}

/// A last group of 0 is no part of the shortest spelling, and the tenth group has one bit.
#[inline(always)]
fn is_too_long(index: usize, group: u64) -> bool
    ensures refused { OnTrue result (((0 < index) × (group ≡ 0)) ⊎ ((index ≡ 9) × (2 ≤ group))) }
    ensures taken { OnFalse result ((0 < index → 0 < group) × (index ≡ 9 → group ≤ 1)) }
{
    if group > 1 {
        return index == LAST_PLACE;
    }
    group == 0 && index > 0
}

/// No spelling begins another: what follows a number is told apart from it.
pub fn spellings_are_apart()
    ensures { (first second : ℕ) (rest other : List ℕ) → uvarint first ++ rest ≡ uvarint second ++ other → (first ≡ second) × (rest ≡ other) }
{}
