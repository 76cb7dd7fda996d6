ghost use Rattle.std.specs.Prelude.{◌≡◌, ◌++◌, ◌∷◌, IfOk, OnOk};
ghost use Rattle.tsdb_types.specs.Series.{is_one_of};
ghost use Rattle.line_protocol.specs.Names.{key_part, value_part, unescaped};
ghost use Rattle.line_protocol.specs.Names as spec;
ghost use Rattle.line_protocol.specs.Texts.{SpellsName};

use std::alloc::{AllocError, AllocFailed, Global};
use tsdb_types::Name;

// The bytes at which a measurement ends where no backslash stands before them.
pub const MEASUREMENT_ENDS: &[u8] = b", ";

// The same of a tag key, a tag value and a field key.
pub const TAG_ENDS: &[u8] = b",= ";

// The name that a part of a line spells: without each backslash right before one of these bytes.
pub fn name_of(alloc: Global, part: &[u8], ends: &[u8]) -> Result<Name, AllocError>
    requires { SpellsName (is_one_of ends.now) part.now }
    ensures { IfOk result (λ name. name ≡ unescaped (is_one_of ends.now) part.now) }
{
    let mut text = Vec::with_capacity(alloc, part.len())?;
    push_name(&mut text, part, ends)?;
    match String::from_utf8(text) {
        Ok(text) => Name::from_string(text),
        Err(_) => unreachable!(),
    }
}

// Writes the name that a part of a line spells.
pub fn push_name(text: &mut Vec<u8>, part: &[u8], ends: &[u8]) -> Result<(), AllocError>
    ensures { OnOk result (text.new.items ≡ text.old.items ++ unescaped (is_one_of ends.now) part.now) }
{
    if part.contains(&b'\\') {
        return push_unescaped(text, part, ends);
    }
    text.extend_from_slice(part)?;
    Ok(())
}

fn push_unescaped(text: &mut Vec<u8>, part: &[u8], ends: &[u8]) -> Result<(), AllocError>
    ensures { OnOk result (text.new.items ≡ text.old.items ++ unescaped (is_one_of ends.now) part.now) }
{
    let mut left = part;
    while let Some((byte, behind)) = left.split_first() {
        push_named(text, *byte, behind, ends)?;
        left = behind;
    }
    Ok(())
}

// Writes a byte, but for a backslash that one of these bytes stands behind.
fn push_named(text: &mut Vec<u8>, byte: u8, behind: &[u8], ends: &[u8]) -> Result<(), AllocError>
    ensures { OnOk result (text.new.items ++ unescaped (is_one_of ends.now) behind.now ≡ text.old.items ++ unescaped (is_one_of ends.now) (byte ∷ behind.now)) }
{
    if byte == b'\\' && begins_with(behind, ends) {
        return Ok(());
    }
    text.push(byte)?;
    Ok(())
}

fn begins_with(text: &[u8], ends: &[u8]) -> bool
    ensures { result ≡ spec.begins_with (is_one_of ends.now) text.now }
{
    match text.split_first() {
        None => false,
        Some((first, _behind)) => ends.contains(first),
    }
}

// A text without its first byte.
pub fn behind_first(text: &[u8]) -> &[u8]
    ensures { result.now ≡ spec.behind_first text.now }
{
    match text.split_first() {
        None => text,
        Some((_first, behind)) => behind,
    }
}
