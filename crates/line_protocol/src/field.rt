ghost use Rattle.std.specs.Prelude.{◌≡◌, false, Ok, Err, OnOk, IfOk, IfErr};
ghost use Rattle.tsdb_types.specs.Series.{measurement_ends_at};
ghost use Rattle.line_protocol.specs.Fields.{Fields, field_of, fields_of, first_before, prefixed, field_spelled, fields_spelled};
ghost use Rattle.line_protocol.specs.Names.{key_part, value_part};
ghost use Rattle.line_protocol.specs.Parts.{front, parts};
ghost use Rattle.line_protocol.specs.Parts as part;
ghost use Rattle.line_protocol.specs.Readings.{Gives, Refuses};
ghost use Rattle.line_protocol.specs.Texts.{IsOneLine};
ghost use Rattle.line_protocol.specs.Tokens.{part_at, rest_where};

use crate::fault::{LineCode, Refusal};
use crate::name::behind_first;
use crate::spelled_field::SpelledField;
use crate::value::read_value;
use crate::walk::{behind_byte, cut_token};
use std::alloc::AllocFailed;
use tsdb_types::{Name, Value};

// A field of a line.
#[derive(Drop)]
pub struct Field {
    pub name: Name,
    pub value: Value,
}

// Reads the fields in order that a text begins with, up to a space or the end, into emptied room, and gives what stands
// behind them; or the first fault of one.
pub fn read_fields<'a>(
    fields: &mut Vec<SpelledField<'a>>,
    text: &'a [u8],
) -> Result<&'a [u8], Refusal>
    requires { IsOneLine (front 32 false text.now) }
    ensures fields { Gives (λ _. fields_spelled fields.new.items) result (fields_of (parts 44 false (front 32 false text.now))) }
    ensures behind { IfOk result (λ behind. behind.now ≡ part.rest 32 false text.now) }
{
    fields.clear();
    let mut left = text;
    'parts: loop {
        match push_field(fields, left) {
            Err(refusal) => return Err(refusal),
            Ok(rest) => match behind_byte(rest, b',') {
                None => return Ok(rest),
                Some(behind) => left = behind,
            },
        }
    }
}

// Reads the field that a text begins with behind the others, and gives what stands behind it.
fn push_field<'a>(fields: &mut Vec<SpelledField<'a>>, text: &'a [u8]) -> Result<&'a [u8], Refusal>
    requires { IsOneLine (part_at text.now) }
    ensures ok { OnOk result ((more : Fields) → prefixed (fields_spelled fields.old.items) (first_before (field_of (part_at text.now)) more) ≡ prefixed (fields_spelled fields.new.items) more) }
    ensures rest { IfOk result (λ rest. rest.now ≡ rest_where measurement_ends_at false text.now) }
    ensures refused { IfErr result (λ refusal. Refuses refusal (field_of (part_at text.now))) }
{
    match read_field(text) {
        Ok((field, rest)) => {
            fields.push(field)?;
            Ok(rest)
        }
        Err(code) => Err(Refusal::Code(code)),
    }
}

// The field that a text begins with, and what stands behind it.
fn read_field(text: &[u8]) -> Result<(SpelledField<'_>, &[u8]), LineCode>
    requires { IsOneLine (part_at text.now) }
    ensures field { IfOk result (λ read. field_of (part_at text.now) ≡ Ok (field_spelled read.0)) }
    ensures rest { IfOk result (λ read. read.1.now ≡ rest_where measurement_ends_at false text.now) }
    ensures refused { IfErr result (λ code. field_of (part_at text.now) ≡ Err code) }
{
    let (key, value, rest) = field_at(text);
    if key.is_empty() {
        return Err(LineCode::BadField);
    }
    match read_value(value) {
        Err(code) => Err(code),
        Ok(value) => Ok((SpelledField { key, value }, rest)),
    }
}

// The key and the value of the part that a text begins with, and what stands behind it.
fn field_at(text: &[u8]) -> (&[u8], &[u8], &[u8])
    ensures key { result.0.now ≡ key_part (part_at text.now) }
    ensures value { result.1.now ≡ value_part (part_at text.now) }
    ensures rest { result.2.now ≡ rest_where measurement_ends_at false text.now }
{
    let (key, behind) = cut_token(text, true);
    let (value, rest) = cut_token(behind, false);
    (key, behind_first(value), rest)
}
