ghost use Rattle.std.specs.Prelude.{◌≡◌, ◌==◌, ◌↔◌, not, true, Bool, Some, IsTrue, IsNone, length};
ghost use Rattle.line_protocol.specs.Values.{words, is_word, wordless_value, value_of, int_value, uint_value, number_value};
ghost use Rattle.line_protocol.specs.Values as spec;

use crate::fault::LineCode;
use crate::number::{digits_and_rest, is_digits, number_of, signed, without_minus};
use tsdb_types::Value;

// A value by its text.
pub fn read_value(text: &[u8]) -> Result<Value, LineCode>
    ensures { result ≡ value_of text.now }
{
    match boolean(text) {
        Some(truth) => Ok(Value::Bool(truth)),
        None => wordless(text),
    }
}

fn boolean(text: &[u8]) -> Option<bool>
    ensures { (truth : Bool) → (result ≡ Some truth) ↔ (is_word text.now truth ≡ true) }
{
    match text {
        b"t" | b"T" | b"true" | b"True" | b"TRUE" => Some(true),
        b"f" | b"F" | b"false" | b"False" | b"FALSE" => Some(false),
        _ => None,
    }
}

// The value of a text that is no word.
fn wordless(text: &[u8]) -> Result<Value, LineCode>
    ensures { result ≡ wordless_value text.now }
{
    if is_quoted(text) {
        return Err(LineCode::StringValue);
    }
    let (negative, digits) = without_minus(text);
    let (digits, behind) = digits_and_rest(digits);
    number(negative, digits, behind)
}

fn is_quoted(text: &[u8]) -> bool
    ensures { result ≡ spec.is_quoted text.now }
{
    match text.split_first() {
        None => false,
        Some((first, _behind)) => *first == b'"',
    }
}

// The value of a sign, digits and what stands behind them.
fn number(negative: bool, digits: &[u8], behind: &[u8]) -> Result<Value, LineCode>
    ensures { result ≡ number_value negative digits.now behind.now }
{
    let some = !digits.is_empty();
    if is_byte(behind, b'i') && some {
        return integer(negative, digits);
    }
    if is_byte(behind, b'u') && !negative && some {
        return unsigned(digits);
    }
    if is_float(some, behind) {
        return Err(LineCode::FloatValue);
    }
    Err(LineCode::BadField)
}

fn is_byte(text: &[u8], byte: u8) -> bool
    ensures { result ≡ spec.is_byte byte text.now }
{
    match text.split_first() {
        None => false,
        Some((first, behind)) => *first == byte && behind.is_empty(),
    }
}

fn integer(negative: bool, digits: &[u8]) -> Result<Value, LineCode>
    ensures { result ≡ int_value negative digits.now }
{
    match signed(negative, digits) {
        Some(number) => Ok(Value::Int(number)),
        None => Err(LineCode::NumberRange),
    }
}

fn unsigned(digits: &[u8]) -> Result<Value, LineCode>
    ensures { result ≡ uint_value digits.now }
{
    match number_of(digits) {
        Some(number) => Ok(Value::Uint(number)),
        None => Err(LineCode::NumberRange),
    }
}

// Whether a float is digits, of which there may be none, and this text behind them.
fn is_float(some: bool, behind: &[u8]) -> bool
    ensures { result ≡ spec.is_float some behind.now }
{
    match behind.split_first() {
        None => some,
        Some((first, rest)) => {
            if *first == b'.' {
                return is_fraction(some, rest);
            }
            some && is_exponent(behind)
        }
    }
}

fn is_fraction(some: bool, text: &[u8]) -> bool
    ensures { result ≡ spec.is_fraction some text.now }
{
    let (digits, behind) = digits_and_rest(text);
    (some || !digits.is_empty()) && is_exponent(behind)
}

// Nothing, or an `e`, a sign or none, and digits.
fn is_exponent(text: &[u8]) -> bool
    ensures { result ≡ spec.is_exponent text.now }
{
    match text.split_first() {
        None => true,
        Some((mark, behind)) => (*mark == b'e' || *mark == b'E') && is_digits(without_sign(behind)),
    }
}

fn without_sign(text: &[u8]) -> &[u8]
    ensures { result.now ≡ spec.without_sign text.now }
{
    match text.split_first() {
        None => text,
        Some((sign, behind)) => {
            if *sign == b'+' || *sign == b'-' {
                behind
            } else {
                text
            }
        }
    }
}
