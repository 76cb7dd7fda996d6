ghost use Rattle.std.specs.Prelude.{◌≡◌, ℕ, ◌+◌, ◌*◌, ◌-◌, ◌<◌, ◌≤◌, ◌^◌, false, nat_lt, Some, None, if◌then◌else◌};
ghost use Rattle.std.specs.Option.{SomeIff};
ghost use Rattle.std.specs.Str.{all_ascii_digits};
ghost use Rattle.line_protocol.specs.Numbers as spec;

// Whether the text is one or more digits.
pub fn is_digits(text: &[u8]) -> bool
    ensures { result ≡ spec.is_digits text.now }
{
    !text.is_empty() && all_digits(text)
}

fn all_digits(text: &[u8]) -> bool
    ensures { result ≡ all_ascii_digits text.now }
{
    for byte in text {
        if !byte.is_ascii_digit() {
            return false;
        }
    }
    true
}

// The number of these digits, `None` from 2^64 on.
pub fn number_of(digits: &[u8]) -> Option<u64>
    ensures { SomeIff result (spec.number_of digits.now < 2 ^ 64) (spec.number_of digits.now) }
{
    let mut number: u64 = 0;
    for digit in digits {
        match with_digit(number, *digit) {
            Some(more) => number = more,
            None => return None,
        }
    }
    Some(number)
}

// The number with one more digit behind it.
fn with_digit(number: u64, digit: u8) -> Option<u64>
    ensures { SomeIff result (number * 10 + (digit - 48) < 2 ^ 64) (number * 10 + (digit - 48)) }
{
    let tens = number.checked_mul(10)?;
    tens.checked_add(u64::from(digit.saturating_sub(b'0')))
}

// The number of these digits with or without a minus before it, `None` where an `i64` doesn't hold it.
pub fn signed(negative: bool, digits: &[u8]) -> Option<i64>
    ensures { result ≡ (if spec.is_int negative (spec.number_of digits.now) then Some (spec.signed_of negative (spec.number_of digits.now)) else None) }
{
    match number_of(digits) {
        None => None,
        Some(number) => with_sign(negative, number),
    }
}

fn with_sign(negative: bool, number: u64) -> Option<i64>
    ensures { result ≡ (if spec.is_int negative number then Some (spec.signed_of negative number) else None) }
{
    if !negative {
        if number > 9223372036854775807 {
            return None;
        }
        return Some(number as i64);
    }
    if number > 9223372036854775808 {
        return None;
    }
    if number == 9223372036854775808 {
        return Some(i64::MIN);
    }
    Some(-(number as i64))
}

// What stands behind a minus, and whether there is one.
pub fn without_minus(text: &[u8]) -> (bool, &[u8])
    ensures negative { result.0 ≡ spec.is_negative text.now }
    ensures unsigned { result.1.now ≡ spec.unsigned text.now }
{
    match text.split_first() {
        None => (false, text),
        Some((first, rest)) => {
            if *first == b'-' {
                return (true, rest);
            }
            (false, text)
        }
    }
}

// The digits at the front, and the rest.
pub fn digits_and_rest(text: &[u8]) -> (&[u8], &[u8])
    ensures front { result.0.now ≡ spec.digits_front text.now }
    ensures behind { result.1.now ≡ spec.digits_behind text.now }
{
    for (at, byte) in text.iter().enumerate() {
        if !byte.is_ascii_digit() {
            return text.split_at(at);
        }
    }
    text.split_at(text.len())
}
