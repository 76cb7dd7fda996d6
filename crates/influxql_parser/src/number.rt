ghost use Rattle.std.specs.Prelude.{◌≡◌, ℕ, ◌+◌, ◌*◌, ◌-◌, ◌<◌, ◌≤◌, ◌^◌, IfSome, IfNone, Some, None, ◌∷◌, length};
ghost use Rattle.std.specs.Option.{SomeIff};
ghost use Rattle.std.specs.Char.{is_ascii_digit};
ghost use Rattle.influxql_parser.specs.Numbers as spec;
ghost use Rattle.influxql_parser.specs.Parts.{IsPart, IsDuration};
ghost use Rattle.influxql_parser.specs.Numbers.{front_passing, behind_passing, decimal_from, in_64_bits, part_at, parts_at, longest, unit_of_one, unit_of_two};

// The digits at the front, and the rest.
pub fn digits_and_rest(text: &[u8]) -> (&[u8], &[u8])
    ensures front { result.0.now ≡ front_passing is_ascii_digit text.now }
    ensures behind { result.1.now ≡ behind_passing is_ascii_digit text.now }
{
    for (at, byte) in text.iter().enumerate() {
        if !byte.is_ascii_digit() {
            return text.split_at(at);
        }
    }
    text.split_at(text.len())
}

// The number of these digits, `None` from 2^64 on.
pub fn number_of(digits: &[u8]) -> Option<u64>
    ensures { result ≡ in_64_bits (decimal_from 0 digits.now) }
{
    counted(digits)
}

fn counted(digits: &[u8]) -> Option<u64>
    ensures { SomeIff result (decimal_from 0 digits.now < 2 ^ 64) (decimal_from 0 digits.now) }
{
    let mut number: u64 = 0;
    for digit in digits {
        match with_digit(number, *digit) {
            Some(more) => number = more,
            None => return None,
        }
    }
    Some(number)
}

// The number with one more digit behind it.
fn with_digit(number: u64, digit: u8) -> Option<u64>
    ensures { SomeIff result (number * 10 + (digit - 48) < 2 ^ 64) (number * 10 + (digit - 48)) }
{
    let tens = number.checked_mul(10)?;
    tens.checked_add(u64::from(digit.saturating_sub(b'0')))
}

// The nanoseconds of the longest unit at the front, and the rest.
fn unit_at(text: &[u8]) -> Option<(u64, &[u8])>
    ensures found { IfSome result (λ unit. spec.unit_at text.now ≡ Some (unit.0, unit.1.now)) }
    ensures none { IfNone result (spec.unit_at text.now ≡ None) }
    ensures shorter { IfSome result (λ unit. length unit.1.now < length text.now) }
    ensures positive { IfSome result (λ unit. 0 < unit.0) }
{
    match text.split_first() {
        None => None,
        Some((first, behind)) => unit_from(*first, behind),
    }
}

fn unit_from(first: u8, behind: &[u8]) -> Option<(u64, &[u8])>
    ensures found { IfSome result (λ unit. spec.unit_at (first ∷ behind.now) ≡ Some (unit.0, unit.1.now)) }
    ensures none { IfNone result (spec.unit_at (first ∷ behind.now) ≡ None) }
    ensures shorter { IfSome result (λ unit. length unit.1.now ≤ length behind.now) }
    ensures positive { IfSome result (λ unit. 0 < unit.0) }
{
    if let Some((second, rest)) = behind.split_first() {
        if let Some(nanoseconds) = unit_of_two(first, *second) {
            return Some((nanoseconds, rest));
        }
    }
    match unit_of_one(first) {
        None => None,
        Some(nanoseconds) => Some((nanoseconds, behind)),
    }
}

fn unit_of_two(a: u8, b: u8) -> Option<u64>
    ensures unit { result ≡ spec.unit_of_two a b }
    ensures positive { IfSome result (λ unit. 0 < unit) }
{
    if a == b'n' && b == b's' {
        Some(1)
    } else if a == 0xC2 && b == 0xB5 {
        Some(1_000)
    } else if a == b'm' && b == b's' {
        Some(1_000_000)
    } else {
        None
    }
}

fn unit_of_one(a: u8) -> Option<u64>
    ensures unit { result ≡ spec.unit_of_one a }
    ensures positive { IfSome result (λ unit. 0 < unit) }
{
    if a == b'u' {
        Some(1_000)
    } else if a == b's' {
        Some(1_000_000_000)
    } else if a == b'm' {
        Some(60_000_000_000)
    } else if a == b'h' {
        Some(3_600_000_000_000)
    } else if a == b'd' {
        Some(86_400_000_000_000)
    } else if a == b'w' {
        Some(604_800_000_000_000)
    } else {
        None
    }
}

// The nanoseconds of the digits and the unit at the front, which are `None` from 2^64 on, and the rest.
fn part_at(text: &[u8]) -> Option<(Option<u64>, &[u8])>
    ensures found { IfSome result (λ part. IsPart text.now part.0 part.1.now) }
    ensures none { IfNone result (spec.part_at text.now ≡ None) }
    ensures shorter { IfSome result (λ part. length part.1.now < length text.now) }
{
    let (digits, behind) = digits_and_rest(text);
    if digits.is_empty() {
        return None;
    }
    match unit_at(behind) {
        None => None,
        Some((nanoseconds, rest)) => Some((product(number_of(digits), nanoseconds), rest)),
    }
}

// The product, `None` where it or the first number is 2^64 or more.
fn product(number: Option<u64>, times: u64) -> Option<u64>
    requires { 0 < times }
    ensures { (whole : ℕ) → number ≡ in_64_bits whole → result ≡ in_64_bits (whole * times) }
{
    match number {
        None => None,
        Some(number) => number.checked_mul(times),
    }
}

// The sum, `None` where it or one of the numbers is 2^64 or more.
fn sum(a: Option<u64>, b: Option<u64>) -> Option<u64>
    ensures { (m n : ℕ) → a ≡ in_64_bits m → b ≡ in_64_bits n → result ≡ in_64_bits (m + n) }
{
    match (a, b) {
        (Some(a), Some(b)) => a.checked_add(b),
        _ => None,
    }
}

// The nanoseconds of the duration at the front, which are `None` from 2^64 on, and the rest.
pub fn duration_at(text: &[u8]) -> Option<(Option<u64>, &[u8])>
    ensures found { IfSome result (λ cut. IsDuration text.now cut.0 cut.1.now) }
    ensures none { IfNone result (spec.part_at text.now ≡ None) }
    ensures shorter { IfSome result (λ part. length part.1.now < length text.now) }
{
    match part_at(text) {
        None => None,
        Some((nanoseconds, behind)) => Some(parts_at(nanoseconds, behind)),
    }
}

// Some nanoseconds with all parts at the front, and the rest.
fn parts_at(nanoseconds: Option<u64>, text: &[u8]) -> (Option<u64>, &[u8])
    ensures total { (whole more : ℕ) → nanoseconds ≡ in_64_bits whole → length text.now ≤ more → (result.0 ≡ in_64_bits (spec.parts_at more whole text.now).0) × (result.1.now ≡ (spec.parts_at more whole text.now).1) }
    ensures shorter { length result.1.now ≤ length text.now }
{
    let mut total = nanoseconds;
    let mut left = text;
    while let Some((part, behind)) = part_at(left) {
        total = sum(total, part);
        left = behind;
    }
    (total, left)
}
