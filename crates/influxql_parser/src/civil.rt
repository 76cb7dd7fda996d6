// Civil moments of UTC.
ghost use Rattle.std.specs.Prelude.{◌≡◌, ℕ, suc, ◌≤◌, ◌<◌, ◌+◌, ◌*◌, pos, IfSome, IfNone, Some, None, ◌∷◌, ◌&&◌, nat_le, if◌then◌else◌};
ghost use Rattle.jiff_core.specs.Calendar.{days_from_civil};
ghost use Rattle.influxql_parser.specs.Numbers.{decimal_from};
ghost use Rattle.influxql_parser.specs.CivilTimes as spec;
ghost use Rattle.influxql_parser.specs.CivilTimes.{is_civil_date};

use crate::number::{digits_and_rest, number_of};
use jiff_core::civil::Date;

// The nanoseconds since 1970 of a civil moment.
pub fn civil_time(text: &[u8]) -> Option<i128>
    ensures { result ≡ spec.civil_time text.now }
{
    match day_at(text) {
        None => None,
        Some((day, behind)) => match time_of_day(behind) {
            None => None,
            Some(clock) => Some(day as i128 * 86_400_000_000_000 + clock as i128),
        },
    }
}

// The number with the digit at the front behind it, and the rest.
fn digit_at(number: u32, text: &[u8]) -> Option<(u32, &[u8])>
    requires { number ≤ 999 }
    ensures found { IfSome result (λ cut. (more : ℕ) → spec.digits_at (suc more) number text.now ≡ spec.digits_at more cut.0 cut.1.now) }
    ensures none { IfNone result ((more : ℕ) → spec.digits_at (suc more) number text.now ≡ None) }
    ensures within { IfSome result (λ cut. cut.0 ≤ number * 10 + 9) }
{
    match text.split_first() {
        None => None,
        Some((first, behind)) => {
            if first.is_ascii_digit() {
                return Some((number * 10 + (*first - b'0') as u32, behind));
            }
            None
        }
    }
}

// The number with two digits behind it, and the rest.
fn two_digits(number: u32, text: &[u8]) -> Option<(u32, &[u8])>
    requires { number ≤ 99 }
    ensures found { IfSome result (λ cut. (more : ℕ) → spec.digits_at (suc (suc more)) number text.now ≡ spec.digits_at more cut.0 cut.1.now) }
    ensures none { IfNone result ((more : ℕ) → spec.digits_at (suc (suc more)) number text.now ≡ None) }
    ensures within { IfSome result (λ cut. cut.0 ≤ number * 100 + 99) }
{
    match digit_at(number, text) {
        None => None,
        Some((first, behind)) => match digit_at(first, behind) {
            None => None,
            Some((second, rest)) => Some((second, rest)),
        },
    }
}

// Four digits at the front, and the rest.
fn four_digits(text: &[u8]) -> Option<(u32, &[u8])>
    ensures found { IfSome result (λ cut. spec.digits_at 4 0 text.now ≡ Some (cut.0, cut.1.now)) }
    ensures none { IfNone result (spec.digits_at 4 0 text.now ≡ None) }
    ensures within { IfSome result (λ cut. cut.0 ≤ 9999) }
{
    match two_digits(0, text) {
        None => None,
        Some((century, behind)) => match two_digits(century, behind) {
            None => None,
            Some((year, rest)) => Some((year, rest)),
        },
    }
}

// Two digits behind this byte, and the rest.
fn two_behind(byte: u8, text: &[u8]) -> Option<(u32, &[u8])>
    ensures found { IfSome result (λ cut. spec.digits_behind byte 2 text.now ≡ Some (cut.0, cut.1.now)) }
    ensures none { IfNone result (spec.digits_behind byte 2 text.now ≡ None) }
    ensures within { IfSome result (λ cut. cut.0 ≤ 99) }
{
    match behind_byte(byte, text) {
        None => None,
        Some(behind) => match two_digits(0, behind) {
            None => None,
            Some((number, rest)) => Some((number, rest)),
        },
    }
}

fn behind_byte(byte: u8, text: &[u8]) -> Option<&[u8]>
    ensures found { IfSome result (λ behind. spec.behind_byte byte text.now ≡ Some behind.now) }
    ensures none { IfNone result (spec.behind_byte byte text.now ≡ None) }
{
    match text.split_first() {
        None => None,
        Some((first, behind)) => {
            if *first == byte {
                return Some(behind);
            }
            None
        }
    }
}

// The day at the front, since 1970, and the rest.
fn day_at(text: &[u8]) -> Option<(i32, &[u8])>
    ensures found { IfSome result (λ cut. spec.day_at text.now ≡ Some (cut.0, cut.1.now)) }
    ensures none { IfNone result (spec.day_at text.now ≡ None) }
{
    match four_digits(text) {
        None => None,
        Some((year, behind)) => match two_behind(b'-', behind) {
            None => None,
            Some((month, behind)) => match two_behind(b'-', behind) {
                None => None,
                Some((day, behind)) => match day_number(year, month, day) {
                    None => None,
                    Some(number) => Some((number, behind)),
                },
            },
        },
    }
}

// The number of the day since 1970, where the calendar has it.
fn day_number(year: u32, month: u32, day: u32) -> Option<i32>
    requires year { year ≤ 9999 }
    requires month { month ≤ 99 }
    requires day { day ≤ 99 }
    ensures { result ≡ (if is_civil_date year month day then Some (days_from_civil (pos year) month day) else None) }
{
    match Date::new(year as i16, month as i8, day as i8) {
        Err(_) => None,
        Ok(date) => Some(date.to_unix_epoch_day()),
    }
}

// The nanoseconds of a point and digits at the front, and the rest; nothing where no point stands there.
fn fraction_at(text: &[u8]) -> Option<(u64, &[u8])>
    ensures found { IfSome result (λ cut. spec.fraction_at text.now ≡ Some (cut.0, cut.1.now)) }
    ensures none { IfNone result (spec.fraction_at text.now ≡ None) }
    ensures within { IfSome result (λ cut. cut.0 ≤ 100_000_000_000_000_000) }
{
    match text.split_first() {
        None => Some((0, text)),
        Some((first, behind)) => {
            if *first != b'.' {
                return Some((0, text));
            }
            fraction_of(behind)
        }
    }
}

// The nanoseconds of digits behind a point, and the rest.
fn fraction_of(text: &[u8]) -> Option<(u64, &[u8])>
    ensures found { IfSome result (λ cut. spec.fraction_at (46 ∷ text.now) ≡ Some (cut.0, cut.1.now)) }
    ensures none { IfNone result (spec.fraction_at (46 ∷ text.now) ≡ None) }
    ensures within { IfSome result (λ cut. cut.0 ≤ 100_000_000_000_000_000) }
{
    let (digits, rest) = digits_and_rest(text);
    if digits.is_empty() || digits.len() > 9 {
        return None;
    }
    match few_digits(digits) {
        None => None,
        Some(number) => Some((scaled(digits.len(), number), rest)),
    }
}

// The number of these digits, where it has at most nine.
fn few_digits(digits: &[u8]) -> Option<u64>
    ensures found { IfSome result (λ number. (number ≡ decimal_from 0 digits.now) × (number < 1_000_000_000)) }
    ensures none { IfNone result (1_000_000_000 ≤ decimal_from 0 digits.now) }
{
    match number_of(digits) {
        None => None,
        Some(number) => {
            if number < 1_000_000_000 {
                return Some(number);
            }
            None
        }
    }
}

// The nanoseconds of so many digits behind the point of a second.
fn scaled(count: usize, number: u64) -> u64
    requires some { 1 ≤ count }
    requires few { count ≤ 9 }
    requires below { number < 1_000_000_000 }
    ensures value { result ≡ spec.scaled count number }
    ensures within { result ≤ 100_000_000_000_000_000 }
{
    if count == 1 {
        return number * 100_000_000;
    }
    if count == 2 {
        return number * 10_000_000;
    }
    if count == 3 {
        return number * 1_000_000;
    }
    if count == 4 {
        return number * 100_000;
    }
    if count == 5 {
        return number * 10_000;
    }
    if count == 6 {
        return number * 1_000;
    }
    if count == 7 {
        return number * 100;
    }
    if count == 8 {
        return number * 10;
    }
    number
}

// The nanoseconds of the clock at the front, and the rest.
fn clock_at(text: &[u8]) -> Option<(u64, &[u8])>
    ensures found { IfSome result (λ cut. spec.clock_at text.now ≡ Some (cut.0, cut.1.now)) }
    ensures none { IfNone result (spec.clock_at text.now ≡ None) }
{
    match two_digits(0, text) {
        None => None,
        Some((hour, behind)) => match two_behind(b':', behind) {
            None => None,
            Some((minute, behind)) => match two_behind(b':', behind) {
                None => None,
                Some((second, behind)) => match fraction_at(behind) {
                    None => None,
                    Some((fraction, behind)) => match clock(hour, minute, second, fraction) {
                        None => None,
                        Some(clock) => Some((clock, behind)),
                    },
                },
            },
        },
    }
}

// The nanoseconds of a clock, where it shows a time.
fn clock(hour: u32, minute: u32, second: u32, fraction: u64) -> Option<u64>
    requires hour { hour ≤ 99 }
    requires minute { minute ≤ 99 }
    requires second { second ≤ 99 }
    requires fraction { fraction ≤ 100_000_000_000_000_000 }
    ensures { result ≡ (if nat_le hour 23 && (nat_le minute 59 && nat_le second 59) then Some (((hour * 60 + minute) * 60 + second) * 1000000000 + fraction) else None) }
{
    if hour <= 23 && minute <= 59 && second <= 59 {
        return Some(((hour * 60 + minute) * 60 + second) as u64 * 1_000_000_000 + fraction);
    }
    None
}

// The nanoseconds of a time of day behind a day, with nothing behind it.
fn time_of_day(text: &[u8]) -> Option<u64>
    ensures { result ≡ spec.time_of_day text.now }
{
    match text.split_first() {
        None => Some(0),
        Some((first, behind)) => {
            if *first == b' ' {
                return clock_alone(behind);
            }
            if *first == b'T' {
                return clock_with_zone(behind);
            }
            None
        }
    }
}

fn clock_alone(text: &[u8]) -> Option<u64>
    ensures { result ≡ spec.time_of_day (32 ∷ text.now) }
{
    match clock_at(text) {
        None => None,
        Some((clock, behind)) => {
            if behind.is_empty() {
                return Some(clock);
            }
            None
        }
    }
}

fn clock_with_zone(text: &[u8]) -> Option<u64>
    ensures { result ≡ spec.time_of_day (84 ∷ text.now) }
{
    match clock_at(text) {
        None => None,
        Some((clock, behind)) => match behind_byte(b'Z', behind) {
            None => None,
            Some(rest) => {
                if rest.is_empty() {
                    return Some(clock);
                }
                None
            }
        },
    }
}
