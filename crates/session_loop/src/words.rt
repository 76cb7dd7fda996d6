//! The words of a line.
ghost use Rattle.std.specs.Prelude.{◌≡◌, ◌≤◌, ◌<◌, ◌^◌, ◌↔◌, IfOk, IsTrue, codes, MatchOption, None, Some, length, slice_index, ⊤};
ghost use Rattle.std.specs.List.{list_any, list_all};
ghost use Rattle.std.specs.Str.{str_eq_ignore_ascii_case};
ghost use Rattle.std.specs.Str.Parse.{IsNumeral, digits_value};
ghost use Rattle.session_model.specs.Words.{IsWord, is_letter as is_letter_byte, is_letter_or_digit as is_word_byte, is_reserved as is_reserved_text, behind_word as behind_word_of, number_in as number_of, batch_count as batch_count_of, after_number as after_number_of, inserted_line as inserted_line_of};

use std::alloc::{AllocError, Global};
use std::str;
use tsdb_types::{Name, NameFault};

/// What stands behind INSERT and one space.
pub fn inserted_line(line: &[u8]) -> Option<&[u8]>
    ensures { MatchOption result (inserted_line_of line.now ≡ None) (λ rest. inserted_line_of line.now ≡ Some rest.now) }
{
    behind_word(line, b"INSERT ")
}

/// How many lines the BATCH takes that the line begins.
pub fn batch_count(line: &[u8]) -> Option<u32>
    ensures { MatchOption result (batch_count_of line.now ≡ None) (λ count. batch_count_of line.now ≡ Some count) }
{
    match behind_word(line, b"BATCH ") {
        None => None,
        Some(digits) => match number(digits, 9) {
            None => None,
            Some(count) => Some(count as u32),
        },
    }
}

/// Which number an AFTER asks for.
pub fn after_number(line: &[u8]) -> Option<u64>
    ensures { MatchOption result (after_number_of line.now ≡ None) (λ wanted. after_number_of line.now ≡ Some wanted) }
{
    match behind_word(line, b"AFTER ") {
        None => None,
        Some(digits) => number(digits, 19),
    }
}

/// What stands behind a word at the beginning, which may have small letters, capitals or both.
fn behind_word<'a>(text: &'a [u8], word: &[u8]) -> Option<&'a [u8]>
    ensures { MatchOption result (behind_word_of word.now text.now ≡ None) (λ rest. behind_word_of word.now text.now ≡ Some rest.now) }
{
    let (front, rest) = text.split_at(word.len().min(text.len()));
    if is_same(front, word) {
        Some(rest)
    } else {
        None
    }
}

/// The number that 1 to so many digits write.
fn number(digits: &[u8], most: usize) -> Option<u64>
    requires { most ≤ 19 }
    ensures value { MatchOption result (number_of most digits.now ≡ None) (λ number. number_of most digits.now ≡ Some number) }
    ensures small { MatchOption result ⊤ (λ number. number < 10 ^ most) }
{
    if digits.len() > most {
        return None;
    }
    natural(digits)
}

/// The number that 1 to 19 digits write.
fn natural(digits: &[u8]) -> Option<u64>
    requires { length digits.now ≤ 19 }
    ensures { MatchOption result (¬ (IsNumeral 10 digits.now)) (λ sum. IsNumeral 10 digits.now × (sum ≡ digits_value 10 digits.now)) }
{
    if digits.is_empty() {
        return None;
    }
    let mut sum: u64 = 0;
    for digit in digits {
        if !digit.is_ascii_digit() {
            return None;
        }
        sum = sum * 10 + u64::from(*digit - b'0');
    }
    Some(sum)
}

fn is_letter(byte: u8) -> bool
    ensures { result ≡ is_letter_byte byte }
{
    byte.is_ascii_alphabetic() || byte == b'_'
}

fn is_letter_or_digit(byte: u8) -> bool
    ensures { result ≡ is_word_byte byte }
{
    is_letter(byte) || byte.is_ascii_digit()
}

/// The words of the language, which are no names.
const RESERVED: [&[u8]; 22] = [
    b"SELECT", b"FROM", b"WHERE", b"AND", b"OR", b"GROUP", b"BY", b"ORDER", b"ASC", b"DESC",
    b"LIMIT", b"OFFSET", b"SLIMIT", b"SOFFSET", b"AS", b"SHOW", b"DELETE", b"DROP", b"WITH",
    b"TIME", b"TRUE", b"FALSE",
];

fn is_reserved(text: &[u8]) -> bool
    ensures { result ≡ is_reserved_text text.now }
{
    is_among(text, &RESERVED)
}

/// Whether the text is one of the words, in small letters, capitals or both.
fn is_among(text: &[u8], words: &[&[u8]]) -> bool
    ensures { result ≡ list_any (λ word. str_eq_ignore_ascii_case text.now word.now) words.now }
{
    words.iter().any(|word| is_same(text, word))
}

fn is_same(text: &[u8], word: &[u8]) -> bool
    ensures { result ≡ str_eq_ignore_ascii_case text.now word.now }
{
    text.eq_ignore_ascii_case(word)
}

fn begins_with_letter(text: &[u8]) -> bool
    ensures { result ≡ is_letter_byte (slice_index text.now 0) }
{
    match text {
        [] => false,
        [first, ..] => is_letter(*first),
    }
}

fn has_letters_and_digits(text: &[u8]) -> bool
    ensures { result ≡ list_all is_word_byte text.now }
{
    text.iter().all(|byte| is_letter_or_digit(*byte))
}

fn is_word(text: &[u8]) -> bool
    ensures { IsTrue result ↔ IsWord text.now }
{
    if text.len() > 255 {
        return false;
    }
    if !begins_with_letter(text) {
        return false;
    }
    if !has_letters_and_digits(text) {
        return false;
    }
    !is_reserved(text)
}

/// The name that the text is, if it is a word.
#[tactic(auto, using(crate::proofs::WordLemmas::word_laws))]
pub fn word(alloc: Global, text: &[u8]) -> Result<Option<Name>, AllocError>
    ensures { IfOk result (λ name. MatchOption name (¬ (IsWord text.now)) (λ name. (name ≡ text.now) × IsWord text.now)) }
{
    if !is_word(text) {
        return Ok(None);
    }
    let Ok(text) = str::from_utf8(text) else {
        return Ok(None);
    };
    match Name::new(alloc, text) {
        Ok(name) => Ok(Some(name)),
        Err(NameFault::Memory) => Err(AllocError),
        Err(NameFault::BadName) => Ok(None),
    }
}
