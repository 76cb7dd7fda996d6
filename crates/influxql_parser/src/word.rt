ghost use Rattle.std.specs.Prelude.{◌≡◌, ◌≤◌, ◌∷◌, ◌||◌, IfOk, IfSome, IfNone, Some, None, IsTrue, length, if◌then◌else◌};
ghost use Rattle.std.specs.List.{list_any};
ghost use Rattle.std.specs.Str.{str_eq_ignore_ascii_case};
ghost use Rattle.std.specs.String.{string_bytes};
ghost use Rattle.influxql_parser.specs.GrammarWords as spec;
ghost use Rattle.influxql_parser.specs.GrammarWords.{without_escapes, in_front, name_of_text, clause_words, limit_words, other_words};

use crate::token::{Form, Token};
use point_model::TagText;
use std::alloc::{AllocError, Global};
use tsdb_types::Name;

// Whether the word is this one, in small letters, capitals or both.
pub fn is_word(word: &[u8], other: &[u8]) -> bool
    ensures { result ≡ str_eq_ignore_ascii_case word.now other.now }
{
    word.eq_ignore_ascii_case(other)
}

// Whether the token is this keyword.
pub fn is_keyword(keyword: &[u8], token: &Token<'_>) -> bool
    ensures { result ≡ spec.is_keyword keyword.now token.now }
{
    match token.form() {
        Form::Word(word) => is_word(word, keyword),
        Form::Quoted(_) => false,
        Form::Text(_) => false,
        Form::Number(_) => false,
        Form::Duration(_) => false,
        Form::Sign(_) => false,
    }
}

fn is_reserved(word: &[u8]) -> bool
    ensures { result ≡ spec.is_reserved word.now }
{
    is_clause_word(word) || is_limit_word(word) || is_other_word(word)
}

fn is_clause_word(word: &[u8]) -> bool
    ensures { result ≡ list_any (str_eq_ignore_ascii_case word.now) clause_words }
{
    is_word(word, b"select")
        || is_word(word, b"from")
        || is_word(word, b"where")
        || is_word(word, b"and")
        || is_word(word, b"or")
        || is_word(word, b"group")
        || is_word(word, b"by")
        || is_word(word, b"order")
}

fn is_limit_word(word: &[u8]) -> bool
    ensures { result ≡ list_any (str_eq_ignore_ascii_case word.now) limit_words }
{
    is_word(word, b"asc")
        || is_word(word, b"desc")
        || is_word(word, b"limit")
        || is_word(word, b"offset")
        || is_word(word, b"slimit")
        || is_word(word, b"soffset")
        || is_word(word, b"as")
}

fn is_other_word(word: &[u8]) -> bool
    ensures { result ≡ list_any (str_eq_ignore_ascii_case word.now) other_words }
{
    is_word(word, b"show")
        || is_word(word, b"delete")
        || is_word(word, b"drop")
        || is_word(word, b"with")
        || is_word(word, b"time")
        || is_word(word, b"true")
        || is_word(word, b"false")
}

// The name that a token is.
pub fn name_in(alloc: Global, token: &Token<'_>) -> Result<Option<Name>, AllocError>
    ensures { IfOk result (λ name. name ≡ spec.name_in token.now) }
{
    match token.form() {
        Form::Word(word) => bare_name(alloc, word),
        Form::Quoted(raw) => quoted_name(alloc, raw),
        Form::Text(_) => Ok(None),
        Form::Number(_) => Ok(None),
        Form::Duration(_) => Ok(None),
        Form::Sign(_) => Ok(None),
    }
}

fn bare_name(alloc: Global, word: &[u8]) -> Result<Option<Name>, AllocError>
    ensures { IfOk result (λ name. name ≡ (if spec.is_reserved word.now then None else name_of_text word.now)) }
{
    if is_reserved(word) {
        return Ok(None);
    }
    let text = owned(alloc, word)?;
    name_of(text)
}

fn owned(alloc: Global, bytes: &[u8]) -> Result<Vec<u8>, AllocError>
    ensures { IfOk result (λ owned. owned.items ≡ bytes.now) }
{
    let mut owned = Vec::with_capacity(alloc, bytes.len())?;
    owned.extend_from_slice(bytes)?;
    Ok(owned)
}

fn quoted_name(alloc: Global, raw: &[u8]) -> Result<Option<Name>, AllocError>
    ensures { IfOk result (λ name. name ≡ spec.quoted_name raw.now) }
{
    match unescaped(alloc, raw)? {
        None => Ok(None),
        Some(text) => name_of(text),
    }
}

// The name that these bytes are, where they are one.
fn name_of(text: Vec<u8>) -> Result<Option<Name>, AllocError>
    ensures { IfOk result (λ name. name ≡ name_of_text text.items) }
{
    match String::from_utf8(text) {
        Err(_) => Ok(None),
        Ok(text) => named(text),
    }
}

fn named(text: String) -> Result<Option<Name>, AllocError>
    ensures { IfOk result (λ name. name ≡ (if spec.is_name (string_bytes text) then Some (string_bytes text) else None)) }
{
    if !is_name(text.as_bytes()) {
        return Ok(None);
    }
    let name = Name::from_string(text)?;
    Ok(Some(name))
}

fn is_name(text: &[u8]) -> bool
    ensures { result ≡ spec.is_name text.now }
{
    match text.last() {
        None => false,
        Some(last) => !text.contains(&b'\n') && *last != b'\\',
    }
}

// The name that the one token is.
pub fn only_name(alloc: Global, tokens: &[Token<'_>]) -> Result<Option<Name>, AllocError>
    ensures { IfOk result (λ name. name ≡ spec.only_name tokens.now) }
{
    match tokens.split_first() {
        None => Ok(None),
        Some((named, behind)) => {
            if behind.is_empty() {
                name_in(alloc, named)
            } else {
                Ok(None)
            }
        }
    }
}

// The text that stands between quotes.
pub fn text_in(alloc: Global, raw: &[u8]) -> Result<Option<TagText>, AllocError>
    ensures { IfOk result (λ text. text ≡ spec.text_in raw.now) }
{
    match unescaped(alloc, raw)? {
        None => Ok(None),
        Some(text) => text_of(text),
    }
}

fn text_of(text: Vec<u8>) -> Result<Option<TagText>, AllocError>
    ensures { IfOk result (λ found. found ≡ spec.text_of_bytes text.items) }
{
    match String::from_utf8(text) {
        Err(_) => Ok(None),
        Ok(text) => Ok(Some(TagText::new(text))),
    }
}

// The bytes without their escapes, where each backslash escapes something.
fn unescaped(alloc: Global, raw: &[u8]) -> Result<Option<Vec<u8>>, AllocError>
    ensures found { IfOk result (λ found. IfSome found (λ text. without_escapes raw.now ≡ Some text.items)) }
    ensures none { IfOk result (λ found. IfNone found (without_escapes raw.now ≡ None)) }
{
    let mut text = Vec::with_capacity(alloc, raw.len())?;
    let mut left = raw;
    while let Some((first, behind)) = left.split_first() {
        match byte_at(*first, behind) {
            None => return Ok(None),
            Some((byte, rest)) => {
                text.push(byte)?;
                left = rest;
            }
        }
    }
    Ok(Some(text))
}

// The byte that stands for the first one or for two, and what stands behind.
fn byte_at(first: u8, behind: &[u8]) -> Option<(u8, &[u8])>
    ensures found { IfSome result (λ at. without_escapes (first ∷ behind.now) ≡ in_front (Some at.0) (without_escapes at.1.now)) }
    ensures none { IfNone result (without_escapes (first ∷ behind.now) ≡ None) }
    ensures shorter { IfSome result (λ at. length at.1.now ≤ length behind.now) }
{
    if first != b'\\' {
        return Some((first, behind));
    }
    match behind.split_first() {
        None => None,
        Some((next, rest)) => match escape_of(*next) {
            None => None,
            Some(byte) => Some((byte, rest)),
        },
    }
}

fn escape_of(byte: u8) -> Option<u8>
    ensures { result ≡ spec.escape_of byte }
{
    if byte == b'"' || byte == b'\'' || byte == b'\\' {
        return Some(byte);
    }
    if byte == b'n' {
        return Some(b'\n');
    }
    None
}
