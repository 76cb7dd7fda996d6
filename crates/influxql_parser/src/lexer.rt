ghost use Rattle.std.specs.Prelude.{◌≡◌, ◌≤◌, ◌<◌, ◌≢◌, IfSome, IfNone, Some, None, ◌∷◌, [], length, List, IfOk, true, false, ℕ};
ghost use Rattle.std.specs.Char.{is_ascii_digit};
ghost use Rattle.influxql_parser.specs.Numbers.{front_passing, behind_passing};
ghost use Rattle.influxql_parser.specs.Tokens as spec;
ghost use Rattle.influxql_parser.specs.Tokens.{Token, AreTokens, before_quote, from_quote, is_blank, is_of_word};

use crate::number::{digits_and_rest, duration_at, number_of};
use crate::token::{Form, Symbol, Token};
use std::alloc::{AllocError, Global};

// Cuts a text into its tokens, where it is made of some.
pub fn tokens_of(alloc: Global, text: &[u8]) -> Result<Option<Vec<Token<'_>>>, AllocError>
    ensures found { IfOk result (λ found. IfSome found (λ tokens. AreTokens tokens.items text.now)) }
    ensures none { IfOk result (λ found. IfNone found ((tokens : List spec.Token) → AreTokens tokens text.now → ⊥)) }
{
    let mut tokens = Vec::new(alloc);
    let mut left = text;
    while let Some(ahead) = past_blanks(left) {
        match token_at(ahead) {
            None => return Ok(None),
            Some((token, behind)) => {
                tokens.push(token)?;
                left = behind;
            }
        }
    }
    Ok(Some(tokens))
}

// What stands behind the blanks at the front, if anything does.
pub fn past_blanks(text: &[u8]) -> Option<&[u8]>
    ensures found { IfSome result (λ ahead. (ahead.now ≡ behind_passing is_blank text.now) × (ahead.now ≢ [])) }
    ensures none { IfNone result (behind_passing is_blank text.now ≡ []) }
    ensures shorter { IfSome result (λ ahead. length ahead.now ≤ length text.now) }
{
    let mut left = text;
    while let Some((first, behind)) = left.split_first() {
        if *first != b' ' && *first != b'\t' {
            return Some(left);
        }
        left = behind;
    }
    None
}

// The token at the front, and what stands behind it.
fn token_at(text: &[u8]) -> Option<(Token<'_>, &[u8])>
    ensures found { IfSome result (λ cut. spec.token_at text.now ≡ Some (cut.0, cut.1.now)) }
    ensures none { IfNone result (spec.token_at text.now ≡ None) }
    ensures shorter { IfSome result (λ cut. length cut.1.now < length text.now) }
{
    let (first, behind) = text.split_first()?;
    if begins_word(*first) {
        let (word, rest) = word_and_rest(text);
        return Some((Token::new(Form::Word(word)), rest));
    }
    if first.is_ascii_digit() {
        let (number, rest) = number_at(text);
        return Some((number, rest));
    }
    if *first == b'"' {
        let (raw, rest) = in_quotes(b'"', behind)?;
        return Some((Token::new(Form::Quoted(raw)), rest));
    }
    if *first == b'\'' {
        let (raw, rest) = in_quotes(b'\'', behind)?;
        return Some((Token::new(Form::Text(raw)), rest));
    }
    let (symbol, rest) = symbol_at(text)?;
    Some((Token::new(Form::Sign(symbol)), rest))
}

fn begins_word(byte: u8) -> bool
    ensures { result ≡ spec.begins_word byte }
{
    byte.is_ascii_alphabetic() || byte == b'_'
}

fn is_of_word(byte: u8) -> bool
    ensures { result ≡ spec.is_of_word byte }
{
    begins_word(byte) || byte.is_ascii_digit()
}

// The word at the front, and the rest.
pub fn word_and_rest(text: &[u8]) -> (&[u8], &[u8])
    ensures front { result.0.now ≡ front_passing is_of_word text.now }
    ensures behind { result.1.now ≡ behind_passing is_of_word text.now }
{
    for (at, byte) in text.iter().enumerate() {
        if !is_of_word(*byte) {
            return text.split_at(at);
        }
    }
    text.split_at(text.len())
}

// What stands before the closing quote, and what stands behind it.
fn in_quotes(quote: u8, text: &[u8]) -> Option<(&[u8], &[u8])>
    ensures found { IfSome result (λ cut. spec.in_quotes quote text.now ≡ Some (cut.0.now, cut.1.now)) }
    ensures none { IfNone result (spec.in_quotes quote text.now ≡ None) }
    ensures shorter { IfSome result (λ cut. length cut.1.now < length text.now) }
{
    let (raw, closing) = before_quote(quote, text);
    match closing.split_first() {
        None => None,
        Some((_quote, behind)) => Some((raw, behind)),
    }
}

// What stands before the next quote that isn't escaped, and the rest from that quote on.
fn before_quote(quote: u8, text: &[u8]) -> (&[u8], &[u8])
    ensures front { result.0.now ≡ spec.before_quote quote false text.now }
    ensures behind { result.1.now ≡ from_quote quote false text.now }
    ensures shorter { length result.1.now ≤ length text.now }
{
    let mut escaped = false;
    for (at, byte) in text.iter().enumerate() {
        if *byte == quote && !escaped {
            return text.split_at(at);
        }
        escaped = *byte == b'\\' && !escaped;
    }
    text.split_at(text.len())
}

// The number or the duration at the front of a text that begins with a digit.
fn number_at(text: &[u8]) -> (Token<'_>, &[u8])
    ensures number { (result.0, result.1.now) ≡ spec.number_at text.now }
    ensures shorter { (byte : ℕ) (behind : List ℕ) → text.now ≡ byte ∷ behind → is_ascii_digit byte ≡ true → length result.1.now < length text.now }
{
    match duration_at(text) {
        Some((nanoseconds, rest)) => (Token::new(Form::Duration(nanoseconds)), rest),
        None => {
            let (digits, rest) = digits_and_rest(text);
            (Token::new(Form::Number(number_of(digits))), rest)
        }
    }
}

// The longest symbol at the front, and the rest.
fn symbol_at(text: &[u8]) -> Option<(Symbol, &[u8])>
    ensures found { IfSome result (λ symbol. spec.symbol_at text.now ≡ Some (symbol.0, symbol.1.now)) }
    ensures none { IfNone result (spec.symbol_at text.now ≡ None) }
    ensures shorter { IfSome result (λ symbol. length symbol.1.now < length text.now) }
{
    match text.split_first() {
        None => None,
        Some((first, behind)) => symbol_from(*first, behind),
    }
}

fn symbol_from(first: u8, behind: &[u8]) -> Option<(Symbol, &[u8])>
    ensures found { IfSome result (λ symbol. spec.symbol_at (first ∷ behind.now) ≡ Some (symbol.0, symbol.1.now)) }
    ensures none { IfNone result (spec.symbol_at (first ∷ behind.now) ≡ None) }
    ensures shorter { IfSome result (λ symbol. length symbol.1.now ≤ length behind.now) }
{
    if let Some((second, rest)) = behind.split_first() {
        if let Some(symbol) = symbol_of_two(first, *second) {
            return Some((symbol, rest));
        }
    }
    match symbol_of_one(first) {
        None => None,
        Some(symbol) => Some((symbol, behind)),
    }
}

fn symbol_of_two(a: u8, b: u8) -> Option<Symbol>
    ensures { result ≡ spec.symbol_of_two a b }
{
    if a == b'!' && b == b'=' {
        Some(Symbol::NotEqual)
    } else if a == b'<' && b == b'>' {
        Some(Symbol::NotEqual)
    } else if a == b'<' && b == b'=' {
        Some(Symbol::LessEqual)
    } else if a == b'>' && b == b'=' {
        Some(Symbol::GreaterEqual)
    } else {
        None
    }
}

fn symbol_of_one(a: u8) -> Option<Symbol>
    ensures { result ≡ spec.symbol_of_one a }
{
    if a == b'(' {
        Some(Symbol::Open)
    } else if a == b')' {
        Some(Symbol::Close)
    } else if a == b',' {
        Some(Symbol::Comma)
    } else if a == b';' {
        Some(Symbol::Semicolon)
    } else if a == b'=' {
        Some(Symbol::Equal)
    } else if a == b'<' {
        Some(Symbol::Less)
    } else if a == b'>' {
        Some(Symbol::Greater)
    } else if a == b'+' {
        Some(Symbol::Plus)
    } else if a == b'-' {
        Some(Symbol::Minus)
    } else if a == b'*' {
        Some(Symbol::Star)
    } else {
        None
    }
}
