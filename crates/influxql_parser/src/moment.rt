// Moments: what one begins with, and the durations that are added to it or taken from it.
ghost use Rattle.std.specs.Prelude.{◌≡◌, ℤ, ◌<◌, ◌≤◌, ◌∷◌, ◌&&◌, true, IfOk, IfSome, IfNone, Some, None, Option, length, drop, option_and_then};
ghost use Rattle.influxql_parser.specs.Tokens as token;
ghost use Rattle.influxql_parser.specs.GrammarWords as words;
ghost use Rattle.influxql_parser.specs.GrammarPieces as spec;
ghost use Rattle.influxql_parser.specs.GrammarPieces.{in_range};
ghost use Rattle.influxql_parser.specs.CivilTimes as civil;

use crate::amount::{duration, fitting, signed, signed_duration, sum, taken};
use crate::civil::civil_time;
use crate::keyword::symbol_in;
use crate::token::{Form, Symbol, Token};
use crate::word::{is_word, text_in};
use std::alloc::{AllocError, Global};

// A moment at the front, `None` where it is out of range, and the rest.
pub fn moment_at<'t, 'a>(
    alloc: Global,
    now: i64,
    tokens: &'t [Token<'a>],
) -> Result<Option<(Option<i64>, &'t [Token<'a>])>, AllocError>
    ensures found { IfOk result (λ found. IfSome found (λ cut. spec.moment_at now tokens.now ≡ Some (cut.0, cut.1.now))) }
    ensures none { IfOk result (λ found. IfNone found (spec.moment_at now tokens.now ≡ None)) }
    ensures shorter { IfOk result (λ found. IfSome found (λ cut. length cut.1.now < length tokens.now)) }
{
    match base_at(alloc, now, tokens)? {
        None => Ok(None),
        Some((base, behind)) => Ok(Some(sums_at(base, behind))),
    }
}

// What a moment begins with, and the rest.
fn base_at<'t, 'a>(
    alloc: Global,
    now: i64,
    tokens: &'t [Token<'a>],
) -> Result<Option<(Option<i64>, &'t [Token<'a>])>, AllocError>
    ensures found { IfOk result (λ found. IfSome found (λ cut. spec.base_at now tokens.now ≡ Some (cut.0, cut.1.now))) }
    ensures none { IfOk result (λ found. IfNone found (spec.base_at now tokens.now ≡ None)) }
    ensures shorter { IfOk result (λ found. IfSome found (λ cut. length cut.1.now < length tokens.now)) }
{
    match tokens.split_first() {
        None => Ok(None),
        Some((first, behind)) => match first.form() {
            Form::Number(number) => Ok(Some((signed(false, number), behind))),
            Form::Duration(nanoseconds) => Ok(Some((duration(nanoseconds), behind))),
            Form::Word(word) => Ok(now_at(now, word, behind)),
            Form::Text(raw) => match civil_in(alloc, raw)? {
                None => Ok(None),
                Some(moment) => Ok(Some((moment, behind))),
            },
            Form::Sign(symbol) => Ok(negative_at(symbol, behind)),
            Form::Quoted(_) => Ok(None),
        },
    }
}

// The civil moment that stands between quotes, `None` within where it is out of range.
fn civil_in(alloc: Global, raw: &[u8]) -> Result<Option<Option<i64>>, AllocError>
    ensures { IfOk result (λ moment. moment ≡ option_and_then (λ time. Some (in_range time)) (option_and_then civil.civil_time (words.text_in raw.now))) }
{
    match text_in(alloc, raw)? {
        None => Ok(None),
        Some(text) => match civil_time(text.as_str().as_bytes()) {
            None => Ok(None),
            Some(time) => Ok(Some(fitting(time))),
        },
    }
}

// What this symbol begins as a moment: digits or a duration behind a minus.
fn negative_at<'t, 'a>(
    symbol: Symbol,
    tokens: &'t [Token<'a>],
) -> Option<(Option<i64>, &'t [Token<'a>])>
    ensures found { IfSome result (λ cut. (now : ℤ) → spec.base_at now (token.Sign symbol ∷ tokens.now) ≡ Some (cut.0, cut.1.now)) }
    ensures none { IfNone result ((now : ℤ) → spec.base_at now (token.Sign symbol ∷ tokens.now) ≡ None) }
    ensures shorter { IfSome result (λ cut. length cut.1.now ≤ length tokens.now) }
{
    if is_minus(Some(symbol)) {
        return negative_amount_at(tokens);
    }
    None
}

// Digits or a duration behind a minus, and the rest.
fn negative_amount_at<'t, 'a>(tokens: &'t [Token<'a>]) -> Option<(Option<i64>, &'t [Token<'a>])>
    ensures found { IfSome result (λ cut. spec.amount_at true tokens.now ≡ Some (cut.0, cut.1.now)) }
    ensures none { IfNone result (spec.amount_at true tokens.now ≡ None) }
    ensures shorter { IfSome result (λ cut. length cut.1.now ≤ length tokens.now) }
{
    match tokens.split_first() {
        None => None,
        Some((first, behind)) => match first.form() {
            Form::Number(number) => Some((signed(true, number), behind)),
            Form::Duration(nanoseconds) => Some((signed_duration(true, nanoseconds), behind)),
            Form::Word(_) => None,
            Form::Quoted(_) => None,
            Form::Text(_) => None,
            Form::Sign(_) => None,
        },
    }
}

// The moment that `now()` is, of which the word stands before, and the rest.
fn now_at<'t, 'a>(
    now: i64,
    word: &[u8],
    tokens: &'t [Token<'a>],
) -> Option<(Option<i64>, &'t [Token<'a>])>
    ensures found { IfSome result (λ cut. spec.now_at now word.now tokens.now ≡ Some (cut.0, cut.1.now)) }
    ensures none { IfNone result (spec.now_at now word.now tokens.now ≡ None) }
    ensures shorter { IfSome result (λ cut. length cut.1.now ≤ length tokens.now) }
{
    match tokens.split_first() {
        None => None,
        Some((opening, behind)) => match behind.split_first() {
            None => None,
            Some((closing, rest)) => {
                if is_word(word, b"now") && are_parentheses(opening, closing) {
                    return Some((Some(now), rest));
                }
                None
            }
        },
    }
}

fn are_parentheses(opening: &Token<'_>, closing: &Token<'_>) -> bool
    ensures { result ≡ (spec.is_open (words.symbol_in opening.now) && spec.is_close (words.symbol_in closing.now)) }
{
    is_open(symbol_in(opening)) && is_close(symbol_in(closing))
}

pub fn is_open(symbol: Option<Symbol>) -> bool
    ensures { result ≡ spec.is_open symbol }
{
    matches!(symbol, Some(Symbol::Open))
}

pub fn is_close(symbol: Option<Symbol>) -> bool
    ensures { result ≡ spec.is_close symbol }
{
    matches!(symbol, Some(Symbol::Close))
}

pub fn is_minus(symbol: Option<Symbol>) -> bool
    ensures { result ≡ spec.is_minus symbol }
{
    matches!(symbol, Some(Symbol::Minus))
}

fn is_plus(symbol: Option<Symbol>) -> bool
    ensures { result ≡ spec.is_plus symbol }
{
    matches!(symbol, Some(Symbol::Plus))
}

// The sum with all durations at the front, and the rest.
fn sums_at<'t, 'a>(base: Option<i64>, tokens: &'t [Token<'a>]) -> (Option<i64>, &'t [Token<'a>])
    ensures sum { (result.0, result.1.now) ≡ spec.sums_at base tokens.now }
    ensures shorter { length result.1.now ≤ length tokens.now }
{
    let mut total = base;
    let mut at: usize = 0;
    while let Some(change) = change_at(behind_place(tokens, at)) {
        total = sum(total, change);
        at += 2;
    }
    (total, behind_place(tokens, at))
}

// The tokens from this place on.
pub fn behind_place<'t, 'a>(tokens: &'t [Token<'a>], at: usize) -> &'t [Token<'a>]
    requires { at ≤ length tokens.now }
    ensures { result.now ≡ drop at tokens.now }
{
    let (_, behind) = tokens.split_at(at);
    behind
}

// The duration behind a plus or a minus that two tokens at the front are.
fn change_at(tokens: &[Token<'_>]) -> Option<Option<i64>>
    ensures found { IfSome result (λ change. (total : Option ℤ) → spec.sums_at total tokens.now ≡ spec.sums_at (spec.sum_in_range total change) (drop 2 tokens.now)) }
    ensures none { IfNone result ((total : Option ℤ) → spec.sums_at total tokens.now ≡ (total, tokens.now)) }
    ensures longer { IfSome result (λ _. 2 ≤ length tokens.now) }
{
    match tokens.split_first() {
        None => None,
        Some((sign, behind)) => match behind.split_first() {
            None => None,
            Some((amount, _rest)) => change_in(sign, amount),
        },
    }
}

// The duration that the second token is, with the sign that the first one is.
fn change_in(sign: &Token<'_>, amount: &Token<'_>) -> Option<Option<i64>>
    ensures { result ≡ spec.change_in sign.now amount.now }
{
    if is_plus(symbol_in(sign)) {
        return added_in(amount);
    }
    if is_minus(symbol_in(sign)) {
        return taken_in(amount);
    }
    None
}

fn added_in(amount: &Token<'_>) -> Option<Option<i64>>
    ensures { result ≡ spec.duration_in amount.now }
{
    match amount.form() {
        Form::Duration(nanoseconds) => Some(duration(nanoseconds)),
        Form::Number(_) => None,
        Form::Word(_) => None,
        Form::Quoted(_) => None,
        Form::Text(_) => None,
        Form::Sign(_) => None,
    }
}

fn taken_in(amount: &Token<'_>) -> Option<Option<i64>>
    ensures { result ≡ option_and_then (λ nanoseconds. Some (spec.negated nanoseconds)) (spec.duration_in amount.now) }
{
    match amount.form() {
        Form::Duration(nanoseconds) => Some(taken(nanoseconds)),
        Form::Number(_) => None,
        Form::Word(_) => None,
        Form::Quoted(_) => None,
        Form::Text(_) => None,
        Form::Sign(_) => None,
    }
}
