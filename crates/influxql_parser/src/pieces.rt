// The pieces of which a condition is made, one behind the other.
ghost use Rattle.std.specs.Prelude.{◌≡◌, ◌<◌, ◌≤◌, ◌∷◌, length, [], true, List, IfOk, IfSome, IfNone, Some, None, option_and_then};
ghost use Rattle.influxql_parser.specs.declared.piece.Piece.{Piece};
ghost use Rattle.influxql_parser.specs.Tokens as token;
ghost use Rattle.influxql_parser.specs.PieceParts as parts;
ghost use Rattle.query_model.specs.declared.condition.Literal.TheVariants as literal;
ghost use Rattle.influxql_parser.specs.GrammarPieces as spec;
ghost use Rattle.influxql_parser.specs.GrammarPieces.{ArePieces};

use crate::amount::{literal_of, signed};
use crate::keyword::symbol_in;
use crate::moment::{behind_place, is_close, is_minus, is_open, moment_at};
use crate::piece::{Piece, Test};
use crate::token::{Form, Symbol, Token};
use crate::word::{is_keyword, is_word, name_in, text_in};
use point_model::Join;
use query_model::{Literal, Op};
use std::alloc::{AllocError, Global};
use tsdb_types::Name;

// Cuts tokens into the pieces of a condition, where they are made of some.
pub fn pieces_of(
    alloc: Global,
    now: i64,
    tokens: &[Token<'_>],
) -> Result<Option<Vec<Piece>>, AllocError>
    ensures found { IfOk result (λ found. IfSome found (λ pieces. ArePieces now pieces.items tokens.now [])) }
    ensures none { IfOk result (λ found. IfNone found ((pieces : List Piece) → ArePieces now pieces tokens.now [] → ⊥)) }
{
    let mut pieces = Vec::new(alloc);
    let mut at: usize = 0;
    while at < tokens.len() {
        match piece_at(alloc, now, behind_place(tokens, at))? {
            None => return Ok(None),
            Some((piece, behind)) => {
                pieces.push(piece)?;
                at = tokens.len() - behind.len();
            }
        }
    }
    Ok(Some(pieces))
}

// The piece at the front, and the rest.
fn piece_at<'t, 'a>(
    alloc: Global,
    now: i64,
    tokens: &'t [Token<'a>],
) -> Result<Option<(Piece, &'t [Token<'a>])>, AllocError>
    ensures found { IfOk result (λ found. IfSome found (λ cut. spec.piece_at now tokens.now ≡ Some (cut.0, cut.1.now))) }
    ensures none { IfOk result (λ found. IfNone found (spec.piece_at now tokens.now ≡ None)) }
    ensures shorter { IfOk result (λ found. IfSome found (λ cut. length cut.1.now < length tokens.now)) }
{
    match tokens.split_first() {
        None => Ok(None),
        Some((first, behind)) => match mark_in(first) {
            Some(piece) => Ok(Some((piece, behind))),
            None => test_at(alloc, now, first, behind),
        },
    }
}

// The piece that the token is by itself: a parenthesis, AND or OR.
fn mark_in(token: &Token<'_>) -> Option<Piece>
    ensures { result ≡ parts.mark_in token.now }
{
    if is_open(symbol_in(token)) {
        return Some(Piece::Open);
    }
    if is_close(symbol_in(token)) {
        return Some(Piece::Close);
    }
    if is_keyword(b"and", token) {
        return Some(Piece::Join(Join::And));
    }
    if is_keyword(b"or", token) {
        return Some(Piece::Join(Join::Or));
    }
    None
}

// The comparison that begins with this token, and the rest.
fn test_at<'t, 'a>(
    alloc: Global,
    now: i64,
    first: &Token<'_>,
    tokens: &'t [Token<'a>],
) -> Result<Option<(Piece, &'t [Token<'a>])>, AllocError>
    ensures found { IfOk result (λ found. IfSome found (λ cut. parts.test_at now first.now tokens.now ≡ Some (cut.0, cut.1.now))) }
    ensures none { IfOk result (λ found. IfNone found (parts.test_at now first.now tokens.now ≡ None)) }
    ensures shorter { IfOk result (λ found. IfSome found (λ cut. length cut.1.now ≤ length tokens.now)) }
{
    if is_keyword(b"time", first) {
        return time_test_at(alloc, now, tokens);
    }
    match name_in(alloc, first)? {
        None => Ok(None),
        Some(name) => name_test_at(alloc, name, tokens),
    }
}

// What the time is compared by and a moment, and the rest.
fn time_test_at<'t, 'a>(
    alloc: Global,
    now: i64,
    tokens: &'t [Token<'a>],
) -> Result<Option<(Piece, &'t [Token<'a>])>, AllocError>
    ensures found { IfOk result (λ found. IfSome found (λ cut. spec.time_test_at now tokens.now ≡ Some (cut.0, cut.1.now))) }
    ensures none { IfOk result (λ found. IfNone found (spec.time_test_at now tokens.now ≡ None)) }
    ensures shorter { IfOk result (λ found. IfSome found (λ cut. length cut.1.now < length tokens.now)) }
{
    match tokens.split_first() {
        None => Ok(None),
        Some((compared, behind)) => match time_op_in(compared) {
            None => Ok(None),
            Some(op) => match moment_at(alloc, now, behind)? {
                None => Ok(None),
                Some((moment, rest)) => Ok(Some((Piece::Test(Test::Time { op, moment }), rest))),
            },
        },
    }
}

// What a name is compared by and a literal, and the rest.
fn name_test_at<'t, 'a>(
    alloc: Global,
    name: Name,
    tokens: &'t [Token<'a>],
) -> Result<Option<(Piece, &'t [Token<'a>])>, AllocError>
    ensures found { IfOk result (λ found. IfSome found (λ cut. spec.name_test_at name tokens.now ≡ Some (cut.0, cut.1.now))) }
    ensures none { IfOk result (λ found. IfNone found (spec.name_test_at name tokens.now ≡ None)) }
    ensures shorter { IfOk result (λ found. IfSome found (λ cut. length cut.1.now < length tokens.now)) }
{
    match tokens.split_first() {
        None => Ok(None),
        Some((compared, behind)) => match op_in(compared) {
            None => Ok(None),
            Some(op) => match literal_at(alloc, behind) {
                Err(error) => Err(error),
                Ok(None) => Ok(None),
                Ok(Some((literal, rest))) => {
                    Ok(Some((Piece::Test(Test::Compare { name, op, literal }), rest)))
                }
            },
        },
    }
}

fn op_in(token: &Token<'_>) -> Option<Op>
    ensures { result ≡ spec.op_in token.now }
{
    match symbol_in(token) {
        None => None,
        Some(symbol) => op_of(symbol),
    }
}

fn op_of(symbol: Symbol) -> Option<Op>
    ensures { result ≡ spec.op_of symbol }
{
    match symbol {
        Symbol::Equal => Some(Op::Eq),
        Symbol::NotEqual => Some(Op::Ne),
        Symbol::Less => Some(Op::Lt),
        Symbol::LessEqual => Some(Op::Le),
        Symbol::Greater => Some(Op::Gt),
        Symbol::GreaterEqual => Some(Op::Ge),
        Symbol::Open => None,
        Symbol::Close => None,
        Symbol::Comma => None,
        Symbol::Semicolon => None,
        Symbol::Plus => None,
        Symbol::Minus => None,
        Symbol::Star => None,
    }
}

// What the time is compared by.
fn time_op_in(token: &Token<'_>) -> Option<Op>
    ensures { result ≡ option_and_then spec.time_op (spec.op_in token.now) }
{
    match op_in(token) {
        None => None,
        Some(op) => time_op(op),
    }
}

fn time_op(op: Op) -> Option<Op>
    ensures { result ≡ spec.time_op op }
{
    match op {
        Op::Ne => None,
        Op::Eq => Some(op),
        Op::Lt => Some(op),
        Op::Le => Some(op),
        Op::Gt => Some(op),
        Op::Ge => Some(op),
    }
}

// A literal at the front, `None` where it is out of range, and the rest.
fn literal_at<'t, 'a>(
    alloc: Global,
    tokens: &'t [Token<'a>],
) -> Result<Option<(Option<Literal>, &'t [Token<'a>])>, AllocError>
    ensures found { IfOk result (λ found. IfSome found (λ cut. spec.literal_at tokens.now ≡ Some (cut.0, cut.1.now))) }
    ensures none { IfOk result (λ found. IfNone found (spec.literal_at tokens.now ≡ None)) }
    ensures shorter { IfOk result (λ found. IfSome found (λ cut. length cut.1.now < length tokens.now)) }
{
    match tokens.split_first() {
        None => Ok(None),
        Some((first, behind)) => match first.form() {
            Form::Text(raw) => match text_in(alloc, raw)? {
                None => Ok(None),
                Some(text) => Ok(Some((Some(Literal::Text(text)), behind))),
            },
            Form::Number(number) => Ok(Some((literal_of(number), behind))),
            Form::Word(word) => match truth_of(word) {
                None => Ok(None),
                Some(truth) => Ok(Some((Some(Literal::Bool(truth)), behind))),
            },
            Form::Sign(symbol) => Ok(negative_at(symbol, behind)),
            Form::Quoted(_) => Ok(None),
            Form::Duration(_) => Ok(None),
        },
    }
}

// TRUE or FALSE.
fn truth_of(word: &[u8]) -> Option<bool>
    ensures { result ≡ parts.truth_of word.now }
{
    if is_word(word, b"true") {
        return Some(true);
    }
    if is_word(word, b"false") {
        return Some(false);
    }
    None
}

// What this symbol begins as a literal: digits behind a minus; and the rest.
fn negative_at<'t, 'a>(
    symbol: Symbol,
    tokens: &'t [Token<'a>],
) -> Option<(Option<Literal>, &'t [Token<'a>])>
    ensures found { IfSome result (λ cut. spec.literal_at (token.Sign symbol ∷ tokens.now) ≡ Some (cut.0, cut.1.now)) }
    ensures none { IfNone result (spec.literal_at (token.Sign symbol ∷ tokens.now) ≡ None) }
    ensures shorter { IfSome result (λ cut. length cut.1.now ≤ length tokens.now) }
{
    match tokens.split_first() {
        None => None,
        Some((first, behind)) => match first.form() {
            Form::Number(number) => {
                if is_minus(Some(symbol)) {
                    return Some((negative(number), behind));
                }
                None
            }
            Form::Word(_) => None,
            Form::Quoted(_) => None,
            Form::Text(_) => None,
            Form::Duration(_) => None,
            Form::Sign(_) => None,
        },
    }
}

fn negative(number: Option<u64>) -> Option<Literal>
    ensures { result ≡ option_and_then (λ amount. Some (literal.Int amount)) (spec.signed true number) }
{
    match signed(true, number) {
        None => None,
        Some(amount) => Some(Literal::Int(amount)),
    }
}
