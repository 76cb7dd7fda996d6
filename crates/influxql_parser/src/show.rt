ghost use Rattle.std.specs.Prelude.{◌≡◌, ℕ, List, Option, Some, None, [], ◌∷◌, IfOk, IfSome, IfNone, IsTrue, ◌↔◌};
ghost use Rattle.query_model.specs.declared.show.Show.{Show};
ghost use Rattle.query_model.specs.declared.show.Show.TheVariants as what;
ghost use Rattle.influxql_parser.specs.GrammarWords.{behind_keywords};
ghost use Rattle.influxql_parser.specs.GrammarShows as show;
ghost use Rattle.influxql_parser.specs.GrammarShows.{HasNone, IsOfKey, IsShow, IsNoShow, OneShow, IsShowStatement, IsFromName, IsListing};

use crate::keyword::{behind_keyword, behind_three, behind_two, symbol_in, without_semicolon};
use crate::lexer::tokens_of;
use crate::token::{Symbol, Token};
use crate::word::{name_in, only_name};
use query_model::Show;
use std::alloc::{AllocError, Global};
use tsdb_types::Name;

/// Reads a SHOW; none where the text is no SHOW.
pub fn read_show(alloc: Global, text: &str) -> Result<Option<Show>, AllocError>
    ensures found { IfOk result (λ found. IfSome found (IsShow text.now)) }
    ensures none { IfOk result (λ found. IfNone found (IsNoShow text.now)) }
{
    match tokens_of(alloc, text.as_bytes())? {
        None => Ok(None),
        Some(tokens) => show_in(alloc, without_semicolon(&tokens)),
    }
}

// The SHOW that these tokens are.
fn show_in(alloc: Global, tokens: &[Token<'_>]) -> Result<Option<Show>, AllocError>
    ensures found { IfOk result (λ found. IfSome found (IsShowStatement tokens.now)) }
    ensures none { IfOk result (λ found. IfNone found ((show : Show) → IsShowStatement tokens.now show → ⊥)) }
{
    if are_two(b"show", b"measurements", tokens) {
        return Ok(Some(Show::Measurements));
    }
    if are_two(b"show", b"files", tokens) {
        return Ok(Some(Show::Files));
    }
    if let Some(name) = listing_of_two(alloc, b"show", b"series", tokens)? {
        return Ok(Some(Show::Series(name)));
    }
    if let Some(name) = listing_of_three(alloc, b"show", b"tag", b"keys", tokens)? {
        return Ok(Some(Show::TagKeys(name)));
    }
    if let Some(name) = listing_of_three(alloc, b"show", b"field", b"keys", tokens)? {
        return Ok(Some(Show::FieldKeys(name)));
    }
    match tag_values(alloc, tokens)? {
        Some((name, key)) => Ok(Some(Show::TagValues(name, key))),
        None => Ok(None),
    }
}

// Whether the tokens are these two keywords and nothing else.
fn are_two(first: &[u8], second: &[u8], tokens: &[Token<'_>]) -> bool
    ensures { IsTrue result ↔ (behind_keywords (first.now ∷ second.now ∷ []) tokens.now ≡ Some []) }
{
    match behind_two(first, second, tokens) {
        None => false,
        Some(behind) => behind.is_empty(),
    }
}

// These two keywords, and FROM and a name or nothing behind them.
fn listing_of_two(
    alloc: Global,
    first: &[u8],
    second: &[u8],
    tokens: &[Token<'_>],
) -> Result<Option<Option<Name>>, AllocError>
    ensures found { IfOk result (λ found. IfSome found (λ name. IsListing (first.now ∷ second.now ∷ []) tokens.now name [])) }
    ensures none { IfOk result (λ found. IfNone found (HasNone (λ name. IsListing (first.now ∷ second.now ∷ []) tokens.now name []))) }
{
    match behind_two(first, second, tokens) {
        None => Ok(None),
        Some(behind) => from_name(alloc, behind),
    }
}

// These three keywords, and FROM and a name or nothing behind them.
fn listing_of_three(
    alloc: Global,
    first: &[u8],
    second: &[u8],
    third: &[u8],
    tokens: &[Token<'_>],
) -> Result<Option<Option<Name>>, AllocError>
    ensures found { IfOk result (λ found. IfSome found (λ name. IsListing (first.now ∷ second.now ∷ third.now ∷ []) tokens.now name [])) }
    ensures none { IfOk result (λ found. IfNone found (HasNone (λ name. IsListing (first.now ∷ second.now ∷ third.now ∷ []) tokens.now name []))) }
{
    match behind_three(first, second, third, tokens) {
        None => Ok(None),
        Some(behind) => from_name(alloc, behind),
    }
}

// FROM and a name, or nothing.
fn from_name(alloc: Global, tokens: &[Token<'_>]) -> Result<Option<Option<Name>>, AllocError>
    ensures found { IfOk result (λ found. IfSome found (λ name. IsFromName tokens.now name [])) }
    ensures none { IfOk result (λ found. IfNone found (HasNone (λ name. IsFromName tokens.now name []))) }
{
    if tokens.is_empty() {
        return Ok(Some(None));
    }
    match behind_keyword(b"from", tokens) {
        None => Ok(None),
        Some(behind) => match only_name(alloc, behind)? {
            None => Ok(None),
            Some(name) => Ok(Some(Some(name))),
        },
    }
}

// SHOW TAG VALUES, FROM and a name or nothing, and WITH KEY = and a name.
fn tag_values(
    alloc: Global,
    tokens: &[Token<'_>],
) -> Result<Option<(Option<Name>, Name)>, AllocError>
    ensures found { IfOk result (λ found. IfSome found (λ parts. IsShowStatement tokens.now (what.TagValues parts.0 parts.1))) }
    ensures none { IfOk result (λ found. IfNone found ((name : Option (List ℕ)) (key : List ℕ) → IsShowStatement tokens.now (what.TagValues name key) → ⊥)) }
{
    match behind_three(b"show", b"tag", b"values", tokens) {
        None => Ok(None),
        Some(behind) => values_behind(alloc, behind),
    }
}

fn values_behind(
    alloc: Global,
    tokens: &[Token<'_>],
) -> Result<Option<(Option<Name>, Name)>, AllocError>
    ensures found { IfOk result (λ found. IfSome found (λ parts. IsOfKey tokens.now parts.0 parts.1)) }
    ensures none { IfOk result (λ found. IfNone found ((name : Option (List ℕ)) (key : List ℕ) → IsOfKey tokens.now name key → ⊥)) }
{
    match behind_keyword(b"from", tokens) {
        None => match with_key(alloc, tokens)? {
            None => Ok(None),
            Some(key) => Ok(Some((None, key))),
        },
        Some(behind) => match behind.split_first() {
            None => Ok(None),
            Some((named, rest)) => name_with_key(alloc, named, rest),
        },
    }
}

fn name_with_key(
    alloc: Global,
    named: &Token<'_>,
    tokens: &[Token<'_>],
) -> Result<Option<(Option<Name>, Name)>, AllocError>
    ensures { IfOk result (λ found. found ≡ show.named_with_key named.now tokens.now) }
{
    match name_in(alloc, named)? {
        None => Ok(None),
        Some(name) => match with_key(alloc, tokens)? {
            None => Ok(None),
            Some(key) => Ok(Some((Some(name), key))),
        },
    }
}

// WITH KEY = and a name.
fn with_key(alloc: Global, tokens: &[Token<'_>]) -> Result<Option<Name>, AllocError>
    ensures { IfOk result (λ key. key ≡ show.key_in tokens.now) }
{
    match behind_two(b"with", b"key", tokens) {
        None => Ok(None),
        Some(behind) => match behind.split_first() {
            None => Ok(None),
            Some((equals, rest)) => {
                if is_equal(symbol_in(equals)) {
                    only_name(alloc, rest)
                } else {
                    Ok(None)
                }
            }
        },
    }
}

fn is_equal(symbol: Option<Symbol>) -> bool
    ensures { result ≡ show.is_equal symbol }
{
    matches!(symbol, Some(Symbol::Equal))
}

/// A text is one SHOW at most.
pub fn one_show()
    ensures { OneShow }
{}
