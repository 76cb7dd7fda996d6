ghost use Rattle.std.specs.Prelude.{◌≡◌, IfSome, IfNone, Some, None, ◌∷◌, []};
ghost use Rattle.influxql_parser.specs.GrammarWords.{behind_keywords};
ghost use Rattle.influxql_parser.specs.GrammarWords as spec;

use crate::token::{Form, Symbol, Token};
use crate::word::is_keyword;

// The symbol that a token is.
pub fn symbol_in(token: &Token<'_>) -> Option<Symbol>
    ensures { result ≡ spec.symbol_in token.now }
{
    match token.form() {
        Form::Sign(symbol) => Some(symbol),
        Form::Word(_) => None,
        Form::Quoted(_) => None,
        Form::Text(_) => None,
        Form::Number(_) => None,
        Form::Duration(_) => None,
    }
}

// What stands behind this keyword, where it stands first.
pub fn behind_keyword<'t, 'a>(keyword: &[u8], tokens: &'t [Token<'a>]) -> Option<&'t [Token<'a>]>
    ensures found { IfSome result (λ behind. spec.behind_keyword keyword.now tokens.now ≡ Some behind.now) }
    ensures none { IfNone result (spec.behind_keyword keyword.now tokens.now ≡ None) }
{
    match tokens.split_first() {
        None => None,
        Some((first, behind)) => {
            if is_keyword(keyword, first) {
                Some(behind)
            } else {
                None
            }
        }
    }
}

// What stands behind these two keywords.
pub fn behind_two<'t, 'a>(
    first: &[u8],
    second: &[u8],
    tokens: &'t [Token<'a>],
) -> Option<&'t [Token<'a>]>
    ensures found { IfSome result (λ behind. behind_keywords (first.now ∷ second.now ∷ []) tokens.now ≡ Some behind.now) }
    ensures none { IfNone result (behind_keywords (first.now ∷ second.now ∷ []) tokens.now ≡ None) }
{
    match behind_keyword(first, tokens) {
        None => None,
        Some(behind) => behind_keyword(second, behind),
    }
}

// What stands behind these three keywords.
pub fn behind_three<'t, 'a>(
    first: &[u8],
    second: &[u8],
    third: &[u8],
    tokens: &'t [Token<'a>],
) -> Option<&'t [Token<'a>]>
    ensures found { IfSome result (λ behind. behind_keywords (first.now ∷ second.now ∷ third.now ∷ []) tokens.now ≡ Some behind.now) }
    ensures none { IfNone result (behind_keywords (first.now ∷ second.now ∷ third.now ∷ []) tokens.now ≡ None) }
{
    match behind_keyword(first, tokens) {
        None => None,
        Some(behind) => behind_two(second, third, behind),
    }
}

// The tokens without a semicolon at their end.
pub fn without_semicolon<'t, 'a>(tokens: &'t [Token<'a>]) -> &'t [Token<'a>]
    ensures { result.now ≡ spec.without_semicolon tokens.now }
{
    match tokens.split_last() {
        None => tokens,
        Some((last, front)) => {
            if is_semicolon(symbol_in(last)) {
                return front;
            }
            tokens
        }
    }
}

fn is_semicolon(symbol: Option<Symbol>) -> bool
    ensures { result ≡ spec.is_semicolon symbol }
{
    matches!(symbol, Some(Symbol::Semicolon))
}
