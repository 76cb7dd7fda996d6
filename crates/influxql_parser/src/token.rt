use std::marker::Model;

/// A mark that is a token of its own.
#[derive(Clone, Copy, PartialEq, Eq)]
pub enum Symbol {
    /// `(`
    Open,
    /// `)`
    Close,
    /// `,`
    Comma,
    /// `;`
    Semicolon,
    /// `=`
    Equal,
    /// `!=` or `<>`
    NotEqual,
    /// `<`
    Less,
    /// `<=`
    LessEqual,
    /// `>`
    Greater,
    /// `>=`
    GreaterEqual,
    /// `+`
    Plus,
    /// `-`
    Minus,
    /// `*`
    Star,
}

/// A token of a text. A contract sees the `Token` of `specs/Tokens.antt`.
#[derive(Drop)]
pub struct Token<'a> {
    form: Form<'a>,
}

// A word, what stands between quotes, and numbers and nanoseconds, which are `None` from 2^64 on.
#[derive(Clone, Copy)]
pub enum Form<'a> {
    Word(&'a [u8]),
    Quoted(&'a [u8]),
    Text(&'a [u8]),
    Number(Option<u64>),
    Duration(Option<u64>),
    Sign(Symbol),
}

impl<'a> Model for Token<'a> {
    ghost use Rattle.influxql_parser.specs.Tokens.{Token};
    ghost use Rattle.influxql_parser.specs.TokenViews.{token_of};

    ghost Value = { Token };

    ghost view = { λ t. token_of t.form };
}

impl<'a> Token<'a> {
    ghost use Rattle.std.specs.Prelude.{◌≡◌};
    ghost use Rattle.influxql_parser.specs.Tokens.{Token, Word, Sign};
    ghost use Rattle.influxql_parser.specs.TokenViews.{token_of};

    /// The token of this form.
    pub fn new(form: Form<'a>) -> Token<'a>
        ensures { result ≡ token_of form.entry }
    {
        Token { form }
    }

    /// Its form.
    pub fn form(&self) -> Form<'a>
        ensures { token_of result ≡ self.now }
    {
        self.form
    }
}
