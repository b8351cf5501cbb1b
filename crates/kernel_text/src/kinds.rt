//! Kinds of tokens.

ghost use Rattle.std.specs.Prelude.{◌≡◌, false, IfSome, IfNone};
ghost use Rattle.std.specs.Str.{bytes_eq};
ghost use Rattle.kernel_text.specs.Tokens.{is_word, is_mark, is_name, is_number, is_keyword, text_of, value_of};
ghost use Rattle.kernel_text.specs.Grammar.{operator};
ghost use Rattle.kernel_text.specs.Lexemes.{token_of};
ghost use Rattle.kernel_text.specs.Readings.{is_operator, opens_bracket};
ghost use Rattle.kernel_text.specs.Known.{opens, closes};
ghost use Rattle.kernel_text.specs.Senses.{next_token};

use crate::tokens::Token;
use crate::tree::Operator;

fn same(a: &str, b: &str) -> bool
    ensures { result ≡ bytes_eq a.now b.now }
{
    a == b
}

fn is_keyword(text: &str) -> bool
    ensures { result ≡ is_keyword text.now }
{
    same(text, "table")
        || same(text, "array")
        || same(text, "print")
        || same(text, "inc")
        || same(text, "min")
        || same(text, "probe")
        || same(text, "hist")
        || same(text, "dot")
        || same(text, "for")
}

impl<'a> Token<'a> {
    /// Whether it is this word.
    pub(crate) fn is_word(self, text: &str) -> bool
        ensures { result ≡ is_word text.now (token_of self.entry) }
    {
        match self {
            Token::Word(other) => same(text, other),
            _ => false,
        }
    }

    /// Whether it is this mark.
    pub(crate) fn is_mark(self, symbol: u8) -> bool
        ensures { result ≡ is_mark symbol (token_of self.entry) }
    {
        match self {
            Token::Mark(other) => symbol == other,
            _ => false,
        }
    }

    /// A word that is no keyword.
    pub(crate) fn is_name(self) -> bool
        ensures { result ≡ is_name (token_of self.entry) }
    {
        match self {
            Token::Word(text) => !is_keyword(text),
            _ => false,
        }
    }

    pub(crate) fn is_number(self) -> bool
        ensures { result ≡ is_number (token_of self.entry) }
    {
        matches!(self, Token::Number(_))
    }

    pub(crate) fn is_operator(self) -> bool
        ensures { result ≡ is_operator (token_of self.entry) }
    {
        self.is_mark(b'+')
            || self.is_mark(b'-')
            || self.is_mark(b'*')
            || self.is_mark(b'&')
            || self.is_mark(b'|')
            || self.is_mark(b'^')
    }

    /// Whether it opens a bracket, parenthesis or brace.
    pub(crate) fn opens(self) -> bool
        ensures { result ≡ opens (token_of self.entry) }
    {
        self.is_mark(b'[') || self.is_mark(b'(') || self.is_mark(b'{')
    }

    /// Whether it closes one.
    pub(crate) fn closes(self) -> bool
        ensures { result ≡ closes (token_of self.entry) }
    {
        self.is_mark(b']') || self.is_mark(b')') || self.is_mark(b'}')
    }

    /// The operator that it is.
    pub(crate) fn operator(self) -> Option<Operator>
        ensures some { IfSome result (λ o. token_of self.entry ≡ operator o) }
        ensures none { IfNone result (is_operator (token_of self.entry) ≡ false) }
    {
        match self {
            Token::Mark(b'+') => Some(Operator::Add),
            Token::Mark(b'-') => Some(Operator::Sub),
            Token::Mark(b'*') => Some(Operator::Mul),
            Token::Mark(b'&') => Some(Operator::And),
            Token::Mark(b'|') => Some(Operator::Or),
            Token::Mark(b'^') => Some(Operator::Xor),
            _ => None,
        }
    }

    /// The text of a word; no other token has any.
    pub(crate) fn text(self) -> &'a str
        ensures { result.now ≡ text_of (token_of self.entry) }
    {
        match self {
            Token::Word(text) => text,
            _ => "",
        }
    }

    /// The value of a number, and 0 for any other token.
    pub(crate) fn value(self) -> u64
        ensures { result ≡ value_of (token_of self.entry) }
    {
        match self {
            Token::Number(value) => value,
            _ => 0,
        }
    }
}

/// Whether a bracket is the next token.
pub(crate) fn opens_bracket(next: Option<Token<'_>>) -> bool
    ensures { result ≡ opens_bracket (next_token next.entry) }
{
    match next {
        Some(t) => t.is_mark(b'['),
        None => false,
    }
}
