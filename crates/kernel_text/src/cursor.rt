//! The next tokens.

ghost use Rattle.std.specs.Prelude.{◌≡◌, ◌∷◌, [], ◌<◌, true, length, List, ℕ, IfSome, IfNone, IfOk, IfErr};
ghost use Rattle.std.specs.Str.{byte};
ghost use Rattle.kernel_text.specs.declared.senses.Wanted.{Wanted};
ghost use Rattle.kernel_text.specs.declared.senses.Wanted.TheVariants as wanted;
ghost use Rattle.kernel_text.specs.Tokens.{mark, word, number, is_keyword};
ghost use Rattle.kernel_text.specs.Grammar.{operator};
ghost use Rattle.kernel_text.specs.Lexemes.{token_of};
ghost use Rattle.kernel_text.specs.Senses.{next_token};
ghost use Rattle.kernel_text.specs.Built.{tokens_in, begins_with_mark, first, continues, Reads, Sticks};

use crate::stop::Stop;
use crate::tokens::{Lexeme, Token};
use crate::tree::Operator;

/// The next token, and those behind it.
pub(crate) fn first_of<'a, 't>(tokens: &'t [Lexeme<'a>]) -> Option<(Token<'a>, &'t [Lexeme<'a>])>
    ensures some { IfSome result (λ r. tokens_in tokens.now ≡ token_of r.0 ∷ tokens_in r.1.now) }
    ensures none { IfNone result (tokens_in tokens.now ≡ []) }
    ensures shorter { IfSome result (λ r. length r.1.now < length tokens.now) }
{
    if tokens.is_empty() {
        return None;
    }
    Some((tokens[0].token, &tokens[1..]))
}

/// The next token.
pub(crate) fn peek<'a>(tokens: &[Lexeme<'a>]) -> Option<Token<'a>>
    ensures { next_token result ≡ first (tokens_in tokens.now) }
{
    if tokens.is_empty() {
        return None;
    }
    Some(tokens[0].token)
}

/// The tokens behind this mark.
pub(crate) fn mark<'a, 't>(tokens: &'t [Lexeme<'a>], symbol: u8) -> Result<&'t [Lexeme<'a>], Stop>
    ensures spelled { IfOk result (λ r. tokens_in tokens.now ≡ mark symbol ∷ tokens_in r.now) }
    ensures reads { IfOk result (λ r. Reads (wanted.Mark symbol ∷ []) (tokens_in tokens.now) (tokens_in r.now)) }
    ensures sticks { IfErr result (λ e. Sticks (wanted.Mark symbol ∷ []) (tokens_in tokens.now)) }
    ensures shorter { IfOk result (λ r. length r.now < length tokens.now) }
{
    match first_of(tokens) {
        Some((t, rest)) if t.is_mark(symbol) => Ok(rest),
        _ => Err(Stop::Misfit),
    }
}

/// The operator that stands first, if one does, and the tokens behind it.
pub(crate) fn operator<'a, 't>(tokens: &'t [Lexeme<'a>]) -> Option<(Operator, &'t [Lexeme<'a>])>
    ensures spelled { IfSome result (λ r. tokens_in tokens.now ≡ operator r.0 ∷ tokens_in r.1.now) }
    ensures none { IfNone result ((room : ℕ) (rest : List Wanted) → continues (tokens_in tokens.now) (wanted.MoreTerms room ∷ rest) ≡ continues (tokens_in tokens.now) rest) }
    ensures shorter { IfSome result (λ r. length r.1.now < length tokens.now) }
{
    let (t, rest) = first_of(tokens)?;
    let operator = t.operator()?;
    Some((operator, rest))
}

/// The tokens behind the brace that ends a loop.
pub(crate) fn closing_brace<'a, 't>(tokens: &'t [Lexeme<'a>]) -> Result<&'t [Lexeme<'a>], Stop>
    ensures spelled { IfOk result (λ r. tokens_in tokens.now ≡ mark (byte "}") ∷ tokens_in r.now) }
    ensures reads { IfOk result (λ r. Reads (wanted.ClosingBrace ∷ []) (tokens_in tokens.now) (tokens_in r.now)) }
    ensures sticks { IfErr result (λ e. Sticks (wanted.ClosingBrace ∷ []) (tokens_in tokens.now)) }
    ensures shorter { IfOk result (λ r. length r.now < length tokens.now) }
{
    match first_of(tokens) {
        Some((t, rest)) if t.is_mark(b'}') => Ok(rest),
        _ => Err(Stop::Misfit),
    }
}

/// Whether this mark stands first.
pub(crate) fn is_mark(tokens: &[Lexeme<'_>], symbol: u8) -> bool
    ensures { result ≡ begins_with_mark symbol (tokens_in tokens.now) }
{
    match peek(tokens) {
        Some(t) => t.is_mark(symbol),
        None => false,
    }
}
