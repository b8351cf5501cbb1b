//! Parts of statements and declarations, built from their tokens.

ghost use Rattle.std.specs.Prelude.{◌≡◌, ◌∷◌, ◌++◌, [], ◌<◌, true, length, IfOk, IfErr};
ghost use Rattle.std.specs.Str.{byte};
ghost use Rattle.kernel_text.specs.declared.senses.Wanted.{Wanted};
ghost use Rattle.kernel_text.specs.declared.senses.Wanted.TheVariants as wanted;
ghost use Rattle.kernel_text.specs.declared.stop.Stop.TheVariants as stop;
ghost use Rattle.kernel_text.specs.Tokens.{word, number, mark};
ghost use Rattle.kernel_text.specs.Grammar.{at, comma, expression, in_brackets, is_expression, is_free};
ghost use Rattle.kernel_text.specs.Readings.{index, value};
ghost use Rattle.kernel_text.specs.Views.{expression_of};
ghost use Rattle.kernel_text.specs.Built.{tokens_in, wants_name, wants_number, Reads, Sticks};

use crate::cursor::{first_of, mark};
use crate::expressions::expression;
use crate::stop::Stop;
use crate::tokens::Lexeme;
use crate::tree::Expr;
use pei_io::Text;
use std::alloc::Global;

/// A name.
pub(crate) fn name<'a, 't>(
    alloc: Global,
    tokens: &'t [Lexeme<'a>],
) -> Result<(Text, &'t [Lexeme<'a>]), Stop>
    ensures spelled { IfOk result (λ r. tokens_in tokens.now ≡ word r.0 ∷ tokens_in r.1.now) }
    ensures grammar { IfOk result (λ r. is_free r.0 ≡ true) }
    ensures reads { IfOk result (λ r. (w : Wanted) → wants_name w ≡ true → Reads (w ∷ []) (tokens_in tokens.now) (tokens_in r.1.now)) }
    ensures sticks { IfErr result (λ e. e ≡ stop.Misfit → (w : Wanted) → wants_name w ≡ true → Sticks (w ∷ []) (tokens_in tokens.now)) }
    ensures shorter { IfOk result (λ r. length r.1.now < length tokens.now) }
{
    let Some((t, rest)) = first_of(tokens) else {
        return Err(Stop::Misfit);
    };
    if !t.is_name() {
        return Err(Stop::Misfit);
    }
    let name = Text::make(alloc, t.text())?;
    Ok((name, rest))
}

/// A number.
pub(crate) fn number<'a, 't>(tokens: &'t [Lexeme<'a>]) -> Result<(u64, &'t [Lexeme<'a>]), Stop>
    ensures spelled { IfOk result (λ r. tokens_in tokens.now ≡ number r.0 ∷ tokens_in r.1.now) }
    ensures reads { IfOk result (λ r. (w : Wanted) → wants_number w ≡ true → Reads (w ∷ []) (tokens_in tokens.now) (tokens_in r.1.now)) }
    ensures sticks { IfErr result (λ e. e ≡ stop.Misfit → (w : Wanted) → wants_number w ≡ true → Sticks (w ∷ []) (tokens_in tokens.now)) }
    ensures shorter { IfOk result (λ r. length r.1.now < length tokens.now) }
{
    let Some((t, rest)) = first_of(tokens) else {
        return Err(Stop::Misfit);
    };
    if !t.is_number() {
        return Err(Stop::Misfit);
    }
    Ok((t.value(), rest))
}

/// An index in brackets.
pub(crate) fn index<'a, 't>(
    alloc: Global,
    tokens: &'t [Lexeme<'a>],
) -> Result<(Expr, &'t [Lexeme<'a>]), Stop>
    ensures spelled { IfOk result (λ r. tokens_in tokens.now ≡ in_brackets (expression (expression_of r.0)) ++ tokens_in r.1.now) }
    ensures grammar { IfOk result (λ r. is_expression (expression_of r.0) ≡ true) }
    ensures reads { IfOk result (λ r. Reads index (tokens_in tokens.now) (tokens_in r.1.now)) }
    ensures sticks { IfErr result (λ e. e ≡ stop.Misfit → Sticks index (tokens_in tokens.now)) }
    ensures shorter { IfOk result (λ r. length r.1.now < length tokens.now) }
{
    let inside = mark(tokens, b'[')?;
    let (index, behind) = expression(alloc, inside)?;
    let rest = mark(behind, b']')?;
    Ok((index, rest))
}

/// A name with an index.
pub(crate) fn item<'a, 't>(
    alloc: Global,
    tokens: &'t [Lexeme<'a>],
) -> Result<((Text, Expr), &'t [Lexeme<'a>]), Stop>
    ensures spelled { IfOk result (λ r. tokens_in tokens.now ≡ at r.0.0 (expression_of r.0.1) ++ tokens_in r.1.now) }
    ensures name { IfOk result (λ r. is_free r.0.0 ≡ true) }
    ensures grammar { IfOk result (λ r. is_expression (expression_of r.0.1) ≡ true) }
    ensures reads { IfOk result (λ r. (w : Wanted) → wants_name w ≡ true → Reads (w ∷ index) (tokens_in tokens.now) (tokens_in r.1.now)) }
    ensures sticks { IfErr result (λ e. e ≡ stop.Misfit → (w : Wanted) → wants_name w ≡ true → Sticks (w ∷ index) (tokens_in tokens.now)) }
    ensures shorter { IfOk result (λ r. length r.1.now < length tokens.now) }
{
    let (name, behind) = name(alloc, tokens)?;
    let (index, rest) = index(alloc, behind)?;
    Ok(((name, index), rest))
}

/// An expression behind a mark.
pub(crate) fn value<'a, 't>(
    alloc: Global,
    tokens: &'t [Lexeme<'a>],
    before: u8,
) -> Result<(Expr, &'t [Lexeme<'a>]), Stop>
    ensures spelled { IfOk result (λ r. tokens_in tokens.now ≡ mark before ∷ expression (expression_of r.0) ++ tokens_in r.1.now) }
    ensures grammar { IfOk result (λ r. is_expression (expression_of r.0) ≡ true) }
    ensures reads { IfOk result (λ r. Reads (wanted.Mark before ∷ value) (tokens_in tokens.now) (tokens_in r.1.now)) }
    ensures sticks { IfErr result (λ e. e ≡ stop.Misfit → Sticks (wanted.Mark before ∷ value) (tokens_in tokens.now)) }
    ensures shorter { IfOk result (λ r. length r.1.now < length tokens.now) }
{
    let behind = mark(tokens, before)?;
    let (value, rest) = expression(alloc, behind)?;
    Ok((value, rest))
}

/// An operand behind a comma.
pub(crate) fn operand<'a, 't>(
    alloc: Global,
    tokens: &'t [Lexeme<'a>],
) -> Result<(Text, &'t [Lexeme<'a>]), Stop>
    ensures spelled { IfOk result (λ r. tokens_in tokens.now ≡ comma ++ word r.0 ∷ tokens_in r.1.now) }
    ensures grammar { IfOk result (λ r. is_free r.0 ≡ true) }
    ensures reads { IfOk result (λ r. Reads (wanted.Mark (byte ",") ∷ wanted.Operand ∷ []) (tokens_in tokens.now) (tokens_in r.1.now)) }
    ensures sticks { IfErr result (λ e. e ≡ stop.Misfit → Sticks (wanted.Mark (byte ",") ∷ wanted.Operand ∷ []) (tokens_in tokens.now)) }
    ensures shorter { IfOk result (λ r. length r.1.now < length tokens.now) }
{
    let behind = mark(tokens, b',')?;
    let (name, rest) = name(alloc, behind)?;
    Ok((name, rest))
}
