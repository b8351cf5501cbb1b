//! Expressions, built from their tokens.

ghost use Rattle.std.specs.Prelude.{◌≡◌, ◌∷◌, ◌++◌, [], ◌<◌, ℕ, true, length, IfOk, IfErr};
ghost use Rattle.kernel_text.specs.declared.senses.Wanted.TheVariants as wanted;
ghost use Rattle.kernel_text.specs.declared.stop.Stop.TheVariants as stop;
ghost use Rattle.kernel_text.specs.Grammar.{expression, is_expression, is_term};
ghost use Rattle.kernel_text.specs.Views.{expression_of};
ghost use Rattle.kernel_text.specs.Built.{tokens_in, Reads, Sticks};

use crate::cursor::{first_of, mark, operator, peek};
use crate::kinds::opens_bracket;
use crate::stop::Stop;
use crate::tokens::Lexeme;
use crate::tree::Expr;
use pei_io::Text;
use std::alloc::Global;

/// A term, and the tokens behind it.
#[cycle(expression)]
fn term<'a, 't>(alloc: Global, tokens: &'t [Lexeme<'a>]) -> Result<(Expr, &'t [Lexeme<'a>]), Stop>
    ensures spelled { IfOk result (λ r. tokens_in tokens.now ≡ expression (expression_of r.0) ++ tokens_in r.1.now) }
    ensures grammar { IfOk result (λ r. is_expression (expression_of r.0) ≡ true) }
    ensures term { IfOk result (λ r. is_term (expression_of r.0) ≡ true) }
    ensures reads { IfOk result (λ r. (room : ℕ) → Reads (wanted.Term room ∷ []) (tokens_in tokens.now) (tokens_in r.1.now)) }
    ensures sticks { IfErr result (λ e. e ≡ stop.Misfit → (room : ℕ) → Sticks (wanted.Term room ∷ []) (tokens_in tokens.now)) }
    ensures shorter { IfOk result (λ r. length r.1.now < length tokens.now) }
{
    let Some((t, rest)) = first_of(tokens) else {
        return Err(Stop::Misfit);
    };
    if t.is_number() {
        return Ok((Expr::Num { value: t.value() }, rest));
    }
    if t.is_name() {
        let name = Text::make(alloc, t.text())?;
        if !opens_bracket(peek(rest)) {
            return Ok((Expr::Name { name }, rest));
        }
        let rest = mark(rest, b'[')?;
        let (index, rest) = expression(alloc, rest)?;
        let rest = mark(rest, b']')?;
        let index = Box::new(alloc, index)?;
        return Ok((Expr::Item { name, index }, rest));
    }
    if !t.is_mark(b'(') {
        return Err(Stop::Misfit);
    }
    let (inner, rest) = expression(alloc, rest)?;
    let rest = mark(rest, b')')?;
    let inner = Box::new(alloc, inner)?;
    Ok((Expr::Group { inner }, rest))
}

/// An expression, and the tokens behind it.
#[cycle(expression)]
pub(crate) fn expression<'a, 't>(
    alloc: Global,
    tokens: &'t [Lexeme<'a>],
) -> Result<(Expr, &'t [Lexeme<'a>]), Stop>
    ensures spelled { IfOk result (λ r. tokens_in tokens.now ≡ expression (expression_of r.0) ++ tokens_in r.1.now) }
    ensures grammar { IfOk result (λ r. is_expression (expression_of r.0) ≡ true) }
    ensures reads { IfOk result (λ r. (room : ℕ) → Reads (wanted.Term room ∷ wanted.MoreTerms room ∷ []) (tokens_in tokens.now) (tokens_in r.1.now)) }
    ensures sticks { IfErr result (λ e. e ≡ stop.Misfit → (room : ℕ) → Sticks (wanted.Term room ∷ wanted.MoreTerms room ∷ []) (tokens_in tokens.now)) }
    ensures shorter { IfOk result (λ r. length r.1.now < length tokens.now) }
{
    let (mut left, mut rest) = term(alloc, tokens)?;
    while let Some((op, after)) = operator(rest) {
        let (right, after) = term(alloc, after)?;
        left = Expr::Binary {
            op,
            left: Box::new(alloc, left)?,
            right: Box::new(alloc, right)?,
        };
        rest = after;
    }
    Ok((left, rest))
}
