//! Statements, built from their tokens.

ghost use Rattle.std.specs.Prelude.{◌≡◌, ◌∷◌, ◌++◌, [], ◌<◌, ◌≤◌, List, true, false, codes, length, IfOk, IfErr};
ghost use Rattle.std.specs.Str.{byte};
ghost use Rattle.kernel_text.specs.declared.senses.Wanted.{Wanted};
ghost use Rattle.kernel_text.specs.declared.senses.Wanted.TheVariants as wanted;
ghost use Rattle.kernel_text.specs.declared.stop.Stop.TheVariants as stop;
ghost use Rattle.kernel_text.specs.Tokens.{word};
ghost use Rattle.kernel_text.specs.Trees.{done};
ghost use Rattle.kernel_text.specs.Grammar.{statements, are_statements};
ghost use Rattle.kernel_text.specs.Views.{with_statements};
ghost use Rattle.kernel_text.specs.Beginnings.{begins_statement};
ghost use Rattle.kernel_text.specs.Built.{tokens_in, first, continues, spelled_statement, is_statement, Reads, Sticks};

use crate::actions::{assignment, increment, minimum, print, store};
use crate::cursor::{closing_brace, first_of, mark, peek};
use crate::kinds::opens_bracket;
use crate::parts::{name, number};
use crate::stop::Stop;
use crate::tokens::Lexeme;
use crate::tree::{Stmt, Stmts};
use pei_io::Text;
use std::alloc::Global;

/// A loop, behind its keyword.
#[cycle(statements)]
fn repeat<'a, 't>(alloc: Global, tokens: &'t [Lexeme<'a>]) -> Result<(Stmt, &'t [Lexeme<'a>]), Stop>
    ensures spelled { IfOk result (λ r. word (codes "for") ∷ tokens_in tokens.now ≡ spelled_statement r.0 ++ tokens_in r.1.now) }
    ensures grammar { IfOk result (λ r. is_statement r.0 ≡ true) }
    ensures reads { IfOk result (λ r. Reads (wanted.Counter ∷ wanted.Mark (byte "<") ∷ wanted.TurnCount ∷ wanted.Mark (byte "{") ∷ wanted.Statements ∷ wanted.ClosingBrace ∷ []) (tokens_in tokens.now) (tokens_in r.1.now)) }
    ensures sticks { IfErr result (λ e. e ≡ stop.Misfit → Sticks (wanted.Counter ∷ wanted.Mark (byte "<") ∷ wanted.TurnCount ∷ wanted.Mark (byte "{") ∷ wanted.Statements ∷ wanted.ClosingBrace ∷ []) (tokens_in tokens.now)) }
    ensures shorter { IfOk result (λ r. length r.1.now < length tokens.now) }
{
    let (name, behind) = name(alloc, tokens)?;
    let count = mark(behind, b'<')?;
    let (turns, before) = number(count)?;
    let inside = mark(before, b'{')?;
    let (body, end) = statements(alloc, inside)?;
    let rest = closing_brace(end)?;
    Ok((Stmt::Repeat { name, turns, body }, rest))
}

/// Whether a statement stands here.
fn begins_statement(tokens: &[Lexeme<'_>]) -> bool
    ensures { result ≡ begins_statement (first (tokens_in tokens.now)) }
{
    match peek(tokens) {
        Some(t) => {
            t.is_name()
                || t.is_word("print")
                || t.is_word("inc")
                || t.is_word("min")
                || t.is_word("for")
        }
        None => false,
    }
}

/// A statement.
#[cycle(statements)]
fn statement<'a, 't>(
    alloc: Global,
    tokens: &'t [Lexeme<'a>],
) -> Result<(Stmt, &'t [Lexeme<'a>]), Stop>
    requires { begins_statement (first (tokens_in tokens.now)) ≡ true }
    ensures spelled { IfOk result (λ r. tokens_in tokens.now ≡ spelled_statement r.0 ++ tokens_in r.1.now) }
    ensures grammar { IfOk result (λ r. is_statement r.0 ≡ true) }
    ensures reads { IfOk result (λ r. (rest : List Wanted) → continues (tokens_in tokens.now) (wanted.Statements ∷ rest) ≡ continues (tokens_in r.1.now) (wanted.Statements ∷ rest)) }
    ensures sticks { IfErr result (λ e. e ≡ stop.Misfit → (rest : List Wanted) → continues (tokens_in tokens.now) (wanted.Statements ∷ rest) ≡ false) }
    ensures shorter { IfOk result (λ r. length r.1.now < length tokens.now) }
{
    let Some((t, rest)) = first_of(tokens) else {
        return Err(Stop::Misfit);
    };
    if t.is_name() {
        let name = Text::make(alloc, t.text())?;
        if opens_bracket(peek(rest)) {
            let (stored, behind) = store(alloc, name, rest)?;
            return Ok((stored, behind));
        }
        let (assigned, behind) = assignment(alloc, name, rest)?;
        return Ok((assigned, behind));
    }
    if t.is_word("print") {
        let (printed, behind) = print(alloc, rest)?;
        return Ok((printed, behind));
    }
    if t.is_word("inc") {
        let (incremented, behind) = increment(alloc, rest)?;
        return Ok((incremented, behind));
    }
    if t.is_word("min") {
        let (lowered, behind) = minimum(alloc, rest)?;
        return Ok((lowered, behind));
    }
    let (repeated, behind) = repeat(alloc, rest)?;
    Ok((repeated, behind))
}

/// Any number of statements, and the tokens behind them.
#[cycle(statements)]
pub(crate) fn statements<'a, 't>(
    alloc: Global,
    tokens: &'t [Lexeme<'a>],
) -> Result<(Stmts, &'t [Lexeme<'a>]), Stop>
    ensures spelled { IfOk result (λ r. tokens_in tokens.now ≡ statements (with_statements r.0.items.items done) ++ tokens_in r.1.now) }
    ensures grammar { IfOk result (λ r. are_statements (with_statements r.0.items.items done) ≡ true) }
    ensures reads { IfOk result (λ r. Reads (wanted.Statements ∷ []) (tokens_in tokens.now) (tokens_in r.1.now)) }
    ensures sticks { IfErr result (λ e. e ≡ stop.Misfit → Sticks (wanted.Statements ∷ []) (tokens_in tokens.now)) }
    ensures shorter { IfOk result (λ r. length r.1.now ≤ length tokens.now) }
{
    let mut items = Vec::new(alloc);
    if !begins_statement(tokens) {
        return Ok((Stmts { items }, tokens));
    }
    let (first, mut rest) = statement(alloc, tokens)?;
    items.push(first)?;
    while begins_statement(rest) {
        let (made, after) = statement(alloc, rest)?;
        items.push(made)?;
        rest = after;
    }
    Ok((Stmts { items }, rest))
}
