//! Statements that are no loops, built from the tokens behind the word that they begin with.

ghost use Rattle.std.specs.Prelude.{◌≡◌, ◌∷◌, ◌++◌, [], ◌<◌, true, codes, length, IfOk, IfErr};
ghost use Rattle.std.specs.Str.{byte};
ghost use Rattle.kernel_text.specs.declared.senses.Wanted.TheVariants as wanted;
ghost use Rattle.kernel_text.specs.declared.stop.Stop.TheVariants as stop;
ghost use Rattle.kernel_text.specs.Tokens.{word, mark};
ghost use Rattle.kernel_text.specs.Grammar.{is_free, pair};
ghost use Rattle.kernel_text.specs.Readings.{index, value, comma, operands, ending};
ghost use Rattle.kernel_text.specs.Built.{tokens_in, spelled_statement, is_statement, Reads, Sticks};

use crate::cursor::{first_of, mark};
use crate::expressions::expression;
use crate::parts::{index, item, name, number, operand, value};
use crate::stop::Stop;
use crate::tokens::Lexeme;
use crate::tree::Stmt;
use pei_io::Text;
use std::alloc::Global;

/// `print`
pub(crate) fn print<'a, 't>(
    alloc: Global,
    tokens: &'t [Lexeme<'a>],
) -> Result<(Stmt, &'t [Lexeme<'a>]), Stop>
    ensures spelled { IfOk result (λ r. word (codes "print") ∷ tokens_in tokens.now ≡ spelled_statement r.0 ++ tokens_in r.1.now) }
    ensures grammar { IfOk result (λ r. is_statement r.0 ≡ true) }
    ensures reads { IfOk result (λ r. Reads (value ++ ending) (tokens_in tokens.now) (tokens_in r.1.now)) }
    ensures sticks { IfErr result (λ e. e ≡ stop.Misfit → Sticks (value ++ ending) (tokens_in tokens.now)) }
    ensures shorter { IfOk result (λ r. length r.1.now < length tokens.now) }
{
    let (value, behind) = expression(alloc, tokens)?;
    let rest = mark(behind, b';')?;
    Ok((Stmt::Print { value }, rest))
}

/// `inc`
pub(crate) fn increment<'a, 't>(
    alloc: Global,
    tokens: &'t [Lexeme<'a>],
) -> Result<(Stmt, &'t [Lexeme<'a>]), Stop>
    ensures spelled { IfOk result (λ r. word (codes "inc") ∷ tokens_in tokens.now ≡ spelled_statement r.0 ++ tokens_in r.1.now) }
    ensures grammar { IfOk result (λ r. is_statement r.0 ≡ true) }
    ensures reads { IfOk result (λ r. Reads (wanted.ArrayName ∷ index ++ ending) (tokens_in tokens.now) (tokens_in r.1.now)) }
    ensures sticks { IfErr result (λ e. e ≡ stop.Misfit → Sticks (wanted.ArrayName ∷ index ++ ending) (tokens_in tokens.now)) }
    ensures shorter { IfOk result (λ r. length r.1.now < length tokens.now) }
{
    let ((name, index), behind) = item(alloc, tokens)?;
    let rest = mark(behind, b';')?;
    Ok((Stmt::Inc { name, index }, rest))
}

/// `min`
pub(crate) fn minimum<'a, 't>(
    alloc: Global,
    tokens: &'t [Lexeme<'a>],
) -> Result<(Stmt, &'t [Lexeme<'a>]), Stop>
    ensures spelled { IfOk result (λ r. word (codes "min") ∷ tokens_in tokens.now ≡ spelled_statement r.0 ++ tokens_in r.1.now) }
    ensures grammar { IfOk result (λ r. is_statement r.0 ≡ true) }
    ensures reads { IfOk result (λ r. Reads (wanted.ArrayName ∷ index ++ comma ++ value ++ ending) (tokens_in tokens.now) (tokens_in r.1.now)) }
    ensures sticks { IfErr result (λ e. e ≡ stop.Misfit → Sticks (wanted.ArrayName ∷ index ++ comma ++ value ++ ending) (tokens_in tokens.now)) }
    ensures shorter { IfOk result (λ r. length r.1.now < length tokens.now) }
{
    let ((name, index), behind) = item(alloc, tokens)?;
    let (value, end) = value(alloc, behind, b',')?;
    let rest = mark(end, b';')?;
    Ok((Stmt::Min { name, index, value }, rest))
}

/// A store to a word of the array of this name.
pub(crate) fn store<'a, 't>(
    alloc: Global,
    name: Text,
    tokens: &'t [Lexeme<'a>],
) -> Result<(Stmt, &'t [Lexeme<'a>]), Stop>
    requires { is_free name ≡ true }
    ensures spelled { IfOk result (λ r. word name ∷ tokens_in tokens.now ≡ spelled_statement r.0 ++ tokens_in r.1.now) }
    ensures grammar { IfOk result (λ r. is_statement r.0 ≡ true) }
    ensures reads { IfOk result (λ r. Reads (index ++ wanted.Mark (byte "=") ∷ value ++ ending) (tokens_in tokens.now) (tokens_in r.1.now)) }
    ensures sticks { IfErr result (λ e. e ≡ stop.Misfit → Sticks (index ++ wanted.Mark (byte "=") ∷ value ++ ending) (tokens_in tokens.now)) }
    ensures shorter { IfOk result (λ r. length r.1.now < length tokens.now) }
{
    let (index, behind) = index(alloc, tokens)?;
    let (value, end) = value(alloc, behind, b'=')?;
    let rest = mark(end, b';')?;
    Ok((Stmt::Store { name, index, value }, rest))
}

/// A value for this variable.
fn assign<'a, 't>(
    alloc: Global,
    name: Text,
    tokens: &'t [Lexeme<'a>],
) -> Result<(Stmt, &'t [Lexeme<'a>]), Stop>
    requires { is_free name ≡ true }
    ensures spelled { IfOk result (λ r. word name ∷ mark (byte "=") ∷ tokens_in tokens.now ≡ spelled_statement r.0 ++ tokens_in r.1.now) }
    ensures grammar { IfOk result (λ r. is_statement r.0 ≡ true) }
    ensures reads { IfOk result (λ r. Reads (value ++ ending) (tokens_in tokens.now) (tokens_in r.1.now)) }
    ensures sticks { IfErr result (λ e. e ≡ stop.Misfit → Sticks (value ++ ending) (tokens_in tokens.now)) }
    ensures shorter { IfOk result (λ r. length r.1.now < length tokens.now) }
{
    let (value, behind) = expression(alloc, tokens)?;
    let rest = mark(behind, b';')?;
    Ok((Stmt::Assign { name, value }, rest))
}

/// `dot`
fn dot<'a, 't>(
    alloc: Global,
    first: Text,
    tokens: &'t [Lexeme<'a>],
) -> Result<(Stmt, &'t [Lexeme<'a>]), Stop>
    requires { is_free first ≡ true }
    ensures spelled { IfOk result (λ r. word first ∷ mark (byte "=") ∷ word (codes "dot") ∷ tokens_in tokens.now ≡ spelled_statement r.0 ++ tokens_in r.1.now) }
    ensures grammar { IfOk result (λ r. is_statement r.0 ≡ true) }
    ensures reads { IfOk result (λ r. Reads (wanted.TableName ∷ index ++ comma ++ operands ++ ending) (tokens_in tokens.now) (tokens_in r.1.now)) }
    ensures sticks { IfErr result (λ e. e ≡ stop.Misfit → Sticks (wanted.TableName ∷ index ++ comma ++ operands ++ ending) (tokens_in tokens.now)) }
    ensures shorter { IfOk result (λ r. length r.1.now < length tokens.now) }
{
    let ((name, index), behind) = item(alloc, tokens)?;
    let (a, behind_a) = operand(alloc, behind)?;
    let (b, behind_b) = operand(alloc, behind_a)?;
    let (c, behind_c) = operand(alloc, behind_b)?;
    let (d, end) = operand(alloc, behind_c)?;
    let rest = mark(end, b';')?;
    let dot = Stmt::Dot {
        first,
        name,
        index,
        a,
        b,
        c,
        d,
    };
    Ok((dot, rest))
}

/// `probe`
fn probe<'a, 't>(
    alloc: Global,
    first: Text,
    second: Text,
    tokens: &'t [Lexeme<'a>],
) -> Result<(Stmt, &'t [Lexeme<'a>]), Stop>
    requires first { is_free first ≡ true }
    requires second { is_free second ≡ true }
    ensures spelled { IfOk result (λ r. pair first second ++ mark (byte "=") ∷ word (codes "probe") ∷ tokens_in tokens.now ≡ spelled_statement r.0 ++ tokens_in r.1.now) }
    ensures grammar { IfOk result (λ r. is_statement r.0 ≡ true) }
    ensures reads { IfOk result (λ r. Reads (wanted.TableName ∷ index ++ comma ++ value ++ ending) (tokens_in tokens.now) (tokens_in r.1.now)) }
    ensures sticks { IfErr result (λ e. e ≡ stop.Misfit → Sticks (wanted.TableName ∷ index ++ comma ++ value ++ ending) (tokens_in tokens.now)) }
    ensures shorter { IfOk result (λ r. length r.1.now < length tokens.now) }
{
    let ((name, index), behind) = item(alloc, tokens)?;
    let (key, end) = value(alloc, behind, b',')?;
    let rest = mark(end, b';')?;
    let probe = Stmt::Probe {
        first,
        second,
        name,
        index,
        key,
    };
    Ok((probe, rest))
}

/// `hist`
fn hist<'a, 't>(
    alloc: Global,
    first: Text,
    second: Text,
    tokens: &'t [Lexeme<'a>],
) -> Result<(Stmt, &'t [Lexeme<'a>]), Stop>
    requires first { is_free first ≡ true }
    requires second { is_free second ≡ true }
    ensures spelled { IfOk result (λ r. pair first second ++ mark (byte "=") ∷ word (codes "hist") ∷ tokens_in tokens.now ≡ spelled_statement r.0 ++ tokens_in r.1.now) }
    ensures grammar { IfOk result (λ r. is_statement r.0 ≡ true) }
    ensures reads { IfOk result (λ r. Reads (wanted.TableName ∷ index ++ comma ++ wanted.Shift ∷ ending) (tokens_in tokens.now) (tokens_in r.1.now)) }
    ensures sticks { IfErr result (λ e. e ≡ stop.Misfit → Sticks (wanted.TableName ∷ index ++ comma ++ wanted.Shift ∷ ending) (tokens_in tokens.now)) }
    ensures shorter { IfOk result (λ r. length r.1.now < length tokens.now) }
{
    let ((name, index), behind) = item(alloc, tokens)?;
    let count = mark(behind, b',')?;
    let (shift, end) = number(count)?;
    let rest = mark(end, b';')?;
    let hist = Stmt::Hist {
        first,
        second,
        name,
        index,
        shift,
    };
    Ok((hist, rest))
}

/// What this variable is assigned.
fn one_word<'a, 't>(
    alloc: Global,
    name: Text,
    tokens: &'t [Lexeme<'a>],
) -> Result<(Stmt, &'t [Lexeme<'a>]), Stop>
    requires { is_free name ≡ true }
    ensures spelled { IfOk result (λ r. word name ∷ mark (byte "=") ∷ tokens_in tokens.now ≡ spelled_statement r.0 ++ tokens_in r.1.now) }
    ensures grammar { IfOk result (λ r. is_statement r.0 ≡ true) }
    ensures reads { IfOk result (λ r. Reads (wanted.OneWord ∷ []) (tokens_in tokens.now) (tokens_in r.1.now)) }
    ensures sticks { IfErr result (λ e. e ≡ stop.Misfit → Sticks (wanted.OneWord ∷ []) (tokens_in tokens.now)) }
    ensures shorter { IfOk result (λ r. length r.1.now < length tokens.now) }
{
    match first_of(tokens) {
        Some((t, behind)) if t.is_word("dot") => dot(alloc, name, behind),
        _ => assign(alloc, name, tokens),
    }
}

/// What these two variables are assigned.
fn two_words<'a, 't>(
    alloc: Global,
    first: Text,
    second: Text,
    tokens: &'t [Lexeme<'a>],
) -> Result<(Stmt, &'t [Lexeme<'a>]), Stop>
    requires first { is_free first ≡ true }
    requires second { is_free second ≡ true }
    ensures spelled { IfOk result (λ r. pair first second ++ mark (byte "=") ∷ tokens_in tokens.now ≡ spelled_statement r.0 ++ tokens_in r.1.now) }
    ensures grammar { IfOk result (λ r. is_statement r.0 ≡ true) }
    ensures reads { IfOk result (λ r. Reads (wanted.TwoWords ∷ []) (tokens_in tokens.now) (tokens_in r.1.now)) }
    ensures sticks { IfErr result (λ e. e ≡ stop.Misfit → Sticks (wanted.TwoWords ∷ []) (tokens_in tokens.now)) }
    ensures shorter { IfOk result (λ r. length r.1.now < length tokens.now) }
{
    let Some((t, rest)) = first_of(tokens) else {
        return Err(Stop::Misfit);
    };
    if t.is_word("probe") {
        return probe(alloc, first, second, rest);
    }
    if t.is_word("hist") {
        return hist(alloc, first, second, rest);
    }
    Err(Stop::Misfit)
}

/// What this variable and a second one are assigned, which stands first.
fn two_variables<'a, 't>(
    alloc: Global,
    first: Text,
    tokens: &'t [Lexeme<'a>],
) -> Result<(Stmt, &'t [Lexeme<'a>]), Stop>
    requires { is_free first ≡ true }
    ensures spelled { IfOk result (λ r. word first ∷ mark (byte ",") ∷ tokens_in tokens.now ≡ spelled_statement r.0 ++ tokens_in r.1.now) }
    ensures grammar { IfOk result (λ r. is_statement r.0 ≡ true) }
    ensures reads { IfOk result (λ r. Reads (wanted.SecondVariable ∷ wanted.Mark (byte "=") ∷ wanted.TwoWords ∷ []) (tokens_in tokens.now) (tokens_in r.1.now)) }
    ensures sticks { IfErr result (λ e. e ≡ stop.Misfit → Sticks (wanted.SecondVariable ∷ wanted.Mark (byte "=") ∷ wanted.TwoWords ∷ []) (tokens_in tokens.now)) }
    ensures shorter { IfOk result (λ r. length r.1.now < length tokens.now) }
{
    let (second, behind) = name(alloc, tokens)?;
    let words = mark(behind, b'=')?;
    let (made, rest) = two_words(alloc, first, second, words)?;
    Ok((made, rest))
}

/// What stands behind the variable that a statement begins with.
pub(crate) fn assignment<'a, 't>(
    alloc: Global,
    name: Text,
    tokens: &'t [Lexeme<'a>],
) -> Result<(Stmt, &'t [Lexeme<'a>]), Stop>
    requires { is_free name ≡ true }
    ensures spelled { IfOk result (λ r. word name ∷ tokens_in tokens.now ≡ spelled_statement r.0 ++ tokens_in r.1.now) }
    ensures grammar { IfOk result (λ r. is_statement r.0 ≡ true) }
    ensures reads { IfOk result (λ r. Reads (wanted.BehindVariable ∷ []) (tokens_in tokens.now) (tokens_in r.1.now)) }
    ensures sticks { IfErr result (λ e. e ≡ stop.Misfit → Sticks (wanted.BehindVariable ∷ []) (tokens_in tokens.now)) }
    ensures shorter { IfOk result (λ r. length r.1.now < length tokens.now) }
{
    let Some((t, rest)) = first_of(tokens) else {
        return Err(Stop::Misfit);
    };
    if t.is_mark(b'=') {
        return one_word(alloc, name, rest);
    }
    if t.is_mark(b',') {
        return two_variables(alloc, name, rest);
    }
    Err(Stop::Misfit)
}
