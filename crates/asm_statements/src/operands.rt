//! Which row of the table the operands of a name fit.

ghost use Rattle.std.specs.Prelude.{◌≡◌, ◌<◌, ◌++◌, ◌∷◌, [], ℕ, List, true, IfSome, IfOk, OnOk, map, option_map, find, filter, nat_lt, length};
ghost use Rattle.std.specs.List.{list_all};
ghost use Rattle.std.specs.Str.{bytes_eq};
ghost use Rattle.asm_statements.specs.Lexemes.{placed_of, token_of};
ghost use Rattle.asm_statements.specs.Mnemonics.{one_core, suits, fits, value_of, row_of, rows_named, core_in};
ghost use Rattle.asm_statements.specs.Statements.{fits_row, is_comma, separated, statement_in, tokens_alone, item_anywhere};
ghost use Rattle.asm_statements.specs.Sources.{statement_of};
ghost use Rattle.asm_statements.specs.Rows.{shape_of};

use crate::mnemonics::{MNEMONICS, Mnemonic, Shape};
use crate::numbers::{core, is_amount, is_core};
use crate::registers::{is_label, register_of};
use crate::tokens::{Lexeme, Word};
use pei_types::OutOfMemory;
use std::alloc::Global;

/// Whether an operand is of the kind that a shape asks for.
fn suits(shape: Shape, word: Word<'_>) -> bool
    ensures { result ≡ suits (shape_of shape) (token_of word.entry) }
{
    match (shape, word) {
        (Shape::RegisterBelow(_), Word::Name(name)) => register_of(name).is_some(),
        (Shape::Number, Word::Number(_)) => true,
        (Shape::Amount, Word::Number(bytes)) => is_amount(bytes),
        (Shape::OneCore, Word::Number(bytes)) => is_core(bytes),
        (Shape::AllCores, Word::Star) => true,
        (Shape::Place, Word::Name(name)) => is_label(name),
        _ => false,
    }
}

/// Whether all operands are of one kind.
fn all_suit(shape: Shape, operands: &[Lexeme<'_>]) -> bool
    ensures { result ≡ list_all (suits (shape_of shape)) (tokens_alone (map placed_of operands.now)) }
{
    for operand in operands {
        if !suits(shape, operand.word) {
            return false;
        }
    }
    true
}

/// Whether the operands suit the shapes one by one. Where the row goes on, further ones suit the last shape.
fn fits(goes_on: bool, shapes: &[Shape], operands: &[Lexeme<'_>]) -> bool
    ensures { result ≡ fits goes_on (map shape_of shapes.now) (tokens_alone (map placed_of operands.now)) }
{
    let Some((shape, shapes)) = shapes.split_first() else {
        return operands.is_empty();
    };
    let Some((operand, more)) = operands.split_first() else {
        return false;
    };
    if !suits(*shape, operand.word) {
        return false;
    }
    if shapes.is_empty() {
        more.is_empty() || (goes_on && all_suit(*shape, more))
    } else {
        fits(goes_on, shapes, more)
    }
}

/// Whether some of these rows have this name.
fn any_named(rows: &[Mnemonic], name: &[u8]) -> bool
    ensures { result ≡ nat_lt 0 (length (filter (λ r. bytes_eq r.mnemonic name.now) (map row_of rows.now))) }
{
    for row in rows {
        if row.name() == name {
            return true;
        }
    }
    false
}

/// Whether the table has a row of this name.
#[tactic(auto, unfolding(crate::specs::Mnemonics::table))]
pub(crate) fn is_known(name: &[u8]) -> bool
    ensures { result ≡ nat_lt 0 (length (rows_named name.now)) }
{
    any_named(&MNEMONICS, name)
}

/// The first of these rows that has this name and that the operands fit.
fn first_fitting(rows: &[Mnemonic], name: &[u8], operands: &[Lexeme<'_>]) -> Option<Mnemonic>
    ensures { option_map row_of result ≡ find (fits_row (map placed_of operands.now)) (filter (λ r. bytes_eq r.mnemonic name.now) (map row_of rows.now)) }
{
    for row in rows {
        if row.name() == name && fits(row.goes_on(), row.shapes(), operands) {
            return Some(*row);
        }
    }
    None
}

/// The first row of a name that its operands fit.
#[tactic(auto, unfolding(crate::specs::Mnemonics::table))]
fn row_for(name: &[u8], operands: &[Lexeme<'_>]) -> Option<Mnemonic>
    ensures { option_map row_of result ≡ find (fits_row (map placed_of operands.now)) (rows_named name.now) }
{
    first_fitting(&MNEMONICS, name, operands)
}

/// Whether a token is a comma.
fn is_comma(word: Word<'_>) -> bool
    ensures { result ≡ is_comma (token_of word.entry) }
{
    matches!(word, Word::Comma)
}

/// The operands, where a comma stands between each two.
fn separated<'a>(
    alloc: Global,
    tokens: &[Lexeme<'a>],
) -> Result<Option<Vec<Lexeme<'a>>>, OutOfMemory>
    ensures { IfOk result (λ o. option_map (λ v. map placed_of v.items) o ≡ separated (map placed_of tokens.now)) }
{
    let mut operands = Vec::new(alloc);
    let Some((first, after)) = tokens.split_first() else {
        return Ok(Some(operands));
    };
    push(&mut operands, first)?;
    let mut rest = after;
    while let Some((between, behind)) = rest.split_first() {
        let Some((operand, more)) = behind.split_first() else {
            return Ok(None);
        };
        if !is_comma(between.word) {
            return Ok(None);
        }
        push(&mut operands, operand)?;
        rest = more;
    }
    Ok(Some(operands))
}

/// Adds an operand.
fn push<'a>(operands: &mut Vec<Lexeme<'a>>, operand: &Lexeme<'a>) -> Result<(), OutOfMemory>
    ensures { OnOk result (operands.new.items ≡ operands.old.items ++ operand.now ∷ []) }
{
    match operands.push(*operand) {
        Ok(()) => Ok(()),
        Err(_) => Err(OutOfMemory),
    }
}

/// A statement: a row of the table, and the operands.
#[derive(Drop)]
pub struct SourceStatement<'a> {
    pub mnemonic: Mnemonic,
    pub operands: Vec<Lexeme<'a>>,
}

impl SourceStatement<'_> {
    /// The core, 0 to 7, to which the statement gives an entry, or `Some(None)` where it gives one to all others.
    pub fn entry(&self) -> Option<Option<u8>>
        requires { fits_row (statement_of self.now).operands (statement_of self.now).row ≡ true }
        ensures core { result ≡ core_in (item_anywhere (statement_of self.now)) }
        ensures within { IfSome result (λ o. IfSome o (λ core. core < 8)) }
    {
        match self.mnemonic {
            Mnemonic::EntryOfCore => match self.operands.first() {
                Some(operand) => Some(Some(core_number(operand.word))),
                None => None,
            },
            Mnemonic::EntryOfAll => Some(None),
            _ => None,
        }
    }
}

/// The number of the core that an operand is.
fn core_number(word: Word<'_>) -> u8
    requires { suits one_core (token_of word) ≡ true }
    ensures core { (places : List ℕ → ℕ) → result ≡ value_of places (token_of word.entry) }
    ensures within { result < 8 }
{
    match word {
        Word::Number(bytes) => core(bytes),
        _ => 0,
    }
}

/// The statement that tokens are: a name, and operands with commas between them that fit one of its rows. It is that of
/// the first such row, or `None` where there is none. The only error is want of memory.
pub fn statement_in<'a>(
    alloc: Global,
    body: &[Lexeme<'a>],
) -> Result<Option<SourceStatement<'a>>, OutOfMemory>
    ensures { IfOk result (λ o. option_map statement_of o ≡ statement_in (map placed_of body.now)) }
{
    let Some((head, rest)) = body.split_first() else {
        return Ok(None);
    };
    let Word::Name(name) = head.word else {
        return Ok(None);
    };
    let Some(operands) = separated(alloc, rest)? else {
        return Ok(None);
    };
    match row_for(name, operands.as_slice()) {
        Some(mnemonic) => Ok(Some(SourceStatement { mnemonic, operands })),
        None => Ok(None),
    }
}
