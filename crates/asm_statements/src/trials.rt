//! The parts of a line, and the faults of a line by itself: each is a test that tells the column of the first place where
//! the kind stands.

ghost use Rattle.std.specs.Prelude.{◌≡◌, ◌++◌, ◌+◌, ◌<◌, length, map, option_map, find, not, zip};
ghost use Rattle.asm_statements.specs.Lexemes.{placed_of, token_of};
ghost use Rattle.asm_statements.specs.Mnemonics.{is_number_in_range, is_register_in_range};
ghost use Rattle.asm_statements.specs.Statements.{body_of, label_of};
ghost use Rattle.asm_statements.specs.LineFaults.{bad_char, column_where, not_utf8, register_out_of_range, unknown_name};
ghost use Rattle.asm_statements.specs.Rows.{shape_of};
ghost use Rattle.asm_statements.specs.Sources.{statement_of};

use crate::mnemonics::Shape;
use crate::numbers::is_in_range;
use crate::operands::{SourceStatement, is_known};
use crate::registers::{is_label, register_of};
use crate::tokens::{Lexeme, Word};
use std::str::from_utf8;

/// The label at the front of a line: a name that can be one, with a colon behind it.
pub fn label_of<'a>(tokens: &[Lexeme<'a>]) -> Option<&'a [u8]>
    ensures { option_map (λ text. text.now) result ≡ label_of (map placed_of tokens.now) }
{
    let Some((first, rest)) = tokens.split_first() else {
        return None;
    };
    let Some((second, _)) = rest.split_first() else {
        return None;
    };
    match (first.word, second.word) {
        (Word::Name(name), Word::Colon) if is_label(name) => Some(name),
        _ => None,
    }
}

/// What stands behind the label, or all where there is no label.
pub fn body_of<'t, 'a>(tokens: &'t [Lexeme<'a>]) -> &'t [Lexeme<'a>]
    ensures { map placed_of result.now ≡ body_of (map placed_of tokens.now) }
{
    if label_of(tokens).is_some() {
        &tokens[2..]
    } else {
        tokens
    }
}

/// The column of the first byte that belongs to no UTF-8 character.
pub fn not_utf8(line: &[u8]) -> Option<u32>
    requires { length line.now < 4294967295 }
    ensures { result ≡ not_utf8 line.now }
{
    match from_utf8(line) {
        Ok(_) => None,
        Err(fault) => Some(fault.valid_up_to() as u32 + 1),
    }
}

/// The column of the first character that begins no token, or letter that stands right behind a number.
pub fn bad_char(tokens: &[Lexeme<'_>]) -> Option<u32>
    ensures { result ≡ bad_char (map placed_of tokens.now) }
{
    for token in tokens {
        if matches!(token.word, Word::Stray) {
            return Some(token.column);
        }
    }
    None
}

/// The column of the token in the place of the instruction, where it is no name of the table.
pub fn unknown_name(body: &[Lexeme<'_>]) -> Option<u32>
    ensures { result ≡ unknown_name (map placed_of body.now) }
{
    let Some((head, _)) = body.split_first() else {
        return None;
    };
    match head.word {
        Word::Name(name) if is_known(name) => None,
        _ => Some(head.column),
    }
}

/// Whether an operand is no number that is out of range.
fn is_number_in_range(word: Word<'_>) -> bool
    ensures { result ≡ is_number_in_range (token_of word.entry) }
{
    match word {
        Word::Number(bytes) => is_in_range(bytes),
        _ => true,
    }
}

/// The column of the first number that is below -2^63 or above 2^64 - 1.
pub fn number_too_large(operands: &[Lexeme<'_>]) -> Option<u32>
    ensures { result ≡ column_where (λ t. not (is_number_in_range t)) (map placed_of operands.now) }
{
    for operand in operands {
        if !is_number_in_range(operand.word) {
            return Some(operand.column);
        }
    }
    None
}

/// Whether an operand is no register that is out of the range of its shape.
fn is_register_in_range(shape: Shape, word: Word<'_>) -> bool
    ensures { result ≡ is_register_in_range (shape_of shape) (token_of word.entry) }
{
    match (shape, word) {
        (Shape::RegisterBelow(most), Word::Name(name)) => register_of(name).unwrap_or(0) < most,
        _ => true,
    }
}

/// The column of the first of these operands that is a register out of the range of its shape.
fn first_register_out_of_range(shapes: &[Shape], operands: &[Lexeme<'_>]) -> Option<u32>
    ensures { result ≡ option_map (λ pair. pair.1.column) (find (λ pair. not (is_register_in_range pair.0 pair.1.token)) (zip (map shape_of shapes.now) (map placed_of operands.now))) }
{
    let Some((shape, shapes)) = shapes.split_first() else {
        return None;
    };
    let Some((operand, operands)) = operands.split_first() else {
        return None;
    };
    if is_register_in_range(*shape, operand.word) {
        first_register_out_of_range(shapes, operands)
    } else {
        Some(operand.column)
    }
}

/// The column of the first register that has too few behind it for a reply of two words or for four operands.
pub fn register_range(statement: &SourceStatement<'_>) -> Option<u32>
    ensures { result ≡ register_out_of_range (statement_of statement.now) }
{
    first_register_out_of_range(statement.mnemonic.shapes(), statement.operands.as_slice())
}
