//! The program of some lines.

ghost use Rattle.std.specs.Prelude.{◌≡◌, ◌<◌, ◌≤◌, length, map, is_some, true, IfOk, IfSome, OnOk};
ghost use Rattle.asm_statements.specs.Lexemes.{placed_of, token_of};
ghost use Rattle.asm_statements.specs.Mnemonics.{is_number_in_range, value_of, instruction_in};
ghost use Rattle.pei_asm.specs.Places.{item_on, place_or_start, with_line};
ghost use Rattle.pei_asm.specs.Items.{with_item};
ghost use Rattle.pei_asm.specs.Sources.{HasWellFormed, IsWellFormed, line_of};
ghost use Rattle.asm_statements.specs.Sources.{statement_of};
ghost use Rattle.pei_asm.specs.Meaning.{program_of};
ghost use Rattle.asm_statements.specs.Statements.{item_of, tokens_alone};
ghost use Rattle.pei_asm.specs.Stored.{IsStored, stored};

use crate::items::add_item;
use crate::lines::{Lines, SourceLine};
use asm_statements::{SourceStatement, Word, register_of, value_of_number};
use pei_types::{OutOfMemory, Program};
use std::alloc::Global;

/// The value of an operand: of a register its number, of a label its place, of a number itself modulo 2^64.
fn value_of(lines: &Lines<'_>, word: Word<'_>) -> u64
    requires stored { IsStored lines.now }
    requires range { is_number_in_range (token_of word) ≡ true }
    ensures { result ≡ value_of (place_or_start (stored lines.now)) (token_of word.entry) }
{
    match word {
        Word::Name(name) => match register_of(name) {
            Some(register) => u64::from(register),
            None => u64::from(lines.place(name).unwrap_or(0)),
        },
        Word::Number(bytes) => value_of_number(bytes),
        _ => 0,
    }
}

/// The values of the operands of a statement.
fn values_of(
    alloc: Global,
    lines: &Lines<'_>,
    statement: &SourceStatement<'_>,
) -> Result<Vec<u64>, OutOfMemory>
    requires stored { IsStored lines.now }
    requires well_formed { IsWellFormed statement.now }
    ensures { IfOk result (λ v. v.items ≡ map (value_of (place_or_start (stored lines.now))) (tokens_alone (map placed_of statement.now.operands.items))) }
{
    let mut values = Vec::new(alloc);
    for operand in statement.operands.as_slice() {
        let Ok(()) = values.push(value_of(lines, operand.word)) else {
            return Err(OutOfMemory);
        };
    }
    Ok(values)
}

/// Adds what a statement adds to a program.
fn add_statement(
    alloc: Global,
    program: &mut Program,
    lines: &Lines<'_>,
    statement: &SourceStatement<'_>,
) -> Result<(), OutOfMemory>
    requires stored { IsStored lines.now }
    requires well_formed { IsWellFormed statement.now }
    requires room { is_some (instruction_in (item_of (place_or_start (stored lines.now)) (statement_of statement.now))) ≡ true → length program.old.instrs < 65536 }
    requires few { length program.old.lines < 4294967295 }
    ensures { OnOk result (program.new ≡ with_item program.old (item_of (place_or_start (stored lines.now)) (statement_of statement.now))) }
{
    let values = values_of(alloc, lines, statement)?;
    add_item(program, statement.mnemonic, values.as_slice())
}

/// Adds what a line adds to a program.
fn add_line(
    alloc: Global,
    program: &mut Program,
    lines: &Lines<'_>,
    line: &SourceLine<'_>,
) -> Result<(), OutOfMemory>
    requires stored { IsStored lines.now }
    requires well_formed { HasWellFormed line.now }
    requires room { IfSome (item_on (place_or_start (stored lines.now)) (line_of line.now)) (λ item. is_some (instruction_in item) ≡ true → length program.old.instrs < 65536) }
    requires few { length program.old.lines < 4294967295 }
    ensures { OnOk result (program.new ≡ with_line program.old (item_on (place_or_start (stored lines.now)) (line_of line.now))) }
{
    match &line.statement {
        Some(statement) => add_statement(alloc, program, lines, statement),
        None => Ok(()),
    }
}

/// The program of lines whose labels are all defined.
pub(crate) fn program_of(alloc: Global, lines: &Lines<'_>) -> Result<Program, OutOfMemory>
    requires stored { IsStored lines.now }
    requires count { length lines.now.lines.items ≤ 4294967295 }
    ensures { IfOk result (λ p. p ≡ program_of (stored lines.now)) }
{
    let mut program = Program::make(alloc);
    for line in lines.as_slice() {
        add_line(alloc, &mut program, lines, line)?;
    }
    Ok(program)
}
