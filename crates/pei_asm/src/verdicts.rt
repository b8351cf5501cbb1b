//! The verdict on a line: what it means, or its fault.

ghost use Rattle.std.specs.Prelude.{◌≡◌, ◌≢◌, ◌<◌, None, Some, length, map, IfOk, IfErr, IfSome, false, true};
ghost use Rattle.asm_statements.specs.Lexemes.{placed_of};
ghost use Rattle.pei_asm.specs.Faults.{double_label, fault_of_trials, has_entry, is_defined_before, is_one_too_many, line_fault};
ghost use Rattle.asm_statements.specs.Statements.{body_of, fits_row, meaning_of, item_anywhere};
ghost use Rattle.asm_statements.specs.Mnemonics.{core_in};
ghost use Rattle.pei_asm.specs.Sources.{HasWellFormed, line_of};
ghost use Rattle.asm_statements.specs.Sources.{statement_of};
ghost use Rattle.pei_asm.specs.Stored.{IsStored, stored};
ghost use Rattle.pei_asm.specs.Trials.{trials_of_front, trials_of_statement};
ghost use Rattle.pei_asm.specs.declared.faults.AsmKind.TheVariants as kind;

use crate::faults::{AsmFault, AsmKind, out_of_memory};
use crate::lines::{Lines, SourceLine};
use asm_statements::{
    Lexeme, SourceStatement, bad_char, body_of, label_of, not_utf8, number_too_large,
    register_range, statement_in, tokens_of, unknown_name,
};
use std::alloc::Global;

/// The column of the first token, where its label was defined on an earlier line.
fn double_label(earlier: &Lines<'_>, tokens: &[Lexeme<'_>]) -> Option<u32>
    requires { IsStored earlier.now }
    ensures { result ≡ double_label (stored earlier.now) (map placed_of tokens.now) }
{
    let label = label_of(tokens)?;
    if earlier.defines(label) {
        Some(tokens.first()?.column)
    } else {
        None
    }
}

/// The first fault of the characters and names of a line.
fn fault_of_front(
    number: u32,
    earlier: &Lines<'_>,
    line: &[u8],
    tokens: &[Lexeme<'_>],
) -> Option<AsmFault>
    requires stored { IsStored earlier.now }
    requires short { length line.now < 4294967295 }
    ensures first { result ≡ fault_of_trials number (trials_of_front (stored earlier.now) line.now (map placed_of tokens.now) (body_of (map placed_of tokens.now))) }
    ensures known { IfSome result (λ f. f.kind ≢ kind.OutOfMemory) }
{
    let (kind, column) = if let Some(column) = not_utf8(line) {
        (AsmKind::NotUtf8, column)
    } else if let Some(column) = bad_char(tokens) {
        (AsmKind::BadChar, column)
    } else if let Some(column) = double_label(earlier, tokens) {
        (AsmKind::DoubleLabel, column)
    } else {
        (AsmKind::UnknownName, unknown_name(body_of(tokens))?)
    };
    Some(AsmFault {
        line: number,
        column,
        kind,
    })
}

/// Whether a statement gives an entry that an earlier line gave.
fn gives_again(earlier: &Lines<'_>, statement: &SourceStatement<'_>) -> bool
    requires stored { IsStored earlier.now }
    requires fits { fits_row (statement_of statement.now).operands (statement_of statement.now).row ≡ true }
    ensures { result ≡ has_entry (stored earlier.now) (core_in (item_anywhere (statement_of statement.now))) }
{
    match statement.entry() {
        Some(core) => earlier.has_entry(core),
        None => false,
    }
}

/// Whether a statement is an instruction for which there is no room.
fn is_one_too_many(earlier: &Lines<'_>, statement: &SourceStatement<'_>) -> bool
    requires { IsStored earlier.now }
    ensures { result ≡ is_one_too_many (stored earlier.now) (statement_of statement.now) }
{
    statement.mnemonic.is_instruction() && earlier.is_full()
}

/// The first fault of a statement whose name is in this column.
fn fault_of_statement(
    number: u32,
    earlier: &Lines<'_>,
    column: u32,
    statement: &SourceStatement<'_>,
) -> Option<AsmFault>
    requires stored { IsStored earlier.now }
    requires fits { fits_row (statement_of statement.now).operands (statement_of statement.now).row ≡ true }
    ensures first { result ≡ fault_of_trials number (trials_of_statement (stored earlier.now) (Some column) (statement_of statement.now)) }
    ensures known { IfSome result (λ f. f.kind ≢ kind.OutOfMemory) }
{
    let (kind, column) = if let Some(column) = number_too_large(statement.operands.as_slice()) {
        (AsmKind::NumberTooLarge, column)
    } else if let Some(column) = register_range(statement) {
        (AsmKind::RegisterRange, column)
    } else if is_one_too_many(earlier, statement) {
        (AsmKind::TooManyInstructions, column)
    } else if gives_again(earlier, statement) {
        (AsmKind::DoubleEntry, column)
    } else {
        return None;
    };
    Some(AsmFault {
        line: number,
        column,
        kind,
    })
}

/// What a line means that follows earlier ones, or its fault.
pub(crate) fn read_line<'a>(
    alloc: Global,
    number: u32,
    earlier: &Lines<'a>,
    line: &'a [u8],
) -> Result<SourceLine<'a>, AsmFault>
    requires stored { IsStored earlier.now }
    requires short { length line.now < 4294967295 }
    ensures fault { IfErr result (λ f. f.kind ≢ kind.OutOfMemory → line_fault (stored earlier.now) number line.now ≡ Some f) }
    ensures memory { IfErr result (λ f. f.kind ≡ kind.OutOfMemory → (f.line ≡ 0) × (f.column ≡ 0)) }
    ensures none { IfOk result (λ l. line_fault (stored earlier.now) number line.now ≡ None) }
    ensures means { IfOk result (λ l. meaning_of line.now ≡ Some (line_of l)) }
    ensures label { IfOk result (λ l. is_defined_before (stored earlier.now) (line_of l).label ≡ false) }
    ensures room { IfOk result (λ l. IfSome (line_of l).statement (λ s. is_one_too_many (stored earlier.now) s ≡ false)) }
    ensures well_formed { IfOk result HasWellFormed }
{
    let Ok(tokens) = tokens_of(alloc, line) else {
        return Err(out_of_memory());
    };
    if let Some(fault) = fault_of_front(number, earlier, line, tokens.as_slice()) {
        return Err(fault);
    }
    let label = label_of(tokens.as_slice());
    let body = body_of(tokens.as_slice());
    let Some((head, _)) = body.split_first() else {
        return Ok(SourceLine {
            label,
            statement: None,
        });
    };
    let Ok(statement) = statement_in(alloc, body) else {
        return Err(out_of_memory());
    };
    let Some(statement) = statement else {
        return Err(AsmFault {
            line: number,
            column: head.column,
            kind: AsmKind::WrongOperands,
        });
    };
    if let Some(fault) = fault_of_statement(number, earlier, head.column, &statement) {
        return Err(fault);
    }
    Ok(SourceLine {
        label,
        statement: Some(statement),
    })
}
