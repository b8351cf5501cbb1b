//! Uses of labels that no line defines.

ghost use Rattle.std.specs.Prelude.{◌≡◌, ◌≢◌, ◌≤◌, length, map, option_map, find, not, IfSome};
ghost use Rattle.pei_asm.specs.Faults.{unknown_label};
ghost use Rattle.asm_statements.specs.Lexemes.{placed_of};
ghost use Rattle.pei_asm.specs.Sources.{line_of};
ghost use Rattle.pei_asm.specs.Meaning.{is_defined, labels_used};
ghost use Rattle.pei_asm.specs.Stored.{IsStored, stored};
ghost use Rattle.pei_asm.specs.Unknown.{is_undefined};
ghost use Rattle.pei_asm.specs.declared.faults.AsmKind.TheVariants as kind;

use crate::faults::{AsmFault, AsmKind};
use crate::lines::{Lines, SourceLine};
use asm_statements::{Lexeme, Word, is_label};

/// Whether an operand is a label that no line defines.
fn is_undefined(lines: &Lines<'_>, operand: &Lexeme<'_>) -> bool
    requires { IsStored lines.now }
    ensures { result ≡ is_undefined (stored lines.now) (placed_of operand.now) }
{
    match operand.word {
        Word::Name(name) => is_label(name) && lines.place(name).is_none(),
        _ => false,
    }
}

/// The column of the first of these operands that is a label that no line defines.
fn first_undefined(lines: &Lines<'_>, operands: &[Lexeme<'_>]) -> Option<u32>
    requires { IsStored lines.now }
    ensures { result ≡ option_map (λ t. t.column) (find (is_undefined (stored lines.now)) (map placed_of operands.now)) }
{
    for operand in operands {
        if is_undefined(lines, operand) {
            return Some(operand.column);
        }
    }
    None
}

/// The column of the first use on a line of a label that no line defines.
fn undefined_on(lines: &Lines<'_>, line: &SourceLine<'_>) -> Option<u32>
    requires { IsStored lines.now }
    ensures { result ≡ option_map (λ t. t.column) (find (λ t. not (is_defined (stored lines.now) t)) (labels_used (line_of line.now))) }
{
    match &line.statement {
        Some(statement) => first_undefined(lines, statement.operands.as_slice()),
        None => None,
    }
}

/// The first use of a label that no line defines.
pub(crate) fn unknown_label(lines: &Lines<'_>) -> Option<AsmFault>
    requires stored { IsStored lines.now }
    requires count { length lines.now.lines.items ≤ 4294967295 }
    ensures first { result ≡ unknown_label (stored lines.now) 1 (stored lines.now) }
    ensures known { IfSome result (λ f. f.kind ≢ kind.OutOfMemory) }
{
    let mut number = 0;
    for line in lines.as_slice() {
        number += 1;
        if let Some(column) = undefined_on(lines, line) {
            return Some(AsmFault {
                line: number,
                column,
                kind: AsmKind::UnknownLabel,
            });
        }
    }
    None
}
