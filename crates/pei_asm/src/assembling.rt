//! The assembler: the program that a text spells.

ghost use Rattle.std.specs.Prelude.{◌≡◌, ◌≢◌, ◌<◌, Some, length, IfOk, IfErr};
ghost use Rattle.pei_asm.specs.Canonical.{IsPrintable};
ghost use Rattle.pei_asm.specs.Faults.{first_fault};
ghost use Rattle.pei_asm.specs.Meaning.{Spells};
ghost use Rattle.pei_asm.specs.declared.faults.AsmKind.TheVariants as kind;

use crate::building::program_of;
use crate::faults::{AsmFault, out_of_memory};
use crate::reading::read_lines;
use crate::unknown::unknown_label;
use pei_types::Program;
use std::alloc::Global;

/// The program that an assembly text spells, or the text's first fault.
///
/// The first line with a fault gives the fault, and within a line the kinds are tried in the order of [`AsmKind`].
/// Line and column are counted from 1, the column in bytes. `OutOfMemory` is told where memory ran out, with line and
/// column 0. A text spells at most one program, and it has a fault exactly where it spells none. The entries, branches
/// and jumps of a program that a text spells name places of it, the one behind the last instruction included.
pub fn assemble(alloc: Global, text: &[u8]) -> Result<Program, AsmFault>
    requires { length text.now < 4294967295 }
    ensures ok { IfOk result (λ p. Spells text.now p) }
    ensures printable { IfOk result IsPrintable }
    ensures fault { IfErr result (λ f. f.kind ≢ kind.OutOfMemory → first_fault text.now ≡ Some f) }
    ensures memory { IfErr result (λ f. f.kind ≡ kind.OutOfMemory → (f.line ≡ 0) × (f.column ≡ 0)) }
{
    let lines = match read_lines(alloc, text) {
        Ok(lines) => lines,
        Err(fault) => return Err(fault),
    };
    if let Some(fault) = unknown_label(&lines) {
        return Err(fault);
    }
    let Ok(program) = program_of(alloc, &lines) else {
        return Err(out_of_memory());
    };
    Ok(program)
}
