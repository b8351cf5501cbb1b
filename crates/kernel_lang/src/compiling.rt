//! The program of a kernel's text.

ghost use Rattle.std.specs.Prelude.{◌≡◌, ◌≢◌, ◌<◌, None, Some, IsTrue, IfOk, IfErr, length};
ghost use Rattle.kernel_text.specs.declared.faults.KernelKind.TheVariants as kind;
ghost use Rattle.kernel_text.specs.Faults.{first_fault};
ghost use Rattle.kernel_text.specs.Grammar.{Spells, is_kernel};
ghost use Rattle.kernel_text.specs.Sound.{IsSound};
ghost use Rattle.kernel_text.specs.Trees.{Kernel};
ghost use Rattle.kernel_text.specs.Views.{kernel_of};
ghost use Rattle.kernel_lang.specs.Programs.{IsCompiled, program_of as program_of_kernel};

use crate::declarations::{declare_all, push_lines, push_sums};
use crate::emitter::Emitter;
use crate::homes::Names;
use kernel_text::{KernelFault, KernelKind, KernelTree, parse};
use pei_types::{CoreId, Instr, OutOfMemory, Program};
use std::alloc::Global;

/// The program of a kernel's tree.
fn program_of(alloc: Global, tree: &KernelTree) -> Result<Program, OutOfMemory>
    requires grammar { IsTrue (is_kernel (kernel_of tree.now)) }
    requires sound { IsSound (kernel_of tree.now) }
    ensures { IfOk result (λ p. p ≡ program_of_kernel (kernel_of tree.now)) }
{
    let mut names = Names::make(alloc);
    declare_all(&mut names, tree.decls.as_slice())?;
    names.set_all(tree.stmts.as_slice())?;
    let mut program = Program::make(alloc);
    program.set_entry(Some(CoreId(0)), 0);
    push_lines(&mut program, alloc, tree.decls.as_slice())?;
    push_sums(&mut program, tree.decls.as_slice())?;
    let mut emitter = Emitter {
        program,
        waiting: false,
    };
    emitter.statements(&names, tree.stmts.as_slice())?;
    emitter.fence()?;
    emitter.emit(Instr::Halt)?;
    let Emitter {
        program,
        waiting: _,
    } = emitter;
    Ok(program)
}

/// The program of a kernel's text, or the text's first fault, as `parse` tells it.
pub fn compile(alloc: Global, text: &[u8]) -> Result<Program, KernelFault>
    requires { length text.now < 4294967295 }
    ensures program { IfOk result (λ p. (k : Kernel) × Spells text.now k × IsSound k × IsCompiled k p) }
    ensures faultless { IfOk result (λ _. first_fault text.now ≡ None) }
    ensures fault { IfErr result (λ f. f.kind ≢ kind.OutOfMemory → first_fault text.now ≡ Some f) }
    ensures memory { IfErr result (λ f. f.kind ≡ kind.OutOfMemory → (f.line ≡ 0) × (f.column ≡ 0)) }
{
    let tree = parse(alloc, text)?;
    match program_of(alloc, &tree) {
        Ok(program) => Ok(program),
        Err(_) => Err(KernelFault {
            line: 0,
            column: 0,
            kind: KernelKind::OutOfMemory,
        }),
    }
}
