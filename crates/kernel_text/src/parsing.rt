//! The tree of a kernel's text.

ghost use Rattle.std.specs.Prelude.{◌≡◌, ◌≢◌, ◌<◌, ◌++◌, ◌∷◌, [], None, Some, true, false, length, IfOk, IfErr};
ghost use Rattle.kernel_text.specs.declared.faults.KernelKind.TheVariants as kind;
ghost use Rattle.kernel_text.specs.declared.stop.Stop.TheVariants as stop;
ghost use Rattle.kernel_text.specs.Faults.{first_fault};
ghost use Rattle.kernel_text.specs.Grammar.{kernel, is_kernel, Spells};
ghost use Rattle.kernel_text.specs.Readings.{a_kernel};
ghost use Rattle.kernel_text.specs.Sound.{IsSound};
ghost use Rattle.kernel_text.specs.Views.{kernel_of};
ghost use Rattle.kernel_text.specs.Built.{tokens_in, continues};

use crate::declarations::declarations;
use crate::faults::{KernelFault, out_of_memory};
use crate::reader::check;
use crate::statements::statements;
use crate::stop::Stop;
use crate::tokens::{Lexeme, read_tokens};
use crate::tree::KernelTree;
use std::alloc::Global;

/// The tree of all of these tokens.
fn build(alloc: Global, tokens: &[Lexeme<'_>]) -> Result<KernelTree, Stop>
    ensures spelled { IfOk result (λ k. tokens_in tokens.now ≡ kernel (kernel_of k)) }
    ensures grammar { IfOk result (λ k. is_kernel (kernel_of k) ≡ true) }
    ensures sticks { IfErr result (λ e. e ≡ stop.Misfit → continues (tokens_in tokens.now) a_kernel ≡ false) }
{
    let (decls, behind) = declarations(alloc, tokens)?;
    let (stmts, rest) = statements(alloc, behind)?;
    if !rest.is_empty() {
        return Err(Stop::Misfit);
    }
    Ok(KernelTree { decls, stmts })
}

/// The tree of a kernel's text, or the text's first fault.
///
/// Faults of characters and numbers come first, in the order of the text. Then the first token to which another kind
/// applies gives the fault, and the kinds are tried there in the order of [`KernelKind`](crate::KernelKind). Line and
/// column are counted from 1, the column in bytes. `OutOfMemory` is told where memory ran out, with line and column 0.
pub fn parse(alloc: Global, text: &[u8]) -> Result<KernelTree, KernelFault>
    requires { length text.now < 4294967295 }
    ensures ok { IfOk result (λ k. Spells text.now (kernel_of k)) }
    ensures faultless { IfOk result (λ _. first_fault text.now ≡ None) }
    ensures sound { IfOk result (λ k. IsSound (kernel_of k)) }
    ensures fault { IfErr result (λ f. f.kind ≢ kind.OutOfMemory → first_fault text.now ≡ Some f) }
    ensures memory { IfErr result (λ f. f.kind ≡ kind.OutOfMemory → (f.line ≡ 0) × (f.column ≡ 0)) }
{
    let tokens = read_tokens(alloc, text)?;
    check(alloc, &tokens)?;
    match build(alloc, tokens.items.as_slice()) {
        Ok(tree) => Ok(tree),
        Err(Stop::Memory) => Err(out_of_memory()),
        Err(Stop::Misfit) => unreachable!(),
    }
}
