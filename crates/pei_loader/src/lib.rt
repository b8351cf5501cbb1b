//! Loading of programs: the image of memory and of entries that a run begins with, or the first fault.
#![tactic(auto)]

mod asks;
mod entries;
mod faults;
mod memory;
#[cfg(test)]
mod tests;

ghost use Rattle.std.specs.Prelude.{◌≡◌, None, IfOk, IfErr};
ghost use Rattle.pei_types.specs.Image.{IsImageOf, load_refusal};
ghost use Rattle.pei_loader.specs.Faults.{IsLoadRefusal};

use crate::asks::check_asks;
use crate::entries::set_entries;
use crate::memory::Memory;
pub use faults::LoadFault;
use pei_types::{Image, MachineSpec, Program};
use std::alloc::Global;

/// The image of a program for a machine: its initial words, zero where it gives none, and the entry of each core.
///
/// A fault is the program's first: its lines of initial words come first, in their order, each for the alignment of
/// its address and then word by word for the end of memory and for an earlier line with a word at that address; then
/// its asks, in their order; then the entries of the cores, from core 0 on. `OutOfMemory` says that the memory for
/// the image, or for a mark at each of its words, could not be had; no clause ties it to that, and it says nothing of the
/// program. The marks are given back. The time grows with the size of memory plus that of the program.
pub fn load(alloc: Global, program: &Program, spec: &MachineSpec) -> Result<Image, LoadFault>
    ensures ok { IfOk result
        (λ image. IsImageOf program.now spec.now image × (load_refusal program.now spec.now ≡ None)) }
    ensures refused { IfErr result (λ f. IsLoadRefusal program.now spec.now f) }
{
    let mut memory = Memory::make(alloc, spec)?;
    memory.place_lines(spec, program)?;
    check_asks(spec, program)?;
    let mut image = memory.into_image();
    set_entries(&mut image, spec, program)?;
    Ok(image)
}
