//! Reading a command's files.

ghost use Rattle.std.specs.Prelude.{◌≡◌, ◌≤◌, None, IfOk, IfErr};
ghost use Rattle.pei_asm.specs.Canonical.{IsPrintable};
ghost use Rattle.pei_io.specs.Outside.{LeavesOthers};
ghost use Rattle.pei_cli.specs.Words.{HasBuiltInCores, machine_as};
ghost use Rattle.pei_cli.specs.Commands.{FromFile, file_of_machine};
ghost use Rattle.pei_cli.specs.Outcomes.{FailsToRead, IsRead, ReadsKernel, ReadsMachine, ReadsProgram, ReadsTrace, most_bytes};
ghost use Rattle.pei_cli.specs.Uses.{file_use};

use crate::faults::{Fault, kernel_fault, machine_fault, text_fault};
use crate::words::Machine;
use journal::{Journal, TraceFault, read_trace};
use kernel_lang::compile;
use machine_file::{built_in, read_machine};
use pei_asm::assemble;
use pei_io::{Bytes, Files, ReadEnd, Which, read_limited};
use pei_types::{MachineSpec, Program};
use std::alloc::Global;
use trace_laws::laws::traces_have_no_bad_line;

/// The most bytes of a file: of a trace 134,217,728, of the others 1,048,576.
fn most_bytes(which: Which) -> u32
    ensures { result ≡ most_bytes which }
{
    match which {
        Which::Program | Which::Machine | Which::Kernel => 1_048_576,
        Which::Trace => 134_217_728,
    }
}

/// Reads the program of a file of this name.
pub(crate) fn read_program<F: Files>(
    alloc: Global,
    files: &mut F,
    name: &str,
) -> Result<Program, Fault>
    requires { F.name files.old Which.Program ≡ None }
    ensures reads { ReadsProgram name.now (file_use F.held F.left F.name F.taken F.faults files.old files.new Which.Program) result }
    ensures printable { IfOk result IsPrintable }
    ensures rising { F.faults files.old Which.Program ≤ F.faults files.new Which.Program }
    ensures others { LeavesOthers F.held F.left F.name F.taken F.faults Which.Program files.old files.new }
{
    let text = read_file(alloc, files, Which::Program, name)?;
    match assemble(alloc, text.as_slice()) {
        Ok(program) => Ok(program),
        Err(fault) => Err(text_fault(fault)),
    }
}

/// Reads a kernel of a file of this name, and makes its program.
pub(crate) fn read_kernel<F: Files>(
    alloc: Global,
    files: &mut F,
    name: &str,
) -> Result<Program, Fault>
    requires { F.name files.old Which.Kernel ≡ None }
    ensures reads { ReadsKernel name.now (file_use F.held F.left F.name F.taken F.faults files.old files.new Which.Kernel) result }
    ensures printable { IfOk result IsPrintable }
    ensures rising { F.faults files.old Which.Kernel ≤ F.faults files.new Which.Kernel }
    ensures others { LeavesOthers F.held F.left F.name F.taken F.faults Which.Kernel files.old files.new }
{
    let text = read_file(alloc, files, Which::Kernel, name)?;
    match compile(alloc, text.as_slice()) {
        Ok(program) => Ok(program),
        Err(fault) => Err(kernel_fault(fault)),
    }
}

/// The machine of a run: a built-in one, or that of a file of this name.
pub(crate) fn find_machine<F: Files>(
    alloc: Global,
    files: &mut F,
    machine: Machine,
    name: &str,
) -> Result<MachineSpec, Fault>
    requires unopened { F.name files.old Which.Machine ≡ None }
    requires cores { HasBuiltInCores machine }
    ensures reads { ReadsMachine (machine_as name.now machine) (file_use F.held F.left F.name F.taken F.faults files.old files.new Which.Machine) result }
    ensures rising { F.faults files.old Which.Machine ≤ F.faults files.new Which.Machine }
    ensures others { LeavesOthers F.held F.left F.name F.taken F.faults Which.Machine files.old files.new }
    ensures unread { file_of_machine (machine_as name.now machine) ≡ None → files.new ≡ files.old }
{
    match machine {
        Machine::BuiltIn(cores) => Ok(built_in(cores)),
        Machine::File => read_machine_file(alloc, files, name),
    }
}

/// Reads the machine of a file of this name.
fn read_machine_file<F: Files>(
    alloc: Global,
    files: &mut F,
    name: &str,
) -> Result<MachineSpec, Fault>
    requires { F.name files.old Which.Machine ≡ None }
    ensures reads { ReadsMachine (FromFile name.now) (file_use F.held F.left F.name F.taken F.faults files.old files.new Which.Machine) result }
    ensures rising { F.faults files.old Which.Machine ≤ F.faults files.new Which.Machine }
    ensures others { LeavesOthers F.held F.left F.name F.taken F.faults Which.Machine files.old files.new }
{
    let bytes = read_file(alloc, files, Which::Machine, name)?;
    match read_machine(alloc, bytes.as_slice()) {
        Ok(machine) => Ok(machine),
        Err(fault) => Err(machine_fault(fault)),
    }
}

/// Reads the journal whose trace a file of this name holds.
pub(crate) fn read_trace_file<F: Files>(
    alloc: Global,
    files: &mut F,
    name: &str,
) -> Result<Journal, Fault>
    requires { F.name files.old Which.Trace ≡ None }
    ensures reads { ReadsTrace name.now (file_use F.held F.left F.name F.taken F.faults files.old files.new Which.Trace) result }
    ensures rising { F.faults files.old Which.Trace ≤ F.faults files.new Which.Trace }
    ensures others { LeavesOthers F.held F.left F.name F.taken F.faults Which.Trace files.old files.new }
{
    traces_have_no_bad_line();
    let bytes = read_file(alloc, files, Which::Trace, name)?;
    match read_trace(alloc, bytes.as_slice()) {
        Ok(journal) => Ok(journal),
        Err(TraceFault::Bad { line }) => Err(Fault::TraceBad { line }),
        Err(TraceFault::OutOfMemory) => Err(Fault::OutOfMemory),
    }
}

/// Reads a file of this name that was not opened before.
fn read_file<F: Files>(
    alloc: Global,
    files: &mut F,
    which: Which,
    name: &str,
) -> Result<Bytes, Fault>
    requires { F.name files.old which ≡ None }
    ensures read { IfOk result (λ bytes. IsRead which (file_use F.held F.left F.name F.taken F.faults files.old files.new which) name.now bytes) }
    ensures failed { IfErr result (λ f. FailsToRead which name.now (file_use F.held F.left F.name F.taken F.faults files.old files.new which) f) }
    ensures rising { F.faults files.old which ≤ F.faults files.new which }
    ensures others { LeavesOthers F.held F.left F.name F.taken F.faults which files.old files.new }
{
    match read_limited(alloc, files, which, name, most_bytes(which)) {
        Ok(bytes) => Ok(bytes),
        Err(ReadEnd::Failed) => Err(Fault::ReadFault { which }),
        Err(ReadEnd::TooLong) => Err(Fault::InputTooLong { which }),
        Err(ReadEnd::OutOfMemory) => Err(Fault::OutOfMemory),
    }
}
