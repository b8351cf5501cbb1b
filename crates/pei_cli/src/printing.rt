//! Canonical texts and generated programs.

ghost use Rattle.std.specs.Prelude.{◌≡◌, ◌≢◌, ◌≤◌, None, IfErr};
ghost use Rattle.pei_asm.specs.Canonical.{IsPrintable};
ghost use Rattle.pei_io.specs.Outside.{LeavesOthers};
ghost use Rattle.pei_cli.specs.Jobs.{Compiles, Prints};
ghost use Rattle.pei_cli.specs.Outcomes.{PrintsProgram, Serves, WritesGenerated, text_end};
ghost use Rattle.pei_cli.specs.Uses.{file_use, sink_use};

use crate::ends::PlainEnd;
use crate::faults::Fault;
use crate::reading::{read_kernel, read_program};
use pei_asm::print;
use pei_io::{Failed, Files, Sink, Which, write_all};
use pei_types::Program;
use std::alloc::Global;
use workload_gen::generate;

/// Writes the canonical text of the program of a file of this name.
pub(crate) fn print_file<F: Files, K: Sink>(
    alloc: Global,
    name: &str,
    files: &mut F,
    sink: &mut K,
) -> Result<PlainEnd, Fault>
    requires { F.name files.old Which.Program ≡ None }
    ensures serves { Serves (Prints name.now) (file_use F.held F.left F.name F.taken F.faults files.old files.new) (sink_use K.written K.faults sink.old sink.new) result }
    ensures untouched { IfErr result (λ f. f ≢ Fault.WriteFault → sink.new ≡ sink.old) }
    ensures rising { F.faults files.old Which.Program ≤ F.faults files.new Which.Program }
    ensures sink_rising { K.faults sink.old ≤ K.faults sink.new }
    ensures others { LeavesOthers F.held F.left F.name F.taken F.faults Which.Program files.old files.new }
{
    let program = read_program(alloc, files, name)?;
    let status = print_program(alloc, &program, sink)?;
    Ok(PlainEnd::Text { status })
}

/// Writes the canonical text of the program of a file's kernel.
pub(crate) fn compile_file<F: Files, K: Sink>(
    alloc: Global,
    name: &str,
    files: &mut F,
    sink: &mut K,
) -> Result<PlainEnd, Fault>
    requires { F.name files.old Which.Kernel ≡ None }
    ensures serves { Serves (Compiles name.now) (file_use F.held F.left F.name F.taken F.faults files.old files.new) (sink_use K.written K.faults sink.old sink.new) result }
    ensures untouched { IfErr result (λ f. f ≢ Fault.WriteFault → sink.new ≡ sink.old) }
    ensures rising { F.faults files.old Which.Kernel ≤ F.faults files.new Which.Kernel }
    ensures sink_rising { K.faults sink.old ≤ K.faults sink.new }
    ensures others { LeavesOthers F.held F.left F.name F.taken F.faults Which.Kernel files.old files.new }
{
    let program = read_kernel(alloc, files, name)?;
    let status = print_program(alloc, &program, sink)?;
    Ok(PlainEnd::Kernel { status, program })
}

/// Writes the canonical text of a program, and answers the status.
fn print_program<K: Sink>(alloc: Global, program: &Program, sink: &mut K) -> Result<u8, Fault>
    requires { IsPrintable program.now }
    ensures prints { PrintsProgram program.now (sink_use K.written K.faults sink.old sink.new) (text_end result) }
    ensures untouched { IfErr result (λ f. f ≢ Fault.WriteFault → sink.new ≡ sink.old) }
    ensures rising { K.faults sink.old ≤ K.faults sink.new }
{
    let Ok(text) = print(alloc, program) else {
        return Err(Fault::OutOfMemory);
    };
    match write_all(sink, text.as_str().as_bytes()) {
        Ok(()) => Ok(0),
        Err(Failed) => Err(Fault::WriteFault),
    }
}

/// Writes the generated program of a number.
pub(crate) fn write_generated<K: Sink>(n: u64, sink: &mut K) -> Result<PlainEnd, Fault>
    ensures writes { WritesGenerated n (sink_use K.written K.faults sink.old sink.new) result }
    ensures untouched { IfErr result (λ f. f ≢ Fault.WriteFault → sink.new ≡ sink.old) }
    ensures rising { K.faults sink.old ≤ K.faults sink.new }
{
    match generate(n, sink) {
        Ok(()) => Ok(PlainEnd::Text { status: 0 }),
        Err(Failed) => Err(Fault::WriteFault),
    }
}
