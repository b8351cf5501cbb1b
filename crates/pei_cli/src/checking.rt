//! Checks of traces.

ghost use Rattle.std.specs.Prelude.{◌≡◌, ◌≢◌, ◌≤◌, ◌*◌, length, None, IfErr};
ghost use Rattle.pei_io.specs.declared.files.Which.{Which};
ghost use Rattle.pei_io.specs.Outside.{LeavesOthers};
ghost use Rattle.pei_cli.specs.Words.{HasBuiltInCores, checks_as};
ghost use Rattle.pei_cli.specs.Jobs.{file_of};
ghost use Rattle.pei_cli.specs.Outcomes.{Judges, LoadsAndJudges, Serves};
ghost use Rattle.pei_cli.specs.Uses.{TouchesOnly, file_use, sink_use};

use crate::ends::PlainEnd;
use crate::faults::{Fault, load_fault};
use crate::reading::{find_machine, read_program, read_trace_file};
use crate::verdicts::{verdict_status, write_verdict};
use crate::words::Machine;
use journal::Journal;
use pei_io::{Failed, Files, Sink, Which};
use pei_loader::load;
use pei_types::{Image, MachineSpec, Program};
use std::alloc::Global;
use trace_check::check;

/// Checks the trace of a file against the program of a file on a machine, which may be that of another file, and writes the
/// verdict.
pub(crate) fn check_file<F: Files, K: Sink>(
    alloc: Global,
    program_name: &str,
    machine_name: &str,
    trace_name: &str,
    machine: Machine,
    files: &mut F,
    sink: &mut K,
) -> Result<PlainEnd, Fault>
    requires unopened { (which : Which) → F.name files.old which ≡ None }
    requires cores { HasBuiltInCores machine }
    ensures serves { Serves (checks_as program_name.now machine_name.now trace_name.now machine) (file_use F.held F.left F.name F.taken F.faults files.old files.new) (sink_use K.written K.faults sink.old sink.new) result }
    ensures untouched { IfErr result (λ f. f ≢ Fault.WriteFault → sink.new ≡ sink.old) }
    ensures rising { (which : Which) → F.faults files.old which ≤ F.faults files.new which }
    ensures sink_rising { K.faults sink.old ≤ K.faults sink.new }
    ensures others { TouchesOnly F.held F.left F.name F.taken F.faults (file_of (checks_as program_name.now machine_name.now trace_name.now machine)) files.old files.new }
{
    let program = read_program(alloc, files, program_name)?;
    let machine = find_machine(alloc, files, machine, machine_name)?;
    check_trace(alloc, &program, &machine, trace_name, files, sink)
}

/// Checks the trace of a file against a program on a machine.
fn check_trace<F: Files, K: Sink>(
    alloc: Global,
    program: &Program,
    machine: &MachineSpec,
    trace_name: &str,
    files: &mut F,
    sink: &mut K,
) -> Result<PlainEnd, Fault>
    requires { F.name files.old Which.Trace ≡ None }
    ensures judges { LoadsAndJudges trace_name.now program.now machine.now (file_use F.held F.left F.name F.taken F.faults files.old files.new Which.Trace) (sink_use K.written K.faults sink.old sink.new) result }
    ensures untouched { IfErr result (λ f. f ≢ Fault.WriteFault → sink.new ≡ sink.old) }
    ensures rising { F.faults files.old Which.Trace ≤ F.faults files.new Which.Trace }
    ensures sink_rising { K.faults sink.old ≤ K.faults sink.new }
    ensures others { LeavesOthers F.held F.left F.name F.taken F.faults Which.Trace files.old files.new }
{
    let image = match load(alloc, program, machine) {
        Ok(image) => image,
        Err(fault) => return Err(load_fault(fault)),
    };
    let journal = read_trace_file(alloc, files, trace_name)?;
    judge(alloc, program, machine, &image, &journal, sink)
}

/// Checks a journal, and writes the verdict.
fn judge<K: Sink>(
    alloc: Global,
    program: &Program,
    machine: &MachineSpec,
    image: &Image,
    journal: &Journal,
    sink: &mut K,
) -> Result<PlainEnd, Fault>
    requires { length image.now.words ≡ 8 * machine.now.blocks }
    ensures judges { Judges program.now machine.now image.now journal.now.events (sink_use K.written K.faults sink.old sink.new) result }
    ensures untouched { IfErr result (λ f. f ≢ Fault.WriteFault → sink.new ≡ sink.old) }
    ensures rising { K.faults sink.old ≤ K.faults sink.new }
{
    let Ok(verdict) = check(alloc, program, machine, image, journal) else {
        return Err(Fault::OutOfMemory);
    };
    let status = verdict_status(verdict);
    match write_verdict(verdict, sink) {
        Ok(()) => Ok(PlainEnd::Checked { status, verdict }),
        Err(Failed) => Err(Fault::WriteFault),
    }
}
