//! Scheduled runs.

ghost use Rattle.std.specs.Prelude.{◌≡◌, ◌≢◌, ◌≤◌, ℕ, List, None, IfErr};
ghost use Rattle.pei_io.specs.declared.files.Which.{Which};
ghost use Rattle.sched_run.specs.Choice.{HasActorsOf};
ghost use Rattle.pei_types.specs.declared.machines.MachineSpec.{MachineSpec};
ghost use Rattle.pei_cli.specs.Words.{HasBuiltInCores, job_of, runs_as, runs_kernel_as};
ghost use Rattle.pei_cli.specs.Jobs.{file_of};
ghost use Rattle.pei_cli.specs.Outcomes.{RunsJob, Serves, sched_end};
ghost use Rattle.pei_cli.specs.Uses.{TouchesOnly, file_use, sink_use};

use crate::ends::PlainEnd;
use crate::faults::{Fault, load_fault};
use crate::outputs::write_output;
use crate::reading::{find_machine, read_kernel, read_program};
use crate::status::run_status;
use crate::words::Run;
use journal::Journal;
use pei_io::{Failed, Files, Sink, Which};
use pei_loader::load;
use pei_types::{EndKind, MachineSpec, Program};
use sched_run::run_schedule;
use std::alloc::Global;

/// What a run came to: the status, its journal, how each core ended, if it did, and the number of turns.
#[derive(Drop)]
struct Ran {
    status: u8,
    journal: Journal,
    cores: [Option<EndKind>; 8],
    turns: u64,
}

/// Runs the program of a file on a machine, which may be that of another file, as the words ask, and writes what they ask
/// for.
pub(crate) fn run_file<F: Files, K: Sink>(
    alloc: Global,
    program_name: &str,
    machine_name: &str,
    run: &Run,
    files: &mut F,
    sink: &mut K,
) -> Result<PlainEnd, Fault>
    requires unopened { (which : Which) → F.name files.old which ≡ None }
    requires cores { HasBuiltInCores run.now.machine }
    requires actors { (m : MachineSpec) → HasActorsOf m run.now.policy }
    ensures serves { Serves (runs_as program_name.now machine_name.now run.now) (file_use F.held F.left F.name F.taken F.faults files.old files.new) (sink_use K.written K.faults sink.old sink.new) result }
    ensures untouched { IfErr result (λ f. f ≢ Fault.WriteFault → sink.new ≡ sink.old) }
    ensures rising { (which : Which) → F.faults files.old which ≤ F.faults files.new which }
    ensures sink_rising { K.faults sink.old ≤ K.faults sink.new }
    ensures others { TouchesOnly F.held F.left F.name F.taken F.faults (file_of (runs_as program_name.now machine_name.now run.now)) files.old files.new }
{
    let program = read_program(alloc, files, program_name)?;
    let machine = find_machine(alloc, files, run.machine, machine_name)?;
    let ran = run_program(alloc, &program, &machine, run, sink)?;
    let cores = ran.cores;
    Ok(PlainEnd::Sched {
        status: ran.status,
        journal: ran.journal,
        cores,
        turns: ran.turns,
    })
}

/// Runs the program of a file's kernel as the words ask.
pub(crate) fn run_kernel_file<F: Files, K: Sink>(
    alloc: Global,
    kernel_name: &str,
    machine_name: &str,
    run: &Run,
    files: &mut F,
    sink: &mut K,
) -> Result<PlainEnd, Fault>
    requires unopened { (which : Which) → F.name files.old which ≡ None }
    requires cores { HasBuiltInCores run.now.machine }
    requires actors { (m : MachineSpec) → HasActorsOf m run.now.policy }
    ensures serves { Serves (runs_kernel_as kernel_name.now machine_name.now run.now) (file_use F.held F.left F.name F.taken F.faults files.old files.new) (sink_use K.written K.faults sink.old sink.new) result }
    ensures untouched { IfErr result (λ f. f ≢ Fault.WriteFault → sink.new ≡ sink.old) }
    ensures rising { (which : Which) → F.faults files.old which ≤ F.faults files.new which }
    ensures sink_rising { K.faults sink.old ≤ K.faults sink.new }
    ensures others { TouchesOnly F.held F.left F.name F.taken F.faults (file_of (runs_kernel_as kernel_name.now machine_name.now run.now)) files.old files.new }
{
    let program = read_kernel(alloc, files, kernel_name)?;
    let machine = find_machine(alloc, files, run.machine, machine_name)?;
    let ran = run_program(alloc, &program, &machine, run, sink)?;
    let cores = ran.cores;
    Ok(PlainEnd::KernelSched {
        status: ran.status,
        program,
        journal: ran.journal,
        cores,
        turns: ran.turns,
    })
}

/// Runs a program on a machine as the words ask, and writes what they ask for. Writing takes no memory, so want of memory is
/// told before the first turn.
fn run_program<K: Sink>(
    alloc: Global,
    program: &Program,
    machine: &MachineSpec,
    run: &Run,
    sink: &mut K,
) -> Result<Ran, Fault>
    requires { (m : MachineSpec) → HasActorsOf m run.now.policy }
    ensures runs { (file name : List ℕ) → RunsJob (job_of file name run.now) program.now machine.now (sink_use K.written K.faults sink.old sink.new) (sched_end result) }
    ensures untouched { IfErr result (λ f. f ≢ Fault.WriteFault → sink.new ≡ sink.old) }
    ensures rising { K.faults sink.old ≤ K.faults sink.new }
{
    let image = match load(alloc, program, machine) {
        Ok(image) => image,
        Err(fault) => return Err(load_fault(fault)),
    };
    let Ok(end) = run_schedule(alloc, program, machine, &image, &run.policy, run.turns) else {
        return Err(Fault::OutOfMemory);
    };
    let status = run_status(machine, end.fabric.journal(), &end.cores);
    match write_output(
        program,
        machine,
        &end.fabric,
        &end.cores,
        status,
        run.output,
        sink,
    ) {
        Ok(()) => Ok(Ran {
            status,
            journal: end.fabric.into_journal(),
            cores: end.cores,
            turns: end.turns,
        }),
        Err(Failed) => Err(Fault::WriteFault),
    }
}
