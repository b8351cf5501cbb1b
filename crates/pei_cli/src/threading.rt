//! The top call for runs by threads.

ghost use Rattle.std.specs.Prelude.{◌≡◌, ◌≢◌, ◌≤◌, ◌↔◌, ℕ, List, None, Err, IfSome, IfErr};
ghost use Rattle.pei_io.specs.declared.files.Which.{Which};
ghost use Rattle.pei_cli.specs.Jobs.{ThreadedJob, threaded_file_of, threaded_of};
ghost use Rattle.pei_cli.specs.ThreadedOutcomes.{RunsThreads, ServesThreads};
ghost use Rattle.pei_cli.specs.Uses.{TouchesOnly, file_use, sink_use};
ghost use Rattle.pei_cli.specs.Words.{HasBuiltInCores, output_as, threaded_job_of};

use crate::ends::RunEnd;
use crate::faults::{Fault, load_fault};
use crate::outputs::write_output;
use crate::reading::{find_machine, read_program};
use crate::status::run_status;
use crate::words::{Output, ThreadedRun, read_threaded_words};
use host_run::run_threads;
use pei_io::{Failed, Files, Gate, Sink, Text, Which};
use pei_loader::load;
use pei_types::{MachineSpec, Program};
use sched_run::laws::legal_journals_meet_clauses;
use std::alloc::Global;
use std::sync::Wait;
use std::thread::Threads;

/// Serves the words `run PROGRAM MACHINE`: it reads the program, reads the machine where that is a file, runs the program on
/// the whole machine of these sizes by a host thread for each core, and writes the report to the sink; with the word `trace`
/// behind them it writes the trace of the run's journal instead. Words with another first word are `Usage`.
///
/// Whatever the threads' interleaving, the run's journal is one legal history of the program on the machine, the run is over
/// (each core has ended, or the journal is full), and what is written is the report or the trace of exactly that journal. PEIs,
/// their fence and the PIM directory follow Ahn, Yoo, Mutlu and Choi, "PIM-Enabled Instructions", ISCA 2015.
///
/// PROGRAM and MACHINE, the order of faults, and what a fault leaves are those of `plain`. Each thread passes `gate` before its
/// first wait for a bank, and once it has made its first event. The call waits for its threads: its promise holds if it
/// returns.
pub fn threaded<R: Threads + Wait + Sync, F: Files, K: Sink, G: Gate>(
    rt: &R,
    alloc: Global,
    words: &[Text],
    files: &mut F,
    sink: &mut K,
    gate: &G,
) -> Result<RunEnd, Fault>
    requires { (which : Which) → F.name files.old which ≡ None }
    ensures usage { (result ≡ Err Fault.Usage) ↔ (threaded_of words.now ≡ None) }
    ensures idle { threaded_of words.now ≡ None → (files.new ≡ files.old) × (sink.new ≡ sink.old) }
    ensures serves { IfSome (threaded_of words.now) (λ j. ServesThreads j (file_use F.held F.left F.name F.taken F.faults files.old files.new) (sink_use K.written K.faults sink.old sink.new) result) }
    ensures untouched { IfErr result (λ f. f ≢ Fault.WriteFault → sink.new ≡ sink.old) }
    ensures rising { ((which : Which) → F.faults files.old which ≤ F.faults files.new which) × (K.faults sink.old ≤ K.faults sink.new) }
    ensures others { IfSome (threaded_of words.now) (λ j. TouchesOnly F.held F.left F.name F.taken F.faults (threaded_file_of j) files.old files.new) }
{
    match read_threaded_words(words) {
        None => Err(Fault::Usage),
        Some(run) => run_file_by_threads(
            rt,
            alloc,
            words[1].as_str(),
            words[2].as_str(),
            run,
            files,
            sink,
            gate,
        ),
    }
}

/// Runs the program of a file by threads on a machine, which may be that of another file, and writes what the words ask for.
fn run_file_by_threads<R: Threads + Wait + Sync, F: Files, K: Sink, G: Gate>(
    rt: &R,
    alloc: Global,
    program_name: &str,
    machine_name: &str,
    run: ThreadedRun,
    files: &mut F,
    sink: &mut K,
    gate: &G,
) -> Result<RunEnd, Fault>
    requires unopened { (which : Which) → F.name files.old which ≡ None }
    requires cores { HasBuiltInCores run.machine }
    ensures serves { ServesThreads (threaded_job_of program_name.now machine_name.now run) (file_use F.held F.left F.name F.taken F.faults files.old files.new) (sink_use K.written K.faults sink.old sink.new) result }
    ensures untouched { IfErr result (λ f. f ≢ Fault.WriteFault → sink.new ≡ sink.old) }
    ensures rising { (which : Which) → F.faults files.old which ≤ F.faults files.new which }
    ensures sink_rising { K.faults sink.old ≤ K.faults sink.new }
    ensures others { TouchesOnly F.held F.left F.name F.taken F.faults (threaded_file_of (threaded_job_of program_name.now machine_name.now run)) files.old files.new }
{
    let program = read_program(alloc, files, program_name)?;
    let machine = find_machine(alloc, files, run.machine, machine_name)?;
    run_by_threads(rt, alloc, &program, &machine, run.output, sink, gate)
}

/// Runs a program by threads on a machine, and writes the report or the trace. Writing takes no memory, so want of memory is
/// told before anything is written.
fn run_by_threads<R: Threads + Wait + Sync, K: Sink, G: Gate>(
    rt: &R,
    alloc: Global,
    program: &Program,
    machine: &MachineSpec,
    output: Output,
    sink: &mut K,
    gate: &G,
) -> Result<RunEnd, Fault>
    ensures runs { (job : ThreadedJob) → job.output ≡ output_as output → RunsThreads job program.now machine.now (sink_use K.written K.faults sink.old sink.new) result }
    ensures untouched { IfErr result (λ f. f ≢ Fault.WriteFault → sink.new ≡ sink.old) }
    ensures rising { K.faults sink.old ≤ K.faults sink.new }
{
    legal_journals_meet_clauses();
    let image = match load(alloc, program, machine) {
        Ok(image) => image,
        Err(fault) => return Err(load_fault(fault)),
    };
    let Ok(parts) = run_threads(rt, alloc, program, machine, &image, gate) else {
        return Err(Fault::OutOfMemory);
    };
    let status = run_status(machine, parts.fabric.journal(), &parts.cores);
    match write_output(
        program,
        machine,
        &parts.fabric,
        &parts.cores,
        status,
        output,
        sink,
    ) {
        Ok(()) => Ok(RunEnd {
            status,
            journal: parts.fabric.into_journal(),
            cores: parts.cores,
            receipt: parts.receipt,
        }),
        Err(Failed) => Err(Fault::WriteFault),
    }
}
