//! The top call for commands without threads.

ghost use Rattle.std.specs.Prelude.{◌≡◌, ◌≢◌, ◌≤◌, ◌↔◌, ℕ, None, Some, Err, IfSome, IfErr};
ghost use Rattle.pei_io.specs.declared.files.Which.{Which};
ghost use Rattle.pei_cli.specs.Jobs.{Generates, asked_of, file_of};
ghost use Rattle.pei_cli.specs.Outcomes.{Serves};
ghost use Rattle.pei_cli.specs.Uses.{TouchesOnly, file_use, sink_use};

use crate::checking::check_file;
use crate::ends::PlainEnd;
use crate::faults::Fault;
use crate::printing::{compile_file, print_file, write_generated};
use crate::running::{run_file, run_kernel_file};
use crate::words::{Asked, read_words};
use pei_io::{Files, Sink, Text};
use std::alloc::Global;

/// Serves the words `sched PROGRAM MACHINE SEED TURNS`: it reads the program, reads the machine where that is a file,
/// runs the program by the schedule on the whole machine of these sizes, and writes the report to the sink; with the word
/// `trace` behind them it writes the trace of the run's journal instead. It serves `asm PROGRAM`: it reads the program and
/// writes its canonical text. It serves `check PROGRAM MACHINE TRACE`: it reads all three, checks the trace against the program
/// on the machine, and writes the verdict. It serves `gen N`: it writes the generated program of that number. It serves
/// `kernel FILE`: it reads the kernel of the file, compiles it, and writes the canonical text of its program. And it serves
/// `ksched FILE MACHINE SEED TURNS`, with or without the word `trace`: it compiles the kernel and goes on as `sched`.
///
/// PROGRAM, TRACE and FILE are files' names. MACHINE is `-1` to `-8`, the built-in machine of that many cores, and any other word is the
/// name of a machine's file. SEED is `rr`, `serial` or a decimal number below 2^64, and TURNS a decimal number of at most
/// 1,000,000,000. N is a decimal number below 2^64. Other words are `Usage`, and so are those of `run`, which `threaded` serves.
///
/// Faults come in this order: the words, reading the program or the kernel, the program or the kernel, reading the machine, the
/// machine, loading, reading the trace, the trace, writing. A file is opened only where what comes before it has no fault.
///
/// The condition is that no file was opened before. A fault other than `WriteFault` leaves the sink as it was, and before
/// that one a front of the output is written. `OutOfMemory` may come in the place of any answer but `Usage`, and never for
/// `gen`.
pub fn plain<F: Files, K: Sink>(
    alloc: Global,
    words: &[Text],
    files: &mut F,
    sink: &mut K,
) -> Result<PlainEnd, Fault>
    requires { (which : Which) → F.name files.old which ≡ None }
    ensures usage { (result ≡ Err Fault.Usage) ↔ (asked_of words.now ≡ None) }
    ensures idle { asked_of words.now ≡ None → (files.new ≡ files.old) × (sink.new ≡ sink.old) }
    ensures serves { IfSome (asked_of words.now) (λ a. Serves a (file_use F.held F.left F.name F.taken F.faults files.old files.new) (sink_use K.written K.faults sink.old sink.new) result) }
    ensures untouched { IfErr result (λ f. f ≢ Fault.WriteFault → sink.new ≡ sink.old) }
    ensures unread { (n : ℕ) → asked_of words.now ≡ Some (Generates n) → files.new ≡ files.old }
    ensures rising { ((which : Which) → F.faults files.old which ≤ F.faults files.new which) × (K.faults sink.old ≤ K.faults sink.new) }
    ensures others { IfSome (asked_of words.now) (λ a. TouchesOnly F.held F.left F.name F.taken F.faults (file_of a) files.old files.new) }
{
    match read_words(words) {
        None => Err(Fault::Usage),
        Some(Asked::Run(run)) => run_file(
            alloc,
            words[1].as_str(),
            words[2].as_str(),
            &run,
            files,
            sink,
        ),
        Some(Asked::Check(machine)) => check_file(
            alloc,
            words[1].as_str(),
            words[2].as_str(),
            words[3].as_str(),
            machine,
            files,
            sink,
        ),
        Some(Asked::Print) => print_file(alloc, words[1].as_str(), files, sink),
        Some(Asked::Generate(n)) => write_generated(n, sink),
        Some(Asked::Compile) => compile_file(alloc, words[1].as_str(), files, sink),
        Some(Asked::RunKernel(run)) => run_kernel_file(
            alloc,
            words[1].as_str(),
            words[2].as_str(),
            &run,
            files,
            sink,
        ),
    }
}
