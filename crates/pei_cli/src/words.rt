//! What the words of a command ask for.

ghost use Rattle.std.specs.Prelude.{◌≡◌, ◌+◌, ◌<◌, [], Some, None, length, get_or, IfSome, option_map, if◌then◌else◌, true};
ghost use Rattle.pei_types.specs.declared.machines.MachineSpec.{MachineSpec};
ghost use Rattle.sched_run.specs.Choice.{HasActorsOf};
ghost use Rattle.pei_cli.specs.Commands.{Sched, KernelSched, asm_words, check_words, decimal_below, gen_words, kernel_words, machine_word, output_words, run_words, schedule_word, scheduled_words};
ghost use Rattle.pei_cli.specs.Jobs.{Compiles, Generates, Prints, asked_by, policy_of_word, threaded_by};
ghost use Rattle.pei_cli.specs.Words.{Asks, AsksForThreads, HasBuiltInCores, checks_as, machine_as, output_as, runs_as, runs_kernel_as, threaded_job_of};

use pei_io::Text;
use sched_run::Policy;

/// The most turns that words can ask for.
const MOST_TURNS: u64 = 1_000_000_000;

/// What words can ask for without threads.
#[derive(Drop)]
pub(crate) enum Asked {
    /// A scheduled run. Its program is the second word, and its machine the third.
    Run(Run),
    /// The check of a trace, which is the fourth word. Its program is the second, and its machine the third.
    Check(Machine),
    /// The canonical text of a program, which is the second word.
    Print,
    /// The generated program of a number.
    Generate(u64),
    /// The canonical text of the program of a kernel, which is the second word.
    Compile,
    /// A scheduled run of a kernel, which is the second word. Its machine is the third.
    RunKernel(Run),
}

/// A machine that a word names.
#[derive(Clone, Copy)]
pub(crate) enum Machine {
    /// The built-in machine of 1 to 8 cores.
    BuiltIn(u8),
    /// That of a file, whose name the word is.
    File,
}

/// What a run writes.
#[derive(Clone, Copy)]
pub(crate) enum Output {
    /// Its report.
    Report,
    /// The trace of its journal.
    Trace,
}

/// A scheduled run, and what is written of it.
#[derive(Drop)]
pub(crate) struct Run {
    pub machine: Machine,
    pub policy: Policy,
    pub turns: u64,
    pub output: Output,
}

/// A run by threads, and what is written of it. Its program is the second word, and its machine the third.
#[derive(Clone, Copy)]
pub(crate) struct ThreadedRun {
    pub machine: Machine,
    pub output: Output,
}

/// What the words ask for, if that is no run by threads.
pub(crate) fn read_words(words: &[Text]) -> Option<Asked>
    ensures { Asks words.now result }
{
    let (verb, rest) = words.split_first()?;
    match verb.as_str() {
        "asm" if names_program(rest) => Some(Asked::Print),
        "asm" => None,
        "sched" => Some(Asked::Run(sched_words(rest)?)),
        "check" => Some(Asked::Check(check_words(rest)?)),
        "gen" => Some(Asked::Generate(generate_words(rest)?)),
        "kernel" if names_kernel(rest) => Some(Asked::Compile),
        "kernel" => None,
        "ksched" => Some(Asked::RunKernel(sched_words(rest)?)),
        _ => None,
    }
}

/// The run by threads that the words ask for.
pub(crate) fn read_threaded_words(words: &[Text]) -> Option<ThreadedRun>
    ensures { AsksForThreads words.now result }
{
    let (verb, rest) = words.split_first()?;
    match verb.as_str() {
        "run" => run_words(rest),
        _ => None,
    }
}

/// Whether the words behind `asm` name a program.
fn names_program(words: &[Text]) -> bool
    ensures asked { asked_by (asm_words words.now) ≡ (if result then Some (Prints (get_or words.now 0 [])) else None) }
    ensures within { result ≡ true → 0 < length words.now }
{
    words.len() == 1
}

/// Whether the words behind `kernel` name a kernel.
fn names_kernel(words: &[Text]) -> bool
    ensures asked { asked_by (kernel_words words.now) ≡ (if result then Some (Compiles (get_or words.now 0 [])) else None) }
    ensures within { result ≡ true → 0 < length words.now }
{
    words.len() == 1
}

/// The run that the words behind `sched` or `ksched` ask for: of a program or of a kernel.
fn sched_words(words: &[Text]) -> Option<Run>
    ensures some { IfSome result (λ j. (asked_by (scheduled_words Sched words.now) ≡ Some (runs_as (get_or words.now 0 []) (get_or words.now 1 []) j)) × (asked_by (scheduled_words KernelSched words.now) ≡ Some (runs_kernel_as (get_or words.now 0 []) (get_or words.now 1 []) j))) }
    ensures within { IfSome result (λ j. 1 < length words.now) }
    ensures cores { IfSome result (λ j. HasBuiltInCores j.machine) }
    ensures actors { IfSome result (λ j. (m : MachineSpec) → HasActorsOf m j.policy) }
    ensures none { result ≡ None → (asked_by (scheduled_words Sched words.now) ≡ None) × (asked_by (scheduled_words KernelSched words.now) ≡ None) }
{
    let [_, machine, seed, turns, output @ ..] = words else {
        return None;
    };
    let output = output_named(output)?;
    let turns = decimal_up_to(turns.as_str(), MOST_TURNS)?;
    let policy = policy(seed.as_str())?;
    Some(Run {
        machine: machine_named(machine.as_str()),
        policy,
        turns,
        output,
    })
}

/// The run by threads that the words behind `run` ask for.
fn run_words(words: &[Text]) -> Option<ThreadedRun>
    ensures some { IfSome result (λ j. threaded_by (run_words words.now) ≡ Some (threaded_job_of (get_or words.now 0 []) (get_or words.now 1 []) j)) }
    ensures within { IfSome result (λ j. 1 < length words.now) }
    ensures cores { IfSome result (λ j. HasBuiltInCores j.machine) }
    ensures none { result ≡ None → threaded_by (run_words words.now) ≡ None }
{
    let [_, machine, output @ ..] = words else {
        return None;
    };
    let output = output_named(output)?;
    Some(ThreadedRun {
        machine: machine_named(machine.as_str()),
        output,
    })
}

/// What a run writes, by the words behind all others: its report without one, and its trace by the word `trace`.
fn output_named(words: &[Text]) -> Option<Output>
    ensures { option_map output_as result ≡ output_words words.now }
{
    match words {
        [] => Some(Output::Report),
        [word] if word.as_str() == "trace" => Some(Output::Trace),
        _ => None,
    }
}

/// The machine that the words behind `check` name, between a program and a trace.
fn check_words(words: &[Text]) -> Option<Machine>
    ensures some { IfSome result (λ k. asked_by (check_words words.now) ≡ Some (checks_as (get_or words.now 0 []) (get_or words.now 1 []) (get_or words.now 2 []) k)) }
    ensures within { IfSome result (λ k. 2 < length words.now) }
    ensures cores { IfSome result HasBuiltInCores }
    ensures none { result ≡ None → asked_by (check_words words.now) ≡ None }
{
    let [_, machine, _] = words else {
        return None;
    };
    Some(machine_named(machine.as_str()))
}

/// The number that the word behind `gen` gives.
fn generate_words(words: &[Text]) -> Option<u64>
    ensures { option_map Generates result ≡ asked_by (gen_words words.now) }
{
    let [number] = words else {
        return None;
    };
    decimal_up_to(number.as_str(), u64::MAX)
}

/// The machine that a word names.
fn machine_named(word: &str) -> Machine
    ensures named { machine_word word.now ≡ machine_as word.now result }
    ensures cores { HasBuiltInCores result }
{
    match word {
        "-1" => Machine::BuiltIn(1),
        "-2" => Machine::BuiltIn(2),
        "-3" => Machine::BuiltIn(3),
        "-4" => Machine::BuiltIn(4),
        "-5" => Machine::BuiltIn(5),
        "-6" => Machine::BuiltIn(6),
        "-7" => Machine::BuiltIn(7),
        "-8" => Machine::BuiltIn(8),
        _ => Machine::File,
    }
}

/// Who takes the turns, by a word.
fn policy(word: &str) -> Option<Policy>
    ensures { result ≡ option_map policy_of_word (schedule_word word.now) }
{
    if word == "rr" {
        Some(Policy::RoundRobin)
    } else if word == "serial" {
        Some(Policy::Serial)
    } else {
        Some(Policy::Seeded(decimal_up_to(word, u64::MAX)?))
    }
}

/// The number that decimal digits write, where it is at most `most`.
fn decimal_up_to(word: &str, most: u64) -> Option<u64>
    ensures { result ≡ decimal_below (most + 1) word.now }
{
    if word.is_empty() {
        return None;
    }
    let mut value = 0u64;
    let mut rest = word.as_bytes();
    while let [digit @ b'0'..=b'9', behind @ ..] = rest {
        value = value
            .checked_mul(10)?
            .checked_add(u64::from(*digit - b'0'))?;
        rest = behind;
    }
    if rest.is_empty() && value <= most {
        Some(value)
    } else {
        None
    }
}
