//! A command: its words go to a top call, the line of a fault to a sink of its own, and it ends with a status.

ghost use Rattle.std.specs.Prelude.{◌≡◌, None, Some, Ok, Err, IfOk, IfErr, option_map};
ghost use Rattle.pei_io.specs.declared.files.Which.{Which};
ghost use Rattle.peisim.specs.Commands.{Answers, AnswersWords, ReadsWords, TellsFault, begins_with_run, fault_of_arguments};
ghost use Rattle.peisim.specs.Ends.{fault_of_end, status_of_end};

use pei_cli::{Fault, PlainEnd, RunEnd, plain, status_of, threaded, write_fault};
use pei_io::{Files, FreeGate, Sink, Text};
use std::alloc::Global;
use std::env::Args;
use std::io::{Error, ErrorKind, Result as IoResult};
use std::sync::Wait;
use std::thread::Threads;

/// What a command came to, by the call that served it.
#[derive(Drop)]
pub(crate) enum Ended {
    /// By `plain`; also where the words could not be had.
    Plain(Result<PlainEnd, Fault>),
    /// By `threaded`.
    Threaded(Result<RunEnd, Fault>),
}

impl Ended {
    /// Why it was refused, if it was.
    fn fault(&self) -> Option<&Fault>
        ensures { option_map (λ f. f.now) result ≡ fault_of_end self.now }
    {
        match self {
            Ended::Plain(Err(fault)) | Ended::Threaded(Err(fault)) => Some(fault),
            Ended::Plain(Ok(_)) | Ended::Threaded(Ok(_)) => None,
        }
    }

    /// The status that the program ends with.
    fn status(&self) -> u8
        ensures { result ≡ status_of_end self.now }
    {
        match self {
            Ended::Plain(Ok(PlainEnd::Sched { status, .. })) => *status,
            Ended::Plain(Ok(PlainEnd::Checked { status, .. })) => *status,
            Ended::Plain(Ok(PlainEnd::Text { status })) => *status,
            Ended::Plain(Ok(PlainEnd::Kernel { status, .. })) => *status,
            Ended::Plain(Ok(PlainEnd::KernelSched { status, .. })) => *status,
            Ended::Threaded(Ok(end)) => end.status,
            Ended::Plain(Err(fault)) | Ended::Threaded(Err(fault)) => status_of(fault),
        }
    }
}

/// Serves the words behind the program's name, by `threaded` where the first is `run` and by `plain` otherwise, writes the
/// line of a fault to `faults`, and answers the status with which the program ends. Words that can't be had are `Usage` where
/// one is no UTF-8 or for another cause, and want of memory where that is the cause.
pub(crate) fn command<R: Threads + Wait + Sync, F: Files, K: Sink, E: Sink>(
    rt: &R,
    alloc: Global,
    args: IoResult<Args>,
    files: &mut F,
    output: &mut K,
    faults: &mut E,
) -> u8
    requires { (which : Which) → F.name files.old which ≡ None }
    ensures { (ended : Ended) × Answers F.held F.left F.name F.taken F.faults K.written K.faults args files.old files.new output.old output.new ended × TellsFault E.written E.faults (fault_of_end ended) faults.old faults.new × (result ≡ status_of_end ended) }
{
    let ended = serve(rt, alloc, args, files, output);
    if let Some(fault) = ended.fault() {
        // Where this fails too, there is nobody left to tell.
        let _ = write_fault(fault, faults);
    }
    ended.status()
}

/// What the words behind the program's name come to.
fn serve<R: Threads + Wait + Sync, F: Files, K: Sink>(
    rt: &R,
    alloc: Global,
    args: IoResult<Args>,
    files: &mut F,
    output: &mut K,
) -> Ended
    requires { (which : Which) → F.name files.old which ≡ None }
    ensures { Answers F.held F.left F.name F.taken F.faults K.written K.faults args files.old files.new output.old output.new result }
{
    match words_of(alloc, args) {
        Ok(words) => serve_words(rt, alloc, words.as_slice(), files, output),
        Err(fault) => Ended::Plain(Err(fault)),
    }
}

/// What these words come to.
fn serve_words<R: Threads + Wait + Sync, F: Files, K: Sink>(
    rt: &R,
    alloc: Global,
    words: &[Text],
    files: &mut F,
    output: &mut K,
) -> Ended
    requires { (which : Which) → F.name files.old which ≡ None }
    ensures { AnswersWords F.held F.left F.name F.taken F.faults K.written K.faults words.now files.old files.new output.old output.new result }
{
    if begins_with_run(words) {
        Ended::Threaded(threaded(rt, alloc, words, files, output, &FreeGate))
    } else {
        Ended::Plain(plain(alloc, words, files, output))
    }
}

/// Whether the first word is `run`.
fn begins_with_run(words: &[Text]) -> bool
    ensures { result ≡ begins_with_run words.now }
{
    match words.first() {
        Some(word) => word.as_str() == "run",
        None => false,
    }
}

/// The words behind the program's name.
fn words_of(alloc: Global, args: IoResult<Args>) -> Result<Vec<Text>, Fault>
    ensures words { IfOk result (λ words. ReadsWords args (Ok words.items)) }
    ensures fault { IfErr result (λ f. ReadsWords args (Err f)) }
{
    let mut args = args.map_err(|error| argument_fault(&error))?;
    let _name = args.next();
    let mut words = Vec::new(alloc);
    for word in args {
        let Ok(word) = Text::make(alloc, word.as_str()) else {
            return Err(Fault::OutOfMemory);
        };
        if words.push(word).is_err() {
            return Err(Fault::OutOfMemory);
        }
    }
    Ok(words)
}

/// The fault of words that could not be had: a word that is no UTF-8 names no command.
fn argument_fault(error: &Error) -> Fault
    ensures { result ≡ fault_of_arguments error.now }
{
    match error.kind() {
        ErrorKind::OutOfMemory => Fault::OutOfMemory,
        _ => Fault::Usage,
    }
}
