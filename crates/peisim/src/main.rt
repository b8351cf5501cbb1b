//! The program: the words that it was started with go to the command, over real files, standard output and standard error,
//! and it ends with the status that the command answers.
#![tactic(auto)]

mod commands;
#[cfg(test)]
mod tests;

use commands::command;
use pei_io::{DiskFiles, OutSink};
use std::env;
use std::process::ExitCode;

fn main(rt: HostRuntime) -> ExitCode {
    let (mut output, mut faults) = (OutSink::make(rt.stdout()), OutSink::make(rt.stderr()));
    ExitCode::from(command(
        &rt,
        rt.alloc(),
        env::args(&rt),
        &mut DiskFiles::make(&rt),
        &mut output,
        &mut faults,
    ))
}
