//! Commands served over files and a sink in memory.

ghost use Rattle.std.specs.Prelude.{◌≤◌};

use pei_cli::{Fault, PlainEnd, plain, status_of, write_fault};
use pei_io::{MemFiles, MemSink, Text};
use pei_types::OutOfMemory;
use std::alloc::Global;

/// What a command came to, what it wrote, and the line of its fault.
#[derive(Drop)]
pub(crate) struct Served {
    pub(crate) result: Result<PlainEnd, Fault>,
    pub(crate) sink: MemSink,
    pub(crate) line: MemSink,
}

/// The bytes of a command's files, by their places.
#[derive(Clone, Copy)]
struct Inputs<'a> {
    program: &'a [u8],
    machine: &'a [u8],
    trace: &'a [u8],
    kernel: &'a [u8],
}

/// Serves a command, its words split at spaces, over files of these bytes. A read and a write move at most `most` bytes. The read
/// and the write of these numbers, counted from 1, fail; number 0 is none.
fn serve_over(
    alloc: Global,
    command: &str,
    inputs: Inputs<'_>,
    most: u32,
    read_fails: u32,
    write_fails: u32,
) -> Result<Served, OutOfMemory>
    requires { 1 ≤ most }
{
    let mut words = Vec::new(alloc);
    if !command.is_empty() {
        for word in command.split(' ') {
            if words.push(Text::make(alloc, word)?).is_err() {
                return Err(OutOfMemory);
            }
        }
    }
    let Inputs {
        program,
        machine,
        trace,
        kernel,
    } = inputs;
    let mut files = MemFiles::make(alloc, program, machine, trace, kernel, most, &[read_fails])?;
    let mut sink = MemSink::make(alloc, 1_048_576, most, &[write_fails])?;
    let result = plain(alloc, words.as_slice(), &mut files, &mut sink);
    let mut line = MemSink::make(alloc, 100, 100, &[])?;
    if let Err(fault) = &result {
        let _ = write_fault(fault, &mut line);
    }
    Ok(Served { result, sink, line })
}

/// The same over a program, a machine and a trace.
pub(crate) fn serve_by(
    alloc: Global,
    command: &str,
    program: &[u8],
    machine: &[u8],
    trace: &[u8],
    most: u32,
    read_fails: u32,
    write_fails: u32,
) -> Result<Served, OutOfMemory>
    requires { 1 ≤ most }
{
    let kernel = b"";
    let inputs = Inputs {
        program,
        machine,
        trace,
        kernel,
    };
    serve_over(alloc, command, inputs, most, read_fails, write_fails)
}

/// The same where nothing fails, and a read and a write move as much as they are asked for.
pub(crate) fn serve(
    alloc: Global,
    command: &str,
    program: &[u8],
    machine: &[u8],
    trace: &[u8],
) -> Result<Served, OutOfMemory> {
    serve_by(alloc, command, program, machine, trace, 1_048_576, 0, 0)
}

/// The same over a kernel and a machine.
pub(crate) fn serve_kernel(
    alloc: Global,
    command: &str,
    kernel: &[u8],
    machine: &[u8],
    read_fails: u32,
    write_fails: u32,
) -> Result<Served, OutOfMemory> {
    let inputs = Inputs {
        program: b"",
        machine,
        trace: b"",
        kernel,
    };
    serve_over(alloc, command, inputs, 1_048_576, read_fails, write_fails)
}

/// The status of what a command came to.
pub(crate) fn status(served: &Served) -> u8 {
    match &served.result {
        Ok(PlainEnd::Sched { status, .. }) => *status,
        Ok(PlainEnd::Checked { status, .. }) => *status,
        Ok(PlainEnd::Text { status }) => *status,
        Ok(PlainEnd::Kernel { status, .. }) => *status,
        Ok(PlainEnd::KernelSched { status, .. }) => *status,
        Err(fault) => status_of(fault),
    }
}
