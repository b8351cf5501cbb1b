//! The command on words, files and sinks in memory.

use crate::commands::command;
use pei_io::{MemFiles, MemSink};
use pei_types::OutOfMemory;
use std::alloc::Global;
use std::env::Args;
use std::io::{Error, ErrorKind, Result as IoResult};
use std::sync::Wait;
use std::test::Fail;
use std::thread::Threads;

/// The words of a command, split at spaces, behind the program's name.
fn words(alloc: Global, command: &str) -> Result<Args, OutOfMemory> {
    let mut words = Vec::new(alloc);
    for word in ["peisim"].into_iter().chain(command.split(' ')) {
        let word = String::from_str(alloc, word).map_err(|_| OutOfMemory)?;
        words.push(word).map_err(|_| OutOfMemory)?;
    }
    Ok(words.into_iter())
}

/// What a command ends with.
#[derive(Drop)]
struct Ended {
    status: u8,
    output: MemSink,
    faults: MemSink,
}

/// Serves the words over a program, where the output takes so many bytes.
fn served<R: Threads + Wait + Sync>(
    rt: &R,
    alloc: Global,
    args: IoResult<Args>,
    program: &[u8],
    room: u32,
) -> Result<Ended, OutOfMemory> {
    let mut files = MemFiles::make(alloc, program, b"", b"", b"", 5000, &[])?;
    let mut output = MemSink::make(alloc, room, 5000, &[])?;
    let mut faults = MemSink::make(alloc, 100, 5000, &[])?;
    let status = command(rt, alloc, args, &mut files, &mut output, &mut faults);
    Ok(Ended {
        status,
        output,
        faults,
    })
}

/// One core puts 7 out and halts.
const SEVEN: &[u8] = b".entry 0, s\ns: li r1, 7\nout r1\nhalt\n";

/// One core loads from an address that is no multiple of 8.
const TRAPPED: &[u8] = b".entry 0, s\ns: ld r1, r0, 4\n";

/// The line of a fault of words.
const USAGE: &[u8] = b"usage: peisim asm or sched or run or check or gen\n";

/// A command over a program, with the room of its output in bytes, and what it ends with.
#[derive(Clone, Copy)]
struct Row {
    command: &'static str,
    program: &'static [u8],
    room: u32,
    status: u8,
    output: &'static [u8],
    line: &'static [u8],
}

const ROW: Row = Row {
    command: "sched p -1 rr 1000",
    program: SEVEN,
    room: 100,
    status: 0,
    output: b"out 0 7\ncore 0 halt\nstatus 0\n",
    line: b"",
};

const ENDS: [Row; 9] = [
    ROW,
    Row {
        program: TRAPPED,
        status: 5,
        output: b"core 0 trap 0 align\nstatus 5\n",
        ..ROW
    },
    Row {
        command: "sched p -1 rr 1",
        status: 7,
        output: b"out 0 7\ncore 0 unfinished\nstatus 7\n",
        ..ROW
    },
    Row {
        program: b"halt\nx",
        status: 3,
        output: b"",
        line: b"program bad 2:1 UnknownName\n",
        ..ROW
    },
    Row {
        room: 3,
        status: 9,
        output: b"out",
        line: b"write fault\n",
        ..ROW
    },
    Row {
        command: "sched p -1 rr",
        status: 2,
        output: b"",
        line: USAGE,
        ..ROW
    },
    Row {
        command: "run p -1",
        ..ROW
    },
    Row {
        command: "run p -1",
        room: 3,
        status: 9,
        output: b"out",
        line: b"write fault\n",
        ..ROW
    },
    Row {
        command: "run p",
        status: 2,
        output: b"",
        line: USAGE,
        ..ROW
    },
];

#[test]
fn commands_end_with_status_and_line(rt: HostRuntime) -> Result<(), Fail> {
    for row in &ENDS {
        let command = row.command;
        let args = Ok(words(rt.alloc(), command)?);
        let ended = served(&rt, rt.alloc(), args, row.program, row.room)?;
        assert_eq!(rt; ended.status, row.status, "{command}");
        assert_eq!(rt; ended.output.bytes(), row.output, "{command}");
        assert_eq!(rt; ended.faults.bytes(), row.line, "{command}");
    }
    Ok(())
}

#[test]
fn words_that_cannot_be_had_are_a_fault(rt: HostRuntime) -> Result<(), Fail> {
    for (kind, status, line) in [
        (ErrorKind::InvalidData, 2, USAGE),
        (ErrorKind::OutOfMemory, 10, b"out of memory\n"),
    ] {
        let ended = served(&rt, rt.alloc(), Err(Error::from(kind)), b"", 100)?;
        assert_eq!(rt; ended.status, status, "{kind:?}");
        assert_eq!(rt; ended.output.bytes(), b"".as_slice(), "{kind:?}");
        assert_eq!(rt; ended.faults.bytes(), line, "{kind:?}");
    }
    Ok(())
}
