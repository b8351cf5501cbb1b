//! Runs by threads that are refused.

use crate::commands::{RAISE_HUNDRED, RAISED_BY_TWO, words};
use pei_cli::{Fault, threaded};
use pei_io::{FreeGate, MemFiles, MemSink, Which};
use pei_types::OutOfMemory;
use std::alloc::Global;
use std::sync::Wait;
use std::test::Fail;
use std::thread::Threads;

/// What a run came to, by the number of its answer: 0 for an end, and else the fault's place in their order.
fn number<T>(answer: &Result<T, Fault>) -> u8 {
    match answer {
        Ok(_) => 0,
        Err(Fault::Usage) => 1,
        Err(Fault::ProgramBad(_)) => 2,
        Err(Fault::LoadBad(_)) => 3,
        Err(Fault::MachineBad(_)) => 4,
        Err(
            Fault::ReadFault {
                which: Which::Program,
            },
        ) => 5,
        Err(
            Fault::ReadFault {
                which: Which::Machine,
            },
        ) => 6,
        Err(Fault::WriteFault) => 7,
        Err(_) => 8,
    }
}

/// Serves a command where the read and the write of these numbers, counted from 1, fail. It answers the number of the answer
/// and the sink.
fn refused<R: Threads + Wait + Sync>(
    rt: &R,
    alloc: Global,
    command: &str,
    program: &[u8],
    machine: &[u8],
    read_fails: u32,
    write_fails: u32,
) -> Result<(u8, MemSink), OutOfMemory> {
    let words = words(alloc, command)?;
    let mut files = MemFiles::make(alloc, program, machine, b"", b"", 5000, &[read_fails])?;
    let mut sink = MemSink::make(alloc, 4096, 5000, &[write_fails])?;
    let result = threaded(
        rt,
        alloc,
        words.as_slice(),
        &mut files,
        &mut sink,
        &FreeGate,
    );
    Ok((number(&result), sink))
}

/// Commands with a program and a machine, and the number of their answer.
const REFUSED: [(&str, &[u8], &[u8], u8); 8] = [
    ("run p -2", RAISE_HUNDRED, b"", 0),
    ("run p", RAISE_HUNDRED, b"", 1),
    ("run p -2 traces", RAISE_HUNDRED, b"", 1),
    ("run p -2 trace trace", RAISE_HUNDRED, b"", 1),
    ("sched p -2 rr 1000", RAISE_HUNDRED, b"", 1),
    ("run p -2", b"halt\nx", b"", 2),
    ("run p m", RAISE_HUNDRED, b"cores = 2\nblocks = 16\n", 3),
    ("run p m", RAISE_HUNDRED, b"cores = 9\nblocks = 1024\n", 4),
];

#[test]
fn each_fault_is_told(rt: HostRuntime) -> Result<(), Fail> {
    for (command, program, machine, wanted) in REFUSED {
        let (number, sink) = refused(&rt, rt.alloc(), command, program, machine, 0, 0)?;
        assert_eq!(rt; number, wanted, "{command}");
        let output: &[u8] = if wanted == 0 { RAISED_BY_TWO } else { b"" };
        assert_eq!(rt; sink.bytes(), output, "{command}");
    }
    Ok(())
}

const TWO_CORES: &[u8] = b"cores = 2\nblocks = 1024\n";

/// The first read fails that of the program, and the third that of the machine, since each file is read up to its end.
#[test]
fn reads_that_fail_are_told(rt: HostRuntime) -> Result<(), Fail> {
    for (read, wanted) in [
        (1, 5),
        (2, 5),
        (3, 6),
        (4, 6),
        (5, 0),
        (6, 0),
        (7, 0),
        (8, 0),
    ] {
        let (number, sink) = refused(
            &rt,
            rt.alloc(),
            "run p m",
            RAISE_HUNDRED,
            TWO_CORES,
            read,
            0,
        )?;
        assert_eq!(rt; number, wanted, "{read}");
        let output: &[u8] = if wanted == 0 { RAISED_BY_TWO } else { b"" };
        assert_eq!(rt; sink.bytes(), output, "{read}");
    }
    Ok(())
}

/// The report has four lines, each written at once.
#[test]
fn writes_that_fail_leave_a_front(rt: HostRuntime) -> Result<(), Fail> {
    for (write, front) in [
        (1, 0),
        (2, 12),
        (3, 24),
        (4, 37),
        (5, 46),
        (6, 46),
        (7, 46),
        (8, 46),
    ] {
        let (number, sink) = refused(&rt, rt.alloc(), "run p -2", RAISE_HUNDRED, b"", 0, write)?;
        assert_eq!(rt; number, if write <= 4 { 7 } else { 0 }, "{write}");
        assert_eq!(rt; Some(sink.bytes()), RAISED_BY_TWO.get(..front), "{write}");
    }
    Ok(())
}
