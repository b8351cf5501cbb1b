//! Commands whose files and sink fail, move a byte at a time, or have as many bytes as there may be.

use crate::commands::{Served, serve, serve_by, status};
use crate::programs::{RAISE, RAISE_TRACE, RAISED};
use pei_cli::Fault;
use pei_io::Which;
use pei_types::OutOfMemory;
use std::alloc::Global;
use std::test::Fail;

/// The 70 bytes of `RAISE` by reads of twenty are five reads, the last of which meets the end. The 21 bytes of the machine
/// are three.
#[test]
fn reads_fail_where_asked(rt: HostRuntime) -> Result<(), Fail> {
    for fail in 1u32..12 {
        let served = serve_by(
            rt.alloc(),
            "sched p m rr 1000",
            RAISE,
            b"cores=1\nblocks=65536\n",
            b"",
            20,
            fail,
            0,
        )?;
        let (line, written, want_status) = if fail <= 5 {
            (b"read fault program\n".as_slice(), b"".as_slice(), 8)
        } else if fail <= 8 {
            (b"read fault machine\n".as_slice(), b"".as_slice(), 8)
        } else {
            (b"".as_slice(), RAISED, 0)
        };
        assert_eq!(rt; served.line.bytes(), line, "read {fail}");
        assert_eq!(rt; served.sink.bytes(), written, "read {fail}");
        assert_eq!(rt; status(&served), want_status, "read {fail}");
    }
    Ok(())
}

/// Each line is written by itself. Lines of 8, 12 and 9 bytes by writes of five are two, three and two writes.
#[test]
fn writes_fail_where_asked(rt: HostRuntime) -> Result<(), Fail> {
    for (most, fail, written) in [
        (5, 1, 0),
        (5, 2, 5),
        (5, 3, 8),
        (5, 4, 13),
        (5, 5, 18),
        (5, 6, 20),
        (5, 7, 25),
        (5, 8, 29),
        (5000, 1, 0),
        (5000, 2, 8),
        (5000, 3, 20),
        (5000, 4, 29),
    ] {
        assert!(rt; most > 0);
        let served = serve_by(
            rt.alloc(),
            "sched p -1 rr 1000",
            RAISE,
            b"",
            b"",
            most,
            0,
            fail,
        )?;
        let want_status = if written < 29 { 9 } else { 0 };
        assert_eq!(rt; status(&served), want_status, "write {fail}");
        assert_eq!(rt; served.sink.bytes(), &RAISED[..written], "write {fail}");
    }
    Ok(())
}

/// These bytes, and blanks behind them, so many bytes in all.
fn padded(alloc: Global, bytes: &[u8], len: usize) -> Result<Vec<u8>, OutOfMemory> {
    let mut text = Vec::new(alloc);
    let mut whole = text.extend_from_slice(bytes).is_ok();
    for _ in text.len()..len {
        whole &= text.push(b' ').is_ok();
    }
    if whole { Ok(text) } else { Err(OutOfMemory) }
}

/// Files of as many bytes as there may be are read, and of one more are refused: the program before the machine.
#[test]
fn the_longest_files_are_accepted(rt: HostRuntime) -> Result<(), Fail> {
    for (program_len, machine_len, written, line, want_status) in [
        (1_048_576, 1_048_576, RAISED, "", 0),
        (
            1_048_576,
            1_048_577,
            b"".as_slice(),
            "input too long machine\n",
            13,
        ),
        (
            1_048_577,
            1_048_577,
            b"".as_slice(),
            "input too long program\n",
            13,
        ),
    ] {
        let program = padded(rt.alloc(), RAISE, program_len)?;
        let machine = padded(rt.alloc(), b"cores = 1\nblocks = 1024\n#", machine_len)?;
        let served = serve(
            rt.alloc(),
            "sched p m rr 1000",
            program.as_slice(),
            machine.as_slice(),
            b"",
        )?;
        assert_eq!(rt; served.sink.bytes(), written);
        assert_eq!(rt; served.line.bytes(), line.as_bytes());
        assert_eq!(rt; status(&served), want_status);
    }
    Ok(())
}

/// The 70 bytes of the program by reads of 100 are two reads, the last of which meets the end. The 209 bytes of the trace
/// are four. The 15 bytes of the verdict are one write.
#[test]
fn reads_and_writes_fail_where_asked(rt: HostRuntime) -> Result<(), Fail> {
    assert_eq!(rt; RAISE_TRACE.len(), 209);
    for (read_fails, write_fails, line, written, want_status) in [
        (2, 0, "read fault program\n", "", 8),
        (3, 0, "read fault trace\n", "", 8),
        (6, 0, "read fault trace\n", "", 8),
        (7, 0, "", "legal complete\n", 0),
        (0, 1, "write fault\n", "", 9),
        (0, 2, "", "legal complete\n", 0),
    ] {
        let served = serve_by(
            rt.alloc(),
            "check p -1 t",
            RAISE,
            b"",
            RAISE_TRACE,
            100,
            read_fails,
            write_fails,
        )?;
        assert_eq!(rt;
            served.line.bytes(),
            line.as_bytes(),
            "{read_fails} {write_fails}"
        );
        assert_eq!(rt;
            served.sink.bytes(),
            written.as_bytes(),
            "{read_fails} {write_fails}"
        );
        assert_eq!(rt; status(&served), want_status, "{read_fails} {write_fails}");
    }
    Ok(())
}
/// A machine of one core.
const ONE_CORE: &[u8] = b"cores=1\nblocks=128\n";

/// A command over the files of `RAISE`, with the files that it reads in order.
struct Case {
    command: &'static str,
    reads: &'static [Which],
    /// What it writes, or what that begins with.
    output: &'static [u8],
}

const CASES: [Case; 5] = [
    Case {
        command: "sched p m rr 1000",
        reads: &[Which::Program, Which::Machine],
        output: RAISED,
    },
    Case {
        command: "sched p m rr 1000 trace",
        reads: &[Which::Program, Which::Machine],
        output: RAISE_TRACE,
    },
    Case {
        command: "asm p",
        reads: &[Which::Program],
        output: b".entry 0, L0\nL0: li r1, 4096\npinc r1, 0\npfence\nld r2, r1, 0\nout r2\nhalt\n",
    },
    Case {
        command: "check p m t",
        reads: &[Which::Program, Which::Machine, Which::Trace],
        output: b"legal complete\n",
    },
    Case {
        command: "gen 0",
        reads: &[],
        output: b".entry *, start\n.sum 65536, 4096\n",
    },
];

/// The file that read number `k`, at most 8, is of, where a command reads these. By reads of one byte it is of the first file,
/// which has more bytes; else each file has two reads, of which the second meets its end.
fn file_of_read(reads: &[Which], most: u32, k: u32) -> Option<Which> {
    let place = if most == 1 {
        0
    } else {
        k.saturating_sub(1) / 2
    };
    reads.get(place as usize).copied()
}

/// Whether a command whose read `k` fails ends with the fault of that file, and nothing written; or as it does without the
/// failure, where it has no such read.
fn tells_read(served: &Served, text: &[u8], file: Option<Which>) -> bool {
    let written = served.sink.bytes();
    match &served.result {
        Ok(_) => file.is_none() && written == text,
        Err(Fault::ReadFault { which }) => file == Some(*which) && written.is_empty(),
        Err(_) => false,
    }
}

/// Whether a command whose write `k` fails ends with the fault, and a front of its output written; or as it does without the
/// failure, where it has no such write. By writes of one byte it has more than 8, and the front is all before the failure.
fn tells_write(served: &Served, text: &[u8], most: u32, k: u32) -> bool {
    let written = served.sink.bytes();
    match &served.result {
        Ok(_) => most > 1 && k > 1 && written == text,
        Err(Fault::WriteFault) => {
            let len = written.len();
            text.starts_with(written)
                && if most == 1 {
                    len == k.saturating_sub(1) as usize
                } else {
                    len < text.len()
                }
        }
        Err(_) => false,
    }
}

/// Each command, by reads and writes of one byte or of many, with one of its first eight reads or writes that fails.
#[test]
fn outside_faults_are_told(rt: HostRuntime) -> Result<(), Fail> {
    for case in &CASES {
        let command = case.command;
        for most in [1u32, 5000] {
            assert!(rt; most > 0);
            let whole = serve_by(
                rt.alloc(),
                command,
                RAISE,
                ONE_CORE,
                RAISE_TRACE,
                most,
                0,
                0,
            )?;
            let text = whole.sink.bytes();
            assert!(rt;
                whole.result.is_ok() && text.starts_with(case.output),
                "{command} {most}"
            );
            for k in 1u32..9 {
                let file = file_of_read(case.reads, most, k);
                let served = serve_by(
                    rt.alloc(),
                    command,
                    RAISE,
                    ONE_CORE,
                    RAISE_TRACE,
                    most,
                    k,
                    0,
                )?;
                assert!(rt;
                    tells_read(&served, text, file),
                    "{command} {most} read {k}"
                );
                let served = serve_by(
                    rt.alloc(),
                    command,
                    RAISE,
                    ONE_CORE,
                    RAISE_TRACE,
                    most,
                    0,
                    k,
                )?;
                assert!(rt;
                    tells_write(&served, text, most, k),
                    "{command} {most} write {k}"
                );
            }
        }
    }
    Ok(())
}
