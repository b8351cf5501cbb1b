//! The check of traces by the top call. The verdicts are worked out by hand.

use crate::commands::{serve, serve_by, status};
use crate::programs::{RAISE, RAISE_TRACE};
use crate::refusal_tests::USAGE;
use pei_cli::Fault;
use pei_types::OutOfMemory;
use std::alloc::Global;
use std::test::Fail;

/// The trace of `RAISE` with these bytes in place of its lines from one line up to, but without, another.
fn changed(alloc: Global, from: u32, to: u32, lines: &str) -> Result<Vec<u8>, OutOfMemory> {
    let mut text = Vec::new(alloc);
    let mut whole = true;
    let mut line = 1u32;
    for byte in RAISE_TRACE {
        if line < from || line >= to {
            whole &= text.push(*byte).is_ok();
        }
        if *byte == b'\n' {
            line = line.saturating_add(1);
            if line == from {
                whole &= text.extend_from_slice(lines.as_bytes()).is_ok();
            }
        }
    }
    if whole { Ok(text) } else { Err(OutOfMemory) }
}

/// Lines of the trace, by the first and the one behind the last, what stands in their place, what is written, and the
/// status. Line 2 issues PEI 0, which lines 4 to 8 run in memory; the fence ends in line 9, behind which the block is filled,
/// granted and loaded.
const CHANGES: [(u32, u32, &str, &str, u8); 17] = [
    (2, 2, "", "legal complete\n", 0),
    (14, 15, "", "legal prefix\n", 0),
    (12, 13, "0.0 load 4096 2\n", "illegal 12 replies\n", 12),
    (10, 11, "", "illegal 10 guard\n", 12),
    (5, 6, "0.1 place 0 host\n", "illegal 5 monitor\n", 12),
    (8, 10, "0.0 fend\n0.1 leave 0\n", "illegal 8 fence\n", 12),
    (9, 11, "0.0 fill 64\n0.0 fend\n", "illegal 9 next\n", 12),
    (7, 8, "0.1 act 0 1 0 0\n", "illegal 7 replies\n", 12),
    (9, 9, "0.1 act 0 1 0 0\n", "illegal 9 replies\n", 12),
    (9, 9, "0.1 act 0 0 0 0\n", "illegal 9 calls\n", 12),
    (10, 10, "0.0 fend\n", "illegal 10 calls\n", 12),
    (4, 5, "0.1 enter 1\n", "illegal 4 calls\n", 12),
    (14, 15, "1.0 end halt\n", "illegal 14 calls\n", 12),
    (14, 15, "0.0 end fuel\n", "illegal 14 calls\n", 12),
    (2, 4, "0.0 load 4096 0\n", "illegal 2 calls\n", 12),
    (15, 15, "0.0 evict1 0 64\n", "illegal 15 recency\n", 12),
    (15, 15, "0.0 fill 65\n", "illegal 15 next\n", 12),
];

#[test]
fn changed_traces_are_judged(rt: HostRuntime) -> Result<(), Fail> {
    for (from, to, lines, want, want_status) in CHANGES {
        let trace = changed(rt.alloc(), from, to, lines)?;
        let served = serve(rt.alloc(), "check p -1 t", RAISE, b"", trace.as_slice())?;
        assert_eq!(rt; served.sink.bytes(), want.as_bytes(), "{from} {lines}");
        assert_eq!(rt; served.line.bytes(), b"".as_slice(), "{from} {lines}");
        assert_eq!(rt; status(&served), want_status, "{from} {lines}");
    }
    Ok(())
}

/// A core loads a word that an operation of its own has yet to raise.
const RACING: &str = ".entry 0, s\ns: li r1, 4096\npinc r1, 0\nld r2, r1, 0\nhalt";

/// Each core raises the same word.
const RAISE_BY_ALL: &str = ".entry *, s\ns: li r1, 4096\npinc r1, 0\nhalt";

/// Core 0 raises a word, and core 1 loads it.
const APART: &str =
    ".entry 0, a\n.entry 1, b\na: li r1, 4096\npinc r1, 0\nhalt\nb: li r1, 4096\nld r2, r1, 0\nhalt";

/// Programs, what is behind the first two lines of a trace, of which the second issues PEI 0 of core 0, and the verdict.
/// The lone load comes before the operation of its own core, and the other one races with it; told as a race each is legal.
/// Two writers can't be in one entry of the directory.
const SHORT: [(&str, &str, &str); 6] = [
    (RACING, "0.0 load 4096 0\n", "illegal 3 order\n"),
    (RACING, "0.0 race 2 64 0 0\n", "legal prefix\n"),
    (RACING, "0.0 race 2 64 0 1\n", "illegal 3 race\n"),
    (APART, "1.0 load 4096 0\n", "illegal 3 race\n"),
    (APART, "1.0 race 4 64 0 0\n", "legal prefix\n"),
    (
        RAISE_BY_ALL,
        "1.0 issue 0 1 pinc 4096 0 0 0 0\n0.1 enter 0\n1.1 enter 0\n",
        "illegal 5 directory\n",
    ),
];

#[test]
fn order_races_and_the_directory_are_judged(rt: HostRuntime) -> Result<(), Fail> {
    for (program, lines, want) in SHORT {
        let command = if program.as_bytes() == RACING.as_bytes() {
            "check p -1 t"
        } else {
            "check p -2 t"
        };
        let mut trace = Vec::new(rt.alloc());
        let mut whole = trace
            .extend_from_slice(b"peisim-trace 1 mesi\n0.0 issue 0 1 pinc 4096 0 0 0 0\n")
            .is_ok();
        whole &= trace.extend_from_slice(lines.as_bytes()).is_ok();
        assert!(rt; whole);
        let served = serve(
            rt.alloc(),
            command,
            program.as_bytes(),
            b"",
            trace.as_slice(),
        )?;
        assert_eq!(rt; served.sink.bytes(), want.as_bytes(), "{lines}");
    }
    Ok(())
}

/// Cut behind a line feed the trace is that of a front of the run. Else the line that the cut falls in is bad.
#[test]
fn a_trace_is_judged_at_every_cut(rt: HostRuntime) -> Result<(), Fail> {
    let mut line = 1u32;
    for cut in 0..=RAISE_TRACE.len() {
        let ends = cut > 0 && RAISE_TRACE[cut - 1] == b'\n';
        if ends {
            line = line.saturating_add(1);
        }
        let served = serve(rt.alloc(), "check p -1 t", RAISE, b"", &RAISE_TRACE[..cut])?;
        if ends {
            let want = if cut == RAISE_TRACE.len() {
                "legal complete\n"
            } else {
                "legal prefix\n"
            };
            assert_eq!(rt; served.sink.bytes(), want.as_bytes(), "{cut}");
            assert_eq!(rt; status(&served), 0, "{cut}");
        } else {
            let Err(Fault::TraceBad { line: bad }) = &served.result else {
                assert!(rt; false, "{cut}");
                continue;
            };
            assert_eq!(rt; *bad, line, "{cut}");
            assert_eq!(rt; status(&served), 11, "{cut}");
            assert_eq!(rt; served.sink.bytes(), b"".as_slice(), "{cut}");
        }
    }
    Ok(())
}

/// A program of one core that halts.
const HALT: &str = ".entry 0, s\ns: halt";

/// A check that is refused.
struct Refused {
    command: &'static str,
    program: &'static str,
    machine: &'static str,
    trace: &'static str,
    status: u8,
    /// The line of its fault.
    line: &'static str,
}

/// Commands over a program, a machine and a trace, their status, and the line of their fault: of the program's, the
/// machine's, that of loading and the trace's the first is told.
const REFUSED: [Refused; 9] = [
    Refused {
        command: "check p m t",
        program: "frobnicate",
        machine: "cores = 9\n",
        trace: "",
        status: 3,
        line: "program bad 1:1 UnknownName\n",
    },
    Refused {
        command: "check p m t",
        program: "",
        machine: "cores = 9\nblocks = 64\n",
        trace: "",
        status: 4,
        line: "machine bad OutOfLimits cores\n",
    },
    Refused {
        command: "check p -1 t",
        program: "",
        machine: "",
        trace: "",
        status: 3,
        line: "load bad NoEntry 0\n",
    },
    Refused {
        command: "check p -2 t",
        program: HALT,
        machine: "",
        trace: "",
        status: 3,
        line: "load bad NoEntry 1\n",
    },
    Refused {
        command: "check p -1 t",
        program: HALT,
        machine: "",
        trace: "",
        status: 11,
        line: "trace bad 1\n",
    },
    Refused {
        command: "check p -1 t",
        program: HALT,
        machine: "",
        trace: "peisim-trace 3 mesi\n",
        status: 11,
        line: "trace bad 1\n",
    },
    Refused {
        command: "check p -1 t",
        program: HALT,
        machine: "",
        trace: "peisim-trace 1 mesi\n00.0 fend\n",
        status: 11,
        line: "trace bad 2\n",
    },
    Refused {
        command: "check p -1",
        program: HALT,
        machine: "",
        trace: "",
        status: 2,
        line: USAGE,
    },
    Refused {
        command: "check p -1 t more",
        program: HALT,
        machine: "",
        trace: "",
        status: 2,
        line: USAGE,
    },
];

#[test]
fn refused_checks_write_nothing(rt: HostRuntime) -> Result<(), Fail> {
    for row in &REFUSED {
        let line = row.line;
        let served = serve(
            rt.alloc(),
            row.command,
            row.program.as_bytes(),
            row.machine.as_bytes(),
            row.trace.as_bytes(),
        )?;
        assert_eq!(rt; served.line.bytes(), line.as_bytes(), "{line}");
        assert_eq!(rt; status(&served), row.status, "{line}");
        assert_eq!(rt; served.sink.bytes(), b"".as_slice(), "{line}");
    }
    Ok(())
}
