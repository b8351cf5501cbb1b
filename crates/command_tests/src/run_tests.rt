//! Runs by the top call, with reports, traces, events and turns worked out by hand.
//!
//! The rows of `runs_are_reported` take each step that can want memory, with ample memory.

use crate::commands::{serve, serve_by, status};
use crate::programs::{
    RAISE, RAISE_APART, RAISE_BY_ALL, RAISE_HUNDRED, RAISE_TRACE, RAISED, RAISED_APART,
};
use pei_cli::PlainEnd;
use std::test::Fail;

/// One core puts 7 out.
const SEVEN: &[u8] = b".entry 0, s\ns: li r1, 7\nout r1\nhalt\n";

/// One core raises a word three times: twice in memory, and then at the host.
const RAISE_THRICE: &[u8] =
    b".entry 0, s\n.show 4096, 1\n.stats\ns: li r1, 4096\npinc r1, 0\npinc r1, 0\npinc r1, 0\npfence\nhalt\n";

/// What `RAISE_THRICE` writes.
const RAISED_THRICE: &[u8] =
    b"core 0 halt\nmem 4096 3\nstat events 23\nstat loads 0\nstat stores 0\nstat issues 3\n\
stat host 1\nstat memory 2\nstat reads 1\nstat seals 2\nstat acts 3\nstat fences 1\nstat races 0\nstat inv 0\n\
stat down 0\nstat evict1 0\nstat clean 0\nstat evict2 0\nstat fill 1\nstat grants 0\nstat grante 0\nstat grantm 1\n\
status 0\n";

/// One core loads a word that an operation of its own has yet to raise.
const RACING: &[u8] = b".entry 0, s\ns: li r1, 4096\npinc r1, 0\nld r2, r1, 0\nout r2\nhalt\n";

/// A run.
struct Row {
    command: &'static str,
    program: &'static [u8],
    machine: &'static [u8],
    /// The bytes that a read or a write moves at most.
    most: u32,
    /// What it writes.
    want: &'static [u8],
    status: u8,
    /// The numbers of its events and of its turns, where they were worked out.
    events: Option<u32>,
    turns: Option<u64>,
}

/// One row, with a read and a write that move all.
const ROW: Row = Row {
    command: "sched p -1 rr 1000",
    program: RAISE,
    machine: b"",
    most: 5000,
    want: RAISED,
    status: 0,
    events: Some(13),
    turns: Some(61),
};

/// With four entries of its operand buffer a core has five actors, so each of its turns but the first comes five turns
/// behind the one before; with one entry, two turns. With two entries of the directory, blocks 64 and 67 share one, and the
/// second core's PEI enters behind the first one's end.
const REPORTED: [Row; 18] = [
    ROW,
    Row { most: 1, ..ROW },
    Row {
        command: "sched p -1 serial 1000",
        turns: Some(21),
        ..ROW
    },
    Row {
        command: "sched p -1 rr 1000 trace",
        want: RAISE_TRACE,
        ..ROW
    },
    Row {
        command: "sched p -1 serial 1000 trace",
        want: RAISE_TRACE,
        most: 1,
        turns: Some(21),
        ..ROW
    },
    Row {
        command: "sched p -1 rr 60",
        want: b"out 0 1\ncore 0 unfinished\nstatus 7\n",
        status: 7,
        events: Some(12),
        turns: Some(60),
        ..ROW
    },
    Row {
        command: "sched p -1 rr 0",
        want: b"core 0 unfinished\nstatus 7\n",
        status: 7,
        events: Some(0),
        turns: Some(0),
        ..ROW
    },
    Row {
        program: SEVEN,
        want: b"out 0 7\ncore 0 halt\nstatus 0\n",
        events: Some(2),
        turns: Some(6),
        ..ROW
    },
    Row {
        command: "sched p -2 rr 10000",
        program: RAISE_BY_ALL,
        want: b"core 0 halt\ncore 1 halt\nmem 4096 6\nstatus 0\n",
        events: None,
        turns: None,
        ..ROW
    },
    Row {
        command: "sched p -1 serial 1000",
        program: RAISE_THRICE,
        want: RAISED_THRICE,
        events: Some(23),
        turns: Some(37),
        ..ROW
    },
    Row {
        program: RACING,
        want: b"core 0 race 2 64 0 0\nstatus 5\n",
        status: 5,
        events: Some(8),
        turns: Some(36),
        ..ROW
    },
    Row {
        command: "sched p -1 serial 1000",
        program: RACING,
        want: b"core 0 race 2 64 0 0\nstatus 5\n",
        status: 5,
        events: Some(8),
        turns: Some(16),
        ..ROW
    },
    Row {
        command: "sched p m rr 100000",
        program: RAISE_HUNDRED,
        machine: b"cores = 1\nblocks = 1024\nevents = 64\n",
        want: b"core 0 unfinished\nstatus 6\n",
        status: 6,
        events: Some(64),
        turns: None,
        ..ROW
    },
    Row {
        command: "sched p -9 rr 1000",
        machine: b"cores = 1\nblocks = 1024\nbuffer = 1\n",
        most: 1,
        turns: Some(25),
        ..ROW
    },
    Row {
        command: "sched p m rr 1000",
        machine: b"cores = 1\nblocks = 64\n",
        want: b"core 0 trap 1 range\nstatus 5\n",
        status: 5,
        events: Some(1),
        turns: Some(1),
        ..ROW
    },
    Row {
        command: "sched p m rr 1000",
        machine: b"cores = 1\nblocks = 128\nbanks = 2\n",
        ..ROW
    },
    Row {
        command: "sched p m rr 1000",
        program: RAISE_APART,
        machine: b"cores = 2\nblocks = 128\n",
        want: RAISED_APART,
        events: Some(14),
        turns: Some(76),
        ..ROW
    },
    Row {
        command: "sched p m rr 1000",
        program: RAISE_APART,
        machine: b"cores = 2\nblocks = 128\ndirectory = 2\n",
        want: RAISED_APART,
        events: Some(14),
        turns: Some(136),
        ..ROW
    },
];

#[test]
fn runs_are_reported(rt: HostRuntime) -> Result<(), Fail> {
    for row in &REPORTED {
        let command = row.command;
        assert!(rt; row.most > 0);
        let served = serve_by(
            rt.alloc(),
            command,
            row.program,
            row.machine,
            b"",
            row.most,
            0,
            0,
        )?;
        assert_eq!(rt; served.sink.bytes(), row.want, "{command}");
        let Ok(PlainEnd::Sched { journal, turns, .. }) = &served.result else {
            assert!(rt; false, "{command}");
            continue;
        };
        assert_eq!(rt; status(&served), row.status, "{command}");
        assert!(rt;
            row.events.is_none_or(|events| events == journal.len()),
            "{command}"
        );
        assert!(rt; row.turns.is_none_or(|most| most == *turns), "{command}");
    }
    Ok(())
}

#[test]
fn runs_come_to_their_end(rt: HostRuntime) -> Result<(), Fail> {
    for command in [
        "sched p -1 01 100000",
        "sched p -1 18446744073709551615 100000",
        "sched p -1 serial 640064",
    ] {
        let served = serve(rt.alloc(), command, RAISE, b"", b"")?;
        assert_eq!(rt; served.sink.bytes(), RAISED, "{command}");
        assert_eq!(rt; status(&served), 0, "{command}");
    }
    Ok(())
}

/// Programs with one core, what they write, and their status. The statistics are those of `RAISE`. The word at 4096
/// becomes 42, the next one is the largest, and the one behind it is 0: their sum wraps to 41.
const RUNS: [(&str, &str, u8); 10] = [
    (
        ".entry 0, s\n.data 4096, 41, -1\n.show 4096, 2\n.sum 4096, 3\n.show 8, 0\n.stats\ns: li r1, 4096\npinc r1, 0\n\
pfence\nld r2, r1, 0\nout r2\nhalt",
        "out 0 42\ncore 0 halt\nmem 4096 42\nmem 4104 18446744073709551615\nsum 4096 3 41\n\
stat events 13\nstat loads 1\nstat stores 0\nstat issues 1\nstat host 0\nstat memory 1\nstat reads 0\n\
stat seals 1\nstat acts 1\nstat fences 1\nstat races 0\nstat inv 0\nstat down 0\nstat evict1 0\nstat clean 0\n\
stat evict2 0\nstat fill 1\nstat grants 0\nstat grante 1\nstat grantm 0\nstatus 0\n",
        0,
    ),
    (
        ".entry 0, s\n.data 4096, 5\n.show 4096, 1\ns: li r1, 4096\nli r2, 5\npmin r1, 0, r2\nli r2, -1\npmin r1, 0, r2\n\
pfence\nhalt",
        "core 0 halt\nmem 4096 5\nstatus 0\n",
        0,
    ),
    (
        ".entry 0, s\n.data 4096, 18446744073709551615\n.show 4096, 1\ns: li r1, 4096\npinc r1, 0\nhalt",
        "core 0 halt\nmem 4096 0\nstatus 0\n",
        0,
    ),
    (
        ".entry 0, s\n.data 4096, 7, 70, 7, 71, 9, 90, 0, 8192\n.data 4160, 7, 70, 7, 71, 9, 90, 9, 8192\ns: li r1, 4096\n\
li r2, 7\npprobe r4, r1, 0, r2\nout r4\nout r5\npprobe r4, r1, 64, r2\nout r4\nout r5\nli r2, 9\n\
pprobe r4, r1, 64, r2\nout r4\nout r5\nhalt",
        "out 0 0\nout 0 8192\nout 0 1\nout 0 70\nout 0 1\nout 0 90\ncore 0 halt\nstatus 0\n",
        0,
    ),
    (
        ".entry 0, s\n.data 4096, 0xAB00000012345678\ns: li r1, 4096\nli r2, 24\nphist r4, r1, 0, r2\nout r4\nout r5\n\
li r2, 25\nphist r6, r1, 0, r2\nhalt",
        "out 0 43794\nout 0 0\ncore 0 trap 6 shift\nstatus 5\n",
        5,
    ),
    (
        ".entry 0, s\n.data 4096, 0x8000000080000000, 0x8000000080000000, 0x8000000080000000, 0x8000000080000000, \
0x8000000080000000, 0x8000000080000000, 0x8000000080000000, 0x8000000080000000\ns: li r1, 4096\n\
li r4, 0x8000800080008000\nli r5, 0x8000800080008000\nli r6, 0x8000800080008000\nli r7, 0x8000800080008000\n\
pdot r8, r1, 0, r4\nout r8\nhalt",
        "out 0 1125899906842624\ncore 0 halt\nstatus 0\n",
        0,
    ),
    (".entry 0, l\nl: jmp l", "core 0 fuel\nstatus 5\n", 5),
    (
        ".entry 0, s\ns: ld r1, r0, 4",
        "core 0 trap 0 align\nstatus 5\n",
        5,
    ),
    (
        ".entry 0, s\ns: ld r1, r0, 262144",
        "core 0 trap 0 range\nstatus 5\n",
        5,
    ),
    (".entry 0, e\ne:", "core 0 trap 0 pc\nstatus 5\n", 5),
];

#[test]
fn operations_traps_and_asks_are_reported(rt: HostRuntime) -> Result<(), Fail> {
    for (program, want, want_status) in RUNS {
        let served = serve(
            rt.alloc(),
            "sched p -1 rr 10000",
            program.as_bytes(),
            b"",
            b"",
        )?;
        assert_eq!(rt; served.sink.bytes(), want.as_bytes(), "{program}");
        assert_eq!(rt; status(&served), want_status, "{program}");
    }
    Ok(())
}

/// A generated program, the words that run it, its machine, and what it writes. One core makes 64 increments, and four cores
/// make 512 each.
const GENERATED: [(&str, &str, &str, &str); 2] = [
    (
        "gen 0",
        "sched p -1 rr 1000000",
        "",
        "core 0 halt\nsum 65536 4096 64\nstatus 0\n",
    ),
    (
        "gen 7",
        "sched p m rr 100000000",
        "cores = 4\nblocks = 65536\n",
        "core 0 halt\ncore 1 halt\ncore 2 halt\ncore 3 halt\nsum 65536 4096 2048\nstatus 0\n",
    ),
];

#[test]
fn generated_programs_run(rt: HostRuntime) -> Result<(), Fail> {
    for (generate, run, machine, want) in GENERATED {
        let program = serve(rt.alloc(), generate, b"", b"", b"")?;
        let served = serve(
            rt.alloc(),
            run,
            program.sink.bytes(),
            machine.as_bytes(),
            b"",
        )?;
        assert_eq!(rt; served.sink.bytes(), want.as_bytes(), "{generate}");
        assert_eq!(rt; status(&served), 0, "{generate}");
    }
    Ok(())
}
