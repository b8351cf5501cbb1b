//! Commands by threads and the checks of their traces, as the tests make them; and the worked rows.

use pei_cli::{Fault, PlainEnd, RunEnd, Verdict, plain, threaded};
use pei_io::{FreeGate, Gate, MemFiles, MemSink, Text};
use pei_types::{EndKind, OutOfMemory};
use std::alloc::Global;
use std::sync::Wait;
use std::test::Fail;
use std::thread::Threads;

/// Two cores raise one word a hundred times each.
pub(crate) const RAISE_HUNDRED: &[u8] =
    b".entry *, s\n.show 4096, 1\ns: li r1, 4096\nli r2, 100\nloop: pinc r1, 0\naddi r2, r2, -1\n\
bne r2, r0, loop\npfence\nhalt\n";

/// What two cores write of it, by whatever interleaving.
pub(crate) const RAISED_BY_TWO: &[u8] = b"core 0 halt\ncore 1 halt\nmem 4096 200\nstatus 0\n";

/// What a command by threads came to, and what it wrote.
#[derive(Drop)]
pub(crate) struct Ended {
    pub(crate) result: Result<RunEnd, Fault>,
    pub(crate) sink: MemSink,
}

/// The words of a command, split at spaces.
pub(crate) fn words(alloc: Global, command: &str) -> Result<Vec<Text>, OutOfMemory> {
    let mut words = Vec::new(alloc);
    for word in command.split(' ') {
        if words.push(Text::make(alloc, word)?).is_err() {
            return Err(OutOfMemory);
        }
    }
    Ok(words)
}

/// Serves a command by threads, over a program and a machine of these bytes.
pub(crate) fn run<R: Threads + Wait + Sync, G: Gate>(
    rt: &R,
    alloc: Global,
    command: &str,
    program: &[u8],
    machine: &[u8],
    gate: &G,
) -> Result<Ended, OutOfMemory> {
    let words = words(alloc, command)?;
    let mut files = MemFiles::make(alloc, program, machine, b"", b"", 5000, &[])?;
    let mut sink = MemSink::make(alloc, 4_000_000, 5000, &[])?;
    let result = threaded(rt, alloc, words.as_slice(), &mut files, &mut sink, gate);
    Ok(Ended { result, sink })
}

/// What a command without threads writes, over a program and a machine of these bytes.
pub(crate) fn written(
    alloc: Global,
    command: &str,
    program: &[u8],
    machine: &[u8],
) -> Result<MemSink, OutOfMemory> {
    let words = words(alloc, command)?;
    let mut files = MemFiles::make(alloc, program, machine, b"", b"", 5000, &[])?;
    let mut sink = MemSink::make(alloc, 4_000_000, 5000, &[])?;
    let _ = plain(alloc, words.as_slice(), &mut files, &mut sink);
    Ok(sink)
}

/// The verdict on a trace, by `check p m t`; none where the check was refused.
pub(crate) fn verdict(
    alloc: Global,
    program: &[u8],
    machine: &[u8],
    trace: &[u8],
) -> Result<Option<Verdict>, OutOfMemory> {
    let words = words(alloc, "check p m t")?;
    let mut files = MemFiles::make(alloc, program, machine, trace, b"", 65536, &[])?;
    let mut sink = MemSink::make(alloc, 100, 100, &[])?;
    match plain(alloc, words.as_slice(), &mut files, &mut sink) {
        Ok(PlainEnd::Checked { verdict, .. }) => Ok(Some(verdict)),
        _ => Ok(None),
    }
}

/// The status of a run; 255 of a fault.
pub(crate) fn status(ended: &Ended) -> u8 {
    match &ended.result {
        Ok(end) => end.status,
        Err(_) => 255,
    }
}

/// How many events the journal of a run has; none of a fault.
pub(crate) fn events(ended: &Ended) -> Option<usize> {
    match &ended.result {
        Ok(end) => Some(end.journal.events().len()),
        Err(_) => None,
    }
}

/// How many cores halted.
fn halted(ended: &Ended) -> usize {
    match &ended.result {
        Ok(end) => end
            .cores
            .iter()
            .filter(|end| **end == Some(EndKind::Halt))
            .count(),
        Err(_) => 0,
    }
}

#[test]
fn two_cores_add_up(rt: HostRuntime) -> Result<(), Fail> {
    let ended = run(&rt, rt.alloc(), "run p -2", RAISE_HUNDRED, b"", &FreeGate)?;
    assert_eq!(rt; ended.sink.bytes(), RAISED_BY_TWO);
    assert_eq!(rt; status(&ended), 0);
    assert_eq!(rt; halted(&ended), 2);
    Ok(())
}

/// Four cores make 512 increments each.
const INCREMENTED: &[u8] =
    b"core 0 halt\ncore 1 halt\ncore 2 halt\ncore 3 halt\nsum 65536 4096 2048\nstatus 0\n";

#[test]
fn generated_programs_are_legal_on_four_banks(rt: HostRuntime) -> Result<(), Fail> {
    let made = written(rt.alloc(), "gen 7", b"", b"")?;
    let machine = b"cores = 4\nblocks = 65536\nbanks = 4\n";
    let report = run(&rt, rt.alloc(), "run p m", made.bytes(), machine, &FreeGate)?;
    assert_eq!(rt; report.sink.bytes(), INCREMENTED);
    assert_eq!(rt; status(&report), 0);
    let trace = run(
        &rt,
        rt.alloc(),
        "run p m trace",
        made.bytes(),
        machine,
        &FreeGate,
    )?;
    let verdict = verdict(rt.alloc(), made.bytes(), machine, trace.sink.bytes())?;
    assert_eq!(rt; verdict, Some(Verdict::Legal { complete: true }));
    Ok(())
}

/// Each of four cores sums and raises words of its own blocks, with loads, stores and operations.
const APART: &[u8] =
    b".entry 0, a\n.entry 1, b\n.entry 2, c\n.entry 3, d\n.show 8192, 1\n.show 16384, 1\n\
.show 24576, 1\n.show 32768, 1\na: li r1, 8192\nbeq r0, r0, go\nb: li r1, 16384\nbeq r0, r0, go\n\
c: li r1, 24576\nbeq r0, r0, go\nd: li r1, 32768\ngo: li r2, 20\nloop: pinc r1, 0\npfence\nld r3, r1, 0\n\
addi r3, r3, 1\nst r3, r1, 0\naddi r2, r2, -1\nbne r2, r0, loop\nld r4, r1, 0\nout r4\nhalt\n";

/// Each core's word is raised twice in each of its twenty rounds.
const SUMMED: &[u8] =
    b"out 0 40\ncore 0 halt\nout 1 40\ncore 1 halt\nout 2 40\ncore 2 halt\nout 3 40\ncore 3 halt\n\
mem 8192 40\nmem 16384 40\nmem 24576 40\nmem 32768 40\nstatus 0\n";

/// A machine of four cores, by its banks.
pub(crate) const BANKS: [(&str, &[u8]); 4] = [
    ("1", b"cores = 4\nblocks = 4096\nvaults = 8\nbanks = 1\n"),
    ("2", b"cores = 4\nblocks = 4096\nvaults = 8\nbanks = 2\n"),
    ("4", b"cores = 4\nblocks = 4096\nvaults = 8\nbanks = 4\n"),
    ("8", b"cores = 4\nblocks = 4096\nvaults = 8\nbanks = 8\n"),
];

#[test]
fn cores_apart_report_as_by_schedule(rt: HostRuntime) -> Result<(), Fail> {
    for (banks, machine) in BANKS {
        let ended = run(&rt, rt.alloc(), "run p m", APART, machine, &FreeGate)?;
        let scheduled = written(rt.alloc(), "sched p m rr 1000000", APART, machine)?;
        assert_eq!(rt; ended.sink.bytes(), SUMMED, "{banks}");
        assert_eq!(rt; scheduled.bytes(), SUMMED, "{banks}");
    }
    Ok(())
}
