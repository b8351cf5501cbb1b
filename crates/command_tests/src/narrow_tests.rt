//! Runs on machines with caches of one line, a vault with a queue of one and few entries of the directory.

use crate::commands::{Served, serve, status};
use crate::programs::{NARROW, RAISE_BY_ALL, RAISE_HUNDRED};
use pei_cli::PlainEnd;
use pei_types::OutOfMemory;
use std::alloc::Global;
use std::test::Fail;

/// Each of two cores raises two words three times, and between loads and stores words of two other blocks. The words lie in
/// blocks 64 and 67, which share one of two entries of the directory.
const CONTENDED: &[u8] =
    b".entry *, s\n.show 4096, 1\n.show 4288, 1\ns: li r1, 4096\nli r3, 3\nloop: pinc r1, 0\npinc r1, 192\n\
ld r2, r1, 64\nst r2, r1, 128\npfence\nld r2, r1, 128\naddi r3, r3, -1\nbne r3, r0, loop\npfence\nhalt\n";

/// What `CONTENDED` writes once each core has ended.
const RAISED_BY_BOTH: &[u8] = b"core 0 halt\ncore 1 halt\nmem 4096 6\nmem 4288 6\nstatus 0\n";

/// Runs of all placements, on narrow caches and by several schedules, with blocks that share an entry of the directory, come to
/// the same memory, their traces are legal, and together they make each message. In turn, two cores may take a lone line from
/// each other for ever, so of the runs by round robin some end, and of the others the front is legal.
#[test]
fn traces_of_runs_are_legal(rt: HostRuntime) -> Result<(), Fail> {
    let mut made = [0u32; 9];
    let mut in_turn = 0u32;
    for machine in NARROW {
        for (report, trace, ends) in [
            ("sched p m rr 2000", "sched p m rr 2000 trace", false),
            (
                "sched p m serial 20000",
                "sched p m serial 20000 trace",
                true,
            ),
            ("sched p m 0 20000", "sched p m 0 20000 trace", true),
            ("sched p m 1 20000", "sched p m 1 20000 trace", true),
            ("sched p m 2 20000", "sched p m 2 20000 trace", true),
        ] {
            let machine = machine.as_bytes();
            let run = serve(rt.alloc(), report, CONTENDED, machine, b"")?;
            let ended = run.sink.bytes() == RAISED_BY_BOTH;
            assert!(rt; ended || !ends, "{report}");
            in_turn = in_turn.wrapping_add(u32::from(ended && !ends));
            if let Ok(PlainEnd::Sched { journal, .. }) = &run.result {
                let stats = journal.counts();
                for (count, one) in made.iter_mut().zip([
                    stats.inv,
                    stats.down,
                    stats.evict1,
                    stats.clean,
                    stats.evict2,
                    stats.fill,
                    stats.grants,
                    stats.grante,
                    stats.grantm,
                ]) {
                    *count = (*count).max(one);
                }
            }
            let told = serve(rt.alloc(), trace, CONTENDED, machine, b"")?;
            let verdict = serve(
                rt.alloc(),
                "check p m t",
                CONTENDED,
                machine,
                told.sink.bytes(),
            )?;
            let want: &[u8] = if ended {
                b"legal complete\n"
            } else {
                b"legal prefix\n"
            };
            assert_eq!(rt; verdict.sink.bytes(), want, "{trace}");
        }
    }
    for count in made {
        assert!(rt; count > 0);
    }
    assert!(rt; in_turn > 0);
    Ok(())
}

/// The words of a run under a seed, for 20,000 turns.
fn run_words(alloc: Global, seed: u32, behind: &str) -> Result<String, OutOfMemory> {
    format!(in alloc; "sched p m {seed} 20000{behind}").map_err(|_| OutOfMemory)
}

/// The trace of a run, and the verdict on it.
fn judged(
    alloc: Global,
    command: &str,
    program: &[u8],
    machine: &[u8],
) -> Result<(Served, Served), OutOfMemory> {
    let told = serve(alloc, command, program, machine, b"")?;
    let verdict = serve(alloc, "check p m t", program, machine, told.sink.bytes())?;
    Ok((told, verdict))
}

/// Under each of 64 seeds both cores come to their end with the word that they make together, or the turns are spent; the trace
/// is legal either way.
#[test]
fn runs_under_seeds_are_legal(rt: HostRuntime) -> Result<(), Fail> {
    let machine = NARROW[0].as_bytes();
    let raised = b"core 0 halt\ncore 1 halt\nmem 4096 6\nstatus 0\n";
    let mut ended = 0u32;
    for seed in 0u32..64 {
        let words = run_words(rt.alloc(), seed, " trace")?;
        let (told, verdict) = judged(rt.alloc(), words.as_str(), RAISE_BY_ALL, machine)?;
        if status(&told) == 0 {
            ended = ended.wrapping_add(1);
            let words = run_words(rt.alloc(), seed, "")?;
            let report = serve(rt.alloc(), words.as_str(), RAISE_BY_ALL, machine, b"")?;
            assert_eq!(rt; report.sink.bytes(), raised.as_slice(), "{seed}");
            assert_eq!(rt;
                verdict.sink.bytes(),
                b"legal complete\n".as_slice(),
                "{seed}"
            );
        } else {
            assert_eq!(rt; status(&told), 7, "{seed}");
            assert_eq!(rt;
                verdict.sink.bytes(),
                b"legal prefix\n".as_slice(),
                "{seed}"
            );
        }
        assert_eq!(rt; status(&verdict), 0, "{seed}");
    }
    assert!(rt; ended > 0);
    Ok(())
}

/// How many lines a text has.
fn line_count(text: &[u8]) -> u32 {
    let mut lines = 0u32;
    for byte in text {
        if *byte == b'\n' {
            lines = lines.saturating_add(1);
        }
    }
    lines
}

/// A journal that is full before the core has ended is that of a front of the run: 64 events, behind the first line.
#[test]
fn a_full_journal_is_a_legal_front(rt: HostRuntime) -> Result<(), Fail> {
    let (told, verdict) = judged(
        rt.alloc(),
        "sched p m rr 100000 trace",
        RAISE_HUNDRED,
        b"cores = 1\nblocks = 1024\nevents = 64\n",
    )?;
    assert_eq!(rt; (status(&told), line_count(told.sink.bytes())), (6, 65));
    assert_eq!(rt; verdict.sink.bytes(), b"legal prefix\n".as_slice());
    assert_eq!(rt; status(&verdict), 0);
    Ok(())
}
