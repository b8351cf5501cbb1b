//! Journals of runs by threads: legal by `check`, by whatever interleaving.

use crate::commands::{BANKS, RAISE_HUNDRED, events, run, status, verdict};
use pei_cli::Verdict;
use pei_io::FreeGate;
use pei_types::{Event, EventKind};
use std::test::Fail;

/// Two cores raise words of two blocks, 64 and 67.
const RAISE_APART: &[u8] =
    b".entry 0, a\n.entry 1, b\n.show 4096, 1\n.show 4288, 1\na: li r1, 4096\npinc r1, 0\nhalt\n\
b: li r1, 4288\npinc r1, 0\nhalt\n";

const RAISED_APART: &[u8] = b"core 0 halt\ncore 1 halt\nmem 4096 1\nmem 4288 1\nstatus 0\n";

/// Where the two blocks share an entry of the directory, by the banks.
const ALIASES: [&[u8]; 2] = [
    b"cores = 2\nblocks = 128\ndirectory = 2\nvaults = 2\n",
    b"cores = 2\nblocks = 128\ndirectory = 2\nvaults = 2\nbanks = 2\n",
];

/// The places of the events of this core that enter its PEI and that end it.
fn stay(events: &[Event], core: u8) -> (usize, usize) {
    let mut stay = (0, 0);
    for i in 0..events.len() {
        if events[i].actor.core.0 == core {
            match events[i].kind {
                EventKind::Enter { .. } => stay.0 = i,
                EventKind::Leave { .. } => stay.1 = i,
                _ => {}
            }
        }
    }
    stay
}

/// Whether the PEIs of cores 0 and 1 were not active at once.
fn takes_turns(events: &[Event]) -> bool {
    let (one, other) = (stay(events, 0), stay(events, 1));
    one.1 < other.0 || other.1 < one.0
}

#[test]
fn aliases_enter_one_behind_the_other(rt: HostRuntime) -> Result<(), Fail> {
    for machine in ALIASES {
        let ended = run(&rt, rt.alloc(), "run p m", RAISE_APART, machine, &FreeGate)?;
        assert_eq!(rt; ended.sink.bytes(), RAISED_APART);
        let turns = match &ended.result {
            Ok(end) => takes_turns(end.journal.events()),
            Err(_) => false,
        };
        assert!(rt; turns);
    }
    Ok(())
}

/// Four cores raise, load and store words of one block. Each waits for its own operations before it loads, so what it reads
/// depends on the interleaving.
const SHARING: &[u8] =
    b".entry *, s\ns: li r1, 4096\nli r2, 12\nloop: pinc r1, 0\npfence\nld r3, r1, 8\nout r3\n\
st r2, r1, 8\npmin r1, 0, r2\npfence\naddi r2, r2, -1\nbne r2, r0, loop\nhalt\n";

/// The same without fences, so that whether a race is told depends on the interleaving too.
const RACING: &[u8] =
    b".entry *, s\ns: li r1, 4096\nli r2, 12\nloop: pinc r1, 0\nld r3, r1, 8\nout r3\n\
st r2, r1, 8\npmin r1, 0, r2\naddi r2, r2, -1\nbne r2, r0, loop\nhalt\n";

#[test]
fn racing_cores_have_legal_traces(rt: HostRuntime) -> Result<(), Fail> {
    for (banks, machine) in BANKS {
        let trace = run(&rt, rt.alloc(), "run p m trace", RACING, machine, &FreeGate)?;
        let verdict = verdict(rt.alloc(), RACING, machine, trace.sink.bytes())?;
        assert_eq!(rt; verdict, Some(Verdict::Legal { complete: true }), "{banks}");
    }
    Ok(())
}

/// Caches of one line, one vault with a queue of one, and an operand buffer of one.
const ONE_LINE: &[u8] =
    b"cores = 4\nblocks = 1024\nl1_sets = 1\nl1_ways = 1\nllc_sets = 1\nllc_ways = 1\nvaults = 1\n\
queue = 1\nbuffer = 1\n";

#[test]
fn one_line_caches_have_legal_traces(rt: HostRuntime) -> Result<(), Fail> {
    for program in [SHARING, RACING, RAISE_HUNDRED] {
        let trace = run(
            &rt,
            rt.alloc(),
            "run p m trace",
            program,
            ONE_LINE,
            &FreeGate,
        )?;
        let verdict = verdict(rt.alloc(), program, ONE_LINE, trace.sink.bytes())?;
        assert_eq!(rt; verdict, Some(Verdict::Legal { complete: true }));
    }
    Ok(())
}

/// Four cores whose journal has room for 64 events, by the banks.
const SMALL: [&[u8]; 2] = [
    b"cores = 4\nblocks = 4096\nevents = 64\n",
    b"cores = 4\nblocks = 4096\nevents = 64\nbanks = 4\n",
];

#[test]
fn a_full_journal_ends_the_run(rt: HostRuntime) -> Result<(), Fail> {
    for machine in SMALL {
        let trace = run(
            &rt,
            rt.alloc(),
            "run p m trace",
            RAISE_HUNDRED,
            machine,
            &FreeGate,
        )?;
        assert_eq!(rt; status(&trace), 6);
        assert_eq!(rt; events(&trace), Some(64));
        let verdict = verdict(rt.alloc(), RAISE_HUNDRED, machine, trace.sink.bytes())?;
        assert_eq!(rt; verdict, Some(Verdict::Legal { complete: false }));
    }
    Ok(())
}

/// One core stores in block 64, which lies in bank 0, in block 65 of bank 1, and again in block 64.
const THREE_STORES: &[u8] =
    b".entry 0, s\ns: li r1, 7\nst r1, r0, 4096\nst r1, r0, 4160\nst r1, r0, 4104\nhalt\n";

/// Two banks below one core.
const TWO_BANKS: &[u8] = b"cores = 1\nblocks = 128\nbanks = 2\nevents = 64\n";

/// Its trace: one core's thread makes the events of its program in order.
const STORED: &[u8] =
    b"peisim-trace 1 mesi\n0.0 fill 64\n0.0 grantm 64\n0.0 store 4096 7\n0.0 fill 65\n0.0 grantm 65\n\
0.0 store 4160 7\n0.0 store 4104 7\n0.0 end halt\n";

/// Joined end to end, the store in bank 1 would come behind those of bank 0.
#[test]
fn banks_are_joined_by_stamps(rt: HostRuntime) -> Result<(), Fail> {
    let trace = run(
        &rt,
        rt.alloc(),
        "run p m trace",
        THREE_STORES,
        TWO_BANKS,
        &FreeGate,
    )?;
    assert_eq!(rt; trace.sink.bytes(), STORED);
    Ok(())
}
