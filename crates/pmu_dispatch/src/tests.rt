//! The rows of the step table, one by one. The own core is core 2, and the block is block 5.

ghost use Rattle.std.specs.Prelude.{◌≡◌};

use super::{AccessNext, LaneNext, Victim, WantLooks, access_next, lane_next, want_next};
use pei_types::{
    BlockNo, CoreId, EventKind, Lane, Letter, Mark, Op, Operands, PeiId, PeiLook, Phase, StallCause,
};
use std::process::Abort;
use std::test::Fail;

const OWN: CoreId = CoreId(2);

const BLOCK: BlockNo = BlockNo(5);

/// The last line of the set in the last-level cache.
const LLC_LAST: BlockNo = BlockNo(21);

/// The last line of the set in the own private cache.
const L1_LAST: BlockNo = BlockNo(9);

const PEI: PeiId = PeiId { core: OWN, seq: 3 };

const OTHER: PeiId = PeiId { core: OWN, seq: 1 };

/// The letters of cores 0 to 3, where the machine lacks the others.
fn letters_of(letters: [Letter; 4]) -> [Letter; 8] {
    let [first, second, third, fourth] = letters;
    let none = Letter::I;
    [first, second, third, fourth, none, none, none, none]
}

/// The looks of core 2 at block 5, where no set is full.
fn looks_at(letters: [Letter; 4], mark: Mark) -> WantLooks
    ensures { result.own.0 ≡ 2 }
{
    WantLooks {
        block: BLOCK,
        own: OWN,
        letters: letters_of(letters),
        mark,
        sealed: false,
        llc_victim: None,
        l1_victim: None,
    }
}

/// A block that is in no cache, and the last line of its full set.
fn victims(rt: &impl Abort) {
    use Letter::{E, I, M, S};
    for (letters, mark, modify, message) in [
        // The lowest core with a copy loses it first, whoever it is.
        (
            [I, S, S, I],
            Mark::Clean,
            false,
            EventKind::Invalidate {
                core: CoreId(1),
                block: LLC_LAST,
            },
        ),
        (
            [I, I, M, I],
            Mark::Dirty,
            true,
            EventKind::Invalidate {
                core: OWN,
                block: LLC_LAST,
            },
        ),
        (
            [E, I, I, I],
            Mark::Clean,
            true,
            EventKind::Invalidate {
                core: CoreId(0),
                block: LLC_LAST,
            },
        ),
        // Then it is written back, and then it goes.
        (
            [I, I, I, I],
            Mark::Dirty,
            true,
            EventKind::Clean { block: LLC_LAST },
        ),
        (
            [I, I, I, I],
            Mark::Clean,
            false,
            EventKind::EvictLlc { block: LLC_LAST },
        ),
    ] {
        let victim = Victim {
            block: LLC_LAST,
            letters: letters_of(letters),
            mark,
        };
        // It goes before a line of the own set.
        let looks = WantLooks {
            llc_victim: Some(victim),
            l1_victim: Some(L1_LAST),
            ..looks_at([I, I, I, I], Mark::Absent)
        };
        assert_eq!(rt; want_next(&looks, modify), message);
    }
}

/// Wants of a block whose set in the last-level cache is not full, or has it.
fn wants(rt: &impl Abort) {
    use Letter::{E, I, M, S};
    let block = BLOCK;
    let evicts = EventKind::EvictL1 {
        core: OWN,
        block: L1_LAST,
    };
    let down = EventKind::Downgrade {
        core: CoreId(3),
        block,
    };
    let invalidates = EventKind::Invalidate {
        core: CoreId(1),
        block,
    };
    for (letters, mark, sealed, own_last, modify, message) in [
        (
            [I, I, I, I],
            Mark::Absent,
            false,
            Some(L1_LAST),
            false,
            EventKind::Fill { block },
        ),
        (
            [I, I, I, I],
            Mark::Absent,
            true,
            None,
            true,
            EventKind::Fill { block },
        ),
        (
            [I, I, I, E],
            Mark::Clean,
            false,
            Some(L1_LAST),
            false,
            evicts,
        ),
        (
            [I, S, I, S],
            Mark::Dirty,
            false,
            Some(L1_LAST),
            true,
            evicts,
        ),
        ([I, I, I, M], Mark::Dirty, false, None, false, down),
        ([I, I, I, E], Mark::Clean, true, None, false, down),
        ([I, S, I, S], Mark::Clean, false, None, true, invalidates),
        ([I, S, S, I], Mark::Clean, false, None, true, invalidates),
        (
            [S, I, I, I],
            Mark::Clean,
            false,
            None,
            false,
            EventKind::GrantS { block },
        ),
        (
            [I, I, I, I],
            Mark::Clean,
            true,
            None,
            false,
            EventKind::GrantS { block },
        ),
        (
            [I, I, I, I],
            Mark::Dirty,
            false,
            None,
            false,
            EventKind::GrantE { block },
        ),
        (
            [I, I, I, I],
            Mark::Clean,
            false,
            None,
            true,
            EventKind::GrantM { block },
        ),
        (
            [I, I, S, I],
            Mark::Clean,
            false,
            None,
            true,
            EventKind::GrantM { block },
        ),
    ] {
        let looks = WantLooks {
            sealed,
            l1_victim: own_last,
            ..looks_at(letters, mark)
        };
        assert_eq!(rt; want_next(&looks, modify), message, "{looks:?}");
    }
}

/// Loads and stores.
fn accesses(rt: &impl Abort) {
    use Letter::{E, I, M, S};
    let block = BLOCK;
    for (own, conflict, store, answer) in [
        (M, Some(PEI), false, AccessNext::Race { by: PEI }),
        (M, Some(PEI), true, AccessNext::Race { by: PEI }),
        (S, None, false, AccessNext::Hit),
        (E, None, false, AccessNext::Hit),
        (
            I,
            None,
            false,
            AccessNext::Message(EventKind::GrantE { block }),
        ),
        (E, None, true, AccessNext::Hit),
        (M, None, true, AccessNext::Hit),
        (
            S,
            None,
            true,
            AccessNext::Message(EventKind::GrantM { block }),
        ),
    ] {
        let looks = looks_at([I, I, own, I], Mark::Clean);
        assert_eq!(rt; access_next(&looks, conflict, store), answer);
    }
}

/// Lanes with a PEI.
fn lanes(rt: &impl Abort) {
    use Letter::{E, I, M, S};
    let block = BLOCK;
    let writer = Op::Inc { word: 0 };
    let grants = LaneNext::Message(EventKind::GrantM { block });
    for (phase, op, letters, mark, answer) in [
        (
            Phase::Issued,
            writer,
            [I, I, I, I],
            Mark::Absent,
            LaneNext::Stall(StallCause::NeedsGrant),
        ),
        (
            Phase::Entered,
            writer,
            [I, I, I, I],
            Mark::Absent,
            LaneNext::Place,
        ),
        (
            Phase::HostPlaced,
            Op::Dot,
            [I, I, S, I],
            Mark::Clean,
            LaneNext::Read,
        ),
        (
            Phase::HostPlaced,
            Op::Dot,
            [S, I, I, I],
            Mark::Clean,
            LaneNext::Message(EventKind::GrantS { block }),
        ),
        (
            Phase::HostPlaced,
            writer,
            [I, I, E, I],
            Mark::Clean,
            LaneNext::Read,
        ),
        (Phase::HostPlaced, writer, [I, I, S, I], Mark::Clean, grants),
        (
            Phase::Read,
            Op::Hist,
            [I, I, I, I],
            Mark::Absent,
            LaneNext::Act,
        ),
        (
            Phase::Read,
            writer,
            [I, I, M, I],
            Mark::Dirty,
            LaneNext::Act,
        ),
        (Phase::Read, writer, [I, I, I, I], Mark::Clean, grants),
        (
            Phase::MemoryPlaced,
            writer,
            [I, S, I, S],
            Mark::Clean,
            LaneNext::Message(EventKind::Invalidate {
                core: CoreId(1),
                block,
            }),
        ),
        (
            Phase::MemoryPlaced,
            writer,
            [I, I, I, I],
            Mark::Dirty,
            LaneNext::Message(EventKind::Clean { block }),
        ),
        (
            Phase::MemoryPlaced,
            writer,
            [I, I, I, I],
            Mark::Clean,
            LaneNext::Message(EventKind::EvictLlc { block }),
        ),
        (
            Phase::MemoryPlaced,
            writer,
            [I, I, I, I],
            Mark::Absent,
            LaneNext::Seal,
        ),
        (
            Phase::MemoryPlaced,
            Op::Probe,
            [I, I, I, E],
            Mark::Clean,
            LaneNext::Message(EventKind::Downgrade {
                core: CoreId(3),
                block,
            }),
        ),
        (
            Phase::MemoryPlaced,
            Op::Probe,
            [I, S, S, I],
            Mark::Dirty,
            LaneNext::Message(EventKind::Clean { block }),
        ),
        (
            Phase::MemoryPlaced,
            Op::Probe,
            [I, S, S, I],
            Mark::Clean,
            LaneNext::Seal,
        ),
        (
            Phase::Sealed,
            writer,
            [I, I, I, I],
            Mark::Absent,
            LaneNext::Act,
        ),
        (
            Phase::Acted,
            writer,
            [I, I, M, I],
            Mark::Dirty,
            LaneNext::Leave,
        ),
    ] {
        let pei = pei_in(phase, op);
        let looks = looks_at(letters, mark);
        assert_eq!(rt;
            lane_next(&looks, Some(&pei), Some(PEI), None, Some(PEI)),
            answer,
            "{pei:?}"
        );
    }
}

/// The PEI of the own core in a phase.
fn pei_in(phase: Phase, op: Op) -> PeiLook {
    PeiLook {
        id: PEI,
        lane: Lane(1),
        op,
        block: BLOCK,
        operands: Operands([0; 4]),
        phase,
    }
}

/// Lanes that have to wait.
fn stalls(rt: &impl Abort) {
    let looks = looks_at([Letter::M, Letter::I, Letter::I, Letter::I], Mark::Dirty);
    assert_eq!(rt;
        lane_next(&looks, None, Some(PEI), Some(1), Some(PEI)),
        LaneNext::Stall(StallCause::Idle)
    );
    for (phase, first, full, head, cause) in [
        (
            Phase::Issued,
            OTHER,
            None,
            PEI,
            StallCause::NotOldest { pei: OTHER },
        ),
        (
            Phase::MemoryPlaced,
            PEI,
            Some(1),
            PEI,
            StallCause::VaultFull { vault: 1 },
        ),
        (
            Phase::Sealed,
            PEI,
            Some(1),
            OTHER,
            StallCause::NotHead { pei: OTHER },
        ),
    ] {
        let pei = pei_in(phase, Op::Min { word: 1 });
        assert_eq!(rt;
            lane_next(&looks, Some(&pei), Some(first), full, Some(head)),
            LaneNext::Stall(cause)
        );
    }
}

#[test]
fn rows_of_the_step_table(rt: HostRuntime) -> Result<(), Fail> {
    victims(&rt);
    wants(&rt);
    accesses(&rt);
    lanes(&rt);
    stalls(&rt);
    Ok(())
}
