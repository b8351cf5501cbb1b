//! Accesses of two cores with the messages before them, worked out by hand.

ghost use Rattle.std.specs.Prelude.{◌≡◌, ◌<◌, ◌*◌, length, IfNone, IfOk, true};
ghost use Rattle.pei_types.specs.MachineState.{letter_of};
ghost use Rattle.pmu_dispatch.specs.Shown.{suffices};
ghost use Rattle.pmu_dispatch.specs.Shown.{suffices as suffices_lem};
ghost use Rattle.coherence_bus.specs.Hierarchy.{empty_hierarchy, state_of};

use crate::Bus;
use crate::laws::wants_are_allowed;
use pei_types::{
    Block, BlockNo, CoreId, EventKind, Image, Letter, MachineSpec, Op, Operands, OutOfMemory,
    Policy3, Reply, block_of,
};
use pmu_dispatch::want_next;
use std::alloc::Global;
use std::test::Fail;

const FIRST: CoreId = CoreId(0);

const SECOND: CoreId = CoreId(1);

/// Two cores with one line each, and two lines below them, above 128 blocks.
#[tactic(auto, unfolding(pei_types::specs::Limits::log_two))]
fn small_machine() -> MachineSpec
    ensures cores { result.cores ≡ 2 }
    ensures blocks { result.blocks ≡ 128 }
{
    MachineSpec {
        cores: 2,
        blocks: 128,
        l1_sets: 1,
        l1_ways: 1,
        llc_sets: 1,
        llc_ways: 2,
        vaults: 16,
        queue: 16,
        directory: 2048,
        buffer: 4,
        banks: 1,
        fuel: 100_000,
        events: 524_288,
        placement: Policy3::Monitor,
    }
}

/// Whether a core may load from a block with this letter, or store to it.
fn suffices(letter: Letter, modify: bool) -> bool
    ensures { result ≡ suffices_lem modify letter }
{
    if modify {
        matches!(letter, Letter::M | Letter::E)
    } else {
        !matches!(letter, Letter::I)
    }
}

/// Makes the next message on the way of a block to a core, and tells it; none where its letter suffices.
fn next_message(bus: &mut Bus, own: CoreId, block: BlockNo, modify: bool) -> Option<EventKind>
    requires own { own.0 < bus.old.machine.cores }
    requires block { block.0 < bus.old.machine.blocks }
    ensures machine { bus.new.machine ≡ bus.old.machine }
    ensures enough { IfNone result (suffices modify (letter_of bus.new.machine (state_of bus.new) own block) ≡ true) }
{
    let looks = bus.want_looks(own, block, false);
    if suffices(looks.letters[own.0 as usize], modify) {
        return None;
    }
    wants_are_allowed();
    bus.agree();
    let kind = want_next(&looks, modify);
    bus.message(own, &kind, false);
    Some(kind)
}

/// The caches of the small machine, above memory of zeros.
fn small_bus(alloc: Global) -> Result<Bus, OutOfMemory>
    ensures cores { IfOk result (λ h. h.machine.cores ≡ 2) }
    ensures blocks { IfOk result (λ h. h.machine.blocks ≡ 128) }
{
    let image = Image::make(alloc, 128)?;
    Bus::make(alloc, &small_machine(), &image)
}

/// An access: the core, the address, the value of a store (none for a load), the messages before it, and the value that
/// the word at the address has then.
type Row = (CoreId, u64, Option<u64>, &'static [EventKind], u64);

/// The second core's load takes the first one's modified copy back. Its next load takes its own line for the new block;
/// the one behind it needs a line of the last-level cache, so the first block leaves all caches.
const ROWS: [Row; 4] = [
    (
        FIRST,
        4096,
        Some(5),
        &[
            EventKind::Fill { block: BlockNo(64) },
            EventKind::GrantM { block: BlockNo(64) },
        ],
        5,
    ),
    (
        SECOND,
        4096,
        None,
        &[
            EventKind::Downgrade {
                core: FIRST,
                block: BlockNo(64),
            },
            EventKind::GrantS { block: BlockNo(64) },
        ],
        5,
    ),
    (
        SECOND,
        4160,
        None,
        &[
            EventKind::Fill { block: BlockNo(65) },
            EventKind::EvictL1 {
                core: SECOND,
                block: BlockNo(64),
            },
            EventKind::GrantE { block: BlockNo(65) },
        ],
        0,
    ),
    (
        SECOND,
        4224,
        None,
        &[
            EventKind::Invalidate {
                core: FIRST,
                block: BlockNo(64),
            },
            EventKind::Clean { block: BlockNo(64) },
            EventKind::EvictLlc { block: BlockNo(64) },
            EventKind::Fill { block: BlockNo(66) },
            EventKind::EvictL1 {
                core: SECOND,
                block: BlockNo(65),
            },
            EventKind::GrantE { block: BlockNo(66) },
        ],
        0,
    ),
];

/// Loads or stores, where the letter suffices, and tells the word that is there then.
fn access(bus: &mut Bus, own: CoreId, addr: u64, store: Option<u64>) -> Result<u64, Fail>
    requires own { own.0 < bus.old.machine.cores }
    requires blocks { bus.old.machine.blocks ≡ 128 }
    ensures machine { bus.new.machine ≡ bus.old.machine }
{
    if addr % 8 != 0 || addr >= 8192 {
        return Err(Fail::from("the address is that of a word"));
    }
    let block = block_of(addr);
    if next_message(bus, own, block, store.is_some()).is_some() {
        return Err(Fail::from("no message is left"));
    }
    match store {
        Some(value) => {
            bus.store(own, addr, value);
            Ok(bus.peek(block).0[(addr / 8 % 8) as usize])
        }
        None => Ok(bus.load(own, addr)),
    }
}

#[test]
fn messages_come_before_accesses(rt: HostRuntime) -> Result<(), Fail> {
    let mut bus = small_bus(rt.alloc())?;
    for (own, addr, store, messages, want) in ROWS {
        if own.0 >= 2 || addr >= 8192 {
            return Err(Fail::from("the row is the small machine's"));
        }
        let stored = bus.peek(BlockNo(64)).0[0];
        for message in messages {
            let made = next_message(&mut bus, own, block_of(addr), store.is_some());
            assert_eq!(rt; made, Some(*message));
            assert_eq!(rt; bus.peek(BlockNo(64)).0[0], stored);
        }
        assert_eq!(rt; access(&mut bus, own, addr, store)?, want);
        assert_eq!(rt; bus.peek(BlockNo(64)).0[0], 5);
    }
    Ok(())
}
