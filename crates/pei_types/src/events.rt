//! The events of a journal.

use crate::calls::EndKind;
use crate::identifiers::{Actor, BlockNo, CoreId, Lane, PeiId};
use crate::operations::{Op, Operands, Place, Reply};

/// An event, with the lane of a core that made it.
#[derive(Clone, Copy, PartialEq, Eq, Debug)]
pub struct Event {
    pub actor: Actor,
    pub kind: EventKind,
}

/// What happened. `Load` to `End` are made by a core's program, `Enter` to `Leave` by the lane of the PEI `seq` of the
/// core, and the coherence messages, `Invalidate` to `GrantM`, by any lane.
#[derive(Clone, Copy, PartialEq, Eq, Debug)]
pub enum EventKind {
    Load {
        addr: u64,
        value: u64,
    },
    Store {
        addr: u64,
        value: u64,
    },
    Issue {
        seq: u32,
        lane: Lane,
        op: Op,
        block: BlockNo,
        operands: Operands,
    },
    FenceBegin,
    FenceEnd,
    Out {
        value: u64,
    },
    Race {
        pc: u32,
        block: BlockNo,
        by: PeiId,
    },
    End {
        kind: EndKind,
    },
    Enter {
        seq: u32,
    },
    Place {
        seq: u32,
        place: Place,
    },
    Read {
        seq: u32,
    },
    Seal {
        seq: u32,
        vault: u8,
    },
    Act {
        seq: u32,
        reply: Reply,
    },
    Leave {
        seq: u32,
    },
    Invalidate {
        core: CoreId,
        block: BlockNo,
    },
    Downgrade {
        core: CoreId,
        block: BlockNo,
    },
    EvictL1 {
        core: CoreId,
        block: BlockNo,
    },
    Clean {
        block: BlockNo,
    },
    EvictLlc {
        block: BlockNo,
    },
    Fill {
        block: BlockNo,
    },
    GrantS {
        block: BlockNo,
    },
    GrantE {
        block: BlockNo,
    },
    GrantM {
        block: BlockNo,
    },
}
