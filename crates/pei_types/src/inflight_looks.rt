//! What the parts of the machine tell of a PEI on its way, and why an actor has to wait.

use crate::identifiers::{BlockNo, Lane, PeiId};
use crate::operations::{Op, Operands};

/// A PEI that was issued and has not left.
#[derive(Clone, Copy, PartialEq, Eq, Debug)]
pub struct PeiLook {
    pub id: PeiId,
    pub lane: Lane,
    pub op: Op,
    pub block: BlockNo,
    pub operands: Operands,
    pub phase: Phase,
}

/// How far a PEI has come that was issued and has not left. It is active from `Entered` on.
#[derive(Clone, Copy, PartialEq, Eq, Debug)]
pub enum Phase {
    Issued,
    Entered,
    HostPlaced,
    MemoryPlaced,
    Read,
    Sealed,
    Acted,
}

/// Why an actor has to wait.
#[derive(Clone, Copy, PartialEq, Eq, Debug)]
pub enum StallCause {
    /// All operand buffer entries of the core hold PEIs on their way.
    BufferFull,
    /// The fence waits for this writer, the first of those issued before it.
    FenceWaits { pei: PeiId },
    /// The core can't end before this PEI of its own has left.
    Draining { pei: PeiId },
    /// The lane holds no PEI.
    Idle,
    /// This earlier PEI of the core has not entered.
    NotOldest { pei: PeiId },
    /// The directory entry of the PEI is not granted.
    NeedsGrant,
    /// The queue of this vault is full.
    VaultFull { vault: u8 },
    /// This PEI is the head of the queue.
    NotHead { pei: PeiId },
}
