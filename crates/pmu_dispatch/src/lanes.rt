//! The lanes of PEIs.

ghost use Rattle.std.specs.Prelude.{◌≡◌, ◌<◌, ◌||◌, not, Some, false, option_map, slice_index_or};
ghost use Rattle.pei_types.specs.declared.identifiers.Block.{Block};
ghost use Rattle.pei_types.specs.declared.identifiers.BlockNo.{BlockNo};
ghost use Rattle.pei_types.specs.declared.inflight_looks.PeiLook.{PeiLook};
ghost use Rattle.pei_types.specs.declared.machines.MachineSpec.{MachineSpec};
ghost use Rattle.pei_types.specs.MachineState.{State};
ghost use Rattle.pei_types.specs.MachineState.{is_owned as is_owned_lem};
ghost use Rattle.pei_types.specs.Next.{Makes, Stalls, enter_row, seal_writer, seal_reader, seal_row, head_row, pei_row, lane_row};
ghost use Rattle.pei_types.specs.Next.{holder as holder_lem, owner as owner_lem};
ghost use Rattle.pei_types.specs.Operation.{is_writer};
ghost use Rattle.pmu_dispatch.specs.Shown.{AreBlocksLooksOf, AreLanesLooksOf, IsFullOf};
ghost use Rattle.pmu_dispatch.specs.Steps.{pei_made, lane_made};

use crate::accesses::suffices;
use crate::looks::{WantLooks, holder, is_dirty, is_owned, owner};
use crate::wanting::want_next;
use pei_types::{EventKind, Letter, Mark, Op, PeiId, PeiLook, Phase, StallCause};

/// What a lane's PEI does next.
#[derive(Clone, Copy, PartialEq, Eq, Debug)]
pub enum LaneNext {
    /// The lane has to wait.
    Stall(StallCause),
    /// The PEI is placed.
    Place,
    /// The PEI reads its block into its operand buffer entry, at the host.
    Read,
    /// The PEI goes to the queue of its block's vault.
    Seal,
    /// The PEI is executed.
    Act,
    /// The PEI leaves.
    Leave,
    /// This coherence message comes before the PEI's own next step.
    Message(EventKind),
}

/// What a lane does next, whose PEI is `pei`. A lane without one is idle, and then nothing else is read.
///
/// The looks are at the block of the PEI, for its core, which is 0 to 7. `first_unentered` is the first PEI of the core
/// that has not entered the directory; a PEI that has not entered stalls here, since its entry is the directory's to
/// grant. `full` is the vault of the PEI's block where that vault's queue is full, and `head` the first PEI of the queue.
pub fn lane_next(
    looks: &WantLooks,
    pei: Option<&PeiLook>,
    first_unentered: Option<PeiId>,
    full: Option<u8>,
    head: Option<PeiId>,
) -> LaneNext
    requires { looks.now.own.0 < 8 }
    ensures { let held = option_map (λ p. p.now) pei.entry
        in (m : MachineSpec) (s : State) (content : BlockNo → Block) → AreLanesLooksOf m s looks.now held first_unentered full head
        → lane_made m s content held result ≡ Some (lane_row m s content false held) }
{
    let Some(pei) = pei else {
        return LaneNext::Stall(StallCause::Idle);
    };
    match pei.phase {
        Phase::Issued => LaneNext::Stall(stall_before_entering(pei, first_unentered)),
        Phase::Entered => LaneNext::Place,
        Phase::HostPlaced => read_next(looks, pei),
        Phase::Read => host_act_next(looks, pei),
        Phase::MemoryPlaced => seal_next(looks, pei, full),
        Phase::Sealed => memory_act_next(pei, head),
        Phase::Acted => LaneNext::Leave,
    }
}

/// Whether an operation changes its block.
fn writes(op: Op) -> bool
    ensures { result ≡ is_writer op }
{
    matches!(op, Op::Inc { .. } | Op::Min { .. })
}

/// Why a PEI that has not entered waits: for an earlier one of its core, or for the directory.
fn stall_before_entering(pei: &PeiLook, first_unentered: Option<PeiId>) -> StallCause
    ensures { Stalls result ≡ enter_row pei.now false first_unentered }
{
    match first_unentered {
        Some(first) if first != pei.id => StallCause::NotOldest { pei: first },
        _ => StallCause::NeedsGrant,
    }
}

/// A PEI that is placed at the host reads its block once the own letter lets it.
fn read_next(looks: &WantLooks, pei: &PeiLook) -> LaneNext
    requires { looks.now.own.0 < 8 }
    ensures { (m : MachineSpec) (s : State) (content : BlockNo → Block) → AreBlocksLooksOf m s looks.now pei.now
        → pei_made m s content pei.now result ≡ Some (pei_row m s content false pei.now Phase.HostPlaced) }
{
    let modify = writes(pei.op);
    if suffices(looks.own_letter(), modify) {
        LaneNext::Read
    } else {
        LaneNext::Message(want_next(looks, modify))
    }
}

/// A PEI at the host acts on the block that it has read, a writer once its core may write.
fn host_act_next(looks: &WantLooks, pei: &PeiLook) -> LaneNext
    requires { looks.now.own.0 < 8 }
    ensures { (m : MachineSpec) (s : State) (content : BlockNo → Block) → AreBlocksLooksOf m s looks.now pei.now
        → pei_made m s content pei.now result ≡ Some (pei_row m s content false pei.now Phase.Read) }
{
    if may_act(looks, pei) {
        LaneNext::Act
    } else {
        LaneNext::Message(want_next(looks, true))
    }
}

/// Whether the own letter lets a PEI act that has read its block: a reader's always, a writer's where it may write.
fn may_act(looks: &WantLooks, pei: &PeiLook) -> bool
    requires { looks.now.own.0 < 8 }
    ensures { result ≡ (not (is_writer pei.now.op) || is_owned_lem (slice_index_or looks.now.letters looks.now.own.0 Letter.I)) }
{
    !writes(pei.op) || is_owned(looks.own_letter())
}

/// Before memory executes a writer, each copy of the block goes: back-invalidation.
fn seal_writer_next(looks: &WantLooks) -> LaneNext
    ensures { (m : MachineSpec) (s : State) (content : BlockNo → Block) (p : PeiLook) → AreBlocksLooksOf m s looks.now p
        → pei_made m s content p result ≡ Some (Makes (seal_writer m s p (holder_lem m s p.block))) }
{
    let block = looks.block;
    if let Some(core) = holder(&looks.letters) {
        return LaneNext::Message(EventKind::Invalidate { core, block });
    }
    match looks.mark {
        Mark::Dirty => LaneNext::Message(EventKind::Clean { block }),
        Mark::Clean => LaneNext::Message(EventKind::EvictLlc { block }),
        Mark::Absent => LaneNext::Seal,
    }
}

/// Before memory executes a reader, what is ahead of memory is written back: back-writeback.
fn seal_reader_next(looks: &WantLooks) -> LaneNext
    ensures { (m : MachineSpec) (s : State) (content : BlockNo → Block) (p : PeiLook) → AreBlocksLooksOf m s looks.now p
        → pei_made m s content p result ≡ Some (Makes (seal_reader m s p (owner_lem m s p.block))) }
{
    let block = looks.block;
    if let Some(core) = owner(&looks.letters) {
        return LaneNext::Message(EventKind::Downgrade { core, block });
    }
    if is_dirty(looks.mark) {
        LaneNext::Message(EventKind::Clean { block })
    } else {
        LaneNext::Seal
    }
}

/// A PEI that is placed in memory waits for room in the queue of its vault, and for its block to be in memory alone.
fn seal_next(looks: &WantLooks, pei: &PeiLook, full: Option<u8>) -> LaneNext
    ensures { (m : MachineSpec) (s : State) (content : BlockNo → Block) → AreBlocksLooksOf m s looks.now pei.now → IsFullOf m s pei.now full
        → pei_made m s content pei.now result ≡ Some (seal_row m s pei.now) }
{
    match full {
        Some(vault) => LaneNext::Stall(StallCause::VaultFull { vault }),
        None if writes(pei.op) => seal_writer_next(looks),
        None => seal_reader_next(looks),
    }
}

/// A sealed PEI acts once it heads the queue of its vault.
fn memory_act_next(pei: &PeiLook, head: Option<PeiId>) -> LaneNext
    ensures { (m : MachineSpec) (s : State) (content : BlockNo → Block)
        → pei_made m s content pei.now result ≡ Some (head_row content pei.now head) }
{
    match head {
        Some(head) if head == pei.id => LaneNext::Act,
        Some(head) => LaneNext::Stall(StallCause::NotHead { pei: head }),
        None => LaneNext::Stall(StallCause::NotHead { pei: pei.id }),
    }
}
