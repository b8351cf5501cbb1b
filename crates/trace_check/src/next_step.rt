//! The clause on the next step: the journal has room, and the event is the first row that fits its actor.

ghost use Rattle.std.specs.Prelude.{◌≡◌, ◌<◌, ◌↔◌, IsTrue, true, false, if◌then◌else◌, None, Some};
ghost use Rattle.pei_types.specs.declared.calls.Call.TheVariants as call;
ghost use Rattle.pei_types.specs.Calls.{CallFits, is_actor_of};
ghost use Rattle.pei_types.specs.MachineState.{first_unentered, look_in, queue_is_full};
ghost use Rattle.pei_types.specs.Next.{Makes, call_row as call_row_lem, enter_row as enter_row_lem, lane_row as lane_row_lem, pei_row as pei_row_lem};
ghost use Rattle.pei_types.specs.Turns.{is_entering as is_entering_lem};
ghost use Rattle.core_exec.specs.CoreView.{seen};
ghost use Rattle.trace_check.specs.InState.{FitsMemory, LooksFit, made, turn_in};
ghost use Rattle.pei_types.specs.Operation.{CanApply};
ghost use Rattle.trace_check.specs.CheckerParts.{content_of, state_of};

use crate::checker::Checker;
use crate::histories::Issued;
use crate::same_events::is_same;
use core_exec::CoreNext;
use pei_types::{
    Actor, BlockNo, Call, CoreId, Event, EventKind, Op, Operands, PeiLook, Phase, block_of,
};
use pmu_dispatch::{AccessNext, LaneNext, access_next, lane_next};

/// Whether an event of this kind is a PEI's entry into the directory.
fn is_entering(kind: &EventKind) -> bool
    ensures { result ≡ is_entering_lem kind.now }
{
    matches!(kind, EventKind::Enter { .. })
}

impl Checker {
    /// Whether the event at place `i` is the next of its actor, and there is room for it.
    pub(crate) fn is_next(&self, next: &CoreNext, i: u32, event: &Event) -> bool
        requires actor { is_actor_of self.now.machine event.now.actor ≡ true }
        requires fits { FitsMemory self.now.machine.blocks (seen next.now) }
        requires act { LooksFit self.now.machine.blocks (state_of self.now) }
        ensures { IsTrue result ↔ ((i < self.now.machine.events) × (turn_in (seen next.now) self.now.machine (state_of self.now) (content_of self.now) event.now.actor (is_entering_lem event.now.kind) ≡ Some (Makes event.now.kind))) }
    {
        if i >= self.machine.events {
            return false;
        }
        match self.row(next, event.actor, &event.kind) {
            Some(kind) => is_same(&kind, &event.kind),
            None => false,
        }
    }

    /// What the actor of an event does next, if it does not stall. An entry of a PEI is made under a grant, as the event's
    /// kind says.
    fn row(&self, next: &CoreNext, actor: Actor, kind: &EventKind) -> Option<EventKind>
        requires actor { is_actor_of self.now.machine actor ≡ true }
        requires fits { FitsMemory self.now.machine.blocks (seen next.now) }
        requires act { LooksFit self.now.machine.blocks (state_of self.now) }
        ensures { result ≡ made (turn_in (seen next.now) self.now.machine (state_of self.now) (content_of self.now) actor (is_entering_lem kind.now)) }
    {
        if actor.lane.0 == 0 {
            match next {
                CoreNext::Call(call) => self.call_row(actor.core, call),
                CoreNext::Busy { .. } | CoreNext::Ended(_) => None,
            }
        } else {
            self.lane_row(actor, is_entering(kind))
        }
    }

    /// What a core's program does next by this call, if it does not stall.
    fn call_row(&self, core: CoreId, call: &Call) -> Option<EventKind>
        requires core { core.0 < self.now.machine.cores }
        requires fits { CallFits self.now.machine.blocks call.now }
        ensures { result ≡ made (Some (call_row_lem self.now.machine (state_of self.now) (content_of self.now) core call.now)) }
    {
        match *call {
            Call::Load { pc, addr } => Some(self.load_row(core, pc, addr)),
            Call::Store { pc, addr, value } => Some(self.store_row(core, pc, addr, value)),
            Call::Pei {
                op,
                block,
                operands,
            } => self.issue_row(core, op, block, operands),
            Call::Fence => self.fence_row(core),
            Call::Out { value } => Some(EventKind::Out { value }),
            Call::End { kind } => match self.inflight.first_unfinished(core) {
                Some(_) => None,
                None => Some(EventKind::End { kind }),
            },
        }
    }

    /// A load, or what comes in its place.
    fn load_row(&self, core: CoreId, pc: u32, addr: u64) -> EventKind
        requires core { core.0 < self.now.machine.cores }
        requires fits { CallFits self.now.machine.blocks (call.Load pc addr) }
        ensures { Makes result ≡ call_row_lem self.now.machine (state_of self.now) (content_of self.now) core (call.Load pc addr) }
    {
        let block = block_of(addr);
        let conflict = self.inflight.conflict(block, false);
        match access_next(&self.looks(core, block), conflict, false) {
            AccessNext::Race { by } => EventKind::Race { pc, block, by },
            AccessNext::Hit => EventKind::Load {
                addr,
                value: self.word_at(addr),
            },
            AccessNext::Message(message) => message,
        }
    }

    /// A store, or what comes in its place.
    fn store_row(&self, core: CoreId, pc: u32, addr: u64, value: u64) -> EventKind
        requires core { core.0 < self.now.machine.cores }
        requires fits { CallFits self.now.machine.blocks (call.Store pc addr value) }
        ensures { Makes result ≡ call_row_lem self.now.machine (state_of self.now) (content_of self.now) core (call.Store pc addr value) }
    {
        let block = block_of(addr);
        let conflict = self.inflight.conflict(block, true);
        match access_next(&self.looks(core, block), conflict, true) {
            AccessNext::Race { by } => EventKind::Race { pc, block, by },
            AccessNext::Hit => EventKind::Store { addr, value },
            AccessNext::Message(message) => message,
        }
    }

    /// The issue of a PEI, where a lane is free.
    fn issue_row(
        &self,
        core: CoreId,
        op: Op,
        block: BlockNo,
        operands: Operands,
    ) -> Option<EventKind>
        requires { core.0 < self.now.machine.cores }
        ensures { result ≡ made (Some (call_row_lem self.now.machine (state_of self.now) (content_of self.now) core (call.Pei op block operands))) }
    {
        match self.inflight.free_lane(core) {
            Some(lane) => Some(EventKind::Issue {
                seq: self.inflight.issued(core),
                lane,
                op,
                block,
                operands,
            }),
            None => None,
        }
    }

    /// The begin or the end of a fence.
    fn fence_row(&self, core: CoreId) -> Option<EventKind>
        requires { core.0 < self.now.machine.cores }
        ensures { result ≡ made (Some (call_row_lem self.now.machine (state_of self.now) (content_of self.now) core call.Fence)) }
    {
        if !self.inflight.fence_on(core) {
            Some(EventKind::FenceBegin)
        } else if self.inflight.fence_waits(core).is_none() {
            Some(EventKind::FenceEnd)
        } else {
            None
        }
    }

    /// What a lane does next, if it does not stall. A PEI that has not entered does so where its entry is granted and it is
    /// the first of its core.
    fn lane_row(&self, actor: Actor, granted: bool) -> Option<EventKind>
        requires actor { is_actor_of self.now.machine actor ≡ true }
        requires lane { 0 < actor.lane.0 }
        requires act { LooksFit self.now.machine.blocks (state_of self.now) }
        ensures { result ≡ made (Some (lane_row_lem self.now.machine (state_of self.now) (content_of self.now) granted (look_in (state_of self.now) actor.core actor.lane))) }
    {
        let pei = self.inflight.look(actor.core, actor.lane)?;
        if granted && pei.phase == Phase::Issued {
            self.enter_row(&pei)
        } else {
            self.pei_row(&pei)
        }
    }

    /// The entry of a PEI that has not entered, where it is the first of its core.
    fn enter_row(&self, pei: &PeiLook) -> Option<EventKind>
        requires { pei.now.id.core.0 < self.now.machine.cores }
        ensures { result ≡ made (Some (enter_row_lem pei.now true (first_unentered (state_of self.now) pei.now.id.core))) }
    {
        if self.inflight.first_unentered(pei.id.core) == Some(pei.id) {
            Some(EventKind::Enter { seq: pei.id.seq })
        } else {
            None
        }
    }

    /// A vault, where its queue is full.
    fn full_vault(&self, vault: u8) -> Option<u8>
        requires { vault < self.now.machine.vaults }
        ensures { result ≡ (if queue_is_full self.now.machine (state_of self.now) vault then Some vault else None) }
    {
        if self.inflight.queue_full(vault) {
            Some(vault)
        } else {
            None
        }
    }

    /// What a PEI does next without a grant, if it does not stall.
    fn pei_row(&self, pei: &PeiLook) -> Option<EventKind>
        requires core { pei.now.id.core.0 < self.now.machine.cores }
        requires fits { CanApply pei.now.op pei.now.operands × (pei.now.block.0 < self.now.machine.blocks) }
        ensures { result ≡ made (Some (pei_row_lem self.now.machine (state_of self.now) (content_of self.now) false pei.now pei.now.phase)) }
    {
        let seq = pei.id.seq;
        let vault = self.vault_of(pei.block);
        let full = self.full_vault(vault);
        let looks = self.looks(pei.id.core, pei.block);
        let first = self.inflight.first_unentered(pei.id.core);
        let head = self.inflight.head(vault);
        match lane_next(&looks, Some(pei), first, full, head) {
            LaneNext::Stall(_) => None,
            LaneNext::Place => Some(EventKind::Place {
                seq,
                place: self.placement(pei.block),
            }),
            LaneNext::Read => Some(EventKind::Read { seq }),
            LaneNext::Seal => Some(EventKind::Seal { seq, vault }),
            LaneNext::Act => Some(EventKind::Act {
                seq,
                reply: self.reply_of(&Issued {
                    op: pei.op,
                    block: pei.block,
                    operands: pei.operands,
                }),
            }),
            LaneNext::Leave => Some(EventKind::Leave { seq }),
            LaneNext::Message(message) => Some(message),
        }
    }
}
