//! What an event that meets every clause does to the machine.

ghost use Rattle.std.specs.Prelude.{◌≡◌, ◌<◌, ◌-◌, ◌^◌, ℕ, [], Some, None, true, false, slice_index};
ghost use Rattle.pei_types.specs.declared.identifiers.Actor.{Actor as Who};
ghost use Rattle.pei_types.specs.declared.identifiers.Lane.{Lane as LaneNumber};
ghost use Rattle.pei_types.specs.declared.events.EventKind.TheVariants as event;
ghost use Rattle.pei_types.specs.Blocks.{block_of, is_word_of_memory};
ghost use Rattle.pei_types.specs.Calls.{Programs, is_actor_of, side_of as side_of_lem};
ghost use Rattle.pei_types.specs.MachineState.{fence_of, free_lane, is_i, is_owned, letter_of};
ghost use Rattle.pei_types.specs.Guard.{guard};
ghost use Rattle.coherence_laws.specs.Invariants.{Invariants};
ghost use Rattle.coherence_bus.specs.Hierarchy.{FillsFrom};
ghost use Rattle.pmu_dispatch.specs.Steps.{is_message};
ghost use Rattle.trace_check.specs.InState.{LooksFit, MayApply};
ghost use Rattle.trace_check.specs.CheckerParts.{Moved, state_of};

use crate::calls::{Side, side_of};
use crate::checker::Checker;
use locality_monitor::laws::state_follows;
use pei_types::{Actor, BlockNo, CoreId, EventKind, Op, Operands, block_of};

impl Checker {
    /// Goes on by an event of an actor of the machine that meets every clause.
    pub(crate) fn apply(&mut self, actor: Actor, kind: &EventKind)
        requires actor { is_actor_of self.old.machine actor ≡ true }
        requires may { MayApply self.old.machine (state_of self.old) actor kind.now }
        requires act { LooksFit self.old.machine.blocks (state_of self.old) }
        requires invariants { Invariants self.old.machine (state_of self.old) }
        ensures { Moved self.old self.new actor kind.now }
    {
        match side_of(kind) {
            Side::Program => self.apply_answer(actor, kind),
            Side::Pei(_) => self.apply_pei(actor, kind),
            Side::Message => self.apply_message(actor, kind),
        }
    }

    /// Goes on by an event of a core's program.
    fn apply_answer(&mut self, actor: Actor, kind: &EventKind)
        requires actor { is_actor_of self.old.machine actor ≡ true }
        requires may { MayApply self.old.machine (state_of self.old) actor kind.now }
        requires side { side_of_lem kind.now ≡ Programs }
        ensures { Moved self.old self.new actor kind.now }
    {
        let core = actor.core;
        match *kind {
            EventKind::Load { addr, .. } => self.apply_load(core, addr),
            EventKind::Store { addr, value } => self.apply_store(core, addr, value),
            EventKind::Issue {
                op,
                block,
                operands,
                ..
            } => self.apply_issue(core, op, block, &operands),
            EventKind::FenceBegin => self.begin_fence(core),
            EventKind::FenceEnd => self.end_fence(core),
            _ => {}
        }
    }

    /// Goes on by a load of a core that has the block.
    fn apply_load(&mut self, core: CoreId, addr: u64)
        requires core { core.0 < self.old.machine.cores }
        requires word { is_word_of_memory self.old.machine.blocks addr ≡ true }
        requires present { is_i (letter_of self.old.machine (state_of self.old) core (block_of addr)) ≡ false }
        ensures { (a : Who) (value : ℕ) → a.core ≡ core → Moved self.old self.new a (event.Load addr value) }
    {
        self.bus.load(core, addr);
    }

    /// Goes on by a store of a core that may write the block.
    fn apply_store(&mut self, core: CoreId, addr: u64, value: u64)
        requires core { core.0 < self.old.machine.cores }
        requires word { is_word_of_memory self.old.machine.blocks addr ≡ true }
        requires owned { is_owned (letter_of self.old.machine (state_of self.old) core (block_of addr)) ≡ true }
        ensures { (a : Who) → a.core ≡ core → Moved self.old self.new a (event.Store addr value) }
    {
        self.bus.store(core, addr, value);
    }

    /// Goes on by the issue of a PEI into the lowest free lane of a core.
    fn apply_issue(&mut self, core: CoreId, op: Op, block: BlockNo, operands: &Operands)
        requires core { core.0 < self.old.machine.cores }
        requires few { slice_index (state_of self.old).issues core.0 < 2 ^ 32 - 1 }
        ensures { (a : Who) → a.core ≡ core → (seq : ℕ) → seq ≡ slice_index (state_of self.old).issues core.0 → (lane : LaneNumber) → free_lane self.old.machine (state_of self.old) core ≡ Some lane → Moved self.old self.new a (event.Issue seq lane op block operands.now) }
    {
        if let Some(lane) = self.inflight.free_lane(core) {
            self.inflight.issue(core, lane, op, block, operands);
        }
    }

    /// Goes on by the begin of a fence of a core of which none is on.
    fn begin_fence(&mut self, core: CoreId)
        requires core { core.0 < self.old.machine.cores }
        requires off { fence_of (state_of self.old) core ≡ None }
        ensures { (a : Who) → a.core ≡ core → Moved self.old self.new a event.FenceBegin }
    {
        self.inflight.fence_begin(core);
    }

    /// Goes on by the end of a fence that waits for no writer.
    fn end_fence(&mut self, core: CoreId)
        requires core { core.0 < self.old.machine.cores }
        requires done { fence_of (state_of self.old) core ≡ Some [] }
        ensures { (a : Who) → a.core ≡ core → Moved self.old self.new a event.FenceEnd }
    {
        self.inflight.fence_end(core);
    }

    /// Goes on by a coherence message. A grant is an access of the last-level cache, which the monitor sees.
    fn apply_message(&mut self, actor: Actor, kind: &EventKind)
        requires actor { is_actor_of self.old.machine actor ≡ true }
        requires message { is_message kind.now ≡ true }
        requires guarded { guard self.old.machine (state_of self.old) actor kind.now ≡ true }
        requires fills { FillsFrom self.old.machine.blocks kind.now }
        ensures { Moved self.old self.new actor kind.now }
    {
        state_follows();
        self.bus.message(actor.core, kind, false);
        match *kind {
            EventKind::GrantS { block }
            | EventKind::GrantE { block }
            | EventKind::GrantM { block } => self.monitor.llc_access(block),
            _ => {}
        }
    }
}
