//! The clauses on the flat machine beside replies and calls: order, exclusion, fences and races. Each event is one that
//! meets the clause on calls.

ghost use Rattle.std.specs.Prelude.{◌≡◌, ◌<◌, ◌↔◌, IsTrue, true};
ghost use Rattle.pei_types.specs.Calls.{is_actor_of};
ghost use Rattle.pei_types.specs.MachineState.{look_in};
ghost use Rattle.pei_types.specs.Race.{access_of as access_of_lem};
ghost use Rattle.coherence_laws.specs.Invariants.{Invariants};
ghost use Rattle.core_exec.specs.CoreView.{seen};
ghost use Rattle.inflight.specs.OnTheWay.{IsLaneOf};
ghost use Rattle.trace_check.specs.InState.{AccessesMemory, EndsFence, FitsMemory, IsOwn, RacesIn, enters_free, is_ordered, waits_in};
ghost use Rattle.trace_check.specs.InState.{waits_for_own as waits_for_own_lem};
ghost use Rattle.trace_check.specs.CheckerParts.{state_of};

use crate::checker::Checker;
use core_exec::CoreNext;
use pei_ops::writes;
use pei_types::{Actor, BlockNo, Call, CoreId, EventKind, Lane, Phase, block_of};

/// The block that a core is about to access, and whether it stores.
fn access_of(next: &CoreNext) -> Option<(BlockNo, bool)>
    requires { FitsMemory 65536 (seen next.now) }
    ensures { result ≡ access_of_lem (seen next.now) }
{
    match *next {
        CoreNext::Call(Call::Load { addr, .. }) => Some((block_of(addr), false)),
        CoreNext::Call(Call::Store { addr, .. }) => Some((block_of(addr), true)),
        _ => None,
    }
}

impl Checker {
    /// Whether each earlier operation of the core that comes first has its place before this one.
    pub(crate) fn is_in_order(&self, actor: Actor, kind: &EventKind) -> bool
        requires actor { is_actor_of self.now.machine actor ≡ true }
        requires access { AccessesMemory self.now.machine.blocks kind.now }
        requires invariants { Invariants self.now.machine (state_of self.now) }
        ensures { result ≡ is_ordered (state_of self.now) actor kind.now }
    {
        match *kind {
            EventKind::Load { addr, .. } => !self.waits_for_own(actor.core, block_of(addr), false),
            EventKind::Store { addr, .. } => !self.waits_for_own(actor.core, block_of(addr), true),
            _ => true,
        }
    }

    /// Whether a PEI of a core that has not acted comes before an access of a block by this core.
    fn waits_for_own(&self, core: CoreId, block: BlockNo, store: bool) -> bool
        requires core { core.0 < self.now.machine.cores }
        requires invariants { Invariants self.now.machine (state_of self.now) }
        ensures { result ≡ waits_for_own_lem (state_of self.now) core block store }
    {
        for place in 0..self.machine.buffer {
            if self.comes_first(core, Lane(place + 1), block, store) {
                return true;
            }
        }
        false
    }

    /// Whether a lane has a PEI that has not acted and comes before such an access.
    fn comes_first(&self, core: CoreId, lane: Lane, block: BlockNo, store: bool) -> bool
        requires { IsLaneOf self.now.machine core lane }
        ensures { result ≡ waits_in block store (look_in (state_of self.now) core lane) }
    {
        match self.inflight.look(core, lane) {
            Some(pei) => {
                pei.block == block && (store || writes(pei.op)) && pei.phase != Phase::Acted
            }
            None => false,
        }
    }

    /// Whether a PEI that enters does so beside no active PEI that conflicts with it.
    pub(crate) fn enters_alone(&self, actor: Actor, kind: &EventKind) -> bool
        requires actor { is_actor_of self.now.machine actor ≡ true }
        requires own { IsOwn (state_of self.now) actor kind.now }
        ensures { result ≡ enters_free self.now.machine (state_of self.now) actor kind.now }
    {
        match kind {
            EventKind::Enter { .. } => match self.inflight.look(actor.core, actor.lane) {
                Some(pei) => !self.inflight.entry_is_taken(&pei),
                None => true,
            },
            _ => true,
        }
    }

    /// Whether a fence that ends waits for no writer.
    pub(crate) fn fences_earlier(&self, actor: Actor, kind: &EventKind) -> bool
        requires { is_actor_of self.now.machine actor ≡ true }
        ensures { IsTrue result ↔ EndsFence (state_of self.now) actor kind.now }
    {
        match kind {
            EventKind::FenceEnd if self.inflight.fence_on(actor.core) => {
                self.inflight.fence_waits(actor.core).is_none()
            }
            _ => true,
        }
    }

    /// Whether a race is told by the first PEI that the access races with, and an access that is made does not race.
    pub(crate) fn races_rightly(&self, next: &CoreNext, kind: &EventKind) -> bool
        requires fits { FitsMemory self.now.machine.blocks (seen next.now) }
        requires access { AccessesMemory self.now.machine.blocks kind.now }
        ensures { IsTrue result ↔ RacesIn (seen next.now) (state_of self.now) kind.now }
    {
        match *kind {
            EventKind::Load { addr, .. } => self.inflight.conflict(block_of(addr), false).is_none(),
            EventKind::Store { addr, .. } => self.inflight.conflict(block_of(addr), true).is_none(),
            EventKind::Race { by, .. } => match access_of(next) {
                Some((block, store)) => self.inflight.conflict(block, store) == Some(by),
                None => false,
            },
            _ => true,
        }
    }
}
