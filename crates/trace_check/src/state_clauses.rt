//! The clauses on evictions and placements.

ghost use Rattle.std.specs.Prelude.{◌≡◌, ◌<◌, ◌↔◌, IsTrue, true};
ghost use Rattle.pei_types.specs.Blocks.{llc_set_of, tag_of};
ghost use Rattle.pei_types.specs.Calls.{is_actor_of};
ghost use Rattle.pei_types.specs.MachineState.{look_in};
ghost use Rattle.pei_types.specs.Guard.{guard};
ghost use Rattle.pei_types.specs.Monitor.{placement as placement_lem};
ghost use Rattle.pei_types.specs.Recency.{list_at};
ghost use Rattle.pei_types.specs.StateClauses.{EvictsLast, PlacesByMonitor, clears_way_for};
ghost use Rattle.coherence_laws.specs.Invariants.{Invariants};
ghost use Rattle.trace_check.specs.InState.{IsOwn, is_found};
ghost use Rattle.trace_check.specs.CheckerParts.{state_of};

use crate::checker::Checker;
use crate::same_events::is_same_place;
use pei_ops::writes;
use pei_types::{Actor, BlockNo, EventKind, Phase, Place, Policy3};

/// Whether it is this block that was found.
fn is_block(found: Option<BlockNo>, block: BlockNo) -> bool
    ensures { result ≡ is_found found block }
{
    match found {
        Some(other) => other == block,
        None => false,
    }
}

impl Checker {
    /// Whether an eviction takes the last line of a full set, or clears the way for a writer that memory is to execute.
    pub(crate) fn evicts_last(&self, actor: Actor, kind: &EventKind) -> bool
        requires actor { is_actor_of self.now.machine actor ≡ true }
        requires guarded { guard self.now.machine (state_of self.now) actor kind.now ≡ true }
        requires invariants { Invariants self.now.machine (state_of self.now) }
        ensures { IsTrue result ↔ EvictsLast self.now.machine (state_of self.now) actor kind.now }
    {
        match *kind {
            EventKind::EvictL1 { core, block } => is_block(self.bus.last_copy(core, block), block),
            EventKind::EvictLlc { block } => {
                is_block(self.bus.last_line(block), block) | self.clears_way(actor, block)
            }
            _ => true,
        }
    }

    /// Whether the PEI in the actor's lane is a writer on a block that is placed in memory and not sealed.
    fn clears_way(&self, actor: Actor, block: BlockNo) -> bool
        requires actor { is_actor_of self.now.machine actor ≡ true }
        requires invariants { Invariants self.now.machine (state_of self.now) }
        ensures { result ≡ clears_way_for block (look_in (state_of self.now) actor.core actor.lane) }
    {
        if actor.lane.0 == 0 {
            return false;
        }
        match self.inflight.look(actor.core, actor.lane) {
            Some(pei) => {
                pei.block == block && writes(pei.op) && pei.phase == Phase::MemoryPlaced
            }
            None => false,
        }
    }

    /// Whether a placement is that of the policy, which may ask the monitor.
    pub(crate) fn places_rightly(&self, actor: Actor, kind: &EventKind) -> bool
        requires actor { is_actor_of self.now.machine actor ≡ true }
        requires own { IsOwn (state_of self.now) actor kind.now }
        ensures { IsTrue result ↔ PlacesByMonitor self.now.machine (state_of self.now) actor kind.now }
    {
        match *kind {
            EventKind::Place { place, .. } => match self.inflight.look(actor.core, actor.lane) {
                Some(pei) => is_same_place(place, self.placement(pei.block)),
                None => false,
            },
            _ => true,
        }
    }

    /// Where a PEI on a block is placed.
    pub(crate) fn placement(&self, block: BlockNo) -> Place
        ensures { result ≡ placement_lem self.now.machine.placement (tag_of self.now.machine block) (list_at (state_of self.now).monitor (llc_set_of self.now.machine block)) }
    {
        match self.machine.placement {
            Policy3::Monitor => self.monitor.placement(block),
            Policy3::Host => Place::Host,
            Policy3::Memory => Place::Memory,
        }
    }
}
