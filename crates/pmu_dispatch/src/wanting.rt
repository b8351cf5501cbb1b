//! The messages that bring a block to a core.

ghost use Rattle.std.specs.Prelude.{◌≡◌, ◌<◌, true, false};
ghost use Rattle.pei_types.specs.declared.machines.MachineSpec.{MachineSpec};
ghost use Rattle.pei_types.specs.MachineState.{State, LlcLine, mark_of, llc_set};
ghost use Rattle.pei_types.specs.MachineState.{is_absent as is_absent_lem};
ghost use Rattle.pei_types.specs.Next.{want, grant};
ghost use Rattle.pei_types.specs.Next.{bring_in as bring_in_lem, evict as evict_lem, holder as holder_lem};
ghost use Rattle.pei_types.specs.Recency.{victim as last_line};
ghost use Rattle.pmu_dispatch.specs.Shown.{AreLooksOf, victim_shown};

use crate::looks::{Victim, WantLooks, holder, is_absent, is_dirty, owner};
use pei_types::EventKind;

/// The next coherence message on the way of a block to the core that asks: to share it, or to modify it.
///
/// First the block comes into the last-level cache, whose full set gives its last line up before; then the own private
/// cache gives its last line up where its set is full; then the other cores lose what stands against the grant; then
/// the block is granted. The core is 0 to 7.
pub fn want_next(looks: &WantLooks, modify: bool) -> EventKind
    requires { looks.now.own.0 < 8 }
    ensures { (m : MachineSpec) (s : State) → AreLooksOf m s looks.now
        → result ≡ want m s looks.now.own looks.now.block modify }
{
    if is_absent(looks.mark) {
        return bring_in(looks);
    }
    if let Some(block) = looks.l1_victim {
        return EventKind::EvictL1 {
            core: looks.own,
            block,
        };
    }
    if modify {
        grant_to_modify(looks)
    } else {
        grant_to_share(looks)
    }
}

/// The message that brings the block into the last-level cache, which lacks it.
fn bring_in(looks: &WantLooks) -> EventKind
    ensures { (m : MachineSpec) (s : State) → AreLooksOf m s looks.now → is_absent_lem (mark_of m s looks.now.block) ≡ true
        → result ≡ bring_in_lem m s looks.now.block (last_line m.llc_ways (llc_set m s looks.now.block)) }
{
    match looks.llc_victim {
        Some(victim) => evict(&victim),
        None => EventKind::Fill { block: looks.block },
    }
}

/// The message on the way of a block out of the last-level cache: first out of the private caches, then back to memory.
fn evict(victim: &Victim) -> EventKind
    ensures { (m : MachineSpec) (s : State) (line : LlcLine) → victim.now ≡ victim_shown m s line
        → result ≡ evict_lem m s line.block (holder_lem m s line.block) }
{
    let block = victim.block;
    match holder(&victim.letters) {
        Some(core) => EventKind::Invalidate { core, block },
        None if is_dirty(victim.mark) => EventKind::Clean { block },
        None => EventKind::EvictLlc { block },
    }
}

/// The message that lets the own core share the block, or before it the one that downgrades another core's copy.
fn grant_to_share(looks: &WantLooks) -> EventKind
    requires { looks.now.own.0 < 8 }
    ensures { (m : MachineSpec) (s : State) → AreLooksOf m s looks.now
        → result ≡ grant m s looks.now.own looks.now.block false }
{
    let block = looks.block;
    let others = looks.other_letters();
    if let Some(core) = owner(&others) {
        return EventKind::Downgrade { core, block };
    }
    if looks.sealed {
        return EventKind::GrantS { block };
    }
    match holder(&others) {
        Some(_) => EventKind::GrantS { block },
        None => EventKind::GrantE { block },
    }
}

/// The message that lets the own core modify the block, or before it one that invalidates another core's copy.
fn grant_to_modify(looks: &WantLooks) -> EventKind
    requires { looks.now.own.0 < 8 }
    ensures { (m : MachineSpec) (s : State) → AreLooksOf m s looks.now
        → result ≡ grant m s looks.now.own looks.now.block true }
{
    let block = looks.block;
    match holder(&looks.other_letters()) {
        Some(core) => EventKind::Invalidate { core, block },
        None => EventKind::GrantM { block },
    }
}
