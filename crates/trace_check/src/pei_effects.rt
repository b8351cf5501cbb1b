//! What an event of a PEI does to the machine.

ghost use Rattle.std.specs.Prelude.{◌≡◌, ◌<◌, ◌⊎◌, ℕ, IsTrue, Some, None, true, false};
ghost use Rattle.pei_types.specs.declared.events.EventKind.TheVariants as event;
ghost use Rattle.pei_types.specs.declared.operations.Reply.{Reply as Answer};
ghost use Rattle.pei_types.specs.Blocks.{vault_of as vault_of_lem};
ghost use Rattle.pei_types.specs.Calls.{is_actor_of};
ghost use Rattle.pei_types.specs.MachineState.{is_i, is_owned, letter_of, mark_of, queue_is_full, queue_of};
ghost use Rattle.pei_types.specs.Operation.{CanApply, is_writer};
ghost use Rattle.coherence_laws.specs.Invariants.{HoldsSeal, Invariants};
ghost use Rattle.coherence_bus.specs.Hierarchy.{state_of as lines_of};
ghost use Rattle.inflight.specs.OnTheWay.{IsHead};
ghost use Rattle.trace_check.specs.InState.{IsPeis, LooksFit, MayApply};
ghost use Rattle.trace_check.specs.CheckerParts.{IsThere, Moved, actor_of, host_written, placed_under, state_of};

use crate::checker::Checker;
use coherence_bus::Bus;
use locality_monitor::Monitor;
use locality_monitor::laws::state_follows;
use pei_ops::{apply, writes};
use pei_types::{Actor, Block, BlockNo, EventKind, PeiLook, Phase, Place, Policy3};

/// A block that stands in an operand buffer entry, whose content no clause reads.
const NO_CONTENT: Block = Block([0; 8]);

/// A PEI on a block is placed by a policy, which may ask the monitor.
fn place_by(monitor: &mut Monitor, policy: Policy3, block: BlockNo)
    ensures { monitor.new ≡ placed_under policy monitor.old block }
{
    match policy {
        Policy3::Monitor => {
            monitor.place(block);
        }
        Policy3::Host | Policy3::Memory => {}
    }
}

/// The core of a PEI at the host writes its block, if the PEI writes.
fn write_back(bus: &mut Bus, pei: &PeiLook)
    requires core { pei.now.id.core.0 < bus.old.machine.cores }
    requires inside { pei.now.block.0 < bus.old.machine.blocks }
    requires applies { CanApply pei.now.op pei.now.operands }
    requires owned { is_writer pei.now.op ≡ true → is_owned (letter_of bus.old.machine (lines_of bus.old) pei.now.id.core pei.now.block) ≡ true }
    ensures { bus.new ≡ host_written bus.old pei.now }
{
    if writes(pei.op) {
        let mut block = bus.peek(pei.block);
        apply(pei.op, &pei.operands, &mut block);
        bus.host_write(pei.id.core, pei.block, &block);
    }
}

impl Checker {
    /// Goes on by an event of the PEI in a lane.
    pub(crate) fn apply_pei(&mut self, actor: Actor, kind: &EventKind)
        requires actor { is_actor_of self.old.machine actor ≡ true }
        requires may { MayApply self.old.machine (state_of self.old) actor kind.now }
        requires pei { IsPeis kind.now }
        requires act { LooksFit self.old.machine.blocks (state_of self.old) }
        requires invariants { Invariants self.old.machine (state_of self.old) }
        ensures { Moved self.old self.new actor kind.now }
    {
        let Some(pei) = self.inflight.look(actor.core, actor.lane) else {
            return;
        };
        match *kind {
            EventKind::Enter { .. } => self.enter(&pei),
            EventKind::Place { place, .. } => self.place(&pei, place),
            EventKind::Read { .. } => self.read(&pei),
            EventKind::Seal { vault, .. } => self.seal(&pei, vault),
            EventKind::Act { .. } => self.act(&pei),
            EventKind::Leave { .. } => self.leave(&pei),
            _ => {}
        }
    }

    /// A PEI enters the directory.
    fn enter(&mut self, pei: &PeiLook)
        requires there { IsThere self.old pei.now }
        requires phase { pei.now.phase ≡ Phase.Issued }
        ensures { Moved self.old self.new (actor_of pei.now) (event.Enter pei.now.id.seq) }
    {
        self.inflight.enter(pei.id.core, pei.lane);
    }

    /// A PEI that has entered is placed. Under a fixed policy the monitor stays as it is.
    fn place(&mut self, pei: &PeiLook, place: Place)
        requires there { IsThere self.old pei.now }
        requires phase { pei.now.phase ≡ Phase.Entered }
        ensures { Moved self.old self.new (actor_of pei.now) (event.Place pei.now.id.seq place) }
    {
        state_follows();
        place_by(&mut self.monitor, self.machine.placement, pei.block);
        self.inflight.place(pei.id.core, pei.lane, place);
    }

    /// A PEI at the host reads its block, which its core has.
    fn read(&mut self, pei: &PeiLook)
        requires there { IsThere self.old pei.now }
        requires phase { pei.now.phase ≡ Phase.HostPlaced }
        requires present { is_i (letter_of self.old.machine (state_of self.old) pei.now.id.core pei.now.block) ≡ false }
        ensures { Moved self.old self.new (actor_of pei.now) (event.Read pei.now.id.seq) }
    {
        self.bus.host_read(pei.id.core, pei.block);
        self.inflight.host_read(pei.id.core, pei.lane, &NO_CONTENT);
    }

    /// A PEI in memory goes to the back of a vault's queue.
    fn seal(&mut self, pei: &PeiLook, vault: u8)
        requires there { IsThere self.old pei.now }
        requires phase { pei.now.phase ≡ Phase.MemoryPlaced }
        requires vault { vault < self.old.machine.vaults }
        requires room { queue_is_full self.old.machine (state_of self.old) vault ≡ false }
        ensures { Moved self.old self.new (actor_of pei.now) (event.Seal pei.now.id.seq vault) }
    {
        self.inflight.seal(pei.id.core, pei.lane, vault);
    }

    /// A PEI acts: memory executes it where it is sealed, and the host where it has read its block.
    fn act(&mut self, pei: &PeiLook)
        requires there { IsThere self.old pei.now }
        requires applies { CanApply pei.now.op pei.now.operands }
        requires inside { pei.now.block.0 < self.old.machine.blocks }
        requires seal { pei.now.phase ≡ Phase.Sealed → HoldsSeal (letter_of self.old.machine (state_of self.old)) (mark_of self.old.machine (state_of self.old)) pei.now.block (is_writer pei.now.op) }
        requires owned { pei.now.phase ≡ Phase.Read → is_writer pei.now.op ≡ true → is_owned (letter_of self.old.machine (state_of self.old) pei.now.id.core pei.now.block) ≡ true }
        requires ready { (pei.now.phase ≡ Phase.Read) ⊎ IsHead self.old.machine (state_of self.old) (Some pei.now) }
        ensures { (reply : Answer) → Moved self.old self.new (actor_of pei.now) (event.Act pei.now.id.seq reply) }
    {
        if pei.phase == Phase::Sealed {
            self.act_in_memory(pei);
        } else {
            self.act_at_host(pei);
        }
    }

    /// Memory executes a sealed PEI that heads its queue.
    fn act_in_memory(&mut self, pei: &PeiLook)
        requires there { IsThere self.old pei.now }
        requires applies { CanApply pei.now.op pei.now.operands }
        requires inside { pei.now.block.0 < self.old.machine.blocks }
        requires seal { HoldsSeal (letter_of self.old.machine (state_of self.old)) (mark_of self.old.machine (state_of self.old)) pei.now.block (is_writer pei.now.op) }
        requires head { IsHead self.old.machine (state_of self.old) (Some pei.now) }
        ensures { (reply : Answer) → Moved self.old self.new (actor_of pei.now) (event.Act pei.now.id.seq reply) }
    {
        self.bus.vault_act(pei.block, pei.op, &pei.operands);
        self.inflight.acted(pei.id.core, pei.lane);
    }

    /// The host executes a PEI that has read its block.
    fn act_at_host(&mut self, pei: &PeiLook)
        requires there { IsThere self.old pei.now }
        requires applies { CanApply pei.now.op pei.now.operands }
        requires inside { pei.now.block.0 < self.old.machine.blocks }
        requires phase { pei.now.phase ≡ Phase.Read }
        requires owned { is_writer pei.now.op ≡ true → is_owned (letter_of self.old.machine (state_of self.old) pei.now.id.core pei.now.block) ≡ true }
        ensures { (reply : Answer) → Moved self.old self.new (actor_of pei.now) (event.Act pei.now.id.seq reply) }
    {
        write_back(&mut self.bus, pei);
        self.inflight.acted(pei.id.core, pei.lane);
    }

    /// A PEI that has acted leaves.
    fn leave(&mut self, pei: &PeiLook)
        requires there { IsThere self.old pei.now }
        requires phase { pei.now.phase ≡ Phase.Acted }
        ensures { Moved self.old self.new (actor_of pei.now) (event.Leave pei.now.id.seq) }
    {
        self.inflight.leave(pei.id.core, pei.lane);
    }
}
