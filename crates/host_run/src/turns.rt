//! The turns of a core's lanes.

ghost use Rattle.std.specs.Prelude.{◌≡◌, ◌<◌, ◌≤◌, IsTrue, IsFalse, IfSome, IsSome, Some, None, false, true};
ghost use Rattle.pei_types.specs.declared.calls.Call.TheVariants as calls;
ghost use Rattle.pei_types.specs.Calls.{CallFits};
ghost use Rattle.pei_types.specs.Limits.{log_two};
ghost use Rattle.pei_types.specs.Core.{Calls, core_config, next_of};
ghost use Rattle.bank_laws.specs.Banks.{bank_of as bank_of_lem};
ghost use Rattle.pei_types.specs.Blocks.{entry_of as entry_of_lem};
ghost use Rattle.bank_laws.specs.Rows.{IsCallOf, bank_look};
ghost use Rattle.fabric.specs.Banks.{IsHome, call_stall_of, waits_of};
ghost use Rattle.fabric.specs.Looks.{is_clear, open_fence, seen};
ghost use Rattle.host_run.specs.ThreadInvariant.{IsFull, IsInTurn};
ghost use Rattle.host_run.specs.Own.{core_of, is_spent, own_state, pei_in};
ghost use Rattle.shared_table.specs.Claims.{before_grant, earlier_left};
ghost use Rattle.shared_table.specs.Own.{Has};
ghost use Rattle.shared_table.specs.Parts.{claims};
ghost use Rattle.shared_table.specs.declared.claims.Claim.TheVariants.{Held};

use crate::cores::CoreRun;
use crate::own_peis::OwnPei;
use crate::slots::{Run, RunBank};
use crate::visits::{Place, laws};
use core_exec::CoreNext;
use fabric::CoreLook;
use pei_io::Gate;
use pei_types::{BlockNo, Call, Lane, MachineSpec, Mode, PeiId, StallCause, block_of, fold};
use shared_table::{Claim, CoreSeat, Grant};
use std::sync::Wait;

/// The bank of a block.
fn bank_of(block: BlockNo, spec: &MachineSpec) -> u32
    ensures below { result < spec.now.banks }
    ensures bank { result ≡ bank_of_lem spec.now block }
{
    block.0 % spec.banks
}

/// The bank in which a call is made: that of the block that it names, or else the first.
fn bank_of_call(call: &Call, spec: &MachineSpec) -> u32
    requires { CallFits spec.now.blocks call.now }
    ensures below { result < spec.now.banks }
    ensures here { IsCallOf spec.now result (Calls call.now) }
    ensures home { IsHome result call.now }
{
    match *call {
        Call::Load { addr, .. } | Call::Store { addr, .. } => bank_of(block_of(addr), spec),
        Call::Pei { block, .. } => bank_of(block, spec),
        Call::Fence | Call::Out { .. } | Call::End { .. } => 0,
    }
}

/// The directory entry of a block.
fn entry_of(block: BlockNo, spec: &MachineSpec) -> u32
    ensures entry { result ≡ entry_of_lem spec.now block }
    ensures below { result < spec.now.directory }
{
    fold(block, entry_bits(spec))
}

/// How many bits an entry of the directory takes.
fn entry_bits(spec: &MachineSpec) -> u32
    ensures { result ≡ log_two spec.now.directory }
{
    spec.directory.ilog2()
}

impl<'a, L: Run + Send + Sync, R: Wait, G: Gate> Place<'a, L, R, G> {
    /// A turn of the core's program. False where it found that no stamp is left, as every turn.
    ///
    /// Where the core's fence is on, it is asked for again, and nothing else is: the fence visits the first bank that is not
    /// cleared for it, and ends where all are.
    pub fn program_turn(&self, seat: &mut CoreSeat<RunBank<L>>, run: &mut CoreRun) -> bool
        requires turn { IsInTurn L.program L.machine L.image self.now.table.now.table seat.old run.old }
        requires core { self.now.core ≡ core_of seat.old }
        ensures goes { IsTrue result → IsInTurn L.program L.machine L.image self.now.table.now.table seat.new run.new }
        ensures full { IsFalse result → IsFull L.program L.machine L.image self.now.table.now.table seat.new run.new }
        ensures core { core_of seat.new ≡ core_of seat.old }
    {
        laws();
        let CoreNext::Call(call) = run.core.next_call(self.program, self.spec.core_config()) else {
            return true;
        };
        match (call, run.own.fence) {
            (Call::Fence, Some(begin)) if u32::from(run.own.cleared) < self.spec.banks => {
                self.clear(seat, run, begin);
                true
            }
            (Call::Fence, Some(_)) | (_, None) => self.call(seat, run, &call),
            _ => true,
        }
    }

    /// Visits the first bank that is not cleared for the fence that began at this stamp. It is cleared where no earlier writer is left
    /// in it.
    fn clear(&self, seat: &mut CoreSeat<RunBank<L>>, run: &mut CoreRun, begin: u32)
        requires turn { IsInTurn L.program L.machine L.image self.now.table.now.table seat.old run.old }
        requires bank { run.old.own.cleared < L.machine.banks }
        requires fence { run.old.own.fence ≡ Some begin }
        ensures goes { IsInTurn L.program L.machine L.image self.now.table.now.table seat.new run.new }
        ensures core { core_of seat.new ≡ core_of seat.old }
    {
        laws();
        let held = self.hold(seat, run, u32::from(run.own.cleared));
        let clear = self.is_cleared(&held.value, begin);
        self.give_back(seat, held, run);
        if clear {
            run.own.cleared += 1;
        }
    }

    /// Whether no writer is left in a bank whose issue has a smaller stamp.
    fn is_cleared(&self, slot: &RunBank<L>, begin: u32) -> bool
        ensures { IsTrue result → earlier_left begin slot.now.bank.value.log ≡ true }
    {
        let _ = self.core;
        laws();
        slot.is_in_order();
        match slot.fence_waits(begin) {
            Some(_) => false,
            None => true,
        }
    }

    /// Serves a call in its bank, where that does not have it wait.
    fn call(&self, seat: &mut CoreSeat<RunBank<L>>, run: &mut CoreRun, call: &Call) -> bool
        requires turn { IsInTurn L.program L.machine L.image self.now.table.now.table seat.old run.old }
        requires core { self.now.core ≡ core_of seat.old }
        requires call { next_of L.program (core_config L.machine) run.old.core.state ≡ Calls call.now }
        requires fence { IfSome run.old.own.fence (λ _. (call.now ≡ calls.Fence) × (run.old.own.cleared ≡ L.machine.banks)) }
        ensures goes { IsTrue result → IsInTurn L.program L.machine L.image self.now.table.now.table seat.new run.new }
        ensures full { IsFalse result → IsFull L.program L.machine L.image self.now.table.now.table seat.new run.new }
        ensures core { core_of seat.new ≡ core_of seat.old }
    {
        laws();
        let look = run.own.look(self.core, self.spec.buffer);
        let bank = bank_of_call(call, self.spec);
        let mut held = self.hold(seat, run, bank);
        if self.waits(&held.value, call, &look) {
            self.give_back(seat, held, run);
            return true;
        }
        let Some(stamp) = self.draw(seat, bank, run) else {
            self.give_back(seat, held, run);
            return false;
        };
        let event = held.value.call(self.core, call, &look, stamp);
        self.give_event(seat, run, held, stamp, &event);
        true
    }

    /// Whether a call waits in its bank. A fence that is about to end asks its bank once more for earlier writers.
    fn waits(&self, slot: &RunBank<L>, call: &Call, look: &CoreLook) -> bool
        requires clear { IfSome look.now.fence (λ _. is_clear slot.now.bank.value.machine look.now ≡ true) }
        requires core { self.now.core.0 < slot.now.bank.value.machine.cores }
        ensures goes { IsFalse result → call_stall_of slot.now.bank.value self.now.core look.now call.now ≡ None }
        ensures fence { IsFalse result → IfSome (open_fence look.now call.now) (λ begin. waits_of slot.now.bank.value begin ≡ None) }
    {
        if let (Call::Fence, Some(begin)) = (call, look.fence) {
            if slot.fence_waits(begin).is_some() {
                return true;
            }
        }
        slot.call_stall(self.core, call, look).is_some()
    }

    /// A turn of a lane from 1 on. A claim whose PEI has left goes first.
    pub fn lane_turn(&self, seat: &mut CoreSeat<RunBank<L>>, run: &mut CoreRun, lane: Lane) -> bool
        requires turn { IsInTurn L.program L.machine L.image self.now.table.now.table seat.old run.old }
        requires core { self.now.core ≡ core_of seat.old }
        requires lane { (1 ≤ lane.0) × (lane.0 ≤ L.machine.buffer) }
        ensures goes { IsTrue result → IsInTurn L.program L.machine L.image self.now.table.now.table seat.new run.new }
        ensures full { IsFalse result → IsFull L.program L.machine L.image self.now.table.now.table seat.new run.new }
        ensures core { core_of seat.new ≡ core_of seat.old }
    {
        laws();
        if run.own.spent[lane.0 as usize - 1] {
            self.release(seat, run, lane);
            return true;
        }
        let Some(pei) = run.own.pei(lane) else {
            return true;
        };
        if pei.entered {
            return self.go_on(seat, run, lane, pei);
        }
        let look = run.own.look(self.core, self.spec.buffer);
        let id = PeiId {
            core: self.core,
            seq: pei.seq,
        };
        if look.first_unentered != Some(id) {
            return true;
        }
        if let Claim::Held(_, _) = seat.claim(lane) {
            return self.enter(seat, run, lane, pei, &look);
        }
        self.claim(seat, run, lane, pei);
        true
    }

    /// Releases the claim of a PEI that has left.
    fn release(&self, seat: &mut CoreSeat<RunBank<L>>, run: &mut CoreRun, lane: Lane)
        requires turn { IsInTurn L.program L.machine L.image self.now.table.now.table seat.old run.old }
        requires lane { (1 ≤ lane.0) × (lane.0 ≤ 4) }
        requires spent { is_spent run.old.own lane.0 ≡ true }
        ensures turn { IsInTurn L.program L.machine L.image self.now.table.now.table seat.new run.new }
        ensures core { core_of seat.new ≡ core_of seat.old }
    {
        laws();
        self.table.release(seat, lane);
        run.own.spent[lane.0 as usize - 1] = false;
    }

    /// One step towards the claim of a PEI that is to enter next, without a slot: a writer is announced first, and then the claim is
    /// tried.
    fn claim(&self, seat: &mut CoreSeat<RunBank<L>>, run: &CoreRun, lane: Lane, pei: OwnPei)
        requires turn { IsInTurn L.program L.machine L.image self.now.table.now.table seat.old run.now }
        requires lane { (1 ≤ lane.0) × (lane.0 ≤ 4) }
        requires pei { (is_spent run.now.own lane.0 ≡ false) × (pei_in run.now.own lane.0 ≡ Some pei) × (pei.entered ≡ false) }
        ensures turn { IsInTurn L.program L.machine L.image self.now.table.now.table seat.new run.now }
        ensures core { core_of seat.new ≡ core_of seat.old }
    {
        let _ = run;
        laws();
        let entry = entry_of(pei.block, self.spec);
        match (seat.claim(lane), pei.mode) {
            (Claim::Free, Mode::Writer) => self.table.announce(seat, lane, entry),
            (Claim::Free, Mode::Reader) => self.try_claim(seat, run, lane, pei, entry),
            (Claim::Announced(_), _) => self.try_claim(seat, run, lane, pei, entry),
            (Claim::Held(_, _), _) => {}
        }
    }

    /// One try for the claim of a PEI that is to enter next. Where its entry is busy, the thread pauses before it goes on, longer
    /// from try to try until a claim is granted.
    fn try_claim(
        &self,
        seat: &mut CoreSeat<RunBank<L>>,
        run: &CoreRun,
        lane: Lane,
        pei: OwnPei,
        entry: u32,
    )
        requires turn { IsInTurn L.program L.machine L.image self.now.table.now.table seat.old run.now }
        requires lane { (1 ≤ lane.0) × (lane.0 ≤ 4) }
        requires pei { (is_spent run.now.own lane.0 ≡ false) × (pei_in run.now.own lane.0 ≡ Some pei) × (pei.entered ≡ false) }
        requires entry { (entry ≡ entry_of_lem L.machine pei.block) × (entry < L.machine.directory) }
        requires claim { Has (claims seat.old) lane.0 (before_grant entry pei.mode) }
        ensures turn { IsInTurn L.program L.machine L.image self.now.table.now.table seat.new run.now }
        ensures core { core_of seat.new ≡ core_of seat.old }
    {
        let _ = run;
        laws();
        match self.table.try_grant(seat, lane, entry, pei.mode) {
            Grant::Held => self.pause.reset(),
            Grant::Busy { .. } => self.pause.snooze(),
        }
    }

    /// The PEI of a lane that holds its claim enters.
    fn enter(
        &self,
        seat: &mut CoreSeat<RunBank<L>>,
        run: &mut CoreRun,
        lane: Lane,
        pei: OwnPei,
        look: &CoreLook,
    ) -> bool
        requires turn { IsInTurn L.program L.machine L.image self.now.table.now.table seat.old run.old }
        requires core { self.now.core ≡ core_of seat.old }
        requires lane { (1 ≤ lane.0) × (lane.0 ≤ L.machine.buffer) }
        requires pei { (is_spent run.old.own lane.0 ≡ false) × (pei_in run.old.own lane.0 ≡ Some pei) × (pei.entered ≡ false) }
        requires held { Has (claims seat.old) lane.0 (Held (entry_of_lem L.machine pei.block) pei.mode) }
        requires look { seen look.now ≡ bank_look L.machine (own_state L.machine seat.old) (core_of seat.old) }
        requires first { IsSome look.now.first_unentered }
        ensures goes { IsTrue result → IsInTurn L.program L.machine L.image self.now.table.now.table seat.new run.new }
        ensures full { IsFalse result → IsFull L.program L.machine L.image self.now.table.now.table seat.new run.new }
        ensures core { core_of seat.new ≡ core_of seat.old }
    {
        laws();
        let bank = bank_of(pei.block, self.spec);
        let mut held = self.hold(seat, run, bank);

        // It always waits for its entry here. The test spares the proof of that.
        let stall = held.value.lane_stall(self.core, lane, look);
        if stall != Some(StallCause::NeedsGrant) {
            self.give_back(seat, held, run);
            return true;
        }
        let Some(stamp) = self.draw(seat, bank, run) else {
            self.give_back(seat, held, run);
            return false;
        };
        let event = held.value.enter(self.core, lane, look, stamp);
        self.give_event(seat, run, held, stamp, &event);
        true
    }

    /// A turn of a lane whose PEI has entered.
    fn go_on(
        &self,
        seat: &mut CoreSeat<RunBank<L>>,
        run: &mut CoreRun,
        lane: Lane,
        pei: OwnPei,
    ) -> bool
        requires turn { IsInTurn L.program L.machine L.image self.now.table.now.table seat.old run.old }
        requires core { self.now.core ≡ core_of seat.old }
        requires lane { (1 ≤ lane.0) × (lane.0 ≤ L.machine.buffer) }
        requires pei { (is_spent run.old.own lane.0 ≡ false) × (pei_in run.old.own lane.0 ≡ Some pei) × (pei.entered ≡ true) }
        ensures goes { IsTrue result → IsInTurn L.program L.machine L.image self.now.table.now.table seat.new run.new }
        ensures full { IsFalse result → IsFull L.program L.machine L.image self.now.table.now.table seat.new run.new }
        ensures core { core_of seat.new ≡ core_of seat.old }
    {
        laws();
        let look = run.own.look(self.core, self.spec.buffer);
        let bank = bank_of(pei.block, self.spec);
        let mut held = self.hold(seat, run, bank);
        if held.value.lane_stall(self.core, lane, &look).is_some() {
            self.give_back(seat, held, run);
            return true;
        }
        let Some(stamp) = self.draw(seat, bank, run) else {
            self.give_back(seat, held, run);
            return false;
        };
        let event = held.value.lane(self.core, lane, &look, stamp);
        self.give_event(seat, run, held, stamp, &event);
        true
    }
}
