//! The value behind the slot of a bank.

ghost use Rattle.std.specs.Prelude.{◌≡◌, ◌<◌, IsSome, None, Some, false, true};
ghost use Rattle.pei_types.specs.declared.inflight_looks.StallCause.TheVariants as stall;
ghost use Rattle.pei_types.specs.Legal.{EachEvent};
ghost use Rattle.pei_types.specs.Next.{Makes};
ghost use Rattle.bank_laws.specs.Kept.{BankInOrder, FitsInBank};
ghost use Rattle.bank_laws.specs.Logs.{Rises};
ghost use Rattle.bank_laws.specs.Rows.{IsRowOfBank};
ghost use Rattle.coherence_laws.specs.Holdings.{Holdings};
ghost use Rattle.inflight.specs.OnTheWay.{IsLaneOf};
ghost use Rattle.fabric.specs.Banks.{HasWaits, IsEntryFreeIn, IsNew, MayCall, call_stall_of, call_turn_of, events_of, lane_turn_of, stall_in, waits_of, with_event};
ghost use Rattle.fabric.specs.History.{lane_of as lane_of_lem, program_of as program_of_lem};
ghost use Rattle.fabric.specs.Looks.{open_fence};

use fabric::{Bank, CoreLook};
use pei_types::{Call, CoreId, Event, Lane, PeiId, StallCause};
use shared_table::Shared;
use std::marker::{Brand, PhantomData};

/// What a run is of: its program, its machine, and the image of memory that it began with. All of it stands in types alone,
/// so that each holder of a bank knows that the bank is of its run.
pub(crate) trait Run {
    ghost use Rattle.pei_types.specs.Program.{Listing, Contents};
    ghost use Rattle.pei_types.specs.declared.machines.MachineSpec.{MachineSpec};

    ghost program: { Listing };

    ghost machine: { MachineSpec };

    ghost image: { Contents };
}

impl Run for Brand {
    ghost use Rattle.host_run.specs.Runs.{no_program, no_machine, no_image};

    ghost program = { no_program };

    ghost machine = { no_machine };

    ghost image = { no_image };
}

/// A bank of this run. It stands in a box, so that the slot is taken and given back without moving the bank. What is done
/// with the bank is done through the calls of this type, each with the contract of the bank's own.
#[derive(Drop)]
pub(crate) struct RunBank<L: Run> {
    pub bank: Box<Bank>,
    pub of: PhantomData<L>,
    ghost machine: { bank.value.machine ≡ L.machine },
    ghost image: { bank.value.image ≡ L.image },
}

impl<L: Run + Send> Shared for RunBank<L> {
    ghost use Rattle.shared_table.specs.Actives.{active_in};
    ghost use Rattle.shared_table.specs.Journal.{events};

    ghost log = { λ b. b.bank.value.log };

    ghost active = { λ b. active_in L.machine.directory (events b.bank.value.log) };

    ghost bank = { λ b. b.bank.value.bank };
}

impl<L: Run> RunBank<L> {
    /// Its log leaves it in order.
    pub fn is_in_order(&self)
        ensures order { (h : Holdings) × BankInOrder self.now.bank.value.machine self.now.bank.value.image (events_of self.now.bank.value) h }
        ensures rows { EachEvent (IsRowOfBank self.now.bank.value.machine self.now.bank.value.image self.now.bank.value.bank) (events_of self.now.bank.value) }
        ensures fitting { EachEvent (λ before e. FitsInBank self.now.bank.value.machine before e.actor e.kind) (events_of self.now.bank.value) }
        ensures rising { Rises self.now.bank.value.log }
    {
        self.bank.is_in_order();
    }

    /// The first writer, in the order of issue, that has not left and whose issue has a smaller stamp.
    pub fn fence_waits(&self, stamp: u32) -> Option<PeiId>
        ensures { result ≡ waits_of self.now.bank.value stamp }
    {
        self.bank.fence_waits(stamp)
    }

    /// Why the call of a core's program waits here.
    pub fn call_stall(&self, core: CoreId, call: &Call, look: &CoreLook) -> Option<StallCause>
        requires core { core.0 < self.now.bank.value.machine.cores }
        requires waits { HasWaits self.now.bank.value look.now (open_fence look.now call.now) }
        ensures { result ≡ call_stall_of self.now.bank.value core look.now call.now }
    {
        self.bank.call_stall(core, call, look)
    }

    /// Why a lane with its PEI waits here.
    pub fn lane_stall(&self, core: CoreId, lane: Lane, look: &CoreLook) -> Option<StallCause>
        requires lane { IsLaneOf self.now.bank.value.machine core lane }
        ensures { result ≡ stall_in (lane_turn_of self.now.bank.value false core lane look.now) }
    {
        self.bank.lane_stall(core, lane, look)
    }

    /// Makes the event of the row for the call of a core's program.
    pub fn call(&mut self, core: CoreId, call: &Call, look: &CoreLook, stamp: u32) -> Event
        requires may { MayCall self.old.bank.value core look.now call.now }
        requires new { IsNew self.old.bank.value.log stamp }
        requires below { stamp < self.old.bank.value.machine.events }
        ensures actor { result.actor ≡ program_of_lem core }
        ensures row { call_turn_of self.old.bank.value core look.now call.now ≡ Makes result.kind }
        ensures log { self.new.bank.value ≡ with_event self.old.bank.value stamp result }
    {
        self.bank.call(core, call, look, stamp)
    }

    /// The PEI in a lane enters.
    pub fn enter(&mut self, core: CoreId, lane: Lane, look: &CoreLook, stamp: u32) -> Event
        requires lane { IsLaneOf self.old.bank.value.machine core lane }
        requires goes { stall_in (lane_turn_of self.old.bank.value false core lane look.now) ≡ Some stall.NeedsGrant }
        requires asks { IsSome look.now.first_unentered }
        requires free { IsEntryFreeIn self.old.bank.value core lane }
        requires new { IsNew self.old.bank.value.log stamp }
        requires below { stamp < self.old.bank.value.machine.events }
        ensures actor { result.actor ≡ lane_of_lem core lane }
        ensures row { lane_turn_of self.old.bank.value true core lane look.now ≡ Makes result.kind }
        ensures log { self.new.bank.value ≡ with_event self.old.bank.value stamp result }
    {
        self.bank.enter(core, lane, look, stamp)
    }

    /// Makes the event of the row for a lane with its PEI, which does not enter.
    pub fn lane(&mut self, core: CoreId, lane: Lane, look: &CoreLook, stamp: u32) -> Event
        requires lane { IsLaneOf self.old.bank.value.machine core lane }
        requires goes { stall_in (lane_turn_of self.old.bank.value false core lane look.now) ≡ None }
        requires new { IsNew self.old.bank.value.log stamp }
        requires below { stamp < self.old.bank.value.machine.events }
        ensures actor { result.actor ≡ lane_of_lem core lane }
        ensures row { lane_turn_of self.old.bank.value false core lane look.now ≡ Makes result.kind }
        ensures log { self.new.bank.value ≡ with_event self.old.bank.value stamp result }
    {
        self.bank.lane(core, lane, look, stamp)
    }
}
