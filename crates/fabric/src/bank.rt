//! A bank of a fabric, which a thread works on while others work on the others.

ghost use Rattle.std.specs.Prelude.{◌≡◌, ◌<◌, false, true, Some, None, IsSome, IsTrue};
ghost use Rattle.pei_types.specs.declared.inflight_looks.StallCause.TheVariants as stall;
ghost use Rattle.pei_types.specs.Calls.{is_actor_of};
ghost use Rattle.pei_types.specs.Next.{Makes};
ghost use Rattle.std.specs.List.{AllByRecursion};
ghost use Rattle.pei_types.specs.Legal.{EachEvent};
ghost use Rattle.bank_laws.specs.Kept.{BankInOrder, FitsInBank};
ghost use Rattle.bank_laws.specs.Logs.{Rises};
ghost use Rattle.bank_laws.specs.Rows.{IsRowOfBank};
ghost use Rattle.coherence_laws.specs.Holdings.{Holdings};
ghost use Rattle.inflight.specs.OnTheWay.{IsLaneOf};
ghost use Rattle.fabric.specs.Banks.{IsEntryFreeIn, IsNew, HasWaits, MayCall, call_stall_of, call_turn_of, events_of, lane_turn_of, stall_in, waits_of, with_event};
ghost use Rattle.fabric.specs.History.{lane_of as lane_of_lem, program_of as program_of_lem};
ghost use Rattle.fabric.specs.Looks.{open_fence};

use crate::looks::CoreLook;
use crate::parts::Parts;
use crate::sections::Section;
use journal::Journal;
use pei_types::{Call, CoreId, Event, Image, Lane, PeiId, StallCause};
use std::marker::Model;
use std::snapshot::Snapshot;

/// What the banks of a fabric are merged into: parts at the start of a run, and an empty journal.
#[derive(Drop)]
pub(crate) struct Reserve {
    pub(crate) parts: Parts,
    pub(crate) journal: Journal,
    /// The memory that the machine began with, for contracts alone.
    pub(crate) image: Snapshot<Image>,
    /// Room for all banks.
    pub(crate) banks: Vec<Section>,
}

/// One bank of a fabric: the caches, vaults and PEIs of its blocks, and the journal of its events, each with a stamp, its place
/// in the journal of all banks. Only the sizes of the machine are shared with other banks.
///
/// A bank is seen as the machine, the image of memory that it began with, its number, and its log. All that it has beside them is
/// what the definitions say of its own log. What the rows ask of a core is in the look that its thread brings. No call
/// takes memory.
#[derive(Drop)]
pub struct Bank {
    pub(crate) section: Section,
    /// Bank 0 has it.
    pub(crate) reserve: Option<Reserve>,
}

impl Model for Bank {
    ghost use Rattle.fabric.specs.Banks.{BankHistory};

    ghost Value = { BankHistory };

    ghost use Rattle.fabric.specs.KeptReserve.{IsReady};

    ghost view = { λ b. b.section };

    ghost invariant = { IsReady };
}

impl Bank {
    /// The number of the bank.
    pub fn number(&self) -> u32
        ensures { result ≡ self.now.bank }
    {
        self.section.bank
    }

    /// Its log leaves it in order. Each event is of an actor of the machine, a row of the bank behind the events before it, and fits
    /// there: a PEI is issued with a lane and a number that are new to the bank, and enters where no active PEI of the bank conflicts.
    /// Stamps rise, below the number of events that the machine has room for. This is always so: the call does nothing, and is for
    /// contracts.
    pub fn is_in_order(&self)
        ensures order { (h : Holdings) × BankInOrder self.now.machine self.now.image (events_of self.now) h }
        ensures rows { EachEvent (IsRowOfBank self.now.machine self.now.image self.now.bank) (events_of self.now) }
        ensures fitting { EachEvent (λ before e. FitsInBank self.now.machine before e.actor e.kind) (events_of self.now) }
        ensures actors { AllByRecursion (λ e. IsTrue (is_actor_of self.now.machine e.actor)) (events_of self.now) }
        ensures rising { Rises self.now.log }
        ensures within { AllByRecursion (λ x. x.stamp < self.now.machine.events) self.now.log }
    {
        self.section.is_in_order();
    }

    /// Why the call of a core's program waits in this bank, or `None` where its row is an event.
    ///
    /// A PEI waits with `BufferFull` where the core has no free lane, and an end with `Draining` for the core's first PEI that has not
    /// left. A fence that is on waits with `FenceWaits` for this bank's first unfinished writer whose issue has a smaller stamp than the
    /// fence's begin, until each bank was visited since then and had none. All other calls make an event at once. The condition
    /// is that this bank has such a writer, as `fence_waits` tells, where a fence is on and some bank's bit is missing.
    pub fn call_stall(&self, core: CoreId, call: &Call, look: &CoreLook) -> Option<StallCause>
        requires core { core.0 < self.now.machine.cores }
        requires waits { HasWaits self.now look.now (open_fence look.now call.now) }
        ensures { result ≡ call_stall_of self.now core look.now call.now }
    {
        self.section.call_stall(core, call, look)
    }

    /// Why a lane with its PEI waits in this bank, or `None` where its row is an event.
    ///
    /// `Idle` where the lane holds no PEI of this bank. A PEI that has not entered waits with `NotOldest` for the core's first that has
    /// not, and that one with `NeedsGrant` for its directory entry. One in memory waits with `VaultFull` where its vault's queue has no
    /// room, and with `NotHead` behind the head of that queue.
    pub fn lane_stall(&self, core: CoreId, lane: Lane, look: &CoreLook) -> Option<StallCause>
        requires lane { IsLaneOf self.now.machine core lane }
        ensures { result ≡ stall_in (lane_turn_of self.now false core lane look.now) }
    {
        self.section.lane_stall(core, lane, look)
    }

    /// Makes the event of the row for the call of a core's program, with this stamp.
    ///
    /// The conditions are that the stamp is above each of this bank, and below the number of events that the machine has room for;
    /// that the call does not stall; those of the call on the whole machine; that the call is made in this bank, which is bank 0
    /// where it names no block; that the core's free lane holds no PEI in this bank, and its next number names none; and that
    /// the bank's fence of the core is on exactly where the core's is, and then waits for no writer here.
    pub fn call(&mut self, core: CoreId, call: &Call, look: &CoreLook, stamp: u32) -> Event
        requires may { MayCall self.old core look.now call.now }
        requires new { IsNew self.old.log stamp }
        requires below { stamp < self.old.machine.events }
        ensures actor { result.actor ≡ program_of_lem core }
        ensures row { call_turn_of self.old core look.now call.now ≡ Makes result.kind }
        ensures log { self.new ≡ with_event self.old stamp result }
    {
        self.section.call(core, call, look, stamp)
    }

    /// The PEI in a lane enters, with this stamp. The conditions are, beside those on the stamp, that the lane waits for its
    /// directory entry, which is asked for as the core's first PEI that has not entered, and that no active PEI of this bank on the same entry
    /// conflicts.
    pub fn enter(&mut self, core: CoreId, lane: Lane, look: &CoreLook, stamp: u32) -> Event
        requires lane { IsLaneOf self.old.machine core lane }
        requires goes { stall_in (lane_turn_of self.old false core lane look.now) ≡ Some stall.NeedsGrant }
        requires asks { IsSome look.now.first_unentered }
        requires free { IsEntryFreeIn self.old core lane }
        requires new { IsNew self.old.log stamp }
        requires below { stamp < self.old.machine.events }
        ensures actor { result.actor ≡ lane_of_lem core lane }
        ensures row { lane_turn_of self.old true core lane look.now ≡ Makes result.kind }
        ensures log { self.new ≡ with_event self.old stamp result }
    {
        self.section.enter(core, lane, look, stamp)
    }

    /// Makes the event of the row for a lane with its PEI, which does not enter, with this stamp. The conditions are, beside those
    /// on the stamp, that the lane does not stall.
    pub fn lane(&mut self, core: CoreId, lane: Lane, look: &CoreLook, stamp: u32) -> Event
        requires lane { IsLaneOf self.old.machine core lane }
        requires goes { stall_in (lane_turn_of self.old false core lane look.now) ≡ None }
        requires new { IsNew self.old.log stamp }
        requires below { stamp < self.old.machine.events }
        ensures actor { result.actor ≡ lane_of_lem core lane }
        ensures row { lane_turn_of self.old false core lane look.now ≡ Makes result.kind }
        ensures log { self.new ≡ with_event self.old stamp result }
    {
        self.section.lane(core, lane, look, stamp)
    }

    /// The first writer of this bank, in the order of issue, that has not left and whose issue has a smaller stamp; `None` where there
    /// is none.
    pub fn fence_waits(&self, stamp: u32) -> Option<PeiId>
        ensures { result ≡ waits_of self.now stamp }
    {
        self.section.fence_waits(stamp)
    }
}
