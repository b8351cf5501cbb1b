//! The parts and the journal of one bank.

ghost use Rattle.std.specs.Prelude.{◌≡◌, ◌<◌, ◌*◌, false, true, None, IfOk, IsSome, IsTrue, Some, find, length, option_map, replicate, if◌then◌else◌};
ghost use Rattle.pei_types.specs.declared.inflight_looks.StallCause.TheVariants as stall;
ghost use Rattle.pei_types.specs.Calls.{is_actor_of};
ghost use Rattle.pei_types.specs.Next.{Makes, enter_row};
ghost use Rattle.std.specs.List.{AllByRecursion};
ghost use Rattle.pei_types.specs.Legal.{EachEvent};
ghost use Rattle.bank_laws.specs.Kept.{BankInOrder, FitsInBank};
ghost use Rattle.bank_laws.specs.Logs.{Rises, has_stamp};
ghost use Rattle.bank_laws.specs.Rows.{IsRowOfBank};
ghost use Rattle.coherence_laws.specs.Holdings.{Holdings};
ghost use Rattle.inflight.specs.OnTheWay.{IsLaneOf};
ghost use Rattle.fabric.specs.Banks.{IsEntryFreeIn, IsNew, HasWaits, MayCall, bank_at_start, call_stall_of, call_turn_of, events_of, lane_turn_of, stall_in, waits_of, with_event};
ghost use Rattle.fabric.specs.ValidEvents.{EventFits};
ghost use Rattle.fabric.specs.History.{lane_of as lane_of_lem, program_of as program_of_lem};
ghost use Rattle.fabric.specs.Laws.{BankLaws};
ghost use Rattle.fabric.specs.Looks.{is_clear, open_fence};
ghost use Rattle.fabric.specs.IssueStamps.{with_issue};

use crate::looks::CoreLook;
use crate::moves::{lane_of, program_of};
use crate::parts::Parts;
use crate::places::place_near;
use bank_laws::laws::{banks_go_on, banks_keep_apart, cores_go_on, rows_are_local};
use coherence_laws::laws::{flat_memory_goes_on, lanes_hold_peis};
use journal::Journal;
use pei_types::{
    Call, CoreId, Event, EventKind, Image, Lane, MachineSpec, OutOfMemory, PeiId, PeiLook, Phase,
    StallCause,
};
use std::alloc::Global;
use std::marker::Model;
use std::snapshot::Snapshot;

/// One bank of a machine: the parts, of which only the bank's blocks, sets and vaults are ever touched, and the journal of
/// the bank's events.
#[derive(Drop)]
pub(crate) struct Section {
    pub(crate) parts: Parts,
    pub(crate) journal: Journal,
    pub(crate) bank: u32,
    /// The memory that the machine began with, for contracts alone.
    pub(crate) image: Snapshot<Image>,
    /// The issue stamp of the PEI in each lane: that of lane l of core c has place 4 * c + l.
    pub(crate) numbers: Vec<u32>,
}

impl Model for Section {
    ghost use Rattle.fabric.specs.Banks.{BankHistory};

    ghost Value = { BankHistory };

    ghost use Rattle.fabric.specs.KeptBank.{shown, IsKept};

    ghost view = { shown };

    ghost invariant = { IsKept };
}

/// The laws that the log of a bank rests on.
pub(crate) fn laws()
    ensures { BankLaws }
{
    banks_go_on();
    banks_keep_apart();
    rows_are_local();
    cores_go_on();
    flat_memory_goes_on();
    lanes_hold_peis();
}

/// A number for each lane: core c is below 8 and lane l at most 4, so places 4 * c + l are below 33.
fn make_numbers(alloc: Global) -> Result<Vec<u32>, OutOfMemory>
    ensures { IfOk result (λ v. v.items ≡ replicate 33 0) }
{
    vec![in alloc; 0; 33].map_err(|_| OutOfMemory)
}

/// Keeps the stamp of an event, if it is an issue, for its lane.
fn note(numbers: &mut Vec<u32>, core: CoreId, kind: &EventKind, stamp: u32)
    requires { length numbers.old.items ≡ 33 }
    ensures { numbers.new.items ≡ with_issue numbers.old.items core kind.now stamp }
{
    if let EventKind::Issue { lane, .. } = kind {
        let place = 4 * core.0 as usize + lane.0 as usize;
        if place < numbers.len() {
            numbers[place] = stamp;
        }
    }
}

/// Why a PEI that has not entered waits: for an earlier one of its core, or for its directory entry.
fn entry_stall(pei: &PeiLook, look: &CoreLook) -> Option<StallCause>
    ensures { result ≡ stall_in (enter_row pei.now false look.now.first_unentered) }
{
    match look.first_unentered {
        None => Some(StallCause::NeedsGrant),
        Some(first) => {
            if first == pei.id {
                Some(StallCause::NeedsGrant)
            } else {
                Some(StallCause::NotOldest { pei: first })
            }
        }
    }
}

impl Section {
    /// A bank at the start of a run, above the memory of an image, which has the machine's number of blocks.
    pub(crate) fn make(
        alloc: Global,
        spec: &MachineSpec,
        image: &Image,
        bank: u32,
    ) -> Result<Section, OutOfMemory>
        requires { length image.now.words ≡ 8 * spec.now.blocks }
        ensures { IfOk result (λ h. h ≡ bank_at_start spec.now image.now bank) }
    {
        laws();
        let parts = Parts::make(alloc, spec, image)?;
        let journal = Journal::make(alloc, spec.events)?;
        let numbers = make_numbers(alloc)?;
        Ok(Section {
            parts,
            journal,
            bank,
            image: Snapshot::of(image),
            numbers,
        })
    }

    /// Its log leaves it in order, each event is a row, of an actor of the machine, and fits, and stamps rise.
    pub(crate) fn is_in_order(&self)
        ensures order { (h : Holdings) × BankInOrder self.now.machine self.now.image (events_of self.now) h }
        ensures rows { EachEvent (IsRowOfBank self.now.machine self.now.image self.now.bank) (events_of self.now) }
        ensures fitting { EachEvent (λ before e. FitsInBank self.now.machine before e.actor e.kind) (events_of self.now) }
        ensures actors { AllByRecursion (λ e. IsTrue (is_actor_of self.now.machine e.actor)) (events_of self.now) }
        ensures rising { Rises self.now.log }
        ensures within { AllByRecursion (λ x. x.stamp < self.now.machine.events) self.now.log }
        ensures fits { AllByRecursion (EventFits self.now.machine.blocks) (events_of self.now) }
    {
        let _ = self.journal.spare();
    }

    /// The first unfinished writer whose issue has a smaller stamp.
    pub(crate) fn fence_waits(&self, stamp: u32) -> Option<PeiId>
        ensures { result ≡ waits_of self.now stamp }
    {
        laws();
        self.parts.first_writer_below(&self.numbers, stamp)
    }

    /// Why the call of a core's program waits, if it does.
    pub(crate) fn call_stall(
        &self,
        core: CoreId,
        call: &Call,
        look: &CoreLook,
    ) -> Option<StallCause>
        requires core { core.0 < self.now.machine.cores }
        requires waits { HasWaits self.now look.now (open_fence look.now call.now) }
        ensures { result ≡ call_stall_of self.now core look.now call.now }
    {
        match *call {
            Call::Load { .. } | Call::Store { .. } | Call::Out { .. } => None,
            Call::Pei { .. } => match look.free {
                Some(_) => None,
                None => Some(StallCause::BufferFull),
            },
            Call::Fence => match look.fence {
                Some(begin) => self.fence_stall(look, begin),
                None => None,
            },
            Call::End { .. } => match look.first_unfinished {
                Some(pei) => Some(StallCause::Draining { pei }),
                None => None,
            },
        }
    }

    /// Why a fence that is on and began with this stamp waits, if it does.
    fn fence_stall(&self, look: &CoreLook, begin: u32) -> Option<StallCause>
        ensures { result ≡ (if is_clear self.now.machine look.now then None else option_map stall.FenceWaits (waits_of self.now begin)) }
    {
        if look.is_clear(&self.parts.machine) {
            return None;
        }
        let pei = self.fence_waits(begin)?;
        Some(StallCause::FenceWaits { pei })
    }

    /// Why a lane with its PEI waits, if it does.
    pub(crate) fn lane_stall(&self, core: CoreId, lane: Lane, look: &CoreLook) -> Option<StallCause>
        requires lane { IsLaneOf self.now.machine core lane }
        ensures { result ≡ stall_in (lane_turn_of self.now false core lane look.now) }
    {
        laws();
        let Some(pei) = self.parts.inflight.look(core, lane) else {
            return Some(StallCause::Idle);
        };
        match pei.phase {
            Phase::Issued => entry_stall(&pei, look),
            _ => self.parts.stall_of(&pei),
        }
    }

    /// The event with this stamp, where there is one. `near` is a place to look at first, and becomes the one behind it.
    pub(crate) fn event_with(&self, stamp: u32, near: &mut u32) -> Option<Event>
        ensures { result ≡ option_map (λ x. x.event) (find (has_stamp stamp) self.now.log) }
    {
        let place = place_near(&self.journal, stamp, *near)?;
        *near = place.wrapping_add(1);
        Some(self.journal.get(place))
    }

    /// Makes the event of the row for the call of a core's program, with this stamp.
    pub(crate) fn call(&mut self, core: CoreId, call: &Call, look: &CoreLook, stamp: u32) -> Event
        requires may { MayCall self.old core look.now call.now }
        requires new { IsNew self.old.log stamp }
        requires below { stamp < self.old.machine.events }
        ensures actor { result.actor ≡ program_of_lem core }
        ensures row { call_turn_of self.old core look.now call.now ≡ Makes result.kind }
        ensures log { self.new ≡ with_event self.old stamp result }
    {
        laws();
        let kind = self.parts.call_in(core, call, look);
        let actor = program_of(core);
        note(&mut self.numbers, core, &kind, stamp);
        let event = Event { actor, kind };
        self.journal.push_stamped(stamp, event);
        event
    }

    /// The PEI in a lane enters.
    pub(crate) fn enter(&mut self, core: CoreId, lane: Lane, look: &CoreLook, stamp: u32) -> Event
        requires lane { IsLaneOf self.old.machine core lane }
        requires goes { stall_in (lane_turn_of self.old false core lane look.now) ≡ Some stall.NeedsGrant }
        requires asks { IsSome look.now.first_unentered }
        requires free { IsEntryFreeIn self.old core lane }
        requires new { IsNew self.old.log stamp }
        requires below { stamp < self.old.machine.events }
        ensures actor { result.actor ≡ lane_of_lem core lane }
        ensures row { lane_turn_of self.old true core lane look.now ≡ Makes result.kind }
        ensures log { self.new ≡ with_event self.old stamp result }
    {
        laws();
        let kind = self.parts.enter_in(core, lane);
        note(&mut self.numbers, core, &kind, stamp);
        let event = Event {
            actor: lane_of(core, lane),
            kind,
        };
        self.journal.push_stamped(stamp, event);
        event
    }

    /// Makes the event of the row for a lane with its PEI, which does not enter.
    pub(crate) fn lane(&mut self, core: CoreId, lane: Lane, look: &CoreLook, stamp: u32) -> Event
        requires lane { IsLaneOf self.old.machine core lane }
        requires goes { stall_in (lane_turn_of self.old false core lane look.now) ≡ None }
        requires new { IsNew self.old.log stamp }
        requires below { stamp < self.old.machine.events }
        ensures actor { result.actor ≡ lane_of_lem core lane }
        ensures row { lane_turn_of self.old false core lane look.now ≡ Makes result.kind }
        ensures log { self.new ≡ with_event self.old stamp result }
    {
        laws();
        let kind = self.parts.lane_in(core, lane);
        note(&mut self.numbers, core, &kind, stamp);
        let event = Event {
            actor: lane_of(core, lane),
            kind,
        };
        self.journal.push_stamped(stamp, event);
        event
    }
}
