//! Visits of a core's thread to a bank: it takes the slot, draws a stamp, makes an event there, and gives the slot back.

ghost use Rattle.std.specs.Prelude.{◌≡◌, ℕ, ◌+◌, ◌<◌, ◌≤◌, [], ◌∷◌, ◌++◌, IfSome, IfNone, Some, None, false, true};
ghost use Rattle.pei_types.specs.History.{ends_fence};
ghost use Rattle.bank_laws.specs.Rows.{IsRowIn};
ghost use Rattle.shared_table.specs.Journal.{events};
ghost use Rattle.shared_table.specs.Claims.{earlier_left};
ghost use Rattle.shared_table.specs.Parts.{claims, filled, misses, seen};
ghost use Rattle.shared_table.specs.Timed.{IsAbove};
ghost use Rattle.host_run.specs.ThreadInvariant.{FencesAtHome, HasSlot, IsAtRest, IsInTurn, KeepsUp};
ghost use Rattle.host_run.specs.Laws.{TurnLaws};
ghost use Rattle.host_run.specs.Own.{core_of, own_events};
ghost use Rattle.host_run.specs.Grant.{IsGranted};

use crate::cores::CoreRun;
use crate::slots::{Run, RunBank};
use bank_laws::laws::{banks_keep_apart, banks_merge, cores_go_on, logs_make_legal};
use crossbeam_utils::Backoff;
use pei_io::Gate;
use pei_types::evidence::{calls_fit, core_stops_once, folds_grow};
use pei_types::{CoreId, Event, MachineSpec, Program};
use shared_table::{CoreSeat, Held, SharedTable, actives_are_entered, seats_follow};
use std::sync::Wait;
use thread_laws::laws::{
    actives_go_on, banks_are_cleared, banks_follow, cores_meet_banks, entries_are_free, logs_track,
    own_issues_are_new,
};

/// What all turns of one core's thread are about.
#[derive(Drop)]
pub(crate) struct Place<'a, L: Run + Send + Sync, R: Wait, G: Gate> {
    pub rt: &'a R,
    pub table: &'a SharedTable<RunBank<L>>,
    pub program: &'a Program,
    pub spec: &'a MachineSpec,
    pub gate: &'a G,
    pub core: CoreId,
    /// The pauses between two tries for a directory entry.
    pub pause: Backoff,
    ghost program_is: { program.now ≡ L.program },
    ghost machine_is: { spec.now ≡ L.machine },
    ghost entries_are: { table.now.entries ≡ L.machine.directory },
    ghost banks_are: { table.now.banks ≡ L.machine.banks },
    ghost events_are: { table.now.events ≡ L.machine.events },
    ghost core_is: { core.0 < L.machine.cores },
}

/// The laws that a thread's loop rests on.
pub(crate) fn laws()
    ensures { TurnLaws }
{
    core_stops_once();
    folds_grow();
    calls_fit();
    seats_follow();
    logs_make_legal();
    cores_go_on();
    banks_merge();
    own_issues_are_new();
    banks_keep_apart();
    logs_track();
    banks_follow();
    actives_are_entered();
    actives_go_on();
    entries_are_free();
    cores_meet_banks();
    banks_are_cleared();
}

impl<'a, L: Run + Send + Sync, R: Wait, G: Gate> Place<'a, L, R, G> {
    /// Waits for the slot of a bank.
    pub fn hold(
        &self,
        seat: &mut CoreSeat<RunBank<L>>,
        run: &mut CoreRun,
        bank: u32,
    ) -> Held<RunBank<L>>
        requires turn { IsInTurn L.program L.machine L.image self.now.table.now.table seat.old run.old }
        requires bank { bank < L.machine.banks }
        ensures bank { result.value.bank.value.bank ≡ bank }
        ensures slot { HasSlot L.machine L.image self.now.table.now.table bank result.value.bank.value.log None seat.new }
        ensures missed { misses seat.new ≡ 0 }
        ensures keeps { KeepsUp L.program L.machine L.image seat.new run.new.core run.new.own run.new.end }
        ensures run { (run.new.core ≡ run.old.core) × (run.new.own ≡ run.old.own) × (run.new.end ≡ run.old.end) }
        ensures seat { (core_of seat.new ≡ core_of seat.old) × (own_events seat.new ≡ own_events seat.old) }
        ensures claims { claims seat.new ≡ claims seat.old }
    {
        self.come(run);
        laws();
        let held = self.table.hold(self.rt, seat, bank);
        held.value.is_in_order();
        held
    }

    /// Passes the gate, where the thread comes to a slot for the first time.
    fn come(&self, run: &mut CoreRun)
        ensures { (run.new.core ≡ run.old.core) × (run.new.own ≡ run.old.own) × (run.new.end ≡ run.old.end) }
    {
        if !run.begun {
            run.begun = true;
            self.gate.pass(self.core.0, 0);
        }
    }

    /// Draws the stamp of the event that the core is to make in the bank whose slot it has.
    pub fn draw(&self, seat: &mut CoreSeat<RunBank<L>>, bank: u32, run: &CoreRun) -> Option<u32>
        requires slot { HasSlot L.machine L.image self.now.table.now.table bank (seen bank seat.old) None seat.old }
        requires missed { misses seat.old ≡ 0 }
        requires keeps { KeepsUp L.program L.machine L.image seat.old run.now.core run.now.own run.now.end }
        ensures some { IfSome result (λ n. (n < L.machine.events) × IsAbove n seat.new.knows.side × HasSlot L.machine L.image self.now.table.now.table bank (seen bank seat.old) (Some n) seat.new × (misses seat.new ≡ 0)) }
        ensures none { IfNone result (HasSlot L.machine L.image self.now.table.now.table bank (seen bank seat.old) None seat.new × (filled seat.new ≡ true)) }
        ensures keeps { KeepsUp L.program L.machine L.image seat.new run.now.core run.now.own run.now.end }
        ensures seat { (core_of seat.new ≡ core_of seat.old) × (own_events seat.new ≡ own_events seat.old) × (seen bank seat.new ≡ seen bank seat.old) }
        ensures claims { claims seat.new ≡ claims seat.old }
    {
        let _ = bank;
        let _ = run;
        laws();
        self.table.draw(seat)
    }

    /// Gives the slot back without an event.
    pub fn give_back(&self, seat: &mut CoreSeat<RunBank<L>>, held: Held<RunBank<L>>, run: &CoreRun)
        requires slot { HasSlot L.machine L.image self.now.table.now.table held.value.bank.value.bank held.value.bank.value.log None seat.old }
        requires keeps { KeepsUp L.program L.machine L.image seat.old run.now.core run.now.own run.now.end }
        ensures rest { IsAtRest self.now.table.now.table seat.new }
        ensures counts { (misses seat.new ≡ misses seat.old) × (filled seat.new ≡ filled seat.old) }
        ensures keeps { KeepsUp L.program L.machine L.image seat.new run.now.core run.now.own run.now.end }
        ensures cleared { run.now.own.cleared ≡ held.value.bank.value.bank → (begin : ℕ) → run.now.own.fence ≡ Some begin → earlier_left begin held.value.bank.value.log ≡ true →
            KeepsUp L.program L.machine L.image seat.new run.now.core (record run.now.own { cleared = held.value.bank.value.bank + 1 }) run.now.end }
        ensures seat { core_of seat.new ≡ core_of seat.old }
    {
        let _ = run;
        laws();
        held.value.is_in_order();
        self.table.give(seat, held);
    }

    /// Gives the slot back behind an event, and takes the event in.
    ///
    /// The event is the row of its bank and of this core. One that enters has its claim, and one that ends a fence finds all banks
    /// cleared.
    pub fn give_event(
        &self,
        seat: &mut CoreSeat<RunBank<L>>,
        run: &mut CoreRun,
        held: Held<RunBank<L>>,
        stamp: u32,
        event: &Event,
    )
        requires slot { HasSlot L.machine L.image self.now.table.now.table held.value.bank.value.bank (seen held.value.bank.value.bank seat.old) (Some stamp) seat.old }
        requires log { held.value.bank.value.log ≡ seen held.value.bank.value.bank seat.old ++ record { stamp = stamp; event = event.now } ∷ [] }
        requires missed { misses seat.old ≡ 0 }
        requires keeps { KeepsUp L.program L.machine L.image seat.old run.old.core run.old.own run.old.end }
        requires above { IsAbove stamp seat.old.knows.side }
        requires below { stamp < L.machine.events }
        requires core { event.now.actor.core ≡ core_of seat.old }
        requires row { IsRowIn L.program L.machine L.image held.value.bank.value.bank (events (seen held.value.bank.value.bank seat.old)) (own_events seat.old) event.now }
        requires entering { IsGranted L.machine seat.old run.old.own event.now }
        requires home { FencesAtHome (core_of seat.old) (record { bank = held.value.bank.value.bank; event = event.now }) }
        requires ending { ends_fence (core_of seat.old) event.now ≡ true → run.old.own.cleared ≡ L.machine.banks }
        ensures turn { IsInTurn L.program L.machine L.image self.now.table.now.table seat.new run.new }
        ensures seat { core_of seat.new ≡ core_of seat.old }
    {
        laws();
        held.value.is_in_order();
        self.table.give(seat, held);
        run.take_in(self.program, self.spec, stamp, event);
        if !run.moved {
            run.moved = true;
            self.gate.pass(self.core.0, 1);
        }
    }
}
