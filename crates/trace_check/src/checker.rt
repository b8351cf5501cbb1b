//! The checker, and its one pass through a journal.

ghost use Rattle.std.specs.Prelude.{◌≡◌, ◌+◌, ◌*◌, ◌<◌, [], true, length, take, Some, IfNone, IfOk, IfSome, IsTrue, slice_get};
ghost use Rattle.std.specs.List.{list_all};

use crate::cores_along::{mark_end, run_core, take_in};
use crate::laws::laws;
use coherence_bus::Bus;
use core_exec::{Core, CoreNext};
use inflight::Inflight;
use journal::Journal;
use locality_monitor::Monitor;
use pei_types::{
    Actor, Clause, CoreConfig, CoreId, Event, EventKind, Image, MachineSpec, OutOfMemory, Program,
};
use std::alloc::Global;

/// Where the events so far leave the machine and its cores.
#[derive(Drop)]
pub(crate) struct Checker {
    pub machine: MachineSpec,
    /// The caches, above flat memory.
    pub bus: Bus,
    pub inflight: Inflight,
    pub monitor: Monitor,
    pub cores: [Core; 8],
    /// Whether each core has its end.
    pub ended: [bool; 8],
    ghost bus_machine: { bus.machine ≡ machine },
    ghost inflight_machine: { inflight.machine ≡ machine },
    ghost monitor_sizes: { (length monitor.sets ≡ machine.llc_sets) × (monitor.ways ≡ machine.llc_ways) },
}

impl Checker {
    ghost use Rattle.pei_types.specs.declared.identifiers.BlockNo.{BlockNo as BlockNumber};
    ghost use Rattle.pei_types.specs.Calls.{is_actor_of};
    ghost use Rattle.pei_types.specs.MachineState.{next_state};
    ghost use Rattle.pei_types.specs.Legal.{FailsFirst};
    ghost use Rattle.pei_types.specs.Program.{Contents, Listing};
    ghost use Rattle.core_exec.specs.CoreView.{MayRetire, Standing as Stopped, retires, seen};
    ghost use Rattle.trace_check.specs.Cores.{CoresGoOn, ended_after};
    ghost use Rattle.trace_check.specs.CheckedFront.{Follows};
    ghost use Rattle.coherence_laws.specs.Data.{next_flat};
    ghost use Rattle.coherence_laws.specs.Invariants.{Invariants};
    ghost use Rattle.trace_check.specs.InState.{FailsIn, FitsMemory, LooksFit, MayApply, MeetsIn};
    ghost use Rattle.trace_check.specs.CheckerParts.{content_of, state_of};

    /// Before the first event.
    pub fn make(alloc: Global, spec: &MachineSpec, image: &Image) -> Result<Checker, OutOfMemory>
        requires { length image.now.words ≡ 8 * spec.now.blocks }
        ensures { IfOk result (λ v. (p : Listing) → Follows p spec.now image.now [] v) }
    {
        let bus = Bus::make(alloc, spec, image)?;
        let inflight = Inflight::make(alloc, spec)?;
        let monitor = Monitor::make(alloc, spec.llc_sets, spec.llc_ways)?;
        Ok(Checker {
            machine: *spec,
            bus,
            inflight,
            monitor,
            cores: [
                Core::make(image, CoreId(0)),
                Core::make(image, CoreId(1)),
                Core::make(image, CoreId(2)),
                Core::make(image, CoreId(3)),
                Core::make(image, CoreId(4)),
                Core::make(image, CoreId(5)),
                Core::make(image, CoreId(6)),
                Core::make(image, CoreId(7)),
            ],
            ended: [false; 8],
        })
    }

    /// Judges the event at place `i`, and goes on by it where it meets every clause. Else the first clause that it fails
    /// is told. The image is the one that the run began with: only the contract speaks of it.
    pub fn take_event(
        &mut self,
        program: &Program,
        _image: &Image,
        journal: &Journal,
        i: u32,
        event: &Event,
    ) -> Option<Clause>
        requires here { slice_get journal.now.events i ≡ Some event.now }
        requires follows { Follows program.now self.old.machine _image.now (take i journal.now.events) self.old }
        ensures machine { self.new.machine ≡ self.old.machine }
        ensures room { IfNone result (i < self.old.machine.events) }
        ensures on { IfNone result (Follows program.now self.old.machine _image.now (take (i + 1) journal.now.events) self.new) }
        ensures fails { IfSome result (λ clause. FailsFirst clause program.now self.old.machine _image.now (take i journal.now.events) event.now) }
    {
        laws();
        if !self.replies_rightly(journal, i, event) {
            return Some(Clause::Replies);
        }
        if !self.is_actor(event.actor) {
            return Some(Clause::Calls);
        }
        let config = CoreConfig {
            fuel: self.machine.fuel,
            blocks: self.machine.blocks,
        };
        let next = run_core(&mut self.cores, event.actor.core, program, config);
        if let Some(clause) = self.first_failure(&next, i, event) {
            return Some(clause);
        }
        self.go_on(event);
        None
    }

    /// Whether an actor is one of the machine's.
    fn is_actor(&self, actor: Actor) -> bool
        ensures { result ≡ is_actor_of self.now.machine actor }
    {
        actor.core.0 < self.machine.cores && actor.lane.0 <= self.machine.buffer
    }

    /// The first clause behind `Replies` that an event of one of the machine's actors fails, whose core does `next` next.
    fn first_failure(&self, next: &CoreNext, i: u32, event: &Event) -> Option<Clause>
        requires actor { is_actor_of self.now.machine event.now.actor ≡ true }
        requires fits { FitsMemory self.now.machine.blocks (seen next.now) }
        requires act { LooksFit self.now.machine.blocks (state_of self.now) }
        requires invariants { Invariants self.now.machine (state_of self.now) }
        ensures none { IfNone result ((i < self.now.machine.events) × MeetsIn (seen next.now) self.now.machine (state_of self.now) (content_of self.now) event.now.actor event.now.kind) }
        ensures fails { IfSome result (λ clause. FailsIn clause (seen next.now) self.now.machine (state_of self.now) (content_of self.now) i event.now.actor event.now.kind) }
    {
        let actor = event.actor;
        let kind = &event.kind;
        if !self.answers(next, actor, kind) {
            Some(Clause::Calls)
        } else if !self.is_in_order(actor, kind) {
            Some(Clause::Order)
        } else if !self.enters_alone(actor, kind) {
            Some(Clause::Directory)
        } else if !self.fences_earlier(actor, kind) {
            Some(Clause::Fence)
        } else if !self.races_rightly(next, kind) {
            Some(Clause::Race)
        } else if !self.is_guarded(actor, kind) {
            Some(Clause::Guard)
        } else if !self.evicts_last(actor, kind) {
            Some(Clause::Recency)
        } else if !self.places_rightly(actor, kind) {
            Some(Clause::Monitor)
        } else if !self.is_next(next, i, event) {
            Some(Clause::Next)
        } else {
            None
        }
    }

    /// Whether each core of the machine has its end.
    pub fn is_complete(&self) -> bool
        ensures { result ≡ list_all (λ ended. ended) (take self.now.machine.cores self.now.ended) }
    {
        let cores = self.machine.cores as usize;
        self.ended[..cores].iter().all(|ended| *ended)
    }

    /// Goes on by an event that meets every clause.
    fn go_on(&mut self, event: &Event)
        requires actor { is_actor_of self.old.machine event.now.actor ≡ true }
        requires may { MayApply self.old.machine (state_of self.old) event.now.actor event.now.kind }
        requires act { LooksFit self.old.machine.blocks (state_of self.old) }
        requires invariants { Invariants self.old.machine (state_of self.old) }
        requires ready { (s : Stopped) → slice_get self.old.cores event.now.actor.core.0 ≡ Some s → IsTrue (retires event.now.kind) → MayRetire s }
        ensures machine { self.new.machine ≡ self.old.machine }
        ensures state { state_of self.new ≡ next_state self.old.machine (state_of self.old) event.now.actor event.now.kind }
        ensures content { (b : BlockNumber) → content_of self.new b ≡ next_flat (state_of self.old) (content_of self.old) event.now.actor event.now.kind b }
        ensures ended { self.new.ended ≡ ended_after self.old.ended event.now }
        ensures cores { (p : Listing) → CoresGoOn p self.old.cores self.new.cores event.now }
    {
        self.apply(event.actor, &event.kind);
        take_in(&mut self.cores, event);
        mark_end(&mut self.ended, event);
    }
}
