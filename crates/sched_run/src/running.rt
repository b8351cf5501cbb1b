//! A run on its way: the machine, its directory, its cores, and how they have ended.

ghost use Rattle.std.specs.Prelude.{◌≡◌, ◌<◌, ◌≤◌, ◌+◌, ◌-◌, ◌*◌, ◌^◌, ℕ, [], IsTrue, IfOk, length};
ghost use Rattle.std.specs.Prelude.{is_some};
ghost use Rattle.std.specs.List.{list_all};
ghost use Rattle.pei_types.specs.Calls.{is_actor_of};
ghost use Rattle.sched_run.specs.EndsAfter.{ends_after};

use crate::claims::Desk;
use crate::turns::{Step, lane_turn, program_turn, take_in};
use core_exec::Core;
use fabric::Fabric;
use history_laws::laws::{holding_tells, whole_runs_are_legal as runs_hold};
use machine_laws::laws::whole_runs_are_legal;
use pei_types::evidence::{core_stops_once, folds_grow};
use pei_types::{
    Actor, CoreId, EndKind, Event, EventKind, Image, MachineSpec, OutOfMemory, Program,
};
use std::alloc::Global;

/// The machine with its directory and its cores, the ends of the cores that have ended, and the number of stalls so far.
#[derive(Drop)]
pub(crate) struct Running {
    pub fabric: Fabric,
    pub desk: Desk,
    pub cores: [Core; 8],
    pub ends: [Option<EndKind>; 8],
    pub stalls: u64,
}

impl Running {
    ghost use Rattle.pei_types.specs.Program.{Listing};
    ghost use Rattle.pei_types.specs.Schedule.{run_at_start, turn, whole_table};
    ghost use Rattle.sched_run.specs.DefinedRun.{IsRunning, is_over, run_in};

    /// A run at its start.
    pub fn start(alloc: Global, spec: &MachineSpec, image: &Image) -> Result<Running, OutOfMemory>
        requires { length image.now.words ≡ 8 * spec.now.blocks }
        ensures fabric { IfOk result (λ v. v.fabric ≡ record { machine = spec.now; image = image.now; journal = [] }) }
        ensures start { IfOk result (λ v. run_in v 0 ≡ run_at_start spec.now) }
        ensures running { IfOk result (λ v. (p : Listing) → IsRunning p v) }
    {
        whole_runs_are_legal();
        let fabric = Fabric::make(alloc, spec, image)?;
        let desk = Desk::make(alloc, spec.directory)?;
        let cores = [
            Core::make(image, CoreId(0)),
            Core::make(image, CoreId(1)),
            Core::make(image, CoreId(2)),
            Core::make(image, CoreId(3)),
            Core::make(image, CoreId(4)),
            Core::make(image, CoreId(5)),
            Core::make(image, CoreId(6)),
            Core::make(image, CoreId(7)),
        ];
        Ok(Running {
            fabric,
            desk,
            cores,
            ends: [None; 8],
            stalls: 0,
        })
    }

    /// Whether the run is over: each core has ended, or the journal is full.
    pub fn is_over(&self) -> bool
        ensures over { result ≡ is_over self.now }
        ensures within { length self.now.fabric.journal ≤ self.now.fabric.machine.events }
    {
        let cores = self.fabric.machine().cores as usize;
        let is_full = self.fabric.journal().spare() == 0;
        is_full || all_ended(&self.ends[..cores])
    }

    /// Takes one turn of an actor of the machine.
    pub fn turn(&mut self, program: &Program, actor: Actor)
        requires actor { IsTrue (is_actor_of self.old.fabric.machine actor) }
        requires room { length self.old.fabric.journal < self.old.fabric.machine.events }
        requires stalls { self.old.stalls < 2 ^ 64 - 1 }
        requires running { IsRunning program.now self.old }
        ensures machine { self.new.fabric.machine ≡ self.old.fabric.machine }
        ensures image { self.new.fabric.image ≡ self.old.fabric.image }
        ensures stalls { self.new.stalls ≤ self.old.stalls + 1 }
        ensures running { IsRunning program.now self.new }
        ensures turn { (turns : ℕ) → run_in self.new (turns + 1) ≡ turn (whole_table self.old.fabric.machine self.old.fabric.image) program.now self.old.fabric.machine self.old.fabric.image (run_in self.old turns) actor }
    {
        if actor.lane.0 == 0 {
            self.turn_of_program(program, actor);
        } else {
            self.turn_of_lane(program, actor);
        }
    }

    /// A turn of a core's program.
    fn turn_of_program(&mut self, program: &Program, actor: Actor)
        requires program { actor.lane.0 ≡ 0 }
        requires actor { IsTrue (is_actor_of self.old.fabric.machine actor) }
        requires room { length self.old.fabric.journal < self.old.fabric.machine.events }
        requires stalls { self.old.stalls < 2 ^ 64 - 1 }
        requires running { IsRunning program.now self.old }
        ensures machine { self.new.fabric.machine ≡ self.old.fabric.machine }
        ensures image { self.new.fabric.image ≡ self.old.fabric.image }
        ensures stalls { self.new.stalls ≤ self.old.stalls + 1 }
        ensures running { IsRunning program.now self.new }
        ensures turn { (turns : ℕ) → run_in self.new (turns + 1) ≡ turn (whole_table self.old.fabric.machine self.old.fabric.image) program.now self.old.fabric.machine self.old.fabric.image (run_in self.old turns) actor }
    {
        folds_grow();
        core_stops_once();
        whole_runs_are_legal();
        let core = &mut self.cores[actor.core.0 as usize];
        match program_turn(&mut self.fabric, core, program, actor.core) {
            Some(event) => {
                self.desk.note(actor, &event.kind);
                note_end(&mut self.ends, &event);
            }
            None => self.stalls += 1,
        }
    }

    /// A turn of a lane from 1 on.
    fn turn_of_lane(&mut self, program: &Program, actor: Actor)
        requires lane { 0 < actor.lane.0 }
        requires actor { IsTrue (is_actor_of self.old.fabric.machine actor) }
        requires room { length self.old.fabric.journal < self.old.fabric.machine.events }
        requires stalls { self.old.stalls < 2 ^ 64 - 1 }
        requires running { IsRunning program.now self.old }
        ensures machine { self.new.fabric.machine ≡ self.old.fabric.machine }
        ensures image { self.new.fabric.image ≡ self.old.fabric.image }
        ensures stalls { self.new.stalls ≤ self.old.stalls + 1 }
        ensures running { IsRunning program.now self.new }
        ensures turn { (turns : ℕ) → run_in self.new (turns + 1) ≡ turn (whole_table self.old.fabric.machine self.old.fabric.image) program.now self.old.fabric.machine self.old.fabric.image (run_in self.old turns) actor }
    {
        folds_grow();
        core_stops_once();
        whole_runs_are_legal();
        runs_hold();
        holding_tells();
        match lane_turn(&mut self.fabric, &mut self.desk, actor) {
            Step::Made(event) => {
                let machine = self.fabric.machine();
                let core = &mut self.cores[actor.core.0 as usize];
                take_in(core, program, &machine, &event);
            }
            Step::Claimed => {}
            Step::Waited => self.stalls += 1,
        }
    }
}

/// Whether each of these cores has ended.
fn all_ended(ends: &[Option<EndKind>]) -> bool
    ensures { result ≡ list_all is_some ends.now }
{
    ends.iter().all(|end| end.is_some())
}

/// Keeps how a core ended, if the event is its end.
fn note_end(ends: &mut [Option<EndKind>; 8], event: &Event)
    requires { event.now.actor.core.0 < 8 }
    ensures { ends.new ≡ ends_after ends.old event.now }
{
    if let EventKind::End { kind } = event.kind {
        let end = &mut ends[event.actor.core.0 as usize];
        *end = end.or(Some(kind));
    }
}
