//! The thread of one core.

ghost use Rattle.std.specs.Prelude.{◌≡◌, ◌-◌, ◌^◌, ◌<◌, ◌∷◌, ◌++◌, [], List, None, IsTrue, false, true};
ghost use Rattle.pei_types.specs.declared.calls.Call.{Call};
ghost use Rattle.pei_types.specs.declared.events.Event.{Event};
ghost use Rattle.pei_types.specs.declared.identifiers.CoreId.{CoreId};
ghost use Rattle.pei_types.specs.declared.machines.MachineSpec.{MachineSpec};
ghost use Rattle.pei_types.specs.Blocks.{same_core};
ghost use Rattle.pei_types.specs.Core.{Calls, after_answer, at_stop, core_at_start, core_config, next_of};
ghost use Rattle.core_exec.specs.CoreView.{is_request, retires};
ghost use Rattle.shared_table.specs.Claims.{fence_at};
ghost use Rattle.thread_laws.specs.OwnEvents.{IssuesNext};
ghost use Rattle.host_run.specs.ThreadInvariant.{end_after};
ghost use Rattle.host_run.specs.Own.{IsOfItsLane, IsOnLane, KeepsEvents, cleared_after, lanes_after, no_peis, spent_after};

use crate::own_peis::OwnPeis;
use core_exec::Core;
use pei_types::{CoreId, EndKind, Event, EventKind, Image, MachineSpec, Program};

/// What the thread of a core keeps of it: the core itself, its PEIs and its fence, how it ended, and how far it has come with
/// its gate.
#[derive(Drop)]
pub(crate) struct CoreRun {
    pub core: Core,
    pub own: OwnPeis,
    pub end: Option<EndKind>,
    /// Whether it has waited for a slot, and whether it has made an event.
    pub begun: bool,
    pub moved: bool,
}

impl CoreRun {
    /// A core that has made no event.
    pub fn make(image: &Image, core: CoreId) -> CoreRun
        requires { core.0 < 8 }
        ensures core { result.core ≡ record { state = core_at_start image.now core; instr = None } }
        ensures own { (result.own ≡ no_peis) × (result.end ≡ None) }
        ensures gate { (result.begun ≡ false) × (result.moved ≡ false) }
    {
        CoreRun {
            core: Core::make(image, core),
            own: OwnPeis::none(),
            end: None,
            begun: false,
            moved: false,
        }
    }

    /// Takes in an event of its own, where the core has run up to its next call.
    ///
    /// An event that retires an instruction comes only where the core's call asks for one.
    pub fn take_in(&mut self, program: &Program, spec: &MachineSpec, stamp: u32, event: &Event)
        requires lane { IsOnLane event.now }
        requires issues { self.old.own.issues < 2 ^ 32 - 1 }
        requires asks { IsTrue (retires event.now.kind) → (x : Call) × (next_of program.now (core_config spec.now) self.old.core.state ≡ Calls x) × IsTrue (is_request x) }
        ensures core { self.new.core.state ≡ after_answer program.now (at_stop program.now (core_config spec.now) self.old.core.state) event.now.kind }
        ensures end { self.new.end ≡ end_after self.old.end event.now.kind }
        ensures keeps { (m : MachineSpec) (c : CoreId) (own : List Event) → KeepsEvents m c own self.old.own → IssuesNext m own event.now → IsOfItsLane m own event.now →
            same_core event.now.actor.core c ≡ true → KeepsEvents m c (own ++ event.now ∷ []) self.new.own }
        ensures fence { self.new.own.fence ≡ fence_at self.old.own.fence (record { stamp = stamp; event = event.now }) event.now.kind }
        ensures lanes { self.new.own.lanes ≡ lanes_after event.now.actor event.now.kind self.old.own.lanes }
        ensures spent { self.new.own.spent ≡ spent_after event.now.actor event.now.kind self.old.own.spent }
        ensures cleared { self.new.own.cleared ≡ cleared_after event.now.kind self.old.own.cleared }
        ensures gate { (self.new.begun ≡ self.old.begun) × (self.new.moved ≡ self.old.moved) }
    {
        self.core.next_call(program, spec.core_config());
        self.core.answer(event);
        self.own.note(stamp, event);
        if let (None, EventKind::End { kind }) = (self.end, event.kind) {
            self.end = Some(kind);
        }
    }
}
