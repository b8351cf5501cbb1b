//! Making the events of a run again.

ghost use Rattle.std.specs.Prelude.{◌≡◌, ◌<◌, false, true};
ghost use Rattle.pei_types.specs.Turns.{is_entering};
ghost use Rattle.fabric.specs.History.{lane_of, program_of};
ghost use Rattle.fabric.specs.Moves.{after_event};
ghost use Rattle.fabric.specs.Replay.{IsAgain, IsLanesAgain, IsProgramsAgain};

use crate::parts::Parts;
use pei_types::{CoreId, Event, EventKind, Lane};

impl Parts {
    /// Makes the event of a core's program again.
    fn replay_program(&mut self, core: CoreId, kind: &EventKind)
        requires core { core.0 < self.old.machine.cores }
        requires again { IsProgramsAgain self.old core kind.now }
        ensures { self.new ≡ after_event self.old (program_of core) kind.now }
    {
        match *kind {
            EventKind::Load { addr, .. } => {
                let _ = self.load(core, 0, addr);
            }
            EventKind::Store { addr, value } => {
                let _ = self.store(core, 0, addr, value);
            }
            EventKind::Issue {
                op,
                block,
                operands,
                ..
            } => {
                let _ = self.issue(core, op, block, &operands);
            }
            EventKind::FenceBegin | EventKind::FenceEnd => {
                let _ = self.fence(core);
            }
            EventKind::Race { .. } | EventKind::Out { .. } | EventKind::End { .. } => {}
            _ => self.message(core, kind),
        }
    }

    /// Makes the event of a lane with its PEI again.
    fn replay_lane(&mut self, core: CoreId, lane: Lane, kind: &EventKind)
        requires { IsLanesAgain self.old core lane kind.now }
        ensures { self.new ≡ after_event self.old (lane_of core lane) kind.now }
    {
        let _ = match *kind {
            EventKind::Enter { .. } => self.enter(core, lane),
            _ => self.lane(core, lane),
        };
    }

    /// Makes an event again that is the row of these parts.
    pub(crate) fn replay(&mut self, event: &Event)
        requires { IsAgain event.now.actor.lane.0 self.old event.now.actor event.now.kind }
        ensures { self.new ≡ after_event self.old event.now.actor event.now.kind }
    {
        let core = event.actor.core;
        let lane = event.actor.lane;
        if lane.0 == 0 {
            self.replay_program(core, &event.kind);
        } else {
            self.replay_lane(core, lane, &event.kind);
        }
    }
}
