//! The moves of one bank's parts. What a bank cannot know of a core, its thread tells.

ghost use Rattle.std.specs.Prelude.{◌≡◌, ◌<◌, false, Some};
ghost use Rattle.pei_types.specs.declared.events.EventKind.TheVariants as event;
ghost use Rattle.pei_types.specs.declared.inflight_looks.Phase.{Phase};
ghost use Rattle.pei_types.specs.Calls.{CallFits};
ghost use Rattle.pei_types.specs.MachineState.{entry_is_taken, look_in};
ghost use Rattle.pei_types.specs.Next.{Makes, call_row_by, lane_row};
ghost use Rattle.inflight.specs.OnTheWay.{IsLaneOf, phase_in};
ghost use Rattle.fabric.specs.Likeness.{IsAfter, IsEvent, MayIssue, MayIssueBy};
ghost use Rattle.fabric.specs.History.{lane_of, program_of};
ghost use Rattle.fabric.specs.Laws.{PartLaws};
ghost use Rattle.fabric.specs.Looks.{seen};
ghost use Rattle.fabric.specs.Moves.{row_of};
ghost use Rattle.fabric.specs.Whole.{content_in};

use crate::looks::CoreLook;
use crate::parts::{Parts, laws};
use crate::turns::Move;
use coherence_laws::laws::parts_are_kept;
use pei_types::{BlockNo, Call, CoreId, EventKind, Lane, Op, Operands, PeiLook};

/// The laws that moves in a bank rest on.
fn part_laws()
    ensures { PartLaws }
{
    laws();
    parts_are_kept();
}

/// The event of a move that makes one.
fn kind_of(made: Move) -> EventKind
    requires { IsEvent (row_of made) }
    ensures { row_of made ≡ Makes result }
{
    match made {
        Move::Makes(kind) => kind,
        Move::Stalls(_) => unreachable!(),
    }
}

impl Parts {
    /// Serves the call of a core's program in a bank, where its row is an event.
    pub(crate) fn call_in(&mut self, core: CoreId, call: &Call, look: &CoreLook) -> EventKind
        requires core { core.0 < self.old.machine.cores }
        requires fits { CallFits self.old.machine.blocks call.now }
        requires goes { IsEvent (call_row_by (seen look.now) self.old.machine self.old.state (content_in self.old) core call.now) }
        requires issues { MayIssueBy self.old core look.now call.now }
        ensures row { call_row_by (seen look.now) self.old.machine self.old.state (content_in self.old) core call.now ≡ Makes result }
        ensures moved { IsAfter self.old (program_of core) result self.new }
    {
        match *call {
            Call::Load { pc, addr } => kind_of(self.load(core, pc, addr)),
            Call::Store { pc, addr, value } => kind_of(self.store(core, pc, addr, value)),
            Call::Pei {
                op,
                block,
                operands,
            } => match look.free {
                Some(lane) => self.issue_in(core, lane, look, op, block, &operands),
                None => unreachable!(),
            },
            Call::Fence => match look.fence {
                Some(_) => EventKind::FenceEnd,
                None => EventKind::FenceBegin,
            },
            Call::Out { value } => EventKind::Out { value },
            Call::End { kind } => EventKind::End { kind },
        }
    }

    /// The issue of a PEI into a lane, under the number that its core gives it.
    fn issue_in(
        &mut self,
        core: CoreId,
        lane: Lane,
        look: &CoreLook,
        op: Op,
        block: BlockNo,
        operands: &Operands,
    ) -> EventKind
        requires core { core.0 < self.old.machine.cores }
        requires fits { CallFits self.old.machine.blocks (Call.Pei op block operands.now) }
        requires may { MayIssue self.old core lane look.now }
        ensures kind { result ≡ event.Issue look.now.issues lane op block operands.now }
        ensures moved { IsAfter self.old (program_of core) result self.new }
    {
        part_laws();
        self.inflight
            .issue_as(core, lane, look.issues, op, block, operands);
        EventKind::Issue {
            seq: look.issues,
            lane,
            op,
            block,
            operands: *operands,
        }
    }

    /// The PEI in a lane enters, whatever others of its core have not, on an entry that no PEI of this bank in conflict has.
    pub(crate) fn enter_in(&mut self, core: CoreId, lane: Lane) -> EventKind
        requires lane { IsLaneOf self.old.machine core lane }
        requires issued { phase_in self.old.state core lane ≡ Some Phase.Issued }
        requires free { (p : PeiLook) → look_in self.old.state core lane ≡ Some p → entry_is_taken self.old.machine self.old.state p ≡ false }
        ensures kind { (p : PeiLook) → look_in self.old.state core lane ≡ Some p → result ≡ event.Enter p.id.seq }
        ensures moved { IsAfter self.old (lane_of core lane) result self.new }
    {
        part_laws();
        let Some(pei) = self.inflight.look(core, lane) else {
            unreachable!()
        };
        self.inflight.enter(core, lane);
        EventKind::Enter { seq: pei.id.seq }
    }

    /// A turn of a lane with its PEI, which does not enter, where its row is an event.
    pub(crate) fn lane_in(&mut self, core: CoreId, lane: Lane) -> EventKind
        requires lane { IsLaneOf self.old.machine core lane }
        requires goes { IsEvent (lane_row self.old.machine self.old.state (content_in self.old) false (look_in self.old.state core lane)) }
        ensures row { lane_row self.old.machine self.old.state (content_in self.old) false (look_in self.old.state core lane) ≡ Makes result }
        ensures moved { IsAfter self.old (lane_of core lane) result self.new }
    {
        kind_of(self.lane(core, lane))
    }
}
