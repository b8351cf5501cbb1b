//! The turn of an actor: of a core's program, or of a lane with its PEI.

ghost use Rattle.std.specs.Prelude.{◌≡◌, ◌<◌, ℕ, false, length, IsSome, Some};
ghost use Rattle.core_exec.specs.CoreView.{retires};
ghost use Rattle.pei_types.specs.Next.{Stalls};
ghost use Rattle.pim_directory.specs.Words.{IsReady};
ghost use Rattle.pei_types.specs.Core.{core_config, next_of};
ghost use Rattle.history_laws.specs.Fits.{AsksForFence};
ghost use Rattle.inflight.specs.OnTheWay.{IsLaneOf};
ghost use Rattle.fabric.specs.History.{IsEntryFree, lane_row_of, needs_of, program_of};
ghost use Rattle.sched_run.specs.LaneClaims.{claim_in};
ghost use Rattle.sched_run.specs.Steps.{waits_for_grant as waits_for_grant_lem};
ghost use Rattle.sched_run.specs.Steps.{Enters, Entry, GoesOn, IsReadyFor, IsUnspent, TookIn, Tries, event_of, program_row, with_made};

use crate::claims::{Desk, LaneClaim};
use core_exec::{Core, CoreNext};
use fabric::{Fabric, Turn};
use pei_types::evidence::{calls_fit, core_stops_once};
use pei_types::{Actor, CoreId, Event, MachineSpec, Mode, Program, StallCause};

/// What a turn came to.
#[derive(Clone, Copy, PartialEq, Eq, Debug)]
pub enum Step {
    /// An event.
    Made(Event),
    /// A step of the directory.
    Claimed,
    /// Nothing: the actor has to wait.
    Waited,
}

/// A turn of a core's program. It answers the event that was made, and none where the core stalls.
pub(crate) fn program_turn(
    fabric: &mut Fabric,
    core: &mut Core,
    program: &Program,
    id: CoreId,
) -> Option<Event>
    requires id { id.0 < fabric.old.machine.cores }
    requires room { length fabric.old.journal < fabric.old.machine.events }
    requires fence { AsksForFence (next_of program.now (core_config fabric.old.machine) core.old.state) fabric.old.journal id }
    ensures row { result ≡ event_of (program_of id) (program_row (next_of program.now (core_config fabric.old.machine) core.old.state) fabric.old id) }
    ensures made { fabric.new ≡ with_made fabric.old result }
    ensures core { TookIn program.now (core_config fabric.old.machine) core.old.state core.new.state result }
{
    calls_fit();
    core_stops_once();
    let config = fabric.machine().core_config();
    let CoreNext::Call(call) = core.next_call(program, config) else {
        return None;
    };
    match fabric.call(id, &call) {
        Turn::Did(event) => {
            core.answer(&event);
            Some(event)
        }
        Turn::Stalled(_) | Turn::Full => None,
    }
}

/// A core takes in the event of one of its lanes, which retires no instruction.
pub(crate) fn take_in(core: &mut Core, program: &Program, machine: &MachineSpec, event: &Event)
    requires { retires event.now.kind ≡ false }
    ensures { TookIn program.now (core_config machine.now) core.old.state core.new.state (Some event.now) }
{
    core.next_call(program, machine.core_config());
    core.answer(event);
}

/// A turn of a lane from 1 on. A claim whose PEI has left goes first; then the lane's row, unless its PEI is to enter.
pub(crate) fn lane_turn(fabric: &mut Fabric, desk: &mut Desk, actor: Actor) -> Step
    requires lane { IsLaneOf fabric.old.machine actor.core actor.lane }
    requires room { length fabric.old.journal < fabric.old.machine.events }
    requires ready { IsReadyFor fabric.old desk.old actor }
    ensures { (turns stalls : ℕ) → GoesOn fabric.old desk.old actor turns stalls result fabric.new desk.new }
{
    if let LaneClaim::Spent { entry, mode } = desk.claim(actor) {
        desk.release(actor, entry, mode);
        return Step::Claimed;
    }
    match fabric.lane(actor.core, actor.lane) {
        Turn::Did(event) => {
            desk.note(actor, &event.kind);
            Step::Made(event)
        }
        Turn::Stalled(cause) => {
            if waits_for_grant(cause) {
                toward_enter(fabric, desk, actor)
            } else {
                Step::Waited
            }
        }
        Turn::Full => Step::Waited,
    }
}

/// Whether a lane waits for its directory entry.
fn waits_for_grant(cause: StallCause) -> bool
    ensures { result ≡ waits_for_grant_lem cause }
{
    matches!(cause, StallCause::NeedsGrant)
}

/// A turn of a lane whose PEI is to enter next: a writer is announced first, then a claim is tried, and under a claim the PEI
/// enters.
fn toward_enter(fabric: &mut Fabric, desk: &mut Desk, actor: Actor) -> Step
    requires lane { IsLaneOf fabric.old.machine actor.core actor.lane }
    requires room { length fabric.old.journal < fabric.old.machine.events }
    requires ready { IsReadyFor fabric.old desk.old actor }
    requires kept { IsUnspent (claim_in desk.old actor) }
    requires grant { lane_row_of fabric.old false actor.core actor.lane ≡ Stalls StallCause.NeedsGrant }
    ensures { (turns stalls : ℕ) → GoesOn fabric.old desk.old actor turns stalls result fabric.new desk.new }
{
    let Some((entry, mode)) = fabric.needs(actor.core, actor.lane) else {
        return Step::Waited;
    };
    match desk.claim(actor) {
        LaneClaim::Held { .. } => enter_turn(fabric, desk, actor),
        LaneClaim::Free => match mode {
            Mode::Writer => {
                desk.announce(actor, entry);
                Step::Claimed
            }
            Mode::Reader => try_turn(desk, actor, entry, mode),
        },
        LaneClaim::Announced { .. } => try_turn(desk, actor, entry, mode),
        LaneClaim::Spent { .. } => Step::Waited,
    }
}

/// A lane tries a claim.
fn try_turn(desk: &mut Desk, actor: Actor, entry: u32, mode: Mode) -> Step
    requires core { actor.core.0 < 8 }
    requires lane { actor.lane.0 < 5 }
    requires ready { Entry desk.old entry (λ c. IsReady c mode) }
    ensures { Tries desk.old actor entry mode result desk.new }
{
    if desk.try_claim(actor, entry, mode) {
        Step::Claimed
    } else {
        Step::Waited
    }
}

/// The PEI of a lane enters, under a claim.
fn enter_turn(fabric: &mut Fabric, desk: &mut Desk, actor: Actor) -> Step
    requires lane { IsLaneOf fabric.old.machine actor.core actor.lane }
    requires room { length fabric.old.journal < fabric.old.machine.events }
    requires needs { IsSome (needs_of fabric.old actor.core actor.lane) }
    requires free { IsEntryFree fabric.old actor.core actor.lane }
    ensures { Enters fabric.old desk.old actor result fabric.new desk.new }
{
    match fabric.enter(actor.core, actor.lane) {
        Turn::Did(event) => {
            desk.note(actor, &event.kind);
            Step::Made(event)
        }
        Turn::Stalled(_) | Turn::Full => Step::Waited,
    }
}
