//! The cores along with the events.

ghost use Rattle.std.specs.Prelude.{◌≡◌, ◌<◌, ◌≤◌, IsTrue, Some, slice_get};
ghost use Rattle.pei_types.specs.Program.{Listing};
ghost use Rattle.core_exec.specs.CoreView.{MayRetire, Standing as Stopped, retires};
ghost use Rattle.trace_check.specs.Cores.{CoreStops, CoresGoOn, ended_after};

use core_exec::{Core, CoreNext};
use pei_types::{CoreConfig, CoreId, Event, EventKind, Program};

/// A core runs to its next call, and tells what it does next.
pub(crate) fn run_core(
    cores: &mut [Core; 8],
    core: CoreId,
    program: &Program,
    config: CoreConfig,
) -> CoreNext
    requires core { core.0 < 8 }
    requires blocks { config.blocks ≤ 65536 }
    ensures { CoreStops program.now config cores.old cores.new core result }
{
    cores[core.0 as usize].next_call(program, config)
}

/// The core of an event takes it in.
pub(crate) fn take_in(cores: &mut [Core; 8], event: &Event)
    requires core { event.now.actor.core.0 < 8 }
    requires ready { (s : Stopped) → slice_get cores.old event.now.actor.core.0 ≡ Some s → IsTrue (retires event.now.kind) → MayRetire s }
    ensures { (p : Listing) → CoresGoOn p cores.old cores.new event.now }
{
    cores[event.actor.core.0 as usize].answer(event);
}

/// A core's end is marked.
pub(crate) fn mark_end(ended: &mut [bool; 8], event: &Event)
    requires { event.now.actor.core.0 < 8 }
    ensures { ended.new ≡ ended_after ended.old event.now }
{
    if let EventKind::End { .. } = event.kind {
        ended[event.actor.core.0 as usize] = true;
    }
}
