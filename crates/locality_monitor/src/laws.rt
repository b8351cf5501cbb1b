//! A law of the monitor, the contract of a function with an empty body. `specs/Laws.antt` has it in full.

ghost use Rattle.locality_monitor.specs.Laws.{FollowsState};

/// A monitor whose lists are those in the state of the machine stays so: it places as the state tells, and each call's
/// effect on it is the state's.
pub fn state_follows()
    ensures { FollowsState }
{}
