//! A law of private caches, the contract of a function with an empty body. `specs/Laws.antt` has it in full.

ghost use Rattle.mesi_l1.specs.Laws.{FollowsState};

/// A cache whose lines without their contents are a core's in the state of the machine stays so: its look-ups are the
/// state's, and each call's effect on it is the state's.
pub fn state_follows()
    ensures { FollowsState }
{}
