//! A law of the last-level cache, the contract of a function with an empty body. `specs/Laws.antt` has it in full.

ghost use Rattle.llc.specs.Laws.{FollowsState};

/// A cache whose lines without their contents are the last-level cache's in the state of the machine stays so: its
/// look-ups are the state's, and each call's effect on it is the state's.
pub fn state_follows()
    ensures { FollowsState }
{}
