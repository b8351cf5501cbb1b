//! Laws of what slots hold, each the contract of a function that does nothing. `specs/Laws.antt` has them in full.

ghost use Rattle.set_lists.specs.Laws.{SetsFollow};

use link_list::laws::held_follow;

/// What is held by the slots of sets, after each call.
pub fn sets_follow<T>()
    ensures { SetsFollow T }
{
    held_follow::<T>();
}
