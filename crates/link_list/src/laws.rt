//! Laws of lists of nodes, each the contract of a function with an empty body. `specs/Laws.antt` has them in full.

ghost use Rattle.link_list.specs.Laws.{NodesAreListed, ListsChange, OrderStays, MembersAfter, LengthsAfter, FormStays, HeldFollow};

/// The nodes of a list, and the list of a node.
pub fn nodes_are_listed()
    ensures { NodesAreListed }
{}

/// Each list after each call.
pub fn lists_change()
    ensures { ListsChange }
{}

/// The order of the other nodes stays.
pub fn order_stays()
    ensures { OrderStays }
{}

/// The list of each node after each call.
pub fn members_after()
    ensures { MembersAfter }
{}

/// The length of each list after each call.
pub fn lengths_after()
    ensures { LengthsAfter }
{}

/// All stays well formed.
pub fn form_stays()
    ensures { FormStays }
{}

/// What the nodes of a list hold, where a test finds what one node holds.
pub fn held_follow<T>()
    ensures { HeldFollow T }
{}
