//! Facts on the definitions.

ghost use Rattle.link_list.specs.Examples.{LinkRightly};

/// Three nodes and two lists, worked out.
pub fn three_nodes_are_right()
    ensures { LinkRightly }
{}
