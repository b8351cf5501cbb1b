//! The clauses of a legal journal, in the order in which a checker tells them.

/// A clause of a legal journal. The first six speak of the flat machine, the others of caches and rows.
#[derive(Clone, Copy, PartialEq, Eq, Debug)]
pub enum Clause {
    /// Loads and acts answer what the flat memory holds.
    Replies,
    /// Each event answers its core's call, or is the next of its PEI.
    Calls,
    /// The operations of a core take place in core order.
    Order,
    /// Active PEIs on one directory entry exclude each other.
    Directory,
    /// A fence ends after each writer issued before it has left.
    Fence,
    /// Races are told rightly, and no access that is made races.
    Race,
    /// The state allows the event.
    Guard,
    /// Evictions take the last line of a full set.
    Recency,
    /// Placements are those of the policy and of the locality monitor.
    Monitor,
    /// The event is the first row that fits its actor.
    Next,
    /// No core may write a block on which memory executes.
    Seal,
}
