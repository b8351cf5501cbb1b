//! The definitions on a small example, each the contract of a function with an empty body.

ghost use Rattle.thread_laws.specs.Examples.{GapsAreFine};

/// A bank's log in which numbers have gaps is one of those that the laws speak of.
pub fn gaps_are_fine()
    ensures { GapsAreFine }
{}
