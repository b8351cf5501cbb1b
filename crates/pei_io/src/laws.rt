//! Laws of what calls do to outside objects, each the contract of a function with an empty body.

ghost use Rattle.pei_io.specs.Laws.{WritesJoin};

/// Writes of one text and then of another are one write of both, one behind the other.
pub fn writes_join()
    ensures { WritesJoin }
{}
