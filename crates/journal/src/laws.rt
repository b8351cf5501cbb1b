//! Laws of traces, each the contract of a function with an empty body.

ghost use Rattle.journal.specs.Laws.{TracesAreApart};

/// A text is the trace of at most one journal whose numbers are in the ranges of a trace: no two events have the same line,
/// nor does the line of one begin that of another.
pub fn traces_are_apart()
    ensures { TracesAreApart }
{}
