//! The law, the contract of a function with an empty body, but for the law that it rests on.

ghost use Rattle.trace_laws.specs.Laws.{TracesHaveNoBadLine};

use journal::laws::traces_are_apart;

/// A text that is the trace of a journal has no bad line, and any other has at most one that is its first.
pub fn traces_have_no_bad_line()
    ensures { TracesHaveNoBadLine }
{
    traces_are_apart();
}
