//! What a check ends with.

ghost use Rattle.std.specs.Prelude.{◌≡◌};
ghost use Rattle.pei_io.specs.Outside.{Writes};
ghost use Rattle.pei_cli.specs.VerdictLines.{clause_word, status_of_verdict, verdict_line};

use crate::writing::write_pieces;
use itoa::Buffer;
use pei_io::{Failed, Sink};
use pei_types::Clause;
use trace_check::Verdict;

/// The status of a verdict: 0 where the trace is legal, and 12 where it is not.
pub(crate) fn verdict_status(verdict: Verdict) -> u8
    ensures { result ≡ status_of_verdict verdict }
{
    match verdict {
        Verdict::Legal { .. } => 0,
        Verdict::Illegal { .. } => 12,
    }
}

/// Writes the line of a verdict. After a failure a front of it was written.
pub(crate) fn write_verdict<K: Sink>(verdict: Verdict, sink: &mut K) -> Result<(), Failed>
    ensures { Writes (verdict_line verdict) (K.written sink.old) (K.written sink.new) (K.faults sink.old) (K.faults sink.new) result }
{
    match verdict {
        Verdict::Legal { complete: true } => write_pieces(sink, &[b"legal complete\n"]),
        Verdict::Legal { complete: false } => write_pieces(sink, &[b"legal prefix\n"]),
        Verdict::Illegal { line, clause } => write_illegal(line, clause, sink),
    }
}

/// Writes the line of a trace that is not legal: the line of the first event that fails, and the first clause that it fails.
fn write_illegal<K: Sink>(line: u32, clause: Clause, sink: &mut K) -> Result<(), Failed>
    ensures { Writes (verdict_line (Verdict.Illegal line clause)) (K.written sink.old) (K.written sink.new) (K.faults sink.old) (K.faults sink.new) result }
{
    let mut buffer = Buffer::new();
    let number = buffer.format(line).as_bytes();
    write_pieces(
        sink,
        &[b"illegal ", number, b" ", clause_word(clause), b"\n"],
    )
}

/// The word of a clause.
fn clause_word(clause: Clause) -> &'static [u8]
    ensures { result.now ≡ clause_word clause }
{
    match clause {
        Clause::Replies => b"replies",
        Clause::Calls => b"calls",
        Clause::Order => b"order",
        Clause::Directory => b"directory",
        Clause::Fence => b"fence",
        Clause::Race => b"race",
        Clause::Guard => b"guard",
        Clause::Recency => b"recency",
        Clause::Monitor => b"monitor",
        Clause::Next => b"next",
        Clause::Seal => b"seal",
    }
}
