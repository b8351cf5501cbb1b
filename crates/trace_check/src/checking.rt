//! The one pass through a journal.

ghost use Rattle.std.specs.Prelude.{◌≡◌, ◌*◌, length, IfOk};
ghost use Rattle.trace_check.specs.Verdicts.{IsVerdict};

use crate::checker::Checker;
use crate::verdicts::Verdict;
use journal::Journal;
use pei_types::{Image, MachineSpec, OutOfMemory, Program};
use std::alloc::Global;

/// Checks a journal of a program on a machine, from an image.
///
/// The answer is `Legal` exactly where the journal is legal. Else it tells the first event that fails a clause, and of the
/// clauses that it fails the first in the order of `Clause`. An event behind as many as the machine's `events` fails
/// `Next`. All memory is taken first; `OutOfMemory` says that it could not be had, and no clause ties it to that. The time is
/// that of the length of the journal.
///
/// The condition is that the image has the machine's number of blocks.
pub fn check(
    alloc: Global,
    program: &Program,
    spec: &MachineSpec,
    image: &Image,
    journal: &Journal,
) -> Result<Verdict, OutOfMemory>
    requires { length image.now.words ≡ 8 * spec.now.blocks }
    ensures { IfOk result (λ verdict. IsVerdict program.now spec.now image.now journal.now.events verdict) }
{
    let mut checker = Checker::make(alloc, spec, image)?;
    for i in 0..journal.len() {
        let event = journal.get(i);
        if let Some(clause) = checker.take_event(program, image, journal, i, &event) {
            return Ok(Verdict::Illegal {
                line: i + 2,
                clause,
            });
        }
    }
    Ok(Verdict::Legal {
        complete: checker.is_complete(),
    })
}
