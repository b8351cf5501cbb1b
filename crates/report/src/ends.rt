//! How a core ended, as words.

ghost use Rattle.std.specs.Prelude.{◌≡◌, ◌≤◌, ◌+◌, ◌++◌, length, Some};
ghost use Rattle.pei_types.specs.declared.calls.EndKind.{EndKind};
ghost use Rattle.pei_types.specs.Texts.{cause_word};
ghost use Rattle.report.specs.Shown.{end_text};

use crate::lines::Line;
use pei_types::{BlockNo, EndKind, PeiId, TrapCause};

/// Adds how a core ended. The condition is that there is room for the longest end.
pub(crate) fn add_end(line: &mut Line, end: &Option<EndKind>)
    requires { length line.old ≤ 30 }
    ensures text { line.new ≡ line.old ++ end_text end.now }
    ensures len { length line.new ≤ length line.old + 88 }
{
    match end {
        None => line.add(b"unfinished"),
        Some(EndKind::Halt) => line.add(b"halt"),
        Some(EndKind::Fuel) => line.add(b"fuel"),
        Some(EndKind::Trap { pc, cause }) => add_trap(line, *pc, *cause),
        Some(EndKind::Race { pc, block, by }) => add_race(line, *pc, *block, *by),
    }
}

/// Adds a trap at an instruction.
fn add_trap(line: &mut Line, pc: u32, cause: TrapCause)
    requires { length line.old ≤ 30 }
    ensures text { line.new ≡ line.old ++ end_text (Some (EndKind.Trap pc cause)) }
    ensures len { length line.new ≤ length line.old + 88 }
{
    line.add(b"trap ");
    line.add_number(pc as u64);
    line.add(b" ");
    line.add(cause_word(cause));
}

/// Adds a race of an instruction on a block, with the PEI that it races with.
fn add_race(line: &mut Line, pc: u32, block: BlockNo, by: PeiId)
    requires { length line.old ≤ 30 }
    ensures text { line.new ≡ line.old ++ end_text (Some (EndKind.Race pc block by)) }
    ensures len { length line.new ≤ length line.old + 88 }
{
    line.add(b"race ");
    line.add_number(pc as u64);
    line.add(b" ");
    line.add_number(block.0 as u64);
    line.add(b" ");
    line.add_number(by.core.0 as u64);
    line.add(b" ");
    line.add_number(by.seq as u64);
}

/// The word of a trap's cause.
fn cause_word(cause: TrapCause) -> &'static [u8]
    ensures word { result.now ≡ cause_word cause }
    ensures short { length result.now ≤ 5 }
{
    match cause {
        TrapCause::Pc => b"pc",
        TrapCause::Align => b"align",
        TrapCause::Range => b"range",
        TrapCause::Shift => b"shift",
    }
}
