//! What the top calls answer.

use journal::Journal;
use pei_types::{EndKind, Program};
use shared_table::Receipt;
use trace_check::Verdict;

/// What a command came to.
#[derive(Drop)]
pub enum PlainEnd {
    /// A scheduled run: the status, its journal, how each core ended, if it did, and the number of turns. The status is
    /// 0 where every core halted, 5 where every core has ended and some did not halt, 6 where the journal is full and
    /// some core has not ended, and 7 where the turns are spent and some core has not ended.
    Sched {
        status: u8,
        journal: Journal,
        cores: [Option<EndKind>; 8],
        turns: u64,
    },
    /// A check: the verdict on the trace, whose status is 0 where it is legal and 12 where it is not.
    Checked {
        status: u8,
        verdict: Verdict,
    },
    /// A text was written; the status is 0.
    Text {
        status: u8,
    },
    /// The canonical text of a kernel's program was written: the status, which is 0, and the program.
    Kernel {
        status: u8,
        program: Program,
    },
    /// A scheduled run of a kernel's program: that program, and the others as of any scheduled run.
    KernelSched {
        status: u8,
        program: Program,
        journal: Journal,
        cores: [Option<EndKind>; 8],
        turns: u64,
    },
}

/// What a run by threads came to.
#[derive(Drop)]
pub struct RunEnd {
    /// 0 where every core halted, 5 where every core has ended and some did not halt, and 6 where the journal is full and
    /// some core has not ended.
    pub status: u8,
    /// All events by their stamps.
    pub journal: Journal,
    /// How each core ended, if it did.
    pub cores: [Option<EndKind>; 8],
    /// Of each core its events, as its thread had them.
    pub receipt: Receipt,
}
