//! What a core asks of the machine, and how it ends.

use crate::identifiers::{BlockNo, PeiId};
use crate::operations::{Op, Operands};

/// Why an instruction traps. Where several causes apply, the first in this order is told.
#[derive(Clone, Copy, PartialEq, Eq, Debug)]
pub enum TrapCause {
    /// The program counter is behind the last instruction.
    Pc,
    /// The address is no multiple of 8, or for an operation on a whole block no multiple of 64.
    Align,
    /// The address is not below the size of memory in bytes.
    Range,
    /// The shift of a histogram is above 24.
    Shift,
}

/// How a core ends. `pc` is the index of the instruction at which it ends.
#[derive(Clone, Copy, PartialEq, Eq, Debug)]
pub enum EndKind {
    /// The program halted.
    Halt,
    /// An instruction trapped.
    Trap { pc: u32, cause: TrapCause },
    /// A load or a store of `block` raced with the PEI `by`, and was not made.
    Race { pc: u32, block: BlockNo, by: PeiId },
    /// The core had retired as many instructions as the machine's fuel allows.
    Fuel,
}

/// What a core asks of the machine next. Addresses are of words, in bytes; values are 64-bit words.
#[derive(Clone, Copy, PartialEq, Eq, Debug)]
pub enum Call {
    /// An ordinary load of a word, by the instruction at `pc`.
    Load {
        pc: u32,
        addr: u64,
    },
    /// An ordinary store of a word.
    Store {
        pc: u32,
        addr: u64,
        value: u64,
    },
    /// A PEI on a block, to be issued.
    Pei {
        op: Op,
        block: BlockNo,
        operands: Operands,
    },
    /// A fence: the core makes this call until its fence has begun and ended.
    Fence,
    /// An output of the program.
    Out {
        value: u64,
    },
    /// The end of the core.
    End {
        kind: EndKind,
    },
}
