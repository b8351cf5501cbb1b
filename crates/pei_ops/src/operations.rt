//! The operations of PEIs on a block.

ghost use Rattle.std.specs.Prelude.{◌≡◌};
ghost use Rattle.pei_types.specs.Operation.{CanApply, block_after, is_writer, mode_of, reply_of};

use crate::bucket::probe;
use crate::dot_product::dot;
use crate::histogram::hist;
use crate::replies::no_reply;
use crate::words::{increment, lower};
use pei_types::{Block, Mode, Op, Operands, Reply};

/// Does the operation on a block, and gives its reply.
///
/// The word of an increment or a minimum is below 8, and the shift of a histogram is at most 24 bits.
pub fn apply(op: Op, operands: &Operands, block: &mut Block) -> Reply
    requires { CanApply op operands.now }
    ensures block { block.new ≡ block_after op operands.now block.old }
    ensures reply { result ≡ reply_of op operands.now block.old }
{
    match op {
        Op::Inc { word } => {
            increment(&mut block.0, word);
            no_reply()
        }
        Op::Min { word } => {
            lower(&mut block.0, word, operands.0[0]);
            no_reply()
        }
        Op::Probe => probe(operands.0[0], &block.0),
        Op::Hist => hist(operands.0[0], &block.0),
        Op::Dot => dot(&block.0, &operands.0),
    }
}

/// Whether an operation changes its block.
pub fn writes(op: Op) -> bool
    ensures { result ≡ is_writer op }
{
    matches!(op, Op::Inc { .. } | Op::Min { .. })
}

/// How an operation claims its block: as a reader, or as a writer.
pub fn mode(op: Op) -> Mode
    ensures { result ≡ mode_of op }
{
    if writes(op) {
        Mode::Writer
    } else {
        Mode::Reader
    }
}
