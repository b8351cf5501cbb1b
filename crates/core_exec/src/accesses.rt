//! The calls of instructions that access memory, or the traps that they owe.

ghost use Rattle.std.specs.Prelude.{◌≡◌, ◌≤◌, [], ◌∷◌, None, Some, true, false};
ghost use Rattle.pei_types.specs.Blocks.{word_of};
ghost use Rattle.pei_types.specs.Core.{Asks, asks_unless, operand_trap, pei_call};
ghost use Rattle.core_exec.specs.Effect.{is_on_whole_block, shift_of};

use pei_ops::operand_fits;
use pei_types::{Call, EndKind, Op, Operands, TrapCause, block_of};

/// The end of the core by a trap of the instruction at `pc`.
pub(crate) fn trapped(pc: u32, cause: TrapCause) -> Call
    ensures { result ≡ Call.End (EndKind.Trap pc cause) }
{
    Call::End {
        kind: EndKind::Trap { pc, cause },
    }
}

/// The end by a trap, if there is one, else this call.
fn call_unless(trap: Option<TrapCause>, pc: u32, call: Call) -> Call
    ensures { Asks result ≡ asks_unless trap pc call }
{
    match trap {
        Some(cause) => trapped(pc, cause),
        None => call,
    }
}

/// A load of the word at an address.
pub(crate) fn load(pc: u32, addr: u64, blocks: u32) -> Call
    ensures { Asks result ≡ asks_unless (operand_trap false None addr blocks) pc (Call.Load pc addr) }
{
    call_unless(
        operand_fits(false, None, addr, blocks),
        pc,
        Call::Load { pc, addr },
    )
}

/// A store of a value to the word at an address.
pub(crate) fn store(pc: u32, addr: u64, value: u64, blocks: u32) -> Call
    ensures { Asks result
        ≡ asks_unless (operand_trap false None addr blocks) pc (Call.Store pc addr value) }
{
    call_unless(
        operand_fits(false, None, addr, blocks),
        pc,
        Call::Store { pc, addr, value },
    )
}

/// A PEI on the block of an address.
fn pei(pc: u32, op: Op, addr: u64, operands: [u64; 4], blocks: u32) -> Call
    requires { blocks ≤ 65536 }
    ensures { Asks result
        ≡ asks_unless (operand_trap (is_on_whole_block op) (shift_of op operands) addr blocks) pc
        (pei_call op addr operands) }
{
    let (whole_block, shift) = match op {
        Op::Inc { .. } | Op::Min { .. } => (false, None),
        Op::Probe | Op::Dot => (true, None),
        Op::Hist => (true, Some(operands[0])),
    };
    match operand_fits(whole_block, shift, addr, blocks) {
        Some(cause) => trapped(pc, cause),
        None => Call::Pei {
            op,
            block: block_of(addr),
            operands: Operands(operands),
        },
    }
}

/// The place of an address's word in its block.
fn place_in_block(addr: u64) -> u8
    ensures { result ≡ word_of addr }
{
    (addr / 8 % 8) as u8
}

/// A PEI that adds 1 to the word at an address.
pub(crate) fn increment(pc: u32, addr: u64, blocks: u32) -> Call
    requires { blocks ≤ 65536 }
    ensures { Asks result
        ≡ asks_unless (operand_trap false None addr blocks) pc
        (pei_call (Op.Inc (word_of addr)) addr (0 ∷ 0 ∷ 0 ∷ 0 ∷ [])) }
{
    pei(
        pc,
        Op::Inc {
            word: place_in_block(addr),
        },
        addr,
        [0; 4],
        blocks,
    )
}

/// A PEI that makes the word at an address the smaller of itself and a value.
pub(crate) fn lower(pc: u32, addr: u64, value: u64, blocks: u32) -> Call
    requires { blocks ≤ 65536 }
    ensures { Asks result
        ≡ asks_unless (operand_trap false None addr blocks) pc
        (pei_call (Op.Min (word_of addr)) addr (value ∷ 0 ∷ 0 ∷ 0 ∷ [])) }
{
    pei(
        pc,
        Op::Min {
            word: place_in_block(addr),
        },
        addr,
        [value, 0, 0, 0],
        blocks,
    )
}

/// A PEI that looks a key up in the bucket at an address.
pub(crate) fn probe(pc: u32, addr: u64, key: u64, blocks: u32) -> Call
    requires { blocks ≤ 65536 }
    ensures { Asks result
        ≡ asks_unless (operand_trap true None addr blocks) pc
        (pei_call Op.Probe addr (key ∷ 0 ∷ 0 ∷ 0 ∷ [])) }
{
    pei(pc, Op::Probe, addr, [key, 0, 0, 0], blocks)
}

/// A PEI that makes a byte of each lane of the block at an address, shifted down by so many bits.
pub(crate) fn histogram(pc: u32, addr: u64, shift: u64, blocks: u32) -> Call
    requires { blocks ≤ 65536 }
    ensures { Asks result
        ≡ asks_unless (operand_trap true (Some shift) addr blocks) pc
        (pei_call Op.Hist addr (shift ∷ 0 ∷ 0 ∷ 0 ∷ [])) }
{
    pei(pc, Op::Hist, addr, [shift, 0, 0, 0], blocks)
}

/// A PEI that multiplies the lanes of the block at an address by those of the operands, and sums up.
pub(crate) fn dot(pc: u32, addr: u64, operands: [u64; 4], blocks: u32) -> Call
    requires { blocks ≤ 65536 }
    ensures { Asks result
        ≡ asks_unless (operand_trap true None addr blocks) pc (pei_call Op.Dot addr operands) }
{
    pei(pc, Op::Dot, addr, operands, blocks)
}
