//! What an instruction does at once, or the call that it makes.

ghost use Rattle.std.specs.Prelude.{◌≡◌, ◌<◌, ◌≤◌, ℕ, List};
ghost use Rattle.pei_types.specs.Core.{effect_of, branch as branch_of};
ghost use Rattle.pei_types.specs.Program.{HasRegisters};
ghost use Rattle.core_exec.specs.Effect.{seen_effect, HasRegister};

use crate::accesses::{dot, histogram, increment, load, lower, probe, store};
use pei_types::{Call, CoreConfig, EndKind, Instr};

/// What an instruction does at once, or the call that it makes.
#[derive(Clone, Copy, PartialEq, Eq, Debug)]
pub(crate) enum Effect {
    /// Writes a register, and goes on to the next instruction.
    Writes { register: u8, value: u64 },
    /// Goes on to the instruction at `pc`.
    Goes { pc: u32 },
    /// Makes a call, and goes on once that is answered.
    Asks(Call),
}

/// The write of a value to a register.
fn writes(register: u8, value: u64) -> Effect
    ensures { result ≡ Effect.Writes register value }
{
    Effect::Writes { register, value }
}

/// The making of a call.
fn asks(call: Call) -> Effect
    ensures { result ≡ Effect.Asks call }
{
    Effect::Asks(call)
}

/// Goes to a place if the branch is taken, else on to the next instruction.
fn branch(taken: bool, pc: u32, to: u32) -> Effect
    requires { pc < 65536 }
    ensures exact { (registers : List ℕ) → seen_effect pc registers result ≡ branch_of taken pc to registers }
    ensures register { HasRegister result }
{
    Effect::Goes {
        pc: if taken { to } else { pc + 1 },
    }
}

/// What an instruction at `pc` does, with these registers.
pub(crate) fn execute(pc: u32, registers: &[u64; 16], instr: Instr, config: CoreConfig) -> Effect
    requires size { config.blocks ≤ 65536 }
    requires place { pc < 65536 }
    requires registers { HasRegisters instr }
    ensures exact { seen_effect pc registers.now result ≡ effect_of config pc registers.now instr }
    ensures register { HasRegister result }
{
    let word = |register: u8| registers[register as usize];
    let address = |register: u8, offset: u64| registers[register as usize].wrapping_add(offset);
    match instr {
        Instr::Li { rd, n } => writes(rd, n),
        Instr::Add { rd, ra, rb } => writes(rd, word(ra).wrapping_add(word(rb))),
        Instr::Sub { rd, ra, rb } => writes(rd, word(ra).wrapping_sub(word(rb))),
        Instr::Mul { rd, ra, rb } => writes(rd, word(ra).wrapping_mul(word(rb))),
        Instr::And { rd, ra, rb } => writes(rd, word(ra) & word(rb)),
        Instr::Or { rd, ra, rb } => writes(rd, word(ra) | word(rb)),
        Instr::Xor { rd, ra, rb } => writes(rd, word(ra) ^ word(rb)),
        Instr::Addi { rd, ra, n } => writes(rd, word(ra).wrapping_add(n)),
        Instr::Andi { rd, ra, n } => writes(rd, word(ra) & n),
        Instr::Shl { rd, ra, n } => writes(rd, word(ra) << (n % 64)),
        Instr::Shr { rd, ra, n } => writes(rd, word(ra) >> (n % 64)),
        Instr::Ld { ra, n, .. } => asks(load(pc, address(ra, n), config.blocks)),
        Instr::St { rv, ra, n } => asks(store(pc, address(ra, n), word(rv), config.blocks)),
        Instr::Beq { ra, rb, to } => branch(word(ra) == word(rb), pc, to),
        Instr::Bne { ra, rb, to } => branch(word(ra) != word(rb), pc, to),
        Instr::Bltu { ra, rb, to } => branch(word(ra) < word(rb), pc, to),
        Instr::Bgeu { ra, rb, to } => branch(word(ra) >= word(rb), pc, to),
        Instr::Jmp { to } => Effect::Goes { pc: to },
        Instr::Pinc { ra, n } => asks(increment(pc, address(ra, n), config.blocks)),
        Instr::Pmin { ra, n, rv } => asks(lower(pc, address(ra, n), word(rv), config.blocks)),
        Instr::Pprobe { ra, n, rk, .. } => asks(probe(pc, address(ra, n), word(rk), config.blocks)),
        Instr::Phist { ra, n, rs, .. } => asks(histogram(
            pc,
            address(ra, n),
            word(rs),
            config.blocks,
        )),
        Instr::Pdot { ra, n, rw, .. } => {
            let operands = [word(rw), word(rw + 1), word(rw + 2), word(rw + 3)];
            asks(dot(pc, address(ra, n), operands, config.blocks))
        }
        Instr::Pfence => asks(Call::Fence),
        Instr::Out { ra } => asks(Call::Out { value: word(ra) }),
        Instr::Halt => asks(Call::End {
            kind: EndKind::Halt,
        }),
    }
}
