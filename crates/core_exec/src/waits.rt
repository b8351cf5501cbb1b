//! The registers that wait for replies.

ghost use Rattle.std.specs.Prelude.{◌≡◌, ◌==◌, ◌<◌, IfSome, None, false, map, replicate};
ghost use Rattle.std.specs.List.{list_any};
ghost use Rattle.pei_types.specs.Core.{awaited, busy_register, filled, registers_of, wait_after, with_reply};
ghost use Rattle.pei_types.specs.Program.{HasRegisters};
ghost use Rattle.core_exec.specs.Wait.{seen_wait, is_busy};

use pei_types::{Instr, Reply};

/// One of the two words of a reply.
#[derive(Clone, Copy, PartialEq, Eq, Debug)]
pub(crate) enum ReplyWord {
    First,
    Second,
}

/// What a register waits for: a word of the reply of the core's PEI `seq`.
#[derive(Clone, Copy, PartialEq, Eq, Debug)]
pub(crate) struct Wait {
    pub seq: u32,
    pub word: ReplyWord,
}

/// Whether an instruction reads or writes a register.
fn uses(instr: Instr, register: u8) -> bool
    requires { HasRegisters instr }
    ensures { result ≡ list_any (λ q. q == register) (registers_of instr) }
{
    match instr {
        Instr::Jmp { .. } | Instr::Pfence | Instr::Halt => false,
        Instr::Li { rd: only, .. } | Instr::Pinc { ra: only, .. } | Instr::Out { ra: only } => {
            only == register
        }
        Instr::Addi { rd: first, ra, .. }
        | Instr::Andi { rd: first, ra, .. }
        | Instr::Shl { rd: first, ra, .. }
        | Instr::Shr { rd: first, ra, .. }
        | Instr::Ld { rd: first, ra, .. }
        | Instr::St { rv: first, ra, .. } => first == register || ra == register,
        Instr::Beq { ra, rb, .. }
        | Instr::Bne { ra, rb, .. }
        | Instr::Bltu { ra, rb, .. }
        | Instr::Bgeu { ra, rb, .. }
        | Instr::Pmin { ra, rv: rb, .. } => ra == register || rb == register,
        Instr::Add { rd, ra, rb }
        | Instr::Sub { rd, ra, rb }
        | Instr::Mul { rd, ra, rb }
        | Instr::And { rd, ra, rb }
        | Instr::Or { rd, ra, rb }
        | Instr::Xor { rd, ra, rb } => rd == register || ra == register || rb == register,
        Instr::Pprobe {
            rd,
            ra,
            rk: operand,
            ..
        }
        | Instr::Phist {
            rd,
            ra,
            rs: operand,
            ..
        } => { rd == register || rd + 1 == register || ra == register || operand == register }
        Instr::Pdot { rd, ra, rw, .. } => {
            rd == register
                || ra == register
                || rw == register
                || rw + 1 == register
                || rw + 2 == register
                || rw + 3 == register
        }
    }
}

/// Whether an instruction reads or writes a register that waits.
fn is_busy(waits: &[Option<Wait>; 16], instr: Instr, register: u8) -> bool
    requires register { register < 16 }
    requires registers { HasRegisters instr }
    ensures { result ≡ is_busy (map seen_wait waits.now) instr register }
{
    waits[register as usize].is_some() && uses(instr, register)
}

/// The lowest register that an instruction reads or writes and that waits.
#[tactic(auto, unfolding(pei_types::specs::Core::busy_register))]
pub(crate) fn lowest_busy(waits: &[Option<Wait>; 16], instr: Instr) -> Option<u8>
    requires { HasRegisters instr }
    ensures exact { result ≡ busy_register (map seen_wait waits.now) instr }
    ensures below { IfSome result (λ register. register < 16) }
{
    (0..16u8).find(|register| is_busy(waits, instr, *register))
}

/// The number of the PEI that is waited for, or 0 where nothing is.
pub(crate) fn awaited(wait: Option<Wait>) -> u32
    ensures { result ≡ awaited (seen_wait wait) }
{
    match wait {
        Some(wait) => wait.seq,
        None => 0,
    }
}

/// What a register holds after a reply: the word that it waited for, or what it held where it waits for no word of it.
fn filled(register: u64, wait: Option<Wait>, seq: u32, reply: &Reply) -> u64
    ensures { result ≡ filled seq reply.now register (seen_wait wait) }
{
    match wait {
        Some(wait) if wait.seq == seq => match wait.word {
            ReplyWord::First => reply.words[0],
            ReplyWord::Second => reply.words[1],
        },
        _ => register,
    }
}

/// What a register waits for after the reply of a PEI.
fn wait_after(wait: Option<Wait>, seq: u32) -> Option<Wait>
    ensures { seen_wait result ≡ wait_after seq (seen_wait wait) }
{
    wait.filter(|wait| wait.seq != seq)
}

/// Takes a reply in at all registers, and tells whether one still waits for another.
pub(crate) fn take_reply(
    registers: &mut [u64; 16],
    waits: &mut [Option<Wait>; 16],
    seq: u32,
    reply: &Reply,
) -> bool
    ensures registers { registers.new
        ≡ with_reply seq reply.now registers.old (map seen_wait waits.old) }
    ensures waits { map seen_wait waits.new ≡ map (wait_after seq) (map seen_wait waits.old) }
    ensures none { result ≡ false → map seen_wait waits.new ≡ replicate 16 None }
{
    let mut waiting = false;
    for i in 0..16 {
        let wait = waits[i];
        registers[i] = filled(registers[i], wait, seq, reply);
        let rest = wait_after(wait, seq);
        waiting |= rest.is_some();
        waits[i] = rest;
    }
    waiting
}
