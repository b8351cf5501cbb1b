//! The pieces of a canonical text, up to the text of an instruction.

ghost use Rattle.std.specs.Prelude.{◌≡◌, ◌++◌, ◌∷◌, [], codes, decimal, string_bytes, OnOk};
ghost use Rattle.pei_asm.specs.Canonical.{block_operation, branch, instr_text, label, phrase, register, three_registers, two_and_number};
ghost use Rattle.pei_asm.specs.MachineNumbers.{HasNumber};

use itoa::Buffer;
use pei_types::{Instr, OutOfMemory};

/// Adds a piece.
pub(crate) fn add(text: &mut String, piece: &str) -> Result<(), OutOfMemory>
    ensures { OnOk result (string_bytes text.new ≡ string_bytes text.old ++ piece.now) }
{
    match text.push_str(piece) {
        Ok(()) => Ok(()),
        Err(_) => Err(OutOfMemory),
    }
}

/// Adds a number in decimal digits.
pub(crate) fn add_number(text: &mut String, n: u64) -> Result<(), OutOfMemory>
    ensures { OnOk result (string_bytes text.new ≡ string_bytes text.old ++ decimal n) }
{
    let mut buffer = Buffer::new();
    add(text, buffer.format(n))
}

/// Adds the label of a place.
pub(crate) fn add_label(text: &mut String, place: u32) -> Result<(), OutOfMemory>
    ensures { OnOk result (string_bytes text.new ≡ string_bytes text.old ++ label place) }
{
    add(text, "L")?;
    add_number(text, u64::from(place))
}

/// Adds the name of a register.
fn add_register(text: &mut String, r: u8) -> Result<(), OutOfMemory>
    ensures { OnOk result (string_bytes text.new ≡ string_bytes text.old ++ register r) }
{
    add(text, "r")?;
    add_number(text, u64::from(r))
}

/// Adds a mnemonic with a register.
fn add_one_register(text: &mut String, mnemonic: &str, a: u8) -> Result<(), OutOfMemory>
    ensures { OnOk result (string_bytes text.new ≡ string_bytes text.old ++ phrase mnemonic.now (register a ∷ [])) }
{
    add(text, mnemonic)?;
    add(text, " ")?;
    add_register(text, a)
}

/// Adds a mnemonic with two registers.
fn add_two_registers(text: &mut String, mnemonic: &str, a: u8, b: u8) -> Result<(), OutOfMemory>
    ensures { OnOk result (string_bytes text.new ≡ string_bytes text.old ++ phrase mnemonic.now (register a ∷ register b ∷ [])) }
{
    add_one_register(text, mnemonic, a)?;
    add(text, ", ")?;
    add_register(text, b)
}

/// Adds a mnemonic with three registers.
fn add_three_registers(
    text: &mut String,
    mnemonic: &str,
    a: u8,
    b: u8,
    c: u8,
) -> Result<(), OutOfMemory>
    ensures { OnOk result (string_bytes text.new ≡ string_bytes text.old ++ three_registers mnemonic.now a b c) }
{
    add_two_registers(text, mnemonic, a, b)?;
    add(text, ", ")?;
    add_register(text, c)
}

/// Adds a mnemonic with a register and a number.
fn add_one_and_number(text: &mut String, mnemonic: &str, a: u8, n: u64) -> Result<(), OutOfMemory>
    ensures { OnOk result (string_bytes text.new ≡ string_bytes text.old ++ phrase mnemonic.now (register a ∷ decimal n ∷ [])) }
{
    add_one_register(text, mnemonic, a)?;
    add(text, ", ")?;
    add_number(text, n)
}

/// Adds a mnemonic with two registers and a number.
fn add_two_and_number(
    text: &mut String,
    mnemonic: &str,
    a: u8,
    b: u8,
    n: u64,
) -> Result<(), OutOfMemory>
    ensures { OnOk result (string_bytes text.new ≡ string_bytes text.old ++ two_and_number mnemonic.now a b n) }
{
    add_two_registers(text, mnemonic, a, b)?;
    add(text, ", ")?;
    add_number(text, n)
}

/// Adds a branch, with its registers and the label of its place.
fn add_branch(text: &mut String, mnemonic: &str, a: u8, b: u8, to: u32) -> Result<(), OutOfMemory>
    ensures { OnOk result (string_bytes text.new ≡ string_bytes text.old ++ branch mnemonic.now a b to) }
{
    add_two_registers(text, mnemonic, a, b)?;
    add(text, ", ")?;
    add_label(text, to)
}

/// Adds a jump.
fn add_jump(text: &mut String, to: u32) -> Result<(), OutOfMemory>
    ensures { OnOk result (string_bytes text.new ≡ string_bytes text.old ++ phrase (codes "jmp") (label to ∷ [])) }
{
    add(text, "jmp ")?;
    add_label(text, to)
}

/// Adds an update of a minimum.
fn add_minimum(text: &mut String, a: u8, n: u64, v: u8) -> Result<(), OutOfMemory>
    ensures { OnOk result (string_bytes text.new ≡ string_bytes text.old ++ phrase (codes "pmin") (register a ∷ decimal n ∷ register v ∷ [])) }
{
    add_one_and_number(text, "pmin", a, n)?;
    add(text, ", ")?;
    add_register(text, v)
}

/// Adds an operation on a block.
fn add_block_operation(
    text: &mut String,
    mnemonic: &str,
    d: u8,
    a: u8,
    n: u64,
    b: u8,
) -> Result<(), OutOfMemory>
    ensures { OnOk result (string_bytes text.new ≡ string_bytes text.old ++ block_operation mnemonic.now d a n b) }
{
    add_two_and_number(text, mnemonic, d, a, n)?;
    add(text, ", ")?;
    add_register(text, b)
}

/// Adds the text of an instruction.
pub(crate) fn add_instr(text: &mut String, instr: Instr) -> Result<(), OutOfMemory>
    ensures text { OnOk result (string_bytes text.new ≡ string_bytes text.old ++ instr_text instr) }
    ensures number { HasNumber instr }
{
    match instr {
        Instr::Li { rd, n } => add_one_and_number(text, "li", rd, n),
        Instr::Add { rd, ra, rb } => add_three_registers(text, "add", rd, ra, rb),
        Instr::Sub { rd, ra, rb } => add_three_registers(text, "sub", rd, ra, rb),
        Instr::Mul { rd, ra, rb } => add_three_registers(text, "mul", rd, ra, rb),
        Instr::And { rd, ra, rb } => add_three_registers(text, "and", rd, ra, rb),
        Instr::Or { rd, ra, rb } => add_three_registers(text, "or", rd, ra, rb),
        Instr::Xor { rd, ra, rb } => add_three_registers(text, "xor", rd, ra, rb),
        Instr::Addi { rd, ra, n } => add_two_and_number(text, "addi", rd, ra, n),
        Instr::Andi { rd, ra, n } => add_two_and_number(text, "andi", rd, ra, n),
        Instr::Shl { rd, ra, n } => add_two_and_number(text, "shl", rd, ra, n),
        Instr::Shr { rd, ra, n } => add_two_and_number(text, "shr", rd, ra, n),
        Instr::Ld { rd, ra, n } => add_two_and_number(text, "ld", rd, ra, n),
        Instr::St { rv, ra, n } => add_two_and_number(text, "st", rv, ra, n),
        Instr::Beq { ra, rb, to } => add_branch(text, "beq", ra, rb, to),
        Instr::Bne { ra, rb, to } => add_branch(text, "bne", ra, rb, to),
        Instr::Bltu { ra, rb, to } => add_branch(text, "bltu", ra, rb, to),
        Instr::Bgeu { ra, rb, to } => add_branch(text, "bgeu", ra, rb, to),
        Instr::Jmp { to } => add_jump(text, to),
        Instr::Pinc { ra, n } => add_one_and_number(text, "pinc", ra, n),
        Instr::Pmin { ra, n, rv } => add_minimum(text, ra, n, rv),
        Instr::Pprobe { rd, ra, n, rk } => add_block_operation(text, "pprobe", rd, ra, n, rk),
        Instr::Phist { rd, ra, n, rs } => add_block_operation(text, "phist", rd, ra, n, rs),
        Instr::Pdot { rd, ra, n, rw } => add_block_operation(text, "pdot", rd, ra, n, rw),
        Instr::Pfence => add(text, "pfence"),
        Instr::Out { ra } => add_one_register(text, "out", ra),
        Instr::Halt => add(text, "halt"),
    }
}
