//! What a statement adds to a program.

ghost use Rattle.std.specs.Prelude.{◌≡◌, ◌<◌, ◌+◌, ◌^◌, length, slice_index, is_some, true, false, IfSome, OnOk};
ghost use Rattle.pei_types.specs.Program.{HasRegisters};
ghost use Rattle.asm_statements.specs.Mnemonics.{row_of, instruction_in};
ghost use Rattle.pei_asm.specs.Items.{HasValues, with_common_entry, with_item, with_own_entry};

use asm_statements::Mnemonic;
use pei_types::{Ask, CoreId, Instr, OutOfMemory, Program};

/// The register that an operand is.
fn register(values: &[u64], i: usize) -> u8
    requires within { i < length values.now }
    requires register { slice_index values.now i < 16 }
    ensures { result ≡ slice_index values.now i }
{
    values[i] as u8
}

/// The place of the label that an operand is.
fn place(values: &[u64], i: usize) -> u32
    requires within { i < length values.now }
    requires place { slice_index values.now i < 2 ^ 32 }
    ensures { result ≡ slice_index values.now i }
{
    values[i] as u32
}

/// The instruction of a row, by the values of its operands, or `None` where the row is a directive's.
pub(crate) fn instruction_of(row: Mnemonic, values: &[u64]) -> Option<Instr>
    requires { HasValues (row_of row).shapes values.now }
    ensures instruction { result ≡ instruction_in ((row_of row).makes values.now) }
    ensures registers { IfSome result HasRegisters }
{
    Some(match row {
        Mnemonic::Li => Instr::Li {
            rd: register(values, 0),
            n: values[1],
        },
        Mnemonic::Add => Instr::Add {
            rd: register(values, 0),
            ra: register(values, 1),
            rb: register(values, 2),
        },
        Mnemonic::Sub => Instr::Sub {
            rd: register(values, 0),
            ra: register(values, 1),
            rb: register(values, 2),
        },
        Mnemonic::Mul => Instr::Mul {
            rd: register(values, 0),
            ra: register(values, 1),
            rb: register(values, 2),
        },
        Mnemonic::And => Instr::And {
            rd: register(values, 0),
            ra: register(values, 1),
            rb: register(values, 2),
        },
        Mnemonic::Or => Instr::Or {
            rd: register(values, 0),
            ra: register(values, 1),
            rb: register(values, 2),
        },
        Mnemonic::Xor => Instr::Xor {
            rd: register(values, 0),
            ra: register(values, 1),
            rb: register(values, 2),
        },
        Mnemonic::Addi => Instr::Addi {
            rd: register(values, 0),
            ra: register(values, 1),
            n: values[2],
        },
        Mnemonic::Andi => Instr::Andi {
            rd: register(values, 0),
            ra: register(values, 1),
            n: values[2],
        },
        Mnemonic::Shl => Instr::Shl {
            rd: register(values, 0),
            ra: register(values, 1),
            n: values[2],
        },
        Mnemonic::Shr => Instr::Shr {
            rd: register(values, 0),
            ra: register(values, 1),
            n: values[2],
        },
        Mnemonic::Ld => Instr::Ld {
            rd: register(values, 0),
            ra: register(values, 1),
            n: values[2],
        },
        Mnemonic::St => Instr::St {
            rv: register(values, 0),
            ra: register(values, 1),
            n: values[2],
        },
        Mnemonic::Beq => Instr::Beq {
            ra: register(values, 0),
            rb: register(values, 1),
            to: place(values, 2),
        },
        Mnemonic::Bne => Instr::Bne {
            ra: register(values, 0),
            rb: register(values, 1),
            to: place(values, 2),
        },
        Mnemonic::Bltu => Instr::Bltu {
            ra: register(values, 0),
            rb: register(values, 1),
            to: place(values, 2),
        },
        Mnemonic::Bgeu => Instr::Bgeu {
            ra: register(values, 0),
            rb: register(values, 1),
            to: place(values, 2),
        },
        Mnemonic::Jmp => Instr::Jmp {
            to: place(values, 0),
        },
        Mnemonic::Pinc => Instr::Pinc {
            ra: register(values, 0),
            n: values[1],
        },
        Mnemonic::Pmin => Instr::Pmin {
            ra: register(values, 0),
            n: values[1],
            rv: register(values, 2),
        },
        Mnemonic::Pprobe => Instr::Pprobe {
            rd: register(values, 0),
            ra: register(values, 1),
            n: values[2],
            rk: register(values, 3),
        },
        Mnemonic::Phist => Instr::Phist {
            rd: register(values, 0),
            ra: register(values, 1),
            n: values[2],
            rs: register(values, 3),
        },
        Mnemonic::Pdot => Instr::Pdot {
            rd: register(values, 0),
            ra: register(values, 1),
            n: values[2],
            rw: register(values, 3),
        },
        Mnemonic::Pfence => Instr::Pfence,
        Mnemonic::Out => Instr::Out {
            ra: register(values, 0),
        },
        Mnemonic::Halt => Instr::Halt,
        Mnemonic::EntryOfCore
        | Mnemonic::EntryOfAll
        | Mnemonic::Data
        | Mnemonic::Show
        | Mnemonic::Sum
        | Mnemonic::Stats => return None,
    })
}

/// Gives a core an entry, unless it has one.
fn add_own_entry(program: &mut Program, core: u8, place: u32)
    requires { core < 8 }
    ensures { program.new ≡ record program.old { own_entries = with_own_entry program.old.own_entries core place } }
{
    let core = Some(CoreId(core));
    if program.entry_line(core).is_none() {
        program.set_entry(core, place);
    }
}

/// Gives an entry to all cores that have none of their own, unless they have one.
fn add_common_entry(program: &mut Program, place: u32)
    ensures { program.new ≡ record program.old { common_entry = with_common_entry program.old.common_entry place } }
{
    if program.entry_line(None).is_none() {
        program.set_entry(None, place);
    }
}

/// Adds what a directive asks for.
fn add_directive(program: &mut Program, row: Mnemonic, values: &[u64]) -> Result<(), OutOfMemory>
    requires directive { is_some (instruction_in ((row_of row).makes values.now)) ≡ false }
    requires values { HasValues (row_of row).shapes values.now }
    requires lines { length program.old.lines < 4294967295 }
    ensures { OnOk result (program.new ≡ with_item program.old ((row_of row).makes values.now)) }
{
    match row {
        Mnemonic::EntryOfCore => {
            add_own_entry(program, values[0] as u8, place(values, 1));
            Ok(())
        }
        Mnemonic::EntryOfAll => {
            add_common_entry(program, place(values, 1));
            Ok(())
        }
        Mnemonic::Data => program.push_words(values[0], &values[1..]),
        Mnemonic::Show => program.push_ask(Ask::Show {
            addr: values[0],
            count: values[1],
        }),
        Mnemonic::Sum => program.push_ask(Ask::Sum {
            addr: values[0],
            count: values[1],
        }),
        Mnemonic::Stats => {
            program.set_stats();
            Ok(())
        }
        _ => Ok(()),
    }
}

/// Adds what a row with these values makes.
pub(crate) fn add_item(
    program: &mut Program,
    row: Mnemonic,
    values: &[u64],
) -> Result<(), OutOfMemory>
    requires values { HasValues (row_of row).shapes values.now }
    requires room { is_some (instruction_in ((row_of row).makes values.now)) ≡ true → length program.old.instrs < 65536 }
    requires lines { length program.old.lines < 4294967295 }
    ensures { OnOk result (program.new ≡ with_item program.old ((row_of row).makes values.now)) }
{
    match instruction_of(row, values) {
        Some(instr) => program.push_instr(instr),
        None => add_directive(program, row, values),
    }
}
