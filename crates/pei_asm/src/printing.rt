//! The canonical text of a program.

ghost use Rattle.std.specs.Prelude.{◌≡◌, ◌++◌, ◌∷◌, codes, decimal, flat_map, ◌<◌, ◌≤◌, if◌then◌else◌, [], length, map, string_bytes, All, IfOk, OnOk};
ghost use Rattle.pei_types.specs.Program.{HasRegisters};
ghost use Rattle.pei_asm.specs.Canonical.{IsPrintable, ask_line, canonical, entry_line, instr_lines, instr_text, label, last_line, line, listed, own_entry_lines, statistics_line, words_line};
ghost use Rattle.pei_asm.specs.MachineNumbers.{HasNumber, HasNumbers, IsLineOfNumbers, IsNumber};
ghost use Rattle.pei_asm.specs.Named.{HasNamed};
ghost use Rattle.pei_asm.specs.Meaning.{Spells};

use crate::named::named_places;
use crate::pieces::{add, add_instr, add_label, add_number};
use pei_io::Text;
use pei_types::{Ask, CoreId, Instr, OutOfMemory, Program};
use std::alloc::Global;

/// Adds the entry of all cores that have none of their own, if it is given.
fn add_common_entry(text: &mut String, place: Option<u32>) -> Result<(), OutOfMemory>
    ensures { OnOk result (string_bytes text.new ≡ string_bytes text.old ++ entry_line (codes "*") place) }
{
    let Some(place) = place else {
        return Ok(());
    };
    add(text, ".entry *, ")?;
    add_label(text, place)?;
    add(text, "\n")
}

/// Adds the entry of a core, if it is given.
fn add_own_entry(text: &mut String, core: u8, place: Option<u32>) -> Result<(), OutOfMemory>
    ensures { OnOk result (string_bytes text.new ≡ string_bytes text.old ++ entry_line (decimal core) place) }
{
    let Some(place) = place else {
        return Ok(());
    };
    add(text, ".entry ")?;
    add_number(text, u64::from(core))?;
    add(text, ", ")?;
    add_label(text, place)?;
    add(text, "\n")
}

/// Adds the entries of single cores.
fn add_own_entries(text: &mut String, program: &Program) -> Result<(), OutOfMemory>
    requires { length program.now.own_entries ≡ 8 }
    ensures { OnOk result (string_bytes text.new ≡ string_bytes text.old ++ own_entry_lines 0 program.now.own_entries) }
{
    for core in 0..8 {
        add_own_entry(text, core, program.entry_line(Some(CoreId(core))))?;
    }
    Ok(())
}

/// Adds numbers, each behind a comma.
fn add_more_numbers(text: &mut String, numbers: &[u64]) -> Result<(), OutOfMemory>
    ensures text { OnOk result (string_bytes text.new ≡ string_bytes text.old ++ flat_map (λ n. codes ", " ++ decimal n) numbers.now) }
    ensures numbers { All IsNumber numbers.now }
{
    for n in numbers {
        add(text, ", ")?;
        add_number(text, *n)?;
    }
    Ok(())
}

/// Adds numbers, with a comma between each two.
fn add_numbers(text: &mut String, first: u64, more: &[u64]) -> Result<(), OutOfMemory>
    ensures text { OnOk result (string_bytes text.new ≡ string_bytes text.old ++ listed (decimal first ∷ map decimal more.now)) }
    ensures numbers { OnOk result (All IsNumber more.now) }
{
    add_number(text, first)?;
    add_more_numbers(text, more)
}

/// Adds a line of initial words, from an address on.
fn add_words(text: &mut String, addr: u64, words: &[u64]) -> Result<(), OutOfMemory>
    requires { 0 < length words.now }
    ensures text { OnOk result (string_bytes text.new ≡ string_bytes text.old ++ words_line (addr, words.now)) }
    ensures numbers { OnOk result (IsLineOfNumbers (addr, words.now)) }
{
    add(text, ".data ")?;
    add_numbers(text, addr, words)?;
    add(text, "\n")
}

/// Adds the lines of initial words.
fn add_lines(text: &mut String, program: &Program) -> Result<(), OutOfMemory>
    ensures text { OnOk result (string_bytes text.new ≡ string_bytes text.old ++ flat_map words_line program.now.lines) }
    ensures numbers { OnOk result (All IsLineOfNumbers program.now.lines) }
{
    for i in 0..program.lines() {
        let (addr, words) = program.line(i);
        add_words(text, addr, words)?;
    }
    Ok(())
}

/// Adds a directive with an address and a count.
fn add_range(text: &mut String, name: &str, addr: u64, count: u64) -> Result<(), OutOfMemory>
    ensures { OnOk result (string_bytes text.new ≡ string_bytes text.old ++ line (name.now ++ (codes " " ++ (decimal addr ++ (codes ", " ++ decimal count))))) }
{
    add(text, name)?;
    add(text, " ")?;
    add_number(text, addr)?;
    add(text, ", ")?;
    add_number(text, count)?;
    add(text, "\n")
}

/// Adds the line of an ask.
fn add_ask(text: &mut String, ask: Ask) -> Result<(), OutOfMemory>
    ensures text { OnOk result (string_bytes text.new ≡ string_bytes text.old ++ ask_line ask) }
    ensures numbers { HasNumbers ask }
{
    match ask {
        Ask::Show { addr, count } => add_range(text, ".show", addr, count),
        Ask::Sum { addr, count } => add_range(text, ".sum", addr, count),
    }
}

/// Adds the lines of asks.
fn add_asks(text: &mut String, asks: &[Ask]) -> Result<(), OutOfMemory>
    ensures text { OnOk result (string_bytes text.new ≡ string_bytes text.old ++ flat_map ask_line asks.now) }
    ensures numbers { OnOk result (All HasNumbers asks.now) }
{
    for ask in asks {
        add_ask(text, *ask)?;
    }
    Ok(())
}

/// Adds the line that asks for statistics, if they are asked for.
fn add_statistics(text: &mut String, asked: bool) -> Result<(), OutOfMemory>
    ensures { OnOk result (string_bytes text.new ≡ string_bytes text.old ++ statistics_line asked) }
{
    if asked { add(text, ".stats\n") } else { Ok(()) }
}

/// Adds the label before an instruction, where its place is named.
fn add_label_before(text: &mut String, named: bool, place: u32) -> Result<(), OutOfMemory>
    ensures { OnOk result (string_bytes text.new ≡ string_bytes text.old ++ (if named then label place ++ codes ": " else [])) }
{
    if named {
        add_label(text, place)?;
        add(text, ": ")
    } else {
        Ok(())
    }
}

/// Adds the line of an instruction, with the label of its place where that is named.
fn add_instr_line(
    text: &mut String,
    named: bool,
    place: u32,
    instr: Instr,
) -> Result<(), OutOfMemory>
    ensures text { OnOk result (string_bytes text.new ≡ string_bytes text.old ++ line ((if named then label place ++ codes ": " else []) ++ instr_text instr)) }
    ensures number { OnOk result (HasNumber instr) }
{
    add_label_before(text, named, place)?;
    add_instr(text, instr)?;
    add(text, "\n")
}

/// Adds the lines of the instructions.
fn add_instrs(text: &mut String, program: &Program, places: &[bool]) -> Result<(), OutOfMemory>
    requires { HasNamed program.now places.now }
    ensures text { OnOk result (string_bytes text.new ≡ string_bytes text.old ++ instr_lines program.now 0 program.now.instrs) }
    ensures few { OnOk result (length program.now.instrs ≤ 65536) }
    ensures registers { OnOk result (All HasRegisters program.now.instrs) }
    ensures numbers { OnOk result (All HasNumber program.now.instrs) }
{
    for pc in 0..program.len() {
        add_instr_line(text, places[pc as usize], pc, program.instr(pc))?;
    }
    Ok(())
}

/// Adds the label of the place behind the last instruction, where that is named.
fn add_last(text: &mut String, program: &Program, places: &[bool]) -> Result<(), OutOfMemory>
    requires { HasNamed program.now places.now }
    ensures { OnOk result (string_bytes text.new ≡ string_bytes text.old ++ last_line program.now) }
{
    let len = program.len();
    if places[len as usize] {
        add_label(text, len)?;
        add(text, ":\n")
    } else {
        Ok(())
    }
}

/// Adds the canonical text of a program, whose named places are these.
fn add_program(text: &mut String, program: &Program, places: &[bool]) -> Result<(), OutOfMemory>
    requires printable { IsPrintable program.now }
    requires named { HasNamed program.now places.now }
    ensures text { OnOk result (string_bytes text.new ≡ string_bytes text.old ++ canonical program.now) }
    ensures spells { OnOk result (Spells (canonical program.now) program.now) }
{
    add_common_entry(text, program.entry_line(None))?;
    add_own_entries(text, program)?;
    add_lines(text, program)?;
    add_asks(text, program.asks())?;
    add_statistics(text, program.stats())?;
    add_instrs(text, program, places)?;
    add_last(text, program, places)
}

/// The canonical text of a program.
///
/// First come its entries, that of all cores before those of single ones, its initial words, what its report shows and
/// whether it has statistics; then each instruction on a line of its own. A label `Lk: ` stands before instruction k
/// where an entry, a branch or a jump names it, and the last line is a label alone where one names the place behind the
/// last instruction. Operands have a comma and a space between them, numbers are unsigned decimals, and each line ends
/// with a line feed. The program is printable where every place that it names is at most its number of instructions, as
/// in each program that [`assemble`](crate::assemble) gives. The text spells the program, and a text spells at most one:
/// so `assemble` of the text gives the program again, wherever memory is found and the text is short enough for it.
/// `OutOfMemory` is the only error.
pub fn print(alloc: Global, program: &Program) -> Result<Text, OutOfMemory>
    requires printable { IsPrintable program.now }
    ensures canonical { IfOk result (λ t. t ≡ canonical program.now) }
    ensures spells { IfOk result (λ t. Spells t program.now) }
{
    let places = named_places(alloc, program)?;
    let mut text = String::new(alloc);
    add_program(&mut text, program, places.as_slice())?;
    Text::make(alloc, text.as_str())
}
