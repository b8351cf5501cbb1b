//! The lines of a text that were read, with what the next one has to know of them.

ghost use Rattle.std.specs.Prelude.{◌≡◌, ◌++◌, ◌∷◌, [], ◌<◌, ◌||◌, if◌then◌else◌, ℕ, Bool, None, Some, false, not, nat_lt, is_some, option_map, slice_get, IfSome, OnOk};
ghost use Rattle.std.specs.Option.{option_map_or};
ghost use Rattle.pei_asm.specs.Faults.{has_entry, is_defined_before, is_one_too_many};
ghost use Rattle.pei_asm.specs.Sources.{HasWellFormed, line_of, place_in};
ghost use Rattle.pei_asm.specs.Stored.{IsStored, entry_on, instruction_on, stored, with_label};
ghost use Rattle.pei_asm.specs.Meaning.{instruction_count, place_among, same_core};

use crate::labels::Labels;
use asm_statements::SourceStatement;
use pei_types::OutOfMemory;
use std::alloc::Global;

/// A line: its label and its statement, if it has them.
#[derive(Drop)]
pub(crate) struct SourceLine<'a> {
    pub(crate) label: Option<&'a [u8]>,
    pub(crate) statement: Option<SourceStatement<'a>>,
}

impl SourceLine<'_> {
    /// The number of instructions on the line, 0 or 1.
    fn instructions(&self) -> u32
        ensures { result ≡ (if is_some (instruction_on (line_of self.now)) then 1 else 0) }
    {
        match &self.statement {
            Some(statement) if statement.mnemonic.is_instruction() => 1,
            _ => 0,
        }
    }

    /// The core to which the line gives an entry, or `Some(None)` where it gives one to all others.
    fn entry(&self) -> Option<Option<u8>>
        requires { HasWellFormed self.now }
        ensures core { result ≡ entry_on (line_of self.now) }
        ensures within { IfSome result (λ o. IfSome o (λ core. core < 8)) }
    {
        match &self.statement {
            Some(statement) => statement.entry(),
            None => None,
        }
    }
}

/// The lines that were read, with the places of their labels, the number of their instructions and the entries that
/// they give.
#[derive(Drop)]
pub(crate) struct Lines<'a> {
    lines: Vec<SourceLine<'a>>,
    labels: Labels<'a>,
    instructions: u32,
    own_entries: [bool; 8],
    common_entry: bool,
}

impl<'a> Lines<'a> {
    /// No lines.
    pub(crate) fn make(alloc: Global) -> Lines<'a>
        ensures none { stored result ≡ [] }
        ensures stored { IsStored result }
    {
        Lines {
            lines: Vec::new(alloc),
            labels: Labels::make(alloc),
            instructions: 0,
            own_entries: [false; 8],
            common_entry: false,
        }
    }

    /// The lines in order.
    pub(crate) fn as_slice(&self) -> &[SourceLine<'a>]
        ensures { result.now ≡ self.now.lines.items }
    {
        self.lines.as_slice()
    }

    /// Whether a line defines a label.
    pub(crate) fn defines(&self, label: &[u8]) -> bool
        requires { IsStored self.now }
        ensures { result ≡ is_defined_before (stored self.now) (Some label.now) }
    {
        self.labels.place(label).is_some()
    }

    /// The place of a label: the number of instructions on the lines before the one that defines it.
    pub(crate) fn place(&self, label: &[u8]) -> Option<u32>
        requires { IsStored self.now }
        ensures { result ≡ place_among (stored self.now) label.now }
    {
        self.labels.place(label)
    }

    /// Whether there are as many instructions as there may be.
    pub(crate) fn is_full(&self) -> bool
        requires { IsStored self.now }
        ensures { result ≡ not (nat_lt (instruction_count (stored self.now)) 65536) }
    {
        self.instructions >= 65536
    }

    /// Whether a line gives an entry to this core, or with `None` to all others.
    pub(crate) fn has_entry(&self, core: Option<u8>) -> bool
        requires stored { IsStored self.now }
        requires core { IfSome core (λ c. c < 8) }
        ensures { result ≡ has_entry (stored self.now) (Some core) }
    {
        match core {
            Some(core) => self.own_entries[core as usize],
            None => self.common_entry,
        }
    }

    /// Adds a line. Its label is new, and there is room for its instruction.
    pub(crate) fn push(&mut self, line: SourceLine<'a>) -> Result<(), OutOfMemory>
        requires stored { IsStored self.old }
        requires label { is_defined_before (stored self.old) (line_of line).label ≡ false }
        requires room { IfSome (line_of line).statement (λ s. is_one_too_many (stored self.old) s ≡ false) }
        requires well_formed { HasWellFormed line }
        ensures more { OnOk result (stored self.new ≡ stored self.old ++ line_of line.entry ∷ []) }
        ensures stored { OnOk result (IsStored self.new) }
    {
        define_label(&mut self.labels, line.label, self.instructions)?;
        self.instructions += line.instructions();
        note_entry(&mut self.own_entries, &mut self.common_entry, line.entry());
        let Ok(()) = self.lines.push(line) else {
            return Err(OutOfMemory);
        };
        Ok(())
    }
}

/// Gives the label of a line its place, if the line has one.
fn define_label<'a>(
    labels: &mut Labels<'a>,
    label: Option<&'a [u8]>,
    place: u32,
) -> Result<(), OutOfMemory>
    requires { IfSome label (λ l. place_in labels.old l.now ≡ None) }
    ensures { OnOk result (labels.new ≡ with_label labels.old (option_map (λ l. l.now) label.entry) place) }
{
    match label {
        Some(label) => labels.define(label, place),
        None => Ok(()),
    }
}

/// Notes that a line gives an entry, if it does.
fn note_entry(own_entries: &mut [bool; 8], common_entry: &mut bool, entry: Option<Option<u8>>)
    requires { IfSome entry (λ o. IfSome o (λ core. core < 8)) }
    ensures own { (core : ℕ) (before : Bool) → slice_get own_entries.old core ≡ Some before → slice_get own_entries.new core ≡ Some (before || option_map_or (same_core (Some core)) entry false) }
    ensures common { common_entry.new ≡ (common_entry.old || option_map_or (same_core None) entry false) }
{
    match entry {
        Some(Some(core)) => own_entries[core as usize] = true,
        Some(None) => *common_entry = true,
        None => {}
    }
}
