//! A program, and its image in memory.

ghost use Rattle.std.specs.Prelude.{◌≡◌, ◌<◌, ◌≤◌, ◌+◌, ◌*◌, ◌%◌, ◌^◌, ◌++◌, ◌∷◌, [], length, slice_get, slice_index, slice_set, OnOk, OnErr, IfOk, IfSome, IfNone, ◌/◌, replicate, true, false};
ghost use Rattle.pei_types.specs.Program.{Listing, Contents, HasRegisters, instr_at, own_entry, entry_of_core, word_at, start_of};

use crate::identifiers::{CoreId, OutOfMemory};
use crate::instructions::{Ask, Instr};
use std::alloc::Global;
use std::marker::Model;

/// One line of initial words.
#[derive(Drop)]
struct DataLine {
    addr: u64,
    words: Vec<u64>,
}

/// A program: its instructions, initial words, asks and entries.
#[derive(Drop)]
pub struct Program {
    instrs: Vec<Instr>,
    lines: Vec<DataLine>,
    asks: Vec<Ask>,
    own_entries: [Option<u32>; 8],
    common_entry: Option<u32>,
    statistics: bool,
    alloc: Global,
}

impl Model for Program {
    ghost use Rattle.std.specs.Prelude.{◌≡◌, ◌≤◌, ◌<◌, length, map, All};
    ghost use Rattle.pei_types.specs.Program.{Listing};

    ghost Value = { Listing };

    ghost use Rattle.pei_types.specs.Program.{HasRegisters};

    ghost view = { λ p. record { instrs = p.instrs.items; lines = map (λ l. (l.addr, l.words.items)) p.lines.items; asks = p.asks.items; own_entries = p.own_entries; common_entry = p.common_entry; statistics = p.statistics } };

    ghost invariant = { λ p. (length p.instrs.items ≤ 65536) × All HasRegisters p.instrs.items × (length p.lines.items ≤ 4294967295) × All (λ l. 0 < length l.words.items) p.lines.items × (length p.own_entries ≡ 8) };
}

impl Program {
    /// The empty program.
    pub fn make(alloc: Global) -> Program
        ensures { result ≡ record { instrs = []; lines = []; asks = []; own_entries = replicate 8 None; common_entry = None; statistics = false } }
    {
        Program {
            instrs: Vec::new(alloc),
            lines: Vec::new(alloc),
            asks: Vec::new(alloc),
            own_entries: [None; 8],
            common_entry: None,
            statistics: false,
            alloc,
        }
    }

    /// One more instruction.
    pub fn push_instr(&mut self, instr: Instr) -> Result<(), OutOfMemory>
        requires room { length self.old.instrs < 65536 }
        requires registers { HasRegisters instr }
        ensures ok { OnOk result (self.new ≡ record self.old { instrs = self.old.instrs ++ instr ∷ [] }) }
        ensures err { OnErr result (self.new ≡ self.old) }
    {
        match self.instrs.push(instr) {
            Ok(()) => Ok(()),
            Err(_) => Err(OutOfMemory),
        }
    }

    /// The number of instructions.
    pub fn len(&self) -> u32
        ensures len { result ≡ length self.now.instrs }
        ensures most { result ≤ 65536 }
    {
        self.instrs.len() as u32
    }

    /// The instruction at a place.
    pub fn instr(&self, pc: u32) -> Instr
        requires { pc < length self.now.instrs }
        ensures found { slice_get self.now.instrs pc ≡ Some result }
        ensures registers { HasRegisters result }
    {
        self.instrs[pc as usize]
    }

    /// One more line of initial words, from an address in bytes on.
    pub fn push_words(&mut self, addr: u64, words: &[u64]) -> Result<(), OutOfMemory>
        requires some { 0 < length words.now }
        requires room { length self.old.lines < 4294967295 }
        ensures ok { OnOk result (self.new ≡ record self.old { lines = self.old.lines ++ (addr, words.now) ∷ [] }) }
        ensures err { OnErr result (self.new ≡ self.old) }
    {
        let Ok(words) = words.to_vec(self.alloc) else {
            return Err(OutOfMemory);
        };
        match self.lines.push(DataLine { addr, words }) {
            Ok(()) => Ok(()),
            Err(_) => Err(OutOfMemory),
        }
    }

    /// One more thing that the report is asked to show.
    pub fn push_ask(&mut self, ask: Ask) -> Result<(), OutOfMemory>
        ensures ok { OnOk result (self.new ≡ record self.old { asks = self.old.asks ++ ask ∷ [] }) }
        ensures err { OnErr result (self.new ≡ self.old) }
    {
        match self.asks.push(ask) {
            Ok(()) => Ok(()),
            Err(_) => Err(OutOfMemory),
        }
    }

    /// The entry of one core, or with `None` of all cores that have none of their own.
    pub fn set_entry(&mut self, core: Option<CoreId>, pc: u32)
        requires { IfSome core (λ c. c.0 < 8) }
        ensures own { IfSome core (λ c. self.new ≡ record self.old { own_entries = slice_set self.old.own_entries c.0 (Some pc) }) }
        ensures common { IfNone core (self.new ≡ record self.old { common_entry = Some pc }) }
    {
        match core {
            Some(c) => self.own_entries[c.0 as usize] = Some(pc),
            None => self.common_entry = Some(pc),
        }
    }

    /// The entry of a core.
    pub fn entry(&self, core: CoreId) -> Option<u32>
        requires { core.0 < 8 }
        ensures { result ≡ entry_of_core self.now core }
    {
        match self.own_entries[core.0 as usize] {
            Some(pc) => Some(pc),
            None => self.common_entry,
        }
    }

    /// The entry that was set for just this core, or with `None` for all others.
    pub fn entry_line(&self, core: Option<CoreId>) -> Option<u32>
        requires { IfSome core (λ c. c.0 < 8) }
        ensures own { IfSome core (λ c. result ≡ own_entry self.now c) }
        ensures common { IfNone core (result ≡ self.now.common_entry) }
        ensures eight { length self.now.own_entries ≡ 8 }
    {
        match core {
            Some(c) => self.own_entries[c.0 as usize],
            None => self.common_entry,
        }
    }

    /// What the report is asked to show.
    pub fn asks(&self) -> &[Ask]
        ensures { result.now ≡ self.now.asks }
    {
        self.asks.as_slice()
    }

    /// The number of lines of initial words.
    pub fn lines(&self) -> u32
        ensures { result ≡ length self.now.lines }
    {
        self.lines.len() as u32
    }

    /// A line of initial words, with the address of its first.
    pub fn line(&self, i: u32) -> (u64, &[u64])
        requires { i < length self.now.lines }
        ensures found { slice_get self.now.lines i ≡ Some (result.0, result.1.now) }
        ensures some { 0 < length result.1.now }
    {
        let line = &self.lines[i as usize];
        (line.addr, line.words.as_slice())
    }

    /// Asks for statistics in the report.
    pub fn set_stats(&mut self)
        ensures { self.new ≡ record self.old { statistics = true } }
    {
        self.statistics = true;
    }

    /// Whether the report has statistics.
    pub fn stats(&self) -> bool
        ensures { result ≡ self.now.statistics }
    {
        self.statistics
    }
}

/// The words of memory before a run, and the entry of each core.
#[derive(Drop)]
pub struct Image {
    words: Vec<u64>,
    entries: [u32; 8],
    blocks: u32,
}

impl Model for Image {
    ghost use Rattle.std.specs.Prelude.{◌≡◌, ◌≤◌, ◌*◌, length};
    ghost use Rattle.pei_types.specs.Program.{Contents};

    ghost Value = { Contents };

    ghost view = { λ i. record { words = i.words.items; entries = i.entries } };

    ghost invariant = { λ i. (length i.words.items ≡ 8 * i.blocks) × (i.blocks ≤ 65536) };
}

impl Image {
    /// Memory of zeros.
    pub fn make(alloc: Global, blocks: u32) -> Result<Image, OutOfMemory>
        requires { blocks ≤ 65536 }
        ensures { IfOk result (λ image. image ≡ record { words = replicate (8 * blocks) 0; entries = replicate 8 0 }) }
    {
        match vec![in alloc; 0u64; 8 * blocks as usize] {
            Ok(words) => Ok(Image {
                words,
                entries: [0; 8],
                blocks,
            }),
            Err(_) => Err(OutOfMemory),
        }
    }

    /// The number of blocks of memory.
    pub fn blocks(&self) -> u32
        ensures { 8 * result ≡ length self.now.words }
    {
        self.blocks
    }

    /// The words of memory, in the order of their addresses.
    pub fn words(&self) -> &[u64]
        ensures { result.now ≡ self.now.words }
    {
        self.words.as_slice()
    }

    /// The word at an address in bytes.
    pub fn word(&self, addr: u64) -> u64
        requires aligned { addr % 8 ≡ 0 }
        requires inside { addr < 8 * length self.now.words }
        ensures { result ≡ word_at self.now addr }
    {
        self.words[(addr / 8) as usize]
    }

    /// Changes the word at an address in bytes.
    pub fn set_word(&mut self, addr: u64, value: u64)
        requires aligned { addr % 8 ≡ 0 }
        requires inside { addr < 8 * length self.old.words }
        ensures { self.new ≡ record self.old { words = slice_set self.old.words (addr / 8) value } }
    {
        self.words[(addr / 8) as usize] = value;
    }

    /// The index of the instruction with which a core begins.
    pub fn entry(&self, core: CoreId) -> u32
        requires { core.0 < 8 }
        ensures { result ≡ start_of self.now core }
    {
        self.entries[core.0 as usize]
    }

    /// Changes the index of the instruction with which a core begins.
    pub fn set_entry(&mut self, core: CoreId, pc: u32)
        requires { core.0 < 8 }
        ensures { self.new ≡ record self.old { entries = slice_set self.old.entries core.0 pc } }
    {
        self.entries[core.0 as usize] = pc;
    }
}
