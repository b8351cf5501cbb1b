//! What a program has for the declared names: their words at the start, and their sums in the report.

ghost use Rattle.std.specs.Prelude.{◌≡◌, ◌+◌, ◌*◌, ◌<◌, ◌≤◌, ◌++◌, [], ℕ, List, All, OnOk, length, map};
ghost use Rattle.kernel_text.specs.Sound.{AreDistinctNames, IsRightDeclaration, names_in, words_in};
ghost use Rattle.kernel_text.specs.Trees.{size_of as size_of_declaration};
ghost use Rattle.kernel_text.specs.Views.{declaration_of};
ghost use Rattle.kernel_lang.specs.Homes.{homes_from};
ghost use Rattle.kernel_lang.specs.Layout.{sums_from};
ghost use Rattle.kernel_lang.specs.Lines.{HaveValues, before, lines_behind, lines_from};

use crate::homes::{Home, Names};
use kernel_text::Decl;
use pei_types::{Ask, OutOfMemory, Program};
use std::alloc::Global;

fn size_of(d: &Decl) -> u64
    ensures { result ≡ size_of_declaration (declaration_of d.now) }
{
    match d {
        Decl::Table { size, .. } | Decl::Array { size, .. } => *size,
    }
}

/// The homes of the declared names: one behind the other from address 0 on.
pub(crate) fn declare_all<'a>(names: &mut Names<'a>, decls: &'a [Decl]) -> Result<(), OutOfMemory>
    requires empty { names.old.homes ≡ [] }
    requires distinct { AreDistinctNames (names_in (map declaration_of decls.now)) }
    requires words { words_in (map declaration_of decls.now) ≤ 32768 }
    ensures { OnOk result (names.new ≡ record names.old { homes = homes_from 0 (map declaration_of decls.now) }) }
{
    let mut base = 0;
    for d in decls {
        let (name, array) = match d {
            Decl::Table { name, .. } => (name, false),
            Decl::Array { name, .. } => (name, true),
        };
        let size = size_of(d);
        names.declare(name.as_str().as_bytes(), Home { base, size, array })?;
        base += 8 * size;
    }
    Ok(())
}

/// A line of initial words on the way: where it begins, and its words.
#[derive(Drop)]
struct Line {
    start: u64,
    words: Vec<u64>,
}

impl Line {
    /// Ends the line, and begins the next one.
    fn end(&mut self, program: &mut Program, next: u64) -> Result<(), OutOfMemory>
        requires room { length program.old.lines < 4294967295 }
        ensures program { OnOk result (program.new ≡ record program.old { lines = program.old.lines ++ lines_behind self.old.start self.old.words.items [] }) }
        ensures line { OnOk result ((self.new.start ≡ next) × (self.new.words.items ≡ [])) }
    {
        if !self.words.is_empty() {
            program.push_words(self.start, self.words.as_slice())?;
            self.words.clear();
        }
        self.start = next;
        Ok(())
    }

    /// Puts the values of a table behind the line, or begins the next one with them.
    fn put(&mut self, program: &mut Program, base: u64, values: &[u64]) -> Result<(), OutOfMemory>
        requires some { 0 < length values.now }
        requires room { length program.old.lines < 4294967295 }
        requires reach { self.old.start + 8 * length self.old.words.items ≤ 262144 }
        ensures lines { OnOk result ((more : List (ℕ × List ℕ)) → program.new.lines ++ lines_behind self.new.start self.new.words.items more ≡ program.old.lines ++ lines_behind self.old.start self.old.words.items (before base values.now more)) }
        ensures others { OnOk result (record program.new { lines = [] } ≡ record program.old { lines = [] }) }
        ensures end { OnOk result (self.new.start + 8 * length self.new.words.items ≡ base + 8 * length values.now) }
    {
        if self.start + 8 * self.words.len() as u64 != base {
            self.end(program, base)?;
        }
        match self.words.extend_from_slice(values) {
            Ok(()) => Ok(()),
            Err(_) => Err(OutOfMemory),
        }
    }
}

/// The lines of the tables' values. Tables that stand one behind the other have one line.
pub(crate) fn push_lines(
    program: &mut Program,
    alloc: Global,
    decls: &[Decl],
) -> Result<(), OutOfMemory>
    requires empty { program.old.lines ≡ [] }
    requires values { HaveValues (map declaration_of decls.now) }
    requires words { words_in (map declaration_of decls.now) ≤ 32768 }
    requires declarations { All IsRightDeclaration (map declaration_of decls.now) }
    ensures { OnOk result (program.new ≡ record program.old { lines = lines_from 0 (map declaration_of decls.now) }) }
{
    let mut line = Line {
        start: 0,
        words: Vec::new(alloc),
    };
    let mut base = 0;
    for d in decls {
        if let Decl::Table { words, .. } = d {
            line.put(program, base, words.as_slice())?;
        }
        base += 8 * size_of(d);
    }
    line.end(program, base)
}

/// The sum of the words of each declared name.
pub(crate) fn push_sums(program: &mut Program, decls: &[Decl]) -> Result<(), OutOfMemory>
    requires words { words_in (map declaration_of decls.now) ≤ 32768 }
    ensures { OnOk result (program.new ≡ record program.old { asks = program.old.asks ++ sums_from 0 (map declaration_of decls.now) }) }
{
    let mut addr = 0;
    for d in decls {
        let count = size_of(d);
        program.push_ask(Ask::Sum { addr, count })?;
        addr += 8 * count;
    }
    Ok(())
}
