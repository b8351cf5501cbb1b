//! The code of statements that are no loops.

ghost use Rattle.std.specs.Prelude.{◌≡◌, ◌+◌, ◌*◌, ◌<◌, ◌≤◌, ◌∷◌, [], OnOk, IfOk, length};
ghost use Rattle.kernel_text.specs.Depth.{parts, parts_of_action};
ghost use Rattle.kernel_text.specs.Trees.{assign as assign_of, dot as dot_of, hist as hist_of, increment as increment_of, minimum as minimum_of, print as print_of, probe as probe_of, store as store_of};
ghost use Rattle.kernel_text.specs.Views.{expression_of};
ghost use Rattle.kernel_lang.specs.Code.{base_register, block_code, block_number, copied, still, word_code, word_number};
ghost use Rattle.kernel_lang.specs.Emitted.{AddsAction, IsShallow, with_code};
ghost use Rattle.kernel_lang.specs.Homes.{FitsRegisters, register_of};
ghost use Rattle.pei_types.specs.declared.instructions.Instr.TheVariants as instr;

use crate::emitter::Emitter;
use crate::expressions::{Address, INDEX, Row, VALUE};
use crate::homes::Names;
use kernel_text::Expr;
use pei_io::Text;
use pei_types::{Instr, OutOfMemory};

/// The first of two registers for a reply.
const REPLY: u8 = 13;

/// The four variables that a product takes.
#[derive(Clone, Copy)]
pub(crate) struct Operands<'a> {
    pub a: &'a Text,
    pub b: &'a Text,
    pub c: &'a Text,
    pub d: &'a Text,
}

/// The names to which the words of a reply go, from left to right.
#[derive(Clone, Copy)]
pub(crate) struct Replied<'a> {
    pub first: &'a Text,
    pub second: &'a Text,
}

fn register(names: &Names<'_>, name: &Text) -> u8
    requires { FitsRegisters names.now }
    ensures register { result ≡ register_of names.now name.now }
    ensures most { result ≤ 8 }
{
    names.register(name.as_str().as_bytes())
}

impl Emitter {
    /// The code for the address of a word of a name.
    fn word(&mut self, names: &Names<'_>, name: &Text, index: &Expr) -> Result<Address, OutOfMemory>
        requires names { FitsRegisters names.now }
        requires depth { IsShallow (expression_of index.now) }
        requires room { length self.old.program.instrs + 8 * parts (expression_of index.now) ≤ 65536 }
        ensures code { OnOk result (self.new.program ≡ with_code self.old.program (word_code names.now self.old.waiting name.now (expression_of index.now))) }
        ensures length { OnOk result (length self.new.program.instrs + 2 ≤ length self.old.program.instrs + 8 * parts (expression_of index.now)) }
        ensures waiting { OnOk result (self.new.waiting ≡ still names.now self.old.waiting (expression_of index.now)) }
        ensures register { IfOk result (λ a. a.register ≡ base_register 8 (expression_of index.now)) }
        ensures number { IfOk result (λ a. a.number ≡ word_number names.now name.now (expression_of index.now)) }
        ensures there { IfOk result (λ a. a.register < 16) }
    {
        let home = names.home(name.as_str().as_bytes());
        let row = Row {
            base: home.base,
            count: home.size,
            shift: 3,
        };
        self.address(names, index, INDEX, row)
    }

    /// The code for the address of a block of a name.
    fn block(
        &mut self,
        names: &Names<'_>,
        name: &Text,
        index: &Expr,
    ) -> Result<Address, OutOfMemory>
        requires names { FitsRegisters names.now }
        requires depth { IsShallow (expression_of index.now) }
        requires room { length self.old.program.instrs + 8 * parts (expression_of index.now) ≤ 65536 }
        ensures code { OnOk result (self.new.program ≡ with_code self.old.program (block_code names.now self.old.waiting name.now (expression_of index.now))) }
        ensures length { OnOk result (length self.new.program.instrs + 2 ≤ length self.old.program.instrs + 8 * parts (expression_of index.now)) }
        ensures waiting { OnOk result (self.new.waiting ≡ still names.now self.old.waiting (expression_of index.now)) }
        ensures register { IfOk result (λ a. a.register ≡ base_register 8 (expression_of index.now)) }
        ensures number { IfOk result (λ a. a.number ≡ block_number names.now name.now (expression_of index.now)) }
        ensures there { IfOk result (λ a. a.register < 16) }
    {
        let home = names.home(name.as_str().as_bytes());
        let row = Row {
            base: home.base,
            count: home.size / 8,
            shift: 6,
        };
        self.address(names, index, INDEX, row)
    }

    /// A variable gets what a register has.
    fn copy(&mut self, names: &Names<'_>, name: &Text, from: u8) -> Result<(), OutOfMemory>
        requires names { FitsRegisters names.now }
        requires from { from < 16 }
        requires room { length self.old.program.instrs < 65536 }
        ensures code { OnOk result (self.new.program ≡ with_code self.old.program (copied names.now name.now from ∷ [])) }
        ensures length { OnOk result (length self.new.program.instrs ≡ length self.old.program.instrs + 1) }
        ensures waiting { self.new.waiting ≡ self.old.waiting }
    {
        let rd = register(names, name);
        self.emit(Instr::Addi { rd, ra: from, n: 0 })
    }

    /// The words of a reply go to two names, from left to right.
    fn reply(&mut self, names: &Names<'_>, to: Replied<'_>) -> Result<(), OutOfMemory>
        requires names { FitsRegisters names.now }
        requires room { length self.old.program.instrs + 2 ≤ 65536 }
        ensures code { OnOk result (self.new.program ≡ with_code self.old.program (copied names.now to.entry.first.now 13 ∷ copied names.now to.entry.second.now 14 ∷ [])) }
        ensures length { OnOk result (length self.new.program.instrs ≡ length self.old.program.instrs + 2) }
        ensures waiting { OnOk result (self.new.waiting ≡ self.old.waiting) }
    {
        self.copy(names, to.first, REPLY)?;
        self.copy(names, to.second, REPLY + 1)
    }

    pub(crate) fn assign(
        &mut self,
        names: &Names<'_>,
        name: &Text,
        value: &Expr,
    ) -> Result<(), OutOfMemory>
        requires names { FitsRegisters names.now }
        requires depth { IsShallow (expression_of value.now) }
        requires room { length self.old.program.instrs + 8 * parts_of_action (assign_of name.now (expression_of value.now)) ≤ 65536 }
        ensures code { OnOk result (AddsAction names.now (assign_of name.now (expression_of value.now)) self.old self.new) }
        ensures length { OnOk result (length self.new.program.instrs ≤ length self.old.program.instrs + 8 * parts_of_action (assign_of name.now (expression_of value.now))) }
    {
        let rd = register(names, name);
        self.into(names, value, rd, INDEX)
    }

    pub(crate) fn store(
        &mut self,
        names: &Names<'_>,
        name: &Text,
        index: &Expr,
        value: &Expr,
    ) -> Result<(), OutOfMemory>
        requires names { FitsRegisters names.now }
        requires depth { IsShallow (expression_of index.now) × IsShallow (expression_of value.now) }
        requires room { length self.old.program.instrs + 8 * parts_of_action (store_of name.now (expression_of index.now) (expression_of value.now)) ≤ 65536 }
        ensures code { OnOk result (AddsAction names.now (store_of name.now (expression_of index.now) (expression_of value.now)) self.old self.new) }
        ensures length { OnOk result (length self.new.program.instrs ≤ length self.old.program.instrs + 8 * parts_of_action (store_of name.now (expression_of index.now) (expression_of value.now))) }
    {
        let to = self.word(names, name, index)?;
        let rv = self.operand(names, value, VALUE)?;
        self.fence()?;
        self.emit(Instr::St {
            rv,
            ra: to.register,
            n: to.number,
        })
    }

    pub(crate) fn print(&mut self, names: &Names<'_>, value: &Expr) -> Result<(), OutOfMemory>
        requires names { FitsRegisters names.now }
        requires depth { IsShallow (expression_of value.now) }
        requires room { length self.old.program.instrs + 8 * parts_of_action (print_of (expression_of value.now)) ≤ 65536 }
        ensures code { OnOk result (AddsAction names.now (print_of (expression_of value.now)) self.old self.new) }
        ensures length { OnOk result (length self.new.program.instrs ≤ length self.old.program.instrs + 8 * parts_of_action (print_of (expression_of value.now))) }
    {
        let ra = self.operand(names, value, INDEX)?;
        self.emit(Instr::Out { ra })
    }

    pub(crate) fn increment(
        &mut self,
        names: &Names<'_>,
        name: &Text,
        index: &Expr,
    ) -> Result<(), OutOfMemory>
        requires names { FitsRegisters names.now }
        requires depth { IsShallow (expression_of index.now) }
        requires room { length self.old.program.instrs + 8 * parts_of_action (increment_of name.now (expression_of index.now)) ≤ 65536 }
        ensures code { OnOk result (AddsAction names.now (increment_of name.now (expression_of index.now)) self.old self.new) }
        ensures length { OnOk result (length self.new.program.instrs ≤ length self.old.program.instrs + 8 * parts_of_action (increment_of name.now (expression_of index.now))) }
    {
        let at = self.word(names, name, index)?;
        self.waiting = true;
        self.emit(Instr::Pinc {
            ra: at.register,
            n: at.number,
        })
    }

    pub(crate) fn minimum(
        &mut self,
        names: &Names<'_>,
        name: &Text,
        index: &Expr,
        value: &Expr,
    ) -> Result<(), OutOfMemory>
        requires names { FitsRegisters names.now }
        requires depth { IsShallow (expression_of index.now) × IsShallow (expression_of value.now) }
        requires room { length self.old.program.instrs + 8 * parts_of_action (minimum_of name.now (expression_of index.now) (expression_of value.now)) ≤ 65536 }
        ensures code { OnOk result (AddsAction names.now (minimum_of name.now (expression_of index.now) (expression_of value.now)) self.old self.new) }
        ensures length { OnOk result (length self.new.program.instrs ≤ length self.old.program.instrs + 8 * parts_of_action (minimum_of name.now (expression_of index.now) (expression_of value.now))) }
    {
        let at = self.word(names, name, index)?;
        let rv = self.operand(names, value, VALUE)?;
        self.waiting = true;
        self.emit(Instr::Pmin {
            ra: at.register,
            n: at.number,
            rv,
        })
    }

    pub(crate) fn probe(
        &mut self,
        names: &Names<'_>,
        to: Replied<'_>,
        name: &Text,
        index: &Expr,
        key: &Expr,
    ) -> Result<(), OutOfMemory>
        requires names { FitsRegisters names.now }
        requires depth { IsShallow (expression_of index.now) × IsShallow (expression_of key.now) }
        requires room { length self.old.program.instrs + 8 * parts_of_action (probe_of to.first.now to.second.now name.now (expression_of index.now) (expression_of key.now)) ≤ 65536 }
        ensures code { OnOk result (AddsAction names.now (probe_of to.entry.first.now to.entry.second.now name.now (expression_of index.now) (expression_of key.now)) self.old self.new) }
        ensures length { OnOk result (length self.new.program.instrs ≤ length self.old.program.instrs + 8 * parts_of_action (probe_of to.entry.first.now to.entry.second.now name.now (expression_of index.now) (expression_of key.now))) }
    {
        let at = self.block(names, name, index)?;
        let rk = self.operand(names, key, VALUE)?;
        self.emit(Instr::Pprobe {
            rd: REPLY,
            ra: at.register,
            n: at.number,
            rk,
        })?;
        self.reply(names, to)
    }

    pub(crate) fn hist(
        &mut self,
        names: &Names<'_>,
        to: Replied<'_>,
        name: &Text,
        index: &Expr,
        shift: u64,
    ) -> Result<(), OutOfMemory>
        requires names { FitsRegisters names.now }
        requires depth { IsShallow (expression_of index.now) }
        requires room { length self.old.program.instrs + 8 * parts_of_action (hist_of to.first.now to.second.now name.now (expression_of index.now) shift) ≤ 65536 }
        ensures code { OnOk result (AddsAction names.now (hist_of to.entry.first.now to.entry.second.now name.now (expression_of index.now) shift) self.old self.new) }
        ensures length { OnOk result (length self.new.program.instrs ≤ length self.old.program.instrs + 8 * parts_of_action (hist_of to.entry.first.now to.entry.second.now name.now (expression_of index.now) shift)) }
    {
        let at = self.block(names, name, index)?;
        self.emit(Instr::Li {
            rd: VALUE,
            n: shift,
        })?;
        self.emit(Instr::Phist {
            rd: REPLY,
            ra: at.register,
            n: at.number,
            rs: VALUE,
        })?;
        self.reply(names, to)
    }

    pub(crate) fn dot(
        &mut self,
        names: &Names<'_>,
        first: &Text,
        name: &Text,
        index: &Expr,
        given: Operands<'_>,
    ) -> Result<(), OutOfMemory>
        requires names { FitsRegisters names.now }
        requires depth { IsShallow (expression_of index.now) }
        requires room { length self.old.program.instrs + 8 * parts_of_action (dot_of first.now name.now (expression_of index.now) given.a.now given.b.now given.c.now given.d.now) ≤ 65536 }
        ensures code { OnOk result (AddsAction names.now (dot_of first.now name.now (expression_of index.now) given.entry.a.now given.entry.b.now given.entry.c.now given.entry.d.now) self.old self.new) }
        ensures length { OnOk result (length self.new.program.instrs ≤ length self.old.program.instrs + 8 * parts_of_action (dot_of first.now name.now (expression_of index.now) given.entry.a.now given.entry.b.now given.entry.c.now given.entry.d.now)) }
    {
        let at = self.block(names, name, index)?;
        self.operand_copy(names, given.a, VALUE)?;
        self.operand_copy(names, given.b, VALUE + 1)?;
        self.operand_copy(names, given.c, VALUE + 2)?;
        self.operand_copy(names, given.d, VALUE + 3)?;
        self.emit(Instr::Pdot {
            rd: INDEX,
            ra: at.register,
            n: at.number,
            rw: VALUE,
        })?;
        self.copy(names, first, INDEX)
    }

    /// A register gets the value of a variable.
    fn operand_copy(&mut self, names: &Names<'_>, name: &Text, to: u8) -> Result<(), OutOfMemory>
        requires names { FitsRegisters names.now }
        requires to { to < 16 }
        requires room { length self.old.program.instrs < 65536 }
        ensures code { OnOk result (self.new.program ≡ with_code self.old.program (instr.Addi to (register_of names.now name.now) 0 ∷ [])) }
        ensures length { OnOk result (length self.new.program.instrs ≡ length self.old.program.instrs + 1) }
        ensures waiting { self.new.waiting ≡ self.old.waiting }
    {
        let ra = register(names, name);
        self.emit(Instr::Addi { rd: to, ra, n: 0 })
    }
}
