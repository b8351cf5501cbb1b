//! The code of statements.

ghost use Rattle.std.specs.Prelude.{◌≡◌, ◌+◌, ◌*◌, ◌<◌, ◌≤◌, ◌∷◌, ◌||◌, [], OnOk, IfOk, length};
ghost use Rattle.kernel_text.specs.Depth.{parts_of};
ghost use Rattle.kernel_text.specs.Trees.{done};
ghost use Rattle.kernel_text.specs.Views.{with_statement, with_statements};
ghost use Rattle.pei_types.specs.declared.instructions.Instr.TheVariants as instr;
ghost use Rattle.kernel_lang.specs.Code.{code as code_of, has_writers as has_writers_of, waiting_behind};
ghost use Rattle.kernel_lang.specs.Emitted.{AreShallow, with_code};
ghost use Rattle.kernel_lang.specs.Homes.{FitsRegisters};

use crate::actions::{Operands, Replied};
use crate::emitter::Emitter;
use crate::expressions::INDEX;
use crate::homes::Names;
use kernel_text::Stmt;
use pei_types::{Instr, OutOfMemory};

/// Whether writers are among statements.
#[cycle(writers)]
fn has_writers(statements: &[Stmt]) -> bool
    ensures { result ≡ has_writers_of (with_statements statements.now done) }
{
    for s in statements {
        if is_writer(s) {
            return true;
        }
    }
    false
}

/// Whether a statement is a writer, or a loop with writers in it.
#[cycle(writers)]
fn is_writer(s: &Stmt) -> bool
    ensures { result ≡ has_writers_of (with_statement s.now done) }
{
    match s {
        Stmt::Inc { .. } | Stmt::Min { .. } => true,
        Stmt::Repeat { body, .. } => has_writers(body.as_slice()),
        Stmt::Assign { .. } | Stmt::Store { .. } | Stmt::Print { .. } => false,
        Stmt::Probe { .. } | Stmt::Hist { .. } | Stmt::Dot { .. } => false,
    }
}

impl Emitter {
    /// The code of statements, in order.
    #[cycle(statements)]
    pub(crate) fn statements(
        &mut self,
        names: &Names<'_>,
        statements: &[Stmt],
    ) -> Result<(), OutOfMemory>
        requires names { FitsRegisters names.now }
        requires shallow { AreShallow (with_statements statements.now done) }
        requires room { length self.old.program.instrs + 8 * parts_of (with_statements statements.now done) ≤ 65536 }
        ensures code { OnOk result (self.new.program ≡ with_code self.old.program (code_of names.now self.old.waiting (length self.old.program.instrs) (with_statements statements.now done))) }
        ensures length { OnOk result (length self.new.program.instrs ≤ length self.old.program.instrs + 8 * parts_of (with_statements statements.now done)) }
        ensures waiting { OnOk result (self.new.waiting ≡ waiting_behind names.now self.old.waiting (with_statements statements.now done)) }
    {
        for s in statements {
            self.statement(names, s)?;
        }
        Ok(())
    }

    /// The code of a statement. The variable of a loop counts from 0, and is compared behind the body. Where writers are in the
    /// body, one may be on its way at the beginning of each turn.
    #[cycle(statements)]
    fn statement(&mut self, names: &Names<'_>, s: &Stmt) -> Result<(), OutOfMemory>
        requires names { FitsRegisters names.now }
        requires shallow { AreShallow (with_statement s.now done) }
        requires room { length self.old.program.instrs + 8 * parts_of (with_statement s.now done) ≤ 65536 }
        ensures code { OnOk result (self.new.program ≡ with_code self.old.program (code_of names.now self.old.waiting (length self.old.program.instrs) (with_statement s.now done))) }
        ensures length { OnOk result (length self.new.program.instrs ≤ length self.old.program.instrs + 8 * parts_of (with_statement s.now done)) }
        ensures waiting { OnOk result (self.new.waiting ≡ waiting_behind names.now self.old.waiting (with_statement s.now done)) }
    {
        match s {
            Stmt::Assign { name, value } => self.assign(names, name, value),
            Stmt::Store { name, index, value } => self.store(names, name, index, value),
            Stmt::Print { value } => self.print(names, value),
            Stmt::Inc { name, index } => self.increment(names, name, index),
            Stmt::Min { name, index, value } => self.minimum(names, name, index, value),
            Stmt::Probe {
                first,
                second,
                name,
                index,
                key,
            } => self.probe(names, Replied { first, second }, name, index, key),
            Stmt::Hist {
                first,
                second,
                name,
                index,
                shift,
            } => self.hist(names, Replied { first, second }, name, index, *shift),
            Stmt::Dot {
                first,
                name,
                index,
                a,
                b,
                c,
                d,
            } => self.dot(names, first, name, index, Operands { a, b, c, d }),
            Stmt::Repeat { name, turns, body } => {
                let counter = names.register(name.as_str().as_bytes());
                let top = self.open_loop(counter, body.as_slice())?;
                self.statements(names, body.as_slice())?;
                self.close_loop(counter, *turns, top)
            }
        }
    }

    /// The beginning of a loop with this body: its variable is 0. Answers the place of the body.
    fn open_loop(&mut self, counter: u8, body: &[Stmt]) -> Result<u32, OutOfMemory>
        requires counter { counter < 16 }
        requires room { length self.old.program.instrs < 65536 }
        ensures code { OnOk result (self.new.program ≡ with_code self.old.program (instr.Li counter 0 ∷ [])) }
        ensures length { OnOk result (length self.new.program.instrs ≡ length self.old.program.instrs + 1) }
        ensures waiting { OnOk result (self.new.waiting ≡ (self.old.waiting || has_writers_of (with_statements body.now done))) }
        ensures top { IfOk result (λ top. top ≡ length self.old.program.instrs + 1) }
    {
        self.emit(Instr::Li { rd: counter, n: 0 })?;
        self.waiting = self.waiting || has_writers(body);
        Ok(self.program.len())
    }

    /// The end of a loop: its variable is one more, and where that is less than all turns, the body comes again.
    fn close_loop(&mut self, counter: u8, turns: u64, top: u32) -> Result<(), OutOfMemory>
        requires counter { counter < 16 }
        requires room { length self.old.program.instrs + 3 ≤ 65536 }
        ensures code { OnOk result (self.new.program ≡ with_code self.old.program (instr.Addi counter counter 1 ∷ instr.Li 8 turns ∷ instr.Bne counter 8 top ∷ [])) }
        ensures length { OnOk result (length self.new.program.instrs ≡ length self.old.program.instrs + 3) }
        ensures waiting { OnOk result (self.new.waiting ≡ self.old.waiting) }
    {
        self.emit(Instr::Addi {
            rd: counter,
            ra: counter,
            n: 1,
        })?;
        self.emit(Instr::Li {
            rd: INDEX,
            n: turns,
        })?;
        self.emit(Instr::Bne {
            ra: counter,
            rb: INDEX,
            to: top,
        })
    }
}
