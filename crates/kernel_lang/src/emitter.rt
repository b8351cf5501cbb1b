//! A program on the way.

ghost use Rattle.std.specs.Prelude.{◌≡◌, ◌+◌, ◌<◌, ◌≤◌, ◌∷◌, [], false, OnOk, length};
ghost use Rattle.pei_types.specs.Program.{HasRegisters};
ghost use Rattle.kernel_lang.specs.Code.{fence_where};
ghost use Rattle.kernel_lang.specs.Emitted.{with_code};

use pei_types::{Instr, OutOfMemory, Program};

/// A program to which instructions are added, and whether a writer may be on its way behind them.
#[derive(Drop)]
pub(crate) struct Emitter {
    pub program: Program,
    pub waiting: bool,
}

impl Emitter {
    /// One more instruction.
    pub(crate) fn emit(&mut self, instr: Instr) -> Result<(), OutOfMemory>
        requires room { length self.old.program.instrs < 65536 }
        requires registers { HasRegisters instr }
        ensures code { OnOk result (self.new.program ≡ with_code self.old.program (instr ∷ [])) }
        ensures length { OnOk result (length self.new.program.instrs ≡ length self.old.program.instrs + 1) }
        ensures waiting { self.new.waiting ≡ self.old.waiting }
    {
        self.program.push_instr(instr)
    }

    /// A fence, where a writer may be on its way.
    pub(crate) fn fence(&mut self) -> Result<(), OutOfMemory>
        requires room { length self.old.program.instrs < 65536 }
        ensures code { OnOk result (self.new.program ≡ with_code self.old.program (fence_where self.old.waiting)) }
        ensures length { OnOk result (length self.new.program.instrs ≤ length self.old.program.instrs + 1) }
        ensures waiting { OnOk result (self.new.waiting ≡ false) }
    {
        if self.waiting {
            self.emit(Instr::Pfence)?;
            self.waiting = false;
        }
        Ok(())
    }
}
