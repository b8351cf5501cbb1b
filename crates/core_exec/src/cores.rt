//! Cores.

ghost use Rattle.std.specs.Prelude.{◌≡◌, ◌<◌, ◌≤◌, IsTrue, None, false};
ghost use Rattle.pei_types.specs.Core.{after_answer, after_retiring, at_stop, core_at_start, next_of};
ghost use Rattle.pei_types.specs.Program.{Listing, instr_at};
ghost use Rattle.core_exec.specs.CoreView.{MayRetire, is_asking, retires, seen};

use crate::next::CoreNext;
use crate::states::{State, instruction_at};
use pei_types::{CoreConfig, CoreId, EndKind, Event, EventKind, Image, Instr, Program};
use std::marker::Model;

/// One core of the machine, which executes its program in order.
///
/// It asks the machine by calls, and takes in the events that answer them. So it runs ahead to its next call, and has
/// no memory of its own.
#[derive(Drop)]
pub struct Core {
    state: State,
    /// The instruction at which the core stopped, until that is retired.
    instr: Option<Instr>,
}

impl Model for Core {
    ghost use Rattle.std.specs.Prelude.{◌<◌, IfSome};
    ghost use Rattle.pei_types.specs.Program.{HasRegisters};
    ghost use Rattle.core_exec.specs.CoreView.{Standing};

    ghost Value = { Standing };

    ghost view = { λ c. record { state = c.state; instr = c.instr } };

    ghost invariant = { λ c. IfSome c.instr (λ i. HasRegisters i × (c.state.pc < 65536)) };
}

impl Core {
    /// A core at its entry. It takes no memory.
    pub fn make(image: &Image, core: CoreId) -> Core
        requires { core.0 < 8 }
        ensures { result ≡ record { state = core_at_start image.now core; instr = None } }
    {
        Core {
            state: State::make(image, core),
            instr: None,
        }
    }

    /// Executes instructions up to the next call, and tells what the core does next.
    ///
    /// It stops where `config.fuel` instructions were retired, where the program counter is behind the last instruction, at an
    /// instruction one of whose registers waits for a reply, and at an instruction that makes a call or traps. A core
    /// that has stopped tells the same again until one of its events was taken in. Memory has `config.blocks` blocks.
    pub fn next_call(&mut self, program: &Program, config: CoreConfig) -> CoreNext
        requires { config.blocks ≤ 65536 }
        ensures stop { self.new.state ≡ at_stop program.now config self.old.state }
        ensures instr { self.new.instr ≡ instr_at program.now self.new.state.pc }
        ensures next { seen result ≡ next_of program.now config self.old.state }
        ensures ready { IsTrue (is_asking result) → MayRetire self.new }
    {
        let next = self.state.run(program, config);
        self.instr = instruction_at(program, self.state.pc());
        next
    }

    /// Takes in one of the core's events: the answer to its call, or a reply of one of its PEIs. Other events change
    /// nothing.
    ///
    /// An answer that retires the instruction at which the core stopped comes only where it has stopped at one.
    pub fn answer(&mut self, event: &Event)
        requires { IsTrue (retires event.now.kind) → MayRetire self.old }
        ensures state { (p : Listing) → instr_at p self.old.state.pc ≡ self.old.instr →
            self.new.state ≡ after_answer p self.old.state event.now.kind }

        // What retires no instruction depends on no program.
        ensures any_program { retires event.now.kind ≡ false → (p : Listing) →
            self.new.state ≡ after_answer p self.old.state event.now.kind }
        ensures instr { retires event.now.kind ≡ false → self.new.instr ≡ self.old.instr }
        ensures retired { IsTrue (retires event.now.kind) → self.new.instr ≡ None }
    {
        match event.kind {
            EventKind::Load { value, .. } => {
                self.state.load(self.instr, value);
                self.retire();
            }
            EventKind::Store { .. } | EventKind::FenceEnd | EventKind::Out { .. } => self.retire(),
            EventKind::Issue { seq, .. } => {
                self.state.await_reply(self.instr, seq);
                self.retire();
            }
            EventKind::Race { pc, block, by } => self.state.race(EndKind::Race { pc, block, by }),
            EventKind::End { kind } => self.state.end(kind),
            EventKind::Act { seq, reply } => self.state.take_reply(seq, &reply),
            _ => {}
        }
    }

    /// Goes behind the instruction at which the core stopped.
    fn retire(&mut self)
        requires { MayRetire self.old }
        ensures { let s = self.old.state
            in self.new ≡ record { state = after_retiring s s.registers s.waits; instr = None } }
    {
        self.state.retire();
        self.instr = None;
    }
}

#[cfg(test)]
mod tests;
