//! The state of a core between two instructions, and what an instruction does to it.

ghost use Rattle.std.specs.Prelude.{◌≡◌, ◌<◌, ◌≤◌, ◌+◌, ◌-◌, ◌^◌, ℕ, Option, Some, None, IsTrue, IsSome, IfNone, IfSome, OnSome, MatchOption, map, slice_set};
ghost use Rattle.pei_types.specs.Core.{Stops, Retires, core_step, at_stop, next_of, core_at_start, busy_register, step_unless_busy, after_retiring, wait_after, with_loaded_at, with_reply, with_waits_at};
ghost use Rattle.pei_types.specs.Program.{HasRegisters, instr_at};
ghost use Rattle.core_exec.specs.CoreView.{seen, is_asking};
ghost use Rattle.core_exec.specs.Wait.{seen_wait};

use crate::accesses::trapped;
use crate::effects::{Effect, execute};
use crate::next::CoreNext;
use crate::waits::{ReplyWord, Wait, awaited, lowest_busy, take_reply};
use pei_types::{
    Call, CoreConfig, CoreId, EndKind, Image, Instr, PeiId, Program, Reply, TrapCause,
};
use std::marker::Model;

/// The instruction at a place, if the program has one there.
pub(crate) fn instruction_at(program: &Program, pc: u32) -> Option<Instr>
    ensures value { result ≡ instr_at program.now pc }
    ensures registers { IfSome result HasRegisters }
    ensures place { OnSome result (pc < 65536) }
{
    if pc < program.len() {
        Some(program.instr(pc))
    } else {
        None
    }
}

/// A core between two instructions.
#[derive(Drop)]
pub(crate) struct State {
    core: CoreId,
    pc: u32,
    registers: [u64; 16],
    retired: u32,
    waits: [Option<Wait>; 16],
    /// Where this is false no register waits.
    waiting: bool,
    raced: Option<EndKind>,
    ended: Option<EndKind>,
}

impl Model for State {
    ghost use Rattle.std.specs.Prelude.{◌≡◌, None, false, map, replicate};
    ghost use Rattle.pei_types.specs.Core.{CoreState};

    ghost Value = { CoreState };

    ghost use Rattle.core_exec.specs.Wait.{seen_wait};

    ghost view = { λ s. record { core = s.core; pc = s.pc; registers = s.registers; retired = s.retired; waits = map seen_wait s.waits; raced = s.raced; ended = s.ended } };

    ghost invariant = { λ s. s.waiting ≡ false → map seen_wait s.waits ≡ replicate 16 None };
}

impl State {
    /// A core at its entry.
    pub fn make(image: &Image, core: CoreId) -> State
        requires { core.0 < 8 }
        ensures { result ≡ core_at_start image.now core }
    {
        let mut registers = [0; 16];
        registers[15] = u64::from(core.0);
        State {
            core,
            pc: image.entry(core),
            registers,
            retired: 0,
            waits: [None; 16],
            waiting: false,
            raced: None,
            ended: None,
        }
    }

    /// The index of the instruction at which the core stands.
    pub fn pc(&self) -> u32
        ensures { result ≡ self.now.pc }
    {
        self.pc
    }

    /// What the core waits for, if a register of its instruction waits.
    fn busy(&self, instr: Instr) -> Option<CoreNext>
        requires { HasRegisters instr }
        ensures { MatchOption result (busy_register self.now.waits instr ≡ None)
            (λ next. (config : CoreConfig) →
            step_unless_busy config self.now instr (busy_register self.now.waits instr)
            ≡ Stops (seen next)) }
    {
        if !self.waiting {
            return None;
        }
        let register = lowest_busy(&self.waits, instr)?;
        let pei = PeiId {
            core: self.core,
            seq: awaited(self.waits[register as usize]),
        };
        Some(CoreNext::Busy { register, pei })
    }

    /// Executes one instruction, or tells where the core stops.
    fn step(&mut self, program: &Program, config: CoreConfig) -> Option<CoreNext>
        requires size { config.blocks ≤ 65536 }
        requires ended { self.old.ended ≡ None }
        requires raced { self.old.raced ≡ None }
        ensures cases { let step = core_step program.now config self.old
            in MatchOption result (step ≡ Retires self.new)
            (λ next. (self.new ≡ self.old) × (step ≡ Stops (seen next))) }
        ensures counts { IfNone result
            ((self.old.retired < config.fuel) × (self.new.retired ≡ self.old.retired + 1)) }
        ensures runs_on { IfNone result ((self.new.ended ≡ None) × (self.new.raced ≡ None)) }
        ensures asks { IfSome result (λ next. IsTrue (is_asking next) →
            IsSome (instr_at program.now self.old.pc) × (self.old.retired < config.fuel)) }
    {
        if self.retired >= config.fuel {
            return Some(CoreNext::Call(Call::End {
                kind: EndKind::Fuel,
            }));
        }
        let Some(instr) = instruction_at(program, self.pc) else {
            return Some(CoreNext::Call(trapped(self.pc, TrapCause::Pc)));
        };
        if let Some(busy) = self.busy(instr) {
            return Some(busy);
        }
        match execute(self.pc, &self.registers, instr, config) {
            Effect::Writes { register, value } => {
                self.registers[register as usize] = value;
                self.pc += 1;
            }
            Effect::Goes { pc } => self.pc = pc,
            Effect::Asks(call) => return Some(CoreNext::Call(call)),
        }
        self.retired += 1;
        None
    }

    /// Executes instructions up to the next call, and tells what the core does next.
    pub fn run(&mut self, program: &Program, config: CoreConfig) -> CoreNext
        requires { config.blocks ≤ 65536 }
        ensures stop { self.new ≡ at_stop program.now config self.old }
        ensures next { seen result ≡ next_of program.now config self.old }
        ensures asks { IsTrue (is_asking result) →
            IsSome (instr_at program.now self.new.pc) × (self.new.retired < config.fuel) }
    {
        if let Some(kind) = self.ended {
            return CoreNext::Ended(kind);
        }
        if let Some(kind) = self.raced {
            return CoreNext::Call(Call::End { kind });
        }
        loop {
            if let Some(next) = self.step(program, config) {
                return next;
            }
        }
    }

    /// Takes in the value of a load, in the register that the instruction fills.
    pub fn load(&mut self, instr: Option<Instr>, value: u64)
        requires { IfSome instr HasRegisters }
        ensures { self.new
            ≡ record self.old { registers = with_loaded_at self.old.registers instr value } }
    {
        if let Some(Instr::Ld { rd, .. }) = instr {
            self.registers[rd as usize] = value;
        }
    }

    /// Makes a register wait for a word of a reply.
    fn await_word(&mut self, register: u8, wait: Wait)
        requires { register < 16 }
        ensures { self.new
            ≡ record self.old { waits = slice_set self.old.waits register (seen_wait (Some wait)) } }
    {
        self.waits[register as usize] = Some(wait);
        self.waiting = true;
    }

    /// Makes the registers wait that the reply of the instruction's PEI goes to, which is the core's PEI `seq`.
    pub fn await_reply(&mut self, instr: Option<Instr>, seq: u32)
        requires { IfSome instr HasRegisters }
        ensures { self.new ≡ record self.old { waits = with_waits_at instr seq self.old.waits } }
    {
        let first = Wait {
            seq,
            word: ReplyWord::First,
        };
        let second = Wait {
            seq,
            word: ReplyWord::Second,
        };
        match instr {
            Some(Instr::Pprobe { rd, .. } | Instr::Phist { rd, .. }) => {
                self.await_word(rd, first);
                self.await_word(rd + 1, second);
            }
            Some(Instr::Pdot { rd, .. }) => self.await_word(rd, first),
            _ => {}
        }
    }

    /// Goes behind the instruction at which the core stands, whose call was answered.
    pub fn retire(&mut self)
        requires place { self.old.pc < 65536 }
        requires room { self.old.retired < 2 ^ 32 - 1 }
        ensures { self.new ≡ after_retiring self.old self.old.registers self.old.waits }
    {
        self.pc += 1;
        self.retired += 1;
    }

    /// Takes in the reply of the core's PEI `seq`.
    pub fn take_reply(&mut self, seq: u32, reply: &Reply)
        ensures { self.new
            ≡ record self.old {
              registers = with_reply seq reply.now self.old.registers self.old.waits;
              waits = map (wait_after seq) self.old.waits;
            } }
    {
        self.waiting = take_reply(&mut self.registers, &mut self.waits, seq, reply);
    }

    /// Takes in a race, with which the core ends next.
    pub fn race(&mut self, kind: EndKind)
        ensures { self.new ≡ record self.old { raced = Some kind } }
    {
        self.raced = Some(kind);
    }

    /// Takes in the core's end.
    pub fn end(&mut self, kind: EndKind)
        ensures { self.new ≡ record self.old { ended = Some kind } }
    {
        self.ended = Some(kind);
    }
}
