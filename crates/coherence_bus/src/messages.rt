//! The messages that keep the caches coherent.

ghost use Rattle.std.specs.Prelude.{◌≡◌, ◌<◌, not, IsTrue, true, false};
ghost use Rattle.pei_types.specs.declared.events.EventKind.TheVariants as event;
ghost use Rattle.pei_types.specs.MachineState.{after_downgrading, after_granting, after_invalidating, is_absent, is_clean, is_dirty, is_i, is_owned, letter_of, mark_of, with_llc_line, with_llc_mark, without_llc_line};
ghost use Rattle.pei_types.specs.Guard.{guard};
ghost use Rattle.pmu_dispatch.specs.Steps.{is_message};
ghost use Rattle.coherence_bus.specs.Hierarchy.{FillsFrom, after, granting, grants_to_write, program_of, state_of, with_caches};

use crate::bus::{Bus, is_modified, laws};
use pei_types::{BlockNo, CoreId, EventKind, Letter};

impl Bus {
    /// A core loses its copy of a block, and the last-level cache takes a modified one back.
    fn take_away(&mut self, core: CoreId, b: BlockNo)
        requires { is_i (letter_of self.old.machine (state_of self.old) core b) ≡ false }
        ensures { self.new ≡ with_caches self.old (after_invalidating self.old.machine (state_of self.old) core b) }
    {
        laws();
        let (letter, content) = self.caches[core.0 as usize].drop_line(b);
        if is_modified(letter) {
            self.llc.take_back(b, &content);
        }
    }

    /// A core may no longer write its copy of a block, and the last-level cache takes a modified one back.
    fn downgrade(&mut self, core: CoreId, b: BlockNo)
        requires { is_owned (letter_of self.old.machine (state_of self.old) core b) ≡ true }
        ensures { self.new ≡ with_caches self.old (after_downgrading self.old.machine (state_of self.old) core b) }
    {
        laws();
        let (letter, content) = self.caches[core.0 as usize].downgrade(b);
        if is_modified(letter) {
            self.llc.take_back(b, &content);
        }
    }

    /// The vault of a block takes the content of the last-level cache's line.
    fn clean(&mut self, b: BlockNo)
        requires { IsTrue (guard self.old.machine (state_of self.old) (program_of (record { 0 = 0 })) (event.Clean b)) }
        ensures { self.new ≡ after self.old (record { 0 = 0 }) (event.Clean b) }
    {
        laws();
        let content = self.llc.clean(b);
        self.vaults.write(b, &content);
    }

    /// The last-level cache gives up a clean block that no core has.
    fn evict(&mut self, b: BlockNo)
        requires { IsTrue (guard self.old.machine (state_of self.old) (program_of (record { 0 = 0 })) (event.EvictLlc b)) }
        ensures { self.new ≡ after self.old (record { 0 = 0 }) (event.EvictLlc b) }
    {
        laws();
        self.llc.remove(b);
    }

    /// A block comes from its vault into the last-level cache.
    fn fill(&mut self, b: BlockNo)
        requires inside { b.0 < self.old.machine.blocks }
        requires guard { IsTrue (guard self.old.machine (state_of self.old) (program_of (record { 0 = 0 })) (event.Fill b)) }
        ensures { self.new ≡ after self.old (record { 0 = 0 }) (event.Fill b) }
    {
        laws();
        let content = self.vaults.read(b);
        self.llc.install(b, &content);
    }

    /// A core that has no copy of a block gets one, with a letter, from the last-level cache.
    fn grant(&mut self, own: CoreId, b: BlockNo, letter: Letter)
        requires own { own.0 < self.old.machine.cores }
        requires letter { is_i letter ≡ false }
        requires lacks { is_i (letter_of self.old.machine (state_of self.old) own b) ≡ true }
        requires guard { IsTrue (guard self.old.machine (state_of self.old) (program_of own) (granting letter b)) }
        ensures { self.new ≡ after self.old own (granting letter b) }
    {
        laws();
        let content = self.llc.line(b);
        self.caches[own.0 as usize].install(b, letter, &content);
        self.llc.touch(b);
    }

    /// A core that shares a block may write it from now on.
    fn raise(&mut self, own: CoreId, b: BlockNo)
        requires own { own.0 < self.old.machine.cores }
        requires has { is_i (letter_of self.old.machine (state_of self.old) own b) ≡ false }
        requires guard { IsTrue (guard self.old.machine (state_of self.old) (program_of own) (event.GrantM b)) }
        ensures { self.new ≡ after self.old own (event.GrantM b) }
    {
        laws();
        self.caches[own.0 as usize].raise(b);
        self.llc.touch(b);
    }

    /// A core gets a block that it may write, whether it has a shared copy or none.
    fn grant_to_write(&mut self, own: CoreId, b: BlockNo)
        requires own { own.0 < self.old.machine.cores }
        requires guard { IsTrue (guard self.old.machine (state_of self.old) (program_of own) (event.GrantM b)) }
        ensures { self.new ≡ after self.old own (event.GrantM b) }
    {
        laws();
        match self.caches[own.0 as usize].letter(b) {
            Letter::I => self.grant(own, b, Letter::M),
            _ => self.raise(own, b),
        }
    }

    /// One coherence message that core `own` makes. `sealed` says whether a PEI is sealed on its block.
    ///
    /// The conditions are the message's: it is one, its guard holds, a block is not granted for writing while a PEI is
    /// sealed on it, and the last-level cache is filled with a block of memory. A message changes the lines of caches, and no
    /// content of memory.
    pub fn message(&mut self, own: CoreId, kind: &EventKind, sealed: bool)
        requires own { own.0 < self.old.machine.cores }
        requires message { is_message kind.now ≡ true }
        requires guard { IsTrue (guard self.old.machine (state_of self.old) (program_of own) kind.now) }
        requires sealed { IsTrue sealed → grants_to_write kind.now ≡ false }
        requires memory { FillsFrom self.old.machine.blocks kind.now }
        ensures { self.new ≡ after self.old own kind.now }
    {
        match *kind {
            EventKind::Invalidate { core, block } | EventKind::EvictL1 { core, block } => {
                self.take_away(core, block);
            }
            EventKind::Downgrade { core, block } => self.downgrade(core, block),
            EventKind::Clean { block } => self.clean(block),
            EventKind::EvictLlc { block } => self.evict(block),
            EventKind::Fill { block } => self.fill(block),
            EventKind::GrantS { block } => self.grant(own, block, Letter::S),
            EventKind::GrantE { block } if !sealed => self.grant(own, block, Letter::E),
            EventKind::GrantM { block } if !sealed => self.grant_to_write(own, block),
            _ => unreachable!(),
        }
    }
}
