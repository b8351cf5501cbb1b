//! What cores and memory do with the blocks that they have.

ghost use Rattle.std.specs.Prelude.{◌≡◌, ◌<◌, true, false, slice_index};
ghost use Rattle.pei_types.specs.declared.events.EventKind.TheVariants as event;
ghost use Rattle.pei_types.specs.declared.operations.Letter.TheVariants as letter;
ghost use Rattle.pei_types.specs.Blocks.{block_of, is_word_of_memory, word_of};
ghost use Rattle.pei_types.specs.MachineState.{is_i, is_owned, letter_of, mark_of, with_l1_front, with_l1_touch};
ghost use Rattle.pei_types.specs.FlatMemory.{with_word};
ghost use Rattle.pei_types.specs.Operation.{CanApply, block_after, is_writer, reply_of};
ghost use Rattle.coherence_laws.specs.Invariants.{HoldsSeal};
ghost use Rattle.coherence_bus.specs.Hierarchy.{after, content_of, state_of, with_caches, with_content};

use crate::bus::{Bus, laws};
use pei_types::{Block, BlockNo, CoreId, Op, Operands, Reply, block_of};

/// The place of an address's word in its block.
fn word_of(addr: u64) -> u8
    ensures { result ≡ word_of addr }
{
    (addr / 8 % 8) as u8
}

impl Bus {
    /// A load of the word at an address by a core that has its block: the word, as memory has it. The address is that of a
    /// word of memory.
    pub fn load(&mut self, own: CoreId, addr: u64) -> u64
        requires own { own.0 < self.old.machine.cores }
        requires word { is_word_of_memory self.old.machine.blocks addr ≡ true }
        requires present { is_i (letter_of self.old.machine (state_of self.old) own (block_of addr)) ≡ false }
        ensures value { result ≡ slice_index (content_of self.old (block_of addr)).0 (word_of addr) }
        ensures touched { self.new ≡ after self.old own (event.Load addr result) }
    {
        laws();
        self.caches[own.0 as usize].hit_load(block_of(addr), word_of(addr))
    }

    /// A store of a word at an address by a core that may write its block. The address is that of a word of memory.
    pub fn store(&mut self, own: CoreId, addr: u64, value: u64)
        requires own { own.0 < self.old.machine.cores }
        requires word { is_word_of_memory self.old.machine.blocks addr ≡ true }
        requires owned { is_owned (letter_of self.old.machine (state_of self.old) own (block_of addr)) ≡ true }
        ensures { self.new ≡ with_content (after self.old own (event.Store addr value)) (block_of addr) (with_word (content_of self.old (block_of addr)) (word_of addr) value) }
    {
        laws();
        self.caches[own.0 as usize].hit_store(block_of(addr), word_of(addr), value);
    }

    /// A read of a block by a core that has it: the block, as memory has it.
    pub fn host_read(&mut self, own: CoreId, b: BlockNo) -> Block
        requires own { own.0 < self.old.machine.cores }
        requires present { is_i (letter_of self.old.machine (state_of self.old) own b) ≡ false }
        ensures content { result ≡ content_of self.old b }
        ensures touched { self.new ≡ with_caches self.old (with_l1_touch self.old.machine (state_of self.old) own b) }
    {
        laws();
        self.caches[own.0 as usize].hit_read(b)
    }

    /// A write of a block by a core that may write it.
    pub fn host_write(&mut self, own: CoreId, b: BlockNo, block: &Block)
        requires own { own.0 < self.old.machine.cores }
        requires owned { is_owned (letter_of self.old.machine (state_of self.old) own b) ≡ true }
        ensures { self.new ≡ with_content (with_caches self.old (with_l1_front self.old.machine (state_of self.old) own b letter.M)) b block.now }
    {
        laws();
        self.caches[own.0 as usize].hit_write(b, block);
    }

    /// Memory executes a PEI on a block, and gives its reply, as memory has the block.
    ///
    /// The conditions are that the block is in memory, that no core may write it and the last-level cache is not ahead of
    /// its vault, that for a writer there is no copy of it at all, and that of `pei_ops::apply`: the word of an increment
    /// or a minimum is below 8, and the shift of a histogram is at most 24 bits.
    pub fn vault_act(&mut self, b: BlockNo, op: Op, operands: &Operands) -> Reply
        requires there { b.0 < self.old.machine.blocks }
        requires current { HoldsSeal (letter_of self.old.machine (state_of self.old)) (mark_of self.old.machine (state_of self.old)) b (is_writer op) }
        requires fits { CanApply op operands.now }
        ensures reply { result ≡ reply_of op operands.now (content_of self.old b) }
        ensures block { self.new ≡ with_content self.old b (block_after op operands.now (content_of self.old b)) }
    {
        laws();
        self.vaults.act(b, op, operands)
    }
}
