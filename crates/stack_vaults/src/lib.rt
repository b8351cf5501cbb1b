//! The vaults of the memory stack, which hold all blocks.
//!
//! Blocks lie in turn in the vaults of a three-dimensional stack, each with its own logic for PEIs, as in Ahn, Yoo,
//! Mutlu and Choi, "PIM-Enabled Instructions", ISCA 2015. The vault of a block is its number modulo the number of vaults.
#![tactic(auto)]

ghost use Rattle.std.specs.Prelude.{◌≡◌, ◌+◌, ◌*◌, ◌/◌, ◌%◌, ◌<◌, ◌≤◌, IfOk, Some, length, slice_index_or};
ghost use Rattle.pei_types.specs.Limits.{IsWithin};
ghost use Rattle.pei_types.specs.Operation.{CanApply, block_after, reply_of};
ghost use Rattle.pei_types.specs.Program.{block_at};
ghost use Rattle.stack_vaults.specs.Blocks.{blocks_of, content_of, with_block};

use pei_ops::apply;
use pei_types::{Block, BlockNo, Image, Op, Operands, OutOfMemory, Reply};
use std::alloc::Global;
use std::marker::Model;

/// The vaults, seen as the list of all blocks of memory.
///
/// All memory is taken by `make`. A block that is handed to another call but `vault_of` is in memory.
#[derive(Drop)]
pub struct Vaults {
    vaults: u32,
    blocks: Vec<Block>,
}

impl Model for Vaults {
    ghost use Rattle.std.specs.Prelude.{◌≤◌, ◌<◌};
    ghost use Rattle.stack_vaults.specs.Blocks.{Stack};

    ghost Value = { Stack };

    ghost view = { λ v. record { vaults = v.vaults; blocks = v.blocks.items } };

    ghost invariant = { λ v. (0 < v.vaults) × (v.vaults ≤ 16) };
}

/// A block of an image.
fn block_in(image: &Image, number: u32) -> Block
    requires { 8 * number + 8 ≤ length image.now.words }
    ensures { result ≡ block_at image.now (record { 0 = number }) }
{
    let first = 8 * number as usize;
    let mut content = [0; 8];
    content.copy_from_slice(&image.words()[first..first + 8]);
    Block(content)
}

/// All blocks of an image.
fn blocks_in(alloc: Global, image: &Image) -> Result<Vec<Block>, OutOfMemory>
    ensures { IfOk result (λ v. v.items ≡ blocks_of image.now) }
{
    let count = image.blocks();
    let Ok(mut blocks) = Vec::with_capacity(alloc, count as usize) else {
        return Err(OutOfMemory);
    };
    for number in 0..count {
        blocks.push_reserved(block_in(image, number));
    }
    Ok(blocks)
}

impl Vaults {
    /// So many vaults, 1 to 16, with the memory of an image.
    ///
    /// `OutOfMemory` says that the memory for it could not be had; no clause ties it to that.
    pub fn make(alloc: Global, image: &Image, vaults: u32) -> Result<Vaults, OutOfMemory>
        requires { IsWithin 1 16 vaults }
        ensures { IfOk result (λ v. v ≡ record { vaults = vaults; blocks = blocks_of image.now }) }
    {
        let blocks = blocks_in(alloc, image)?;
        Ok(Vaults { vaults, blocks })
    }

    /// The vault of a block: its number modulo the number of vaults.
    pub fn vault_of(&self, b: BlockNo) -> u8
        ensures { result ≡ b.0 % self.now.vaults }
    {
        (b.0 % self.vaults) as u8
    }

    /// The content of a block.
    pub fn read(&self, b: BlockNo) -> Block
        requires { b.0 < length self.now.blocks }
        ensures { result ≡ content_of self.now b }
    {
        self.blocks[b.0 as usize]
    }

    /// Gives a block another content.
    pub fn write(&mut self, b: BlockNo, block: &Block)
        requires { b.0 < length self.old.blocks }
        ensures { self.new ≡ with_block self.old b block.now }
    {
        self.blocks[b.0 as usize] = *block;
    }

    /// Does a PEI operation on a block, and gives its reply. The condition is that of `pei_ops::apply`: the word of an
    /// increment or a minimum is below 8, and the shift of a histogram is at most 24 bits.
    pub fn act(&mut self, b: BlockNo, op: Op, operands: &Operands) -> Reply
        requires there { b.0 < length self.old.blocks }
        requires fits { CanApply op operands.now }
        ensures block { self.new ≡ with_block self.old b (block_after op operands.now (content_of self.old b)) }
        ensures reply { result ≡ reply_of op operands.now (content_of self.old b) }
    {
        apply(op, operands, &mut self.blocks[b.0 as usize])
    }
}

#[cfg(test)]
mod tests;
