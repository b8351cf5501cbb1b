//! The locality monitor, which tells blocks with locality, whose PEIs are placed at the host, from the others, whose
//! PEIs are placed in memory.
//!
//! That a monitor with the sets, the ways and partial tags of the last-level cache tells locality, from its accesses and
//! from the PEIs sent to memory, follows Ahn, Yoo, Mutlu and Choi, "PIM-Enabled Instructions", ISCA 2015. How it works
//! in detail is this project's own.
#![tactic(auto)]

mod entries;
pub mod laws;

ghost use Rattle.std.specs.Prelude.{◌≡◌, ℕ, ◌/◌, ◌<◌, IfOk, Some, None, true, false, length, find, replicate, List};
ghost use Rattle.pei_types.specs.Limits.{IsWithin};
ghost use Rattle.pei_types.specs.Blocks.{fold_of};
ghost use Rattle.locality_monitor.specs.Inside.{blank};
ghost use Rattle.locality_monitor.specs.Table.{empty_table, set_of, tag_of, with_access, with_placement, place_of};

use crate::entries::Entry;
use pei_types::{BlockNo, OutOfMemory, Place, fold};
use set_lists::SetLists;
use set_lists::laws::sets_follow;
use std::alloc::Global;
use std::marker::Model;

/// The locality monitor, seen as the list of entries of each set, the most recent first.
///
/// A block belongs to the set of its number modulo the number of sets. Its partial tag is the folding to 10 bits of its
/// number divided by the number of sets; blocks of a set may share one. Entries stay in slots, and the order of each
/// set is kept by links. All memory is taken by `make`.
#[derive(Drop)]
pub struct Monitor {
    tags: SetLists,
    /// The entry in each slot. In a free slot it means nothing.
    entries: Vec<Entry>,
}

impl Model for Monitor {
    ghost use Rattle.locality_monitor.specs.Table.{Table};

    ghost Value = { Table };

    ghost use Rattle.locality_monitor.specs.Inside.{shown, IsInOrder};

    ghost view = { shown };

    ghost invariant = { IsInOrder };
}

/// So many entries that mean nothing.
fn blank_entries(alloc: Global, len: u32) -> Result<Vec<Entry>, OutOfMemory>
    ensures { IfOk result (λ v. v.items ≡ replicate len blank) }
{
    let blank = Entry {
        tag: 0,
        flag: false,
    };
    match Vec::from_elem(alloc, blank, len as usize) {
        Ok(entries) => Ok(entries),
        Err(_) => Err(OutOfMemory),
    }
}

/// The partial tag of a block in its set.
fn partial_tag(tags: &SetLists, b: BlockNo) -> u32
    ensures { result ≡ fold_of (b.0 / length tags.now.lists) 10 }
{
    fold(BlockNo(b.0 / tags.sets()), 10)
}

impl Monitor {
    /// A monitor of so many sets of so many ways, without an entry: 1 to 1,024 sets of 1 to 16 ways.
    ///
    /// `OutOfMemory` says that the memory for it could not be had; no clause ties it to that.
    pub fn make(alloc: Global, sets: u32, ways: u32) -> Result<Monitor, OutOfMemory>
        requires sets { IsWithin 1 1024 sets }
        requires ways { IsWithin 1 16 ways }
        ensures { IfOk result (λ v. v ≡ empty_table sets ways) }
    {
        sets_follow::<Entry>();
        let tags = SetLists::make(alloc, sets, ways)?;
        let entries = blank_entries(alloc, sets * ways)?;
        Ok(Monitor { tags, entries })
    }

    /// An access of the last-level cache: the block's entry goes to the front with its flag as it is. Where there is
    /// none, a new one with the flag clear goes in front, and a full set drops its last entry first.
    pub fn llc_access(&mut self, b: BlockNo)
        ensures { self.new ≡ with_access self.old b }
    {
        sets_follow::<Entry>();
        let set = self.tags.home(b.0);
        let tag = partial_tag(&self.tags, b);
        match self.tags.find(set, tag) {
            Some(slot) => self.tags.touch(set, slot),
            None => {
                let slot = self.tags.renew(set, tag);
                self.entries[slot as usize] = Entry { tag, flag: false };
            }
        }
    }

    /// Where a PEI on a block would be placed. Nothing changes.
    pub fn placement(&self, b: BlockNo) -> Place
        ensures { result ≡ place_of self.now b }
    {
        sets_follow::<Entry>();
        let set = self.tags.home(b.0);
        let tag = partial_tag(&self.tags, b);
        let Some(slot) = self.tags.find(set, tag) else {
            return Place::Memory;
        };
        let entry = &self.entries[slot as usize];
        if entry.flag {
            return Place::Memory;
        }
        Place::Host
    }

    /// Places a PEI on a block. Where the block's entry is there with the flag clear, that is at the host, and nothing
    /// changes. Else it is in memory: an entry with the flag set goes to the front, and the flag is cleared; where
    /// there is none, a new one with the flag set goes in front, and a full set drops its last entry first.
    pub fn place(&mut self, b: BlockNo) -> Place
        ensures place { result ≡ place_of self.old b }
        ensures placed { self.new ≡ with_placement self.old b }
    {
        sets_follow::<Entry>();
        let set = self.tags.home(b.0);
        let tag = partial_tag(&self.tags, b);
        match self.tags.find(set, tag) {
            Some(slot) => {
                let entry = &self.entries[slot as usize];
                if !entry.flag {
                    return Place::Host;
                }
                self.entries[slot as usize] = Entry { tag, flag: false };
                self.tags.touch(set, slot);
            }
            None => {
                let slot = self.tags.renew(set, tag);
                self.entries[slot as usize] = Entry { tag, flag: true };
            }
        }
        Place::Memory
    }
}

#[cfg(test)]
mod tests;
