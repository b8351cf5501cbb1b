//! Sets of fixed slots with keys, each set's slots in the order of recency: what a set-associative cache and the
//! locality monitor have in common.
#![tactic(auto)]

pub mod laws;

ghost use Rattle.std.specs.Prelude.{◌≡◌, ◌≢◌, ℕ, ◌+◌, ◌*◌, ◌%◌, ◌^◌, ◌<◌, ◌≤◌, ◌==◌, IfOk, IfSome, IfNone, IsSome, Some, None, length, find, slice_get, option_map, replicate};
ghost use Rattle.pei_types.specs.Limits.{IsWithin};
ghost use Rattle.pei_types.specs.Recency.{list_at, victim};
ghost use Rattle.set_lists.specs.Placed.{IsAt, IsListed, IsOfSet, IsPlaced, all_free, has_key, key_at, touched, inserted, removed, room_made};

use link_list::Lists;
use link_list::laws::nodes_are_listed;
use pei_types::OutOfMemory;
use std::alloc::Global;
use std::marker::Model;

/// Sets of slots, numbered from 0: set s has the slots s * ways to s * ways + ways - 1.
///
/// A slot is free or has a key, and keeps it until it is removed. The order of each set's slots is kept by links. All
/// memory is taken by `make`. The condition of each call is that its set and its slot are in range.
#[derive(Drop)]
pub struct SetLists {
    sets: u32,
    ways: u32,
    /// The key in each slot, or `None` where the slot is free.
    keys: Vec<Option<u32>>,
    /// The slots of each set that are not free, the most recent in front.
    order: Lists,
}

impl Model for SetLists {
    ghost use Rattle.set_lists.specs.Placed.{Placed};

    ghost Value = { Placed };

    ghost use Rattle.set_lists.specs.Inside.{shown, IsInOrder};

    ghost view = { shown };

    ghost invariant = { IsInOrder };
}

/// So many free slots.
fn free_slots(alloc: Global, len: u32) -> Result<Vec<Option<u32>>, OutOfMemory>
    ensures { IfOk result (λ v. v.items ≡ replicate len None) }
{
    vec![in alloc; None; len as usize].map_err(|_| OutOfMemory)
}

/// The first of a set's slots that has this content.
fn scan(keys: &[Option<u32>], first: u32, ways: u32, wanted: Option<u32>) -> Option<u32>
    requires within { first + ways ≤ length keys.now }
    requires range { first + ways < 2 ^ 32 }
    ensures found { IfSome result (λ slot. (first ≤ slot) × (slot < first + ways) × (key_at keys.now slot ≡ wanted)) }
    ensures none { IfNone result ((slot : ℕ) → first ≤ slot → slot < first + ways → key_at keys.now slot ≢ wanted) }
{
    for slot in first..first + ways {
        if keys[slot as usize] == wanted {
            return Some(slot);
        }
    }
    None
}

impl SetLists {
    /// So many sets of so many ways, all slots free: 1 to 1,024 sets of 1 to 16 ways.
    ///
    /// `OutOfMemory` says that the memory for them could not be had; no clause ties it to that.
    pub fn make(alloc: Global, sets: u32, ways: u32) -> Result<SetLists, OutOfMemory>
        requires sets { IsWithin 1 1024 sets }
        requires ways { IsWithin 1 16 ways }
        ensures free { IfOk result (λ s. s ≡ all_free sets ways) }
        ensures placed { IfOk result IsPlaced }
    {
        let keys = free_slots(alloc, sets * ways)?;
        let order = Lists::make(alloc, sets * ways, sets)?;
        Ok(SetLists {
            sets,
            ways,
            keys,
            order,
        })
    }

    /// The number of sets.
    pub fn sets(&self) -> u32
        ensures sets { result ≡ length self.now.lists }
        ensures placed { IsPlaced self.now }
    {
        self.sets
    }

    /// The set of a block's number: the number modulo the number of sets.
    pub fn home(&self, number: u32) -> u32
        ensures home { result ≡ number % length self.now.lists }
        ensures within { result < length self.now.lists }
        ensures placed { IsPlaced self.now }
    {
        number % self.sets
    }

    /// The slot of a set that has a key, or `None` where none has.
    pub fn find(&self, set: u32, key: u32) -> Option<u32>
        requires { set < length self.now.lists }
        ensures found { result ≡ find (has_key self.now.keys key) (list_at self.now.lists set) }
        ensures at { IfSome result (λ slot. IsAt self.now set key slot) }
        ensures own { IfSome result (λ slot. IsOfSet self.now.ways set slot) }
        ensures range { IfSome result (λ slot. slot < length self.now.keys) }
        ensures placed { IsPlaced self.now }
    {
        scan(&self.keys, set * self.ways, self.ways, Some(key))
    }

    /// The slot of a set that has a key. The condition is that one has it.
    pub fn place(&self, set: u32, key: u32) -> u32
        requires set { set < length self.now.lists }
        requires present { IsSome (find (has_key self.now.keys key) (list_at self.now.lists set)) }
        ensures at { IsAt self.now set key result }
        ensures own { IsOfSet self.now.ways set result }
        ensures range { result < length self.now.keys }
        ensures placed { IsPlaced self.now }
    {
        match self.find(set, key) {
            Some(slot) => slot,
            None => unreachable!(),
        }
    }

    /// Whether no slot of a set is free.
    pub fn is_full(&self, set: u32) -> bool
        requires { set < length self.now.lists }
        ensures full { result ≡ (length (list_at self.now.lists set) == self.now.ways) }
        ensures placed { IsPlaced self.now }
    {
        scan(&self.keys, set * self.ways, self.ways, None).is_none()
    }

    /// The least recent slot of a full set, or `None` where a slot is free.
    pub fn victim(&self, set: u32) -> Option<u32>
        requires { set < length self.now.lists }
        ensures last { result ≡ victim self.now.ways (list_at self.now.lists set) }
        ensures listed { IfSome result (λ slot. IsListed self.now set slot) }
        ensures range { IfSome result (λ slot. slot < length self.now.keys) }
        ensures placed { IsPlaced self.now }
    {
        nodes_are_listed();
        if self.is_full(set) {
            self.order.back(set)
        } else {
            None
        }
    }

    /// Makes a slot of a set its most recent. The condition is that the slot is not free.
    pub fn touch(&mut self, set: u32, slot: u32)
        requires set { set < length self.old.lists }
        requires listed { IsListed self.old set slot }
        ensures touched { self.new ≡ touched self.old set slot }
        ensures placed { IsPlaced self.new }
    {
        nodes_are_listed();
        self.order.move_front(slot);
    }

    /// Makes the slot of a set that has a key its most recent, and tells the slot. The condition is that one has it.
    pub fn bring_front(&mut self, set: u32, key: u32) -> u32
        requires set { set < length self.old.lists }
        requires present { IsSome (find (has_key self.old.keys key) (list_at self.old.lists set)) }
        ensures at { IsAt self.old set key result }
        ensures range { result < length self.old.keys }
        ensures touched { self.new ≡ touched self.old set result }
        ensures placed { IsPlaced self.new }
    {
        let slot = self.place(set, key);
        self.touch(set, slot);
        slot
    }

    /// Frees the least recent slot of a set, where the set is full.
    fn make_room(&mut self, set: u32)
        requires { set < length self.old.lists }
        ensures made { self.new ≡ room_made self.old set }
        ensures room { length (list_at self.new.lists set) < self.new.ways }
        ensures lacks { (key : ℕ) → find (has_key self.old.keys key) (list_at self.old.lists set) ≡ None
            → find (has_key self.new.keys key) (list_at self.new.lists set) ≡ None }
        ensures placed { IsPlaced self.new }
    {
        match self.victim(set) {
            Some(slot) => self.remove(set, slot),
            None => {}
        }
    }

    /// Puts a key into a free slot of a set, as its most recent, and tells the slot. The condition is that the set
    /// lacks the key and is not full.
    pub fn insert(&mut self, set: u32, key: u32) -> u32
        requires set { set < length self.old.lists }
        requires absent { find (has_key self.old.keys key) (list_at self.old.lists set) ≡ None }
        requires room { length (list_at self.old.lists set) < self.old.ways }
        ensures free { key_at self.old.keys result ≡ None }
        ensures own { IsOfSet self.old.ways set result }
        ensures range { result < length self.old.keys }
        ensures inserted { self.new ≡ inserted self.old set result key }
        ensures placed { IsPlaced self.new }
    {
        nodes_are_listed();
        match scan(&self.keys, set * self.ways, self.ways, None) {
            Some(slot) => {
                self.keys[slot as usize] = Some(key);
                self.order.push_front(set, slot);
                slot
            }
            None => unreachable!(),
        }
    }

    /// Puts a key into a slot of a set, as its most recent, and tells the slot. Where the set is full, its least recent
    /// slot becomes free first. The condition is that the set lacks the key.
    pub fn renew(&mut self, set: u32, key: u32) -> u32
        requires set { set < length self.old.lists }
        requires absent { find (has_key self.old.keys key) (list_at self.old.lists set) ≡ None }
        ensures free { key_at (room_made self.old set).keys result ≡ None }
        ensures range { result < length self.old.keys }
        ensures renewed { self.new ≡ inserted (room_made self.old set) set result key }
        ensures made { IsPlaced (room_made self.old set) }
        ensures placed { IsPlaced self.new }
    {
        self.make_room(set);
        self.insert(set, key)
    }

    /// Frees a slot of a set. The condition is that it is not free.
    pub fn remove(&mut self, set: u32, slot: u32)
        requires set { set < length self.old.lists }
        requires listed { IsListed self.old set slot }
        ensures removed { self.new ≡ removed self.old set slot }
        ensures placed { IsPlaced self.new }
    {
        nodes_are_listed();
        self.keys[slot as usize] = None;
        self.order.unlink(slot);
    }

    /// Frees the slot of a set that has a key, and tells the slot. The condition is that one has it.
    pub fn take_out(&mut self, set: u32, key: u32) -> u32
        requires set { set < length self.old.lists }
        requires present { IsSome (find (has_key self.old.keys key) (list_at self.old.lists set)) }
        ensures at { IsAt self.old set key result }
        ensures range { result < length self.old.keys }
        ensures removed { self.new ≡ removed self.old set result }
        ensures placed { IsPlaced self.new }
    {
        let slot = self.place(set, key);
        self.remove(set, slot);
        slot
    }
}

#[cfg(test)]
mod tests;
