//! A sink in memory.

ghost use Rattle.std.specs.Prelude.{◌≡◌, ◌≤◌, ◌<◌, ◌+◌, [], length, OnOk, IfOk, OnErr, Contains, IsErr, IsTrue, ◌↔◌, ◌⊎◌, ◌++◌, vec_len, vec_capacity, take, min, ◌-◌};
ghost use Rattle.pei_io.specs.Outside.{Rose, Added, counted};

use crate::files::Failed;
use crate::sink::Sink;
use pei_types::OutOfMemory;
use std::alloc::Global;

/// A sink in memory, with room for so many bytes, which keeps the bytes that it took. Writes fail where it is asked.
#[derive(Drop)]
pub struct MemSink {
    taken: Vec<u8>,
    room: u32,
    most: u32,
    fails: Vec<u32>,
    writes: u64,
    faults: u64,
    ghost some: { 1 ≤ most },
    ghost within: { vec_len taken ≤ room },
    ghost reserved: { room ≤ vec_capacity taken },
}

impl MemSink {
    /// A sink with room for `room` bytes. A write takes at most `most` bytes, and `most` is at least 1. A write fails
    /// exactly where its number, counted from 1, is in `fails`, or where its piece is not empty and no room is left.
    pub fn make(alloc: Global, room: u32, most: u32, fails: &[u32]) -> Result<MemSink, OutOfMemory>
        requires { 1 ≤ most }
        ensures { IfOk result (λ s. (s.taken.items ≡ []) × (s.room ≡ room) × (s.most ≡ most) × (s.fails.items ≡ fails.now) × (s.writes ≡ 0) × (s.faults ≡ 0)) }
    {
        let Ok(fails) = fails.to_vec(alloc) else {
            return Err(OutOfMemory);
        };
        match Vec::with_capacity(alloc, room as usize) {
            Ok(taken) => Ok(MemSink {
                taken,
                room,
                most,
                fails,
                writes: 0,
                faults: 0,
            }),
            Err(_) => Err(OutOfMemory),
        }
    }

    /// The bytes taken.
    pub fn bytes(&self) -> &[u8]
        ensures { result.now ≡ self.now.taken.items }
    {
        self.taken.as_slice()
    }

    /// Counts a write, and tells whether it is to fail.
    fn is_to_fail(&mut self, len: usize) -> bool
        ensures fails { IsTrue result ↔ (Contains self.old.fails.items (counted (self.old.writes + 1)) ⊎ ((0 < len) × (self.old.room ≡ vec_len self.old.taken))) }
        ensures counted { self.new ≡ record self.old { writes = counted (self.old.writes + 1) } }
    {
        self.writes = self.writes.saturating_add(1);
        let number = self.writes;
        self.fails.iter().any(|fail| u64::from(*fail) == number)
            || (len > 0 && self.taken.len() == self.room as usize)
    }
}

impl Sink for MemSink {
    ghost use Rattle.std.specs.Prelude.{Some};

    ghost written = { λ s. Some s.taken.items };

    ghost faults = { λ s. s.faults };

    fn write(&mut self, piece: &[u8]) -> Result<usize, Failed>
        ensures fails { IsErr result ↔ (Contains self.old.fails.items (counted (self.old.writes + 1)) ⊎ ((0 < length piece.now) × (self.old.room ≡ vec_len self.old.taken))) }
        ensures number { self.new.writes ≡ counted (self.old.writes + 1) }
        ensures count { IfOk result (λ n. n ≡ min (min (length piece.now) self.old.most) (self.old.room - vec_len self.old.taken)) }
        ensures within { IfOk result (λ n. n ≤ length piece.now) }
        ensures some { 0 < length piece.now → IfOk result (λ n. 0 < n) }
        ensures bytes { IfOk result (λ n. self.new.taken.items ≡ self.old.taken.items ++ take n piece.now) }
        ensures err { OnErr result (self.new.taken.items ≡ self.old.taken.items) }
        ensures kept { (self.new.fails.items ≡ self.old.fails.items) × (self.new.room ≡ self.old.room) × (self.new.most ≡ self.old.most) }
        ensures faultless { OnOk result (self.new.faults ≡ self.old.faults) }
        ensures faults { OnErr result (self.new.faults ≡ counted (self.old.faults + 1)) }
        ensures failed { OnErr result (Rose self.old.faults self.new.faults) }
        ensures rising { self.old.faults ≤ self.new.faults }
    {
        if self.is_to_fail(piece.len()) {
            self.faults = self.faults.saturating_add(1);
            return Err(Failed);
        }
        let left = self.room as usize - self.taken.len();
        let count = piece.len().min(self.most as usize).min(left);
        let taken = self.taken.extend_from_slice(&piece[..count]);
        prove!(taken.is_ok());
        let _ = taken;
        Ok(count)
    }
}
