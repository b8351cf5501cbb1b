//! The journal of a run: its events, in the order in which they were made; and the text of a journal, its trace, both ways.
#![tactic(auto)]

ghost use Rattle.journal.specs.Counted.{stats_of};
ghost use Rattle.journal.specs.Recorded.{pushed};
ghost use Rattle.std.specs.List.{AllByRecursion, AllPairs};
ghost use Rattle.std.specs.Prelude.{◌≡◌, ◌≢◌, [], ◌∷◌, ◌++◌, ◌-◌, ◌<◌, ◌≤◌, ◌↔◌, length, Some, slice_get, IsTrue, IfOk, IfSome, IfNone};

mod event_lines;
mod event_words;
pub mod laws;
mod lines;
mod names;
mod ranges;
mod reading;
mod stats;
mod words;
mod writing;

use pei_types::{Event, OutOfMemory};
pub use reading::{TraceFault, read_trace};
pub use stats::Stats;
use std::alloc::Global;
use std::marker::Model;

/// The events of a run, the first in front, with room for a number of them that is set when it is made. Each has a stamp: its
/// place, or, in the journal of one bank, its place in the journal of all banks.
///
/// All memory is taken when it is made: only `make` can want memory.
#[derive(Drop)]
pub struct Journal {
    events: Vec<Event>,
    stamps: Vec<u32>,
    room: u32,
}

impl Model for Journal {
    ghost use Rattle.std.specs.Prelude.{vec_len, vec_capacity};
    ghost use Rattle.journal.specs.Recorded.{Recorded, IsWithinRoom};

    ghost Value = { Recorded };

    ghost view = { λ j. record { events = j.events.items; stamps = j.stamps.items; room = j.room } };

    ghost invariant = { λ j. IsWithinRoom (vec_len j.events) (vec_len j.stamps) j.room (vec_capacity j.events) (vec_capacity j.stamps) };
}

impl Journal {
    /// An empty journal with room for `events` events.
    ///
    /// `OutOfMemory` says that the memory for them could not be had; no clause ties it to that.
    pub fn make(alloc: Global, events: u32) -> Result<Journal, OutOfMemory>
        ensures { IfOk result (λ j. j ≡ record { events = []; stamps = []; room = events }) }
    {
        let reserved = Vec::with_capacity(alloc, events as usize).map_err(|_| OutOfMemory)?;
        let stamps = Vec::with_capacity(alloc, events as usize).map_err(|_| OutOfMemory)?;
        Ok(Journal {
            events: reserved,
            stamps,
            room: events,
        })
    }

    /// Adds an event at the end, with its place as its stamp. The condition is that there is room, as `spare` tells.
    pub fn push(&mut self, event: Event)
        requires { length self.old.events < self.old.room }
        ensures { self.new ≡ pushed self.old (length self.old.events) event }
    {
        let stamp = self.len();
        self.push_stamped(stamp, event);
    }

    /// Adds an event at the end, with this stamp. The condition is that there is room, as `spare` tells.
    pub fn push_stamped(&mut self, stamp: u32, event: Event)
        requires { length self.old.events < self.old.room }
        ensures { self.new ≡ pushed self.old stamp event }
    {
        self.events.push_reserved(event);
        self.stamps.push_reserved(stamp);
    }

    /// How many more events there is room for.
    pub fn spare(&self) -> u32
        ensures spare { result ≡ self.now.room - length self.now.events }
        ensures within { length self.now.events ≤ self.now.room }
    {
        self.room - self.len()
    }

    /// How many events it has.
    pub fn len(&self) -> u32
        ensures len { result ≡ length self.now.events }
        ensures within { length self.now.events ≤ self.now.room }
    {
        self.events.len() as u32
    }

    /// Whether it has no event.
    pub fn is_empty(&self) -> bool
        ensures { IsTrue result ↔ (self.now.events ≡ []) }
    {
        self.events.is_empty()
    }

    /// The event at place `i`, counted from 0. The condition is that `i` is below `len`.
    pub fn get(&self, i: u32) -> Event
        requires { i < length self.now.events }
        ensures { slice_get self.now.events i ≡ Some result }
    {
        self.events[i as usize]
    }

    /// The stamp of the event at place `i`, counted from 0. The condition is that `i` is below `len`.
    pub fn stamp(&self, i: u32) -> u32
        requires { i < length self.now.events }
        ensures { slice_get self.now.stamps i ≡ Some result }
    {
        self.stamps[i as usize]
    }

    /// The place of the event with this stamp, or `None` where no event has it. The condition is that the stamps rise.
    pub fn place_of(&self, stamp: u32) -> Option<u32>
        requires { AllPairs (λ x y. x < y) self.now.stamps }
        ensures some { IfSome result (λ i. slice_get self.now.stamps i ≡ Some stamp) }
        ensures none { IfNone result (AllByRecursion (λ x. x ≢ stamp) self.now.stamps) }
    {
        match self.stamps.binary_search(&stamp) {
            Ok(place) => Some(place as u32),
            Err(_) => None,
        }
    }

    /// How many events of each kind it has, counted in one pass.
    pub fn counts(&self) -> Stats
        ensures { result ≡ stats_of self.now.events }
    {
        let mut stats = Stats::none();
        for i in 0..self.len() {
            stats.count(&self.get(i).kind);
        }
        stats
    }

    /// All events, the first in front.
    pub fn events(&self) -> &[Event]
        ensures { result.now ≡ self.now.events }
    {
        self.events.as_slice()
    }
}

#[cfg(test)]
mod tests;
