//! One line of a text, on the stack.

ghost use Rattle.std.specs.Prelude.{◌≡◌, ◌≤◌, ◌+◌, ◌++◌, [], length, decimal};
ghost use Rattle.pei_io.specs.Outside.{Writes};

use itoa::Buffer;
use pei_io::{Failed, Sink, write_all};
use std::marker::Model;

/// The most bytes of a line.
const MOST: usize = 120;

/// A line on its way, in a buffer on the stack.
#[derive(Drop)]
pub(crate) struct Line {
    bytes: [u8; MOST],
    len: usize,
}

impl Model for Line {
    ghost use Rattle.std.specs.Prelude.{ℕ, List, ◌≤◌, take};

    ghost Value = { List ℕ };

    ghost view = { λ l. take l.len l.bytes };

    ghost invariant = { λ l. l.len ≤ 120 };
}

impl Line {
    /// The empty line.
    pub fn new() -> Line
        ensures { result ≡ [] }
    {
        Line {
            bytes: [0; MOST],
            len: 0,
        }
    }

    /// Adds a piece. The condition is that there is room for it.
    pub fn add(&mut self, piece: &[u8])
        requires { length self.old + length piece.now ≤ 120 }
        ensures text { self.new ≡ self.old ++ piece.now }
        ensures len { length self.new ≡ length self.old + length piece.now }
    {
        let end = self.len + piece.len();
        self.bytes[self.len..end].copy_from_slice(piece);
        self.len = end;
    }

    /// Adds a number in decimal. The condition is that there is room for the longest.
    pub fn add_number(&mut self, n: u64)
        requires { length self.old + 20 ≤ 120 }
        ensures text { self.new ≡ self.old ++ decimal n }
        ensures len { length self.new ≤ length self.old + 20 }
    {
        let mut buffer = Buffer::new();
        self.add(buffer.format(n).as_bytes());
    }

    /// Writes the line as one piece.
    pub fn write<K: Sink>(&self, sink: &mut K) -> Result<(), Failed>
        ensures { Writes self.now (K.written sink.old) (K.written sink.new) (K.faults sink.old) (K.faults sink.new) result }
    {
        write_all(sink, &self.bytes[..self.len])
    }
}
