//! Where peisim writes.

ghost use Rattle.std.specs.Prelude.{◌≡◌, ◌≤◌, ◌<◌, ℕ, List, Option, length, OnOk, OnErr, IfOk, take};
ghost use Rattle.pei_io.specs.Outside.{Rose, Added, Writes};

use crate::files::Failed;

/// A stream of bytes to write to.
pub trait Sink {
    /// All bytes taken, where the object tells them.
    ghost written: { Self → Option (List ℕ) };

    /// How often a write failed, up to 2^64 - 1.
    ghost faults: { Self → ℕ };

    /// Takes bytes from the front of the piece, at least one of a piece that is not empty, and tells how many. A failure
    /// takes nothing and is counted.
    fn write(&mut self, piece: &[u8]) -> Result<usize, Failed>
        ensures within { IfOk result (λ n. n ≤ length piece.now) }
        ensures some { 0 < length piece.now → IfOk result (λ n. 0 < n) }
        ensures bytes { IfOk result (λ n. Added (take n piece.now) (written self.old) (written self.new)) }
        ensures err { OnErr result (written self.new ≡ written self.old) }
        ensures failed { OnErr result (Rose (faults self.old) (faults self.new)) }
        ensures rising { faults self.old ≤ faults self.new };
}

/// Writes the whole piece. After a failure a front of it was written.
pub fn write_all<K: Sink>(sink: &mut K, piece: &[u8]) -> Result<(), Failed>
    ensures { Writes piece.now (K.written sink.old) (K.written sink.new) (K.faults sink.old) (K.faults sink.new) result }
{
    let mut rest = piece;
    while !rest.is_empty() {
        let Ok(count) = sink.write(rest) else {
            return Err(Failed);
        };
        rest = rest.split_at(count).1;
    }
    Ok(())
}
