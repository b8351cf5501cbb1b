//! Standard output, or any writer of std.

ghost use Rattle.std.specs.Prelude.{◌≡◌, ◌≤◌, ◌<◌, length, OnOk, IfOk, OnErr};
ghost use Rattle.std.specs.Io.KnownBytes.{WriteAppends};
ghost use Rattle.pei_io.specs.Outside.{Rose};

use crate::files::Failed;
use crate::sink::Sink;
use std::io::Write;

/// A writer of std, as standard output. It tells how often std failed, whatever the cause, and no bytes. A write that
/// takes nothing of a piece that is not empty counts as a failure.
#[derive(Drop)]
pub struct OutSink<W: Write> {
    writer: W,
    faults: u64,
}

impl<W: Write> OutSink<W> {
    /// A sink over a writer.
    pub fn make(writer: W) -> OutSink<W>
        ensures { (result.writer ≡ writer) × (result.faults ≡ 0) }
    {
        OutSink { writer, faults: 0 }
    }
}

impl<W: Write> Sink for OutSink<W> {
    ghost use Rattle.std.specs.Prelude.{None};

    ghost written = { λ s. None };

    ghost faults = { λ s. s.faults };

    fn write(&mut self, piece: &[u8]) -> Result<usize, Failed>
        ensures within { IfOk result (λ n. n ≤ length piece.now) }
        ensures some { 0 < length piece.now → IfOk result (λ n. 0 < n) }
        ensures failed { OnErr result (Rose self.old.faults self.new.faults) }
        ensures rising { self.old.faults ≤ self.new.faults }
        ensures faultless { OnOk result (self.new.faults ≡ self.old.faults) }
        ensures passed { WriteAppends (W.contents self.old.writer) (W.contents self.new.writer) result piece.now }
    {
        if let Ok(count) = self.writer.write(piece) {
            if count > 0 || piece.is_empty() {
                return Ok(count);
            }
        }
        self.faults = self.faults.saturating_add(1);
        Err(Failed)
    }
}
