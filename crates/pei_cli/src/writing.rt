//! Writing of pieces to a sink.

ghost use Rattle.std.specs.Prelude.{flat_map};
ghost use Rattle.pei_io.specs.Outside.{Writes};

use pei_io::laws::writes_join;
use pei_io::{Failed, Sink, write_all};

/// Writes pieces, one behind another.
pub(crate) fn write_pieces<K: Sink>(sink: &mut K, pieces: &[&[u8]]) -> Result<(), Failed>
    ensures { Writes (flat_map (λ p. p.now) pieces.now) (K.written sink.old) (K.written sink.new) (K.faults sink.old) (K.faults sink.new) result }
{
    writes_join();
    for piece in pieces {
        write_all(sink, piece)?;
    }
    Ok(())
}
