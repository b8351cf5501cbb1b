//! Reading a whole file, up to a limit.

ghost use Rattle.std.specs.Prelude.{◌≡◌, ◌≢◌, ◌≤◌, ◌+◌, None, Some, Err};
ghost use Rattle.pei_io.specs.Outside.{LeavesOthers};
ghost use Rattle.pei_io.specs.ReadEnds.{EndsReading};
ghost use Rattle.pei_io.specs.declared.reading.ReadEnd.TheVariants as ends;

use crate::bytes::Bytes;
use crate::files::{Files, Which};
use crate::text::Text;
use pei_types::OutOfMemory;
use std::alloc::Global;

/// Why a file was not read to its end.
#[derive(Clone, Copy, PartialEq, Eq, Debug)]
pub enum ReadEnd {
    /// Opening or reading failed.
    Failed,
    /// The file has more bytes than the limit.
    TooLong,
    /// Want of memory.
    OutOfMemory,
}

/// Opens a file that was not opened before, and reads it to its end, by at most `limit + 1` reads. `limit` is the most bytes
/// that it may have.
pub fn read_limited<F: Files>(
    alloc: Global,
    files: &mut F,
    which: Which,
    name: &str,
    limit: u32,
) -> Result<Bytes, ReadEnd>
    requires { F.name files.old which ≡ None }
    ensures end { EndsReading limit (F.held files.old which name.now) (F.taken files.new which) (F.faults files.old which) (F.faults files.new which) result }
    ensures named { result ≢ Err ReadEnd.OutOfMemory → F.name files.new which ≡ Some name.now }
    ensures rising { F.faults files.old which ≤ F.faults files.new which }
    ensures reads { F.reads files.new ≤ F.reads files.old + (limit + 1) }
    ensures others { LeavesOthers F.held F.left F.name F.taken F.faults which files.old files.new }
{
    let Ok(file) = Text::make(alloc, name) else {
        return Err(ReadEnd::OutOfMemory);
    };
    if files.open_file(which, file).is_err() {
        return Err(ReadEnd::Failed);
    }
    read_opened(alloc, files, which, limit)
}

/// Reads an opened file to its end, of which nothing was read.
fn read_opened<F: Files>(
    alloc: Global,
    files: &mut F,
    which: Which,
    limit: u32,
) -> Result<Bytes, ReadEnd>
    requires { F.taken files.old which ≡ 0 }
    ensures end { EndsReading limit (F.left files.old which) (F.taken files.new which) (F.faults files.old which) (F.faults files.new which) result }
    ensures named { F.name files.new which ≡ F.name files.old which }
    ensures rising { F.faults files.old which ≤ F.faults files.new which }
    ensures reads { F.reads files.new ≤ F.reads files.old + (limit + 1) }
    ensures others { LeavesOthers F.held F.left F.name F.taken F.faults which files.old files.new }
{
    let mut bytes = Vec::new(alloc);
    let mut chunk = [0u8; 4096];
    let mut room = limit as usize + 1;
    loop {
        let piece = &mut chunk[..room.min(4096)];
        let Ok(count) = files.read(which, piece) else {
            return Err(ReadEnd::Failed);
        };
        if count == 0 {
            return Ok(Bytes::new(bytes));
        }
        if count == room {
            return Err(ReadEnd::TooLong);
        }
        if bytes.extend_from_slice(&piece[..count]).is_err() {
            return Err(ReadEnd::OutOfMemory);
        }
        room -= count;
    }
}
