//! Outside objects that never fail.

ghost use Rattle.std.specs.Prelude.{◌≡◌, ◌≤◌, ◌<◌, [], length, Ok, IfOk};

use crate::files::{Failed, Files, Which};
use crate::mem_files::MemFiles;
use crate::sink::Sink;
use crate::text::Text;
use pei_types::OutOfMemory;
use std::alloc::Global;

/// Four files in memory, which have their bytes under every name and never fail.
#[derive(Drop)]
pub struct SureFiles {
    files: MemFiles,
    ghost sure: { files.fails.items ≡ [] },
}

impl SureFiles {
    ghost use Rattle.pei_io.specs.Memory.{unopened};

    /// Files of these bytes.
    pub fn make(
        alloc: Global,
        program: &[u8],
        machine: &[u8],
        trace: &[u8],
        kernel: &[u8],
    ) -> Result<SureFiles, OutOfMemory>
        ensures { IfOk result (λ f. (f.files.program ≡ unopened program.now) × (f.files.machine ≡ unopened machine.now) × (f.files.trace ≡ unopened trace.now) × (f.files.kernel ≡ unopened kernel.now)) }
    {
        let files = MemFiles::make(alloc, program, machine, trace, kernel, u32::MAX, &[])?;
        Ok(SureFiles { files })
    }
}

impl Files for SureFiles {
    ghost use Rattle.pei_io.specs.MemoryFiles.{held_in, left_in, name_in, taken_in, nothing_taken_in};

    ghost held = { λ s. held_in s.files };

    ghost left = { λ s. left_in s.files };

    ghost name = { λ s. name_in s.files };

    ghost taken = { λ s. taken_in s.files };

    ghost faults = { λ s which. 0 };

    ghost reads = { λ s. s.files.reads };

    fn open_file(&mut self, which: Which, file: Text) -> Result<(), Failed> {
        self.files.open_file(which, file)
    }

    fn read(&mut self, which: Which, buf: &mut [u8]) -> Result<usize, Failed> {
        self.files.read(which, buf)
    }

    ghost nothing_taken = { λ s. nothing_taken_in s.files };
}

/// A sink that takes each piece whole, keeps and tells no bytes, and never fails.
#[derive(Drop)]
pub struct SureSink;

impl SureSink {
    /// Such a sink.
    pub fn make() -> SureSink {
        SureSink
    }
}

impl Sink for SureSink {
    ghost use Rattle.std.specs.Prelude.{None};

    ghost written = { λ s. None };

    ghost faults = { λ s. 0 };

    fn write(&mut self, piece: &[u8]) -> Result<usize, Failed>
        ensures whole { result ≡ Ok (length piece.now) }
        ensures within { IfOk result (λ n. n ≤ length piece.now) }
        ensures some { 0 < length piece.now → IfOk result (λ n. 0 < n) }
    {
        Ok(piece.len())
    }
}
