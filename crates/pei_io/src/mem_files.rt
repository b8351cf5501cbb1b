//! Files in memory.

ghost use Rattle.std.specs.Prelude.{◌≡◌, ◌≤◌, ◌<◌, ◌+◌, ℕ, length, None, Some, Ok, OnOk, OnErr, IfOk, IfSome, Contains, IsErr, IsOk, IsTrue, ◌↔◌};
ghost use Rattle.pei_io.specs.Outside.{Rose, counted, LeavesOthers, Takes};

use crate::files::{Failed, Files, Which};
use crate::mem_file::MemFile;
use crate::text::Text;
use pei_types::OutOfMemory;
use std::alloc::Global;

/// Four files in memory, which have their bytes under every name. Reads fail where it is asked.
#[derive(Drop)]
pub struct MemFiles {
    program: MemFile,
    machine: MemFile,
    trace: MemFile,
    kernel: MemFile,
    most: u32,
    fails: Vec<u32>,
    reads: u64,
    ghost some: { 1 ≤ most },
}

impl MemFiles {
    ghost use Rattle.pei_io.specs.Memory.{unopened};

    /// Files of these bytes. A read moves at most `most` bytes, and `most` is at least 1. A read fails exactly where its
    /// number, counted from 1 over all files, is in `fails`. Opening never fails.
    pub fn make(
        alloc: Global,
        program: &[u8],
        machine: &[u8],
        trace: &[u8],
        kernel: &[u8],
        most: u32,
        fails: &[u32],
    ) -> Result<MemFiles, OutOfMemory>
        requires { 1 ≤ most }
        ensures { IfOk result (λ f. (f.program ≡ unopened program.now) × (f.machine ≡ unopened machine.now) × (f.trace ≡ unopened trace.now) × (f.kernel ≡ unopened kernel.now) × (f.most ≡ most) × (f.fails.items ≡ fails.now) × (f.reads ≡ 0)) }
    {
        let Ok(fails) = fails.to_vec(alloc) else {
            return Err(OutOfMemory);
        };
        Ok(MemFiles {
            program: MemFile::make(alloc, program)?,
            machine: MemFile::make(alloc, machine)?,
            trace: MemFile::make(alloc, trace)?,
            kernel: MemFile::make(alloc, kernel)?,
            most,
            fails,
            reads: 0,
        })
    }

    /// Counts a read, and tells whether it is to fail.
    fn is_to_fail(&mut self) -> bool
        ensures fails { IsTrue result ↔ Contains self.old.fails.items (counted (self.old.reads + 1)) }
        ensures number { self.new.reads ≡ counted (self.old.reads + 1) }
        ensures kept { (self.new.fails.items ≡ self.old.fails.items) × (self.new.most ≡ self.old.most) }
        ensures files { (self.new.program ≡ self.old.program) × (self.new.machine ≡ self.old.machine) × (self.new.trace ≡ self.old.trace) × (self.new.kernel ≡ self.old.kernel) }
    {
        self.reads = self.reads.saturating_add(1);
        let number = self.reads;
        self.fails.iter().any(|fail| u64::from(*fail) == number)
    }
}

impl Files for MemFiles {
    ghost use Rattle.pei_io.specs.Memory.{read_len, left_of};
    ghost use Rattle.pei_io.specs.MemoryFiles.{file_at, held_in, left_in, name_in, taken_in, faults_in, nothing_taken_in};

    ghost held = { held_in };

    ghost left = { left_in };

    ghost name = { name_in };

    ghost taken = { taken_in };

    ghost faults = { faults_in };

    ghost reads = { λ s. s.reads };

    fn open_file(&mut self, which: Which, file: Text) -> Result<(), Failed>
        requires { name_in self.old which ≡ None }
        ensures opens { IsOk result }
        ensures kept { self.new.fails.items ≡ self.old.fails.items }
        ensures same { (self.new.most ≡ self.old.most) × (self.new.reads ≡ self.old.reads) }
        ensures faultless { faults_in self.new which ≡ faults_in self.old which }
        ensures named { name_in self.new which ≡ Some file }
        ensures ok { OnOk result (left_in self.new which ≡ held_in self.old which file) }
        ensures failed { OnErr result (Rose (faults_in self.old which) (faults_in self.new which)) }
        ensures taken { taken_in self.new which ≡ taken_in self.old which }
        ensures rising { faults_in self.old which ≤ faults_in self.new which }
        ensures others { LeavesOthers held_in left_in name_in taken_in faults_in which self.old self.new }
    {
        match which {
            Which::Program => self.program.open(file),
            Which::Machine => self.machine.open(file),
            Which::Trace => self.trace.open(file),
            Which::Kernel => self.kernel.open(file),
        }
        Ok(())
    }

    fn read(&mut self, which: Which, buf: &mut [u8]) -> Result<usize, Failed>
        ensures fails { IsErr result ↔ Contains self.old.fails.items (counted (self.old.reads + 1)) }
        ensures number { self.new.reads ≡ counted (self.old.reads + 1) }
        ensures kept { self.new.fails.items ≡ self.old.fails.items }
        ensures same { self.new.most ≡ self.old.most }
        ensures count { IfOk result (λ n. n ≡ read_len self.old.most (length buf.old) (left_of (file_at self.old which))) }
        ensures faultless { OnOk result (faults_in self.new which ≡ faults_in self.old which) }
        ensures faults { OnErr result (faults_in self.new which ≡ counted (faults_in self.old which + 1)) }
        ensures within { IfOk result (λ n. n ≤ length buf.old) }
        ensures bytes { IfOk result (λ n. Takes n buf.new (left_in self.old which) (left_in self.new which)) }
        ensures end { result ≡ Ok 0 → 0 < length buf.old → IfSome (left_in self.old which) (λ rest. length rest ≡ 0) }
        ensures counted { IfOk result (λ n. taken_in self.new which ≡ counted (taken_in self.old which + n)) }
        ensures unopened { name_in self.old which ≡ None → IfOk result (λ n. n ≡ 0) }
        ensures err { OnErr result (left_in self.new which ≡ left_in self.old which) }
        ensures none_taken { OnErr result (taken_in self.new which ≡ taken_in self.old which) }
        ensures failed { OnErr result (Rose (faults_in self.old which) (faults_in self.new which)) }
        ensures named { name_in self.new which ≡ name_in self.old which }
        ensures rising { faults_in self.old which ≤ faults_in self.new which }
        ensures others { LeavesOthers held_in left_in name_in taken_in faults_in which self.old self.new }
    {
        let fails = self.is_to_fail();
        let most = self.most;
        match which {
            Which::Program => self.program.read_or_fail(fails, most, buf),
            Which::Machine => self.machine.read_or_fail(fails, most, buf),
            Which::Trace => self.trace.read_or_fail(fails, most, buf),
            Which::Kernel => self.kernel.read_or_fail(fails, most, buf),
        }
    }

    ghost nothing_taken = { nothing_taken_in };
}
