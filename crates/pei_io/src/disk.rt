//! Real files.

ghost use Rattle.pei_io.specs.Tally.{std_left};
ghost use Rattle.std.specs.Io.KnownBytes.{ReadConsumes};
ghost use Rattle.std.specs.Prelude.{◌≡◌, ◌≤◌, length, IfOk};

use crate::files::{Failed, Files, Which};
use crate::tallies::Tallies;
use crate::text::Text;
use std::io::Read;
use std::{fs, io, rt};

/// Real files, over std. They tell their names, how many bytes were read of each, how often std failed on each, whatever
/// the cause, and how often they were read; they tell no bytes.
#[derive(Drop)]
pub struct DiskFiles<'a, R: rt::Files> {
    runtime: &'a R,
    program: Option<R::File>,
    machine: Option<R::File>,
    trace: Option<R::File>,
    kernel: Option<R::File>,
    tallies: Tallies,
    reads: u64,
}

impl<'a, R: rt::Files> DiskFiles<'a, R> {
    ghost use Rattle.pei_io.specs.declared.files.Which.{Which};
    ghost use Rattle.pei_io.specs.Tally.{name_told, faults_told};
    ghost use Rattle.std.specs.Prelude.{None};

    /// Files of this runtime, none of which is open.
    pub fn make(runtime: &'a R) -> DiskFiles<'a, R>
        ensures unopened { (which : Which) → name_told result.tallies which ≡ None }
        ensures faultless { (which : Which) → faults_told result.tallies which ≡ 0 }
    {
        DiskFiles {
            runtime,
            program: None,
            machine: None,
            trace: None,
            kernel: None,
            tallies: Tallies::new(),
            reads: 0,
        }
    }
}

/// Reads from a file, if there is one.
fn read_some<F: Read>(file: &mut Option<F>, buf: &mut [u8]) -> io::Result<usize>
    ensures within { IfOk result (λ n. n ≤ length buf.old) }
    ensures passed { ReadConsumes (std_left F.remaining file.old) (std_left F.remaining file.new) result buf.new }
{
    match file {
        Some(file) => file.read(buf),
        None => Ok(0),
    }
}

impl<'a, R: rt::Files> Files for DiskFiles<'a, R> {
    ghost use Rattle.pei_io.specs.Outside.{Rose, counted, LeavesOthers, Takes};
    ghost use Rattle.pei_io.specs.Tally.{none_held, none_left, name_told, taken_told, faults_told, nothing_taken_told, of_file, std_left};
    ghost use Rattle.std.specs.Io.KnownBytes.{ReadConsumes};
    ghost use Rattle.std.specs.Prelude.{◌≡◌, ◌≢◌, ◌≤◌, ◌+◌, None, Some, length, IfOk, IsSome, OnOk, OnErr};

    ghost held = { λ s. none_held s.tallies };

    ghost left = { λ s. none_left s.tallies };

    ghost name = { λ s. name_told s.tallies };

    ghost taken = { λ s. taken_told s.tallies };

    ghost faults = { λ s. faults_told s.tallies };

    ghost reads = { λ s. s.reads };

    fn open_file(&mut self, which: Which, file: Text) -> Result<(), Failed>
        requires { name_told self.old.tallies which ≡ None }
        ensures named { name_told self.new.tallies which ≡ Some file }
        ensures ok { OnOk result (none_left self.new.tallies which ≡ none_held self.old.tallies which file) }
        ensures opened { OnOk result (IsSome (of_file self.new.program self.new.machine self.new.trace self.new.kernel which)) }
        ensures failed { OnErr result (Rose (faults_told self.old.tallies which) (faults_told self.new.tallies which)) }
        ensures faultless { OnOk result (faults_told self.new.tallies which ≡ faults_told self.old.tallies which) }
        ensures taken { taken_told self.new.tallies which ≡ taken_told self.old.tallies which }
        ensures rising { faults_told self.old.tallies which ≤ faults_told self.new.tallies which }
        ensures reads { self.new.reads ≡ self.old.reads }
        ensures others { LeavesOthers (λ s. none_held s.tallies) (λ s. none_left s.tallies) (λ s. name_told s.tallies) (λ s. taken_told s.tallies) (λ s. faults_told s.tallies) which self.old self.new }
    {
        let opened = fs::open(self.runtime, file.as_str());
        self.tallies.open(which, file);
        let Ok(opened) = opened else {
            self.tallies.fail(which);
            return Err(Failed);
        };
        match which {
            Which::Program => self.program = Some(opened),
            Which::Machine => self.machine = Some(opened),
            Which::Trace => self.trace = Some(opened),
            Which::Kernel => self.kernel = Some(opened),
        }
        Ok(())
    }

    fn read(&mut self, which: Which, buf: &mut [u8]) -> Result<usize, Failed>
        ensures within { IfOk result (λ n. n ≤ length buf.old) }
        ensures passed { name_told self.old.tallies which ≢ None → ReadConsumes (std_left R.File.remaining (of_file self.old.program self.old.machine self.old.trace self.old.kernel which)) (std_left R.File.remaining (of_file self.new.program self.new.machine self.new.trace self.new.kernel which)) result buf.new }
        ensures bytes { IfOk result (λ n. Takes n buf.new (none_left self.old.tallies which) (none_left self.new.tallies which)) }
        ensures counted { IfOk result (λ n. taken_told self.new.tallies which ≡ counted (taken_told self.old.tallies which + n)) }
        ensures unopened { name_told self.old.tallies which ≡ None → IfOk result (λ n. n ≡ 0) }
        ensures err { OnErr result (none_left self.new.tallies which ≡ none_left self.old.tallies which) }
        ensures none_taken { OnErr result (taken_told self.new.tallies which ≡ taken_told self.old.tallies which) }
        ensures failed { OnErr result (Rose (faults_told self.old.tallies which) (faults_told self.new.tallies which)) }
        ensures faultless { OnOk result (faults_told self.new.tallies which ≡ faults_told self.old.tallies which) }
        ensures named { name_told self.new.tallies which ≡ name_told self.old.tallies which }
        ensures rising { faults_told self.old.tallies which ≤ faults_told self.new.tallies which }
        ensures reads { self.new.reads ≡ counted (self.old.reads + 1) }
        ensures others { LeavesOthers (λ s. none_held s.tallies) (λ s. none_left s.tallies) (λ s. name_told s.tallies) (λ s. taken_told s.tallies) (λ s. faults_told s.tallies) which self.old self.new }
    {
        self.reads = self.reads.saturating_add(1);
        if !self.tallies.is_open(which) {
            return Ok(0);
        }
        let count = match which {
            Which::Program => read_some(&mut self.program, buf),
            Which::Machine => read_some(&mut self.machine, buf),
            Which::Trace => read_some(&mut self.trace, buf),
            Which::Kernel => read_some(&mut self.kernel, buf),
        };
        let Ok(count) = count else {
            self.tallies.fail(which);
            return Err(Failed);
        };
        self.tallies.take(which, count);
        Ok(count)
    }

    ghost nothing_taken = { λ s. nothing_taken_told s.tallies };
}
