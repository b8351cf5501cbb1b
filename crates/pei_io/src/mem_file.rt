//! One file in memory.

ghost use Rattle.std.specs.Prelude.{◌≡◌, ◌≤◌, ◌<◌, ◌+◌, ◌↔◌, length, take, drop, None, Some, Ok, OnOk, IfOk, OnErr, IsErr, IsTrue};
ghost use Rattle.pei_io.specs.Outside.{counted, Rose, Takes};
ghost use Rattle.pei_io.specs.Memory.{left_of, read_len, taken_of};

use crate::files::Failed;
use crate::text::Text;
use pei_types::OutOfMemory;
use std::alloc::Global;
use std::marker::Model;

/// The bytes of a file, how far they were read, the name under which it was opened, and how many calls on it failed.
#[derive(Drop)]
pub(crate) struct MemFile {
    content: Vec<u8>,
    name: Option<Text>,
    position: usize,
    faults: u64,
}

impl Model for MemFile {
    ghost use Rattle.std.specs.Prelude.{◌≡◌, ◌≤◌, length, IfNone};
    ghost use Rattle.pei_io.specs.Memory.{MemoryFile};

    ghost Value = { MemoryFile };

    ghost view = { λ f. record { content = f.content.items; name = f.name; position = f.position; faults = f.faults } };

    ghost invariant = { λ f. (f.position ≤ length f.content.items) × IfNone f.name (f.position ≡ 0) };
}

impl MemFile {
    /// A file of these bytes, which is not open.
    pub(crate) fn make(alloc: Global, content: &[u8]) -> Result<MemFile, OutOfMemory>
        ensures { IfOk result (λ f. f ≡ record { content = content.now; name = None; position = 0; faults = 0 }) }
    {
        match content.to_vec(alloc) {
            Ok(content) => Ok(MemFile {
                content,
                name: None,
                position: 0,
                faults: 0,
            }),
            Err(_) => Err(OutOfMemory),
        }
    }

    /// Opens it under a name.
    pub(crate) fn open(&mut self, name: Text)
        requires { self.old.name ≡ None }
        ensures opened { self.new ≡ record self.old { name = Some name } }
        ensures unread { self.old.position ≡ 0 }
    {
        self.name = Some(name);
    }

    /// Moves up to `most` bytes from the front of what is left.
    pub(crate) fn read(&mut self, most: u32, buf: &mut [u8]) -> usize
        ensures count { result ≡ read_len most (length buf.old) (left_of self.old) }
        ensures bytes { take result buf.new ≡ take result (left_of self.old) }
        ensures left { left_of self.new ≡ drop result (left_of self.old) }
        ensures moved { self.new ≡ record self.old { position = self.old.position + result } }
        ensures unopened { self.old.name ≡ None → result ≡ 0 }
    {
        if self.name.is_none() {
            return 0;
        }
        let rest = &self.content[self.position..];
        let count = rest.len().min(buf.len()).min(most as usize);
        buf[..count].copy_from_slice(&rest[..count]);
        self.position += count;
        count
    }

    /// Counts a call that failed.
    pub(crate) fn fail(&mut self)
        ensures counted { self.new ≡ record self.old { faults = counted (self.old.faults + 1) } }
        ensures rising { self.old.faults ≤ self.new.faults }
    {
        self.faults = self.faults.saturating_add(1);
    }

    /// Reads, or counts a failure.
    pub(crate) fn read_or_fail(
        &mut self,
        fails: bool,
        most: u32,
        buf: &mut [u8],
    ) -> Result<usize, Failed>
        requires { 1 ≤ most }
        ensures fails { IsErr result ↔ IsTrue fails }
        ensures within { IfOk result (λ n. n ≤ length buf.old) }
        ensures bytes { IfOk result (λ n. Takes n buf.new (Some (left_of self.old)) (Some (left_of self.new))) }
        ensures end { result ≡ Ok 0 → 0 < length buf.old → length (left_of self.old) ≡ 0 }
        ensures counted { IfOk result (λ n. taken_of self.new ≡ counted (taken_of self.old + n)) }
        ensures unopened { self.old.name ≡ None → IfOk result (λ n. n ≡ 0) }
        ensures err { OnErr result ((left_of self.new ≡ left_of self.old) × (taken_of self.new ≡ taken_of self.old)) }
        ensures failed { OnErr result (Rose self.old.faults self.new.faults) }
        ensures rising { self.old.faults ≤ self.new.faults }
        ensures same { (self.new.content ≡ self.old.content) × (self.new.name ≡ self.old.name) }
        ensures count { IfOk result (λ n. n ≡ read_len most (length buf.old) (left_of self.old)) }
        ensures faultless { OnOk result (self.new.faults ≡ self.old.faults) }
        ensures faults { OnErr result (self.new.faults ≡ counted (self.old.faults + 1)) }
    {
        if fails {
            self.fail();
            return Err(Failed);
        }
        Ok(self.read(most, buf))
    }
}
