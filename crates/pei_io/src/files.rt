//! Files, as peisim reads them.

ghost use Rattle.std.specs.Prelude.{◌≡◌, ◌≤◌, ◌+◌, ◌<◌, ℕ, List, Option, None, Some, Ok, length, OnOk, OnErr, IfOk, IfSome, take};
ghost use Rattle.pei_io.specs.declared.files.Which.{Which};
ghost use Rattle.pei_io.specs.Outside.{Rose, counted, LeavesOthers, Takes};

use crate::text::Text;

/// A call of an outside object failed.
#[derive(Clone, Copy, PartialEq, Eq, Debug)]
pub struct Failed;

/// Which of a command's files it is.
#[derive(Clone, Copy, PartialEq, Eq, Debug)]
pub enum Which {
    Program,
    Machine,
    Trace,
    Kernel,
}

/// Up to four files, each opened once and read from its front.
pub trait Files {
    /// The whole bytes of a file of this name, where the object tells them. No call changes it.
    ghost held: { Self → Which → List ℕ → Option (List ℕ) };

    /// The bytes that are left of a file, where the object tells them.
    ghost left: { Self → Which → Option (List ℕ) };

    /// The name that was opened.
    ghost name: { Self → Which → Option (List ℕ) };

    /// How many bytes reads of the file gave, up to 2^64 - 1.
    ghost taken: { Self → Which → ℕ };

    /// How often a call on the file failed, up to 2^64 - 1.
    ghost faults: { Self → Which → ℕ };

    /// How often `read` was called, over all files, up to 2^64 - 1.
    ghost reads: { Self → ℕ };

    /// Opens a file that was not opened before. A failure is counted.
    fn open_file(&mut self, which: Which, file: Text) -> Result<(), Failed>
        requires { name self.old which ≡ None }
        ensures named { name self.new which ≡ Some file }
        ensures ok { OnOk result (left self.new which ≡ held self.old which file) }
        ensures failed { OnErr result (Rose (faults self.old which) (faults self.new which)) }
        ensures taken { taken self.new which ≡ taken self.old which }
        ensures rising { faults self.old which ≤ faults self.new which }
        ensures reads { reads self.new ≡ reads self.old }
        ensures others { LeavesOthers held left name taken faults which self.old self.new };

    /// Puts bytes from the front of what is left at the front of `buf`, and tells how many. An `Ok` of 0 for a buffer
    /// that is not empty means the end. A failure takes nothing and is counted. A file that was not opened is empty.
    fn read(&mut self, which: Which, buf: &mut [u8]) -> Result<usize, Failed>
        ensures within { IfOk result (λ n. n ≤ length buf.old) }
        ensures bytes { IfOk result (λ n. Takes n buf.new (left self.old which) (left self.new which)) }
        ensures end { result ≡ Ok 0 → 0 < length buf.old → IfSome (left self.old which) (λ rest. length rest ≡ 0) }
        ensures counted { IfOk result (λ n. taken self.new which ≡ counted (taken self.old which + n)) }
        ensures unopened { name self.old which ≡ None → IfOk result (λ n. n ≡ 0) }
        ensures err { OnErr result (left self.new which ≡ left self.old which) }
        ensures none_taken { OnErr result (taken self.new which ≡ taken self.old which) }
        ensures failed { OnErr result (Rose (faults self.old which) (faults self.new which)) }
        ensures named { name self.new which ≡ name self.old which }
        ensures rising { faults self.old which ≤ faults self.new which }
        ensures reads { reads self.new ≡ counted (reads self.old + 1) }
        ensures others { LeavesOthers held left name taken faults which self.old self.new };

    /// Of a file that was not opened nothing was read.
    ghost nothing_taken: { (files : Self) (which : Which) → name files which ≡ None → taken files which ≡ 0 };
}
