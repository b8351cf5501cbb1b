//! What the thread of a core knows of its core.

ghost use Rattle.std.specs.Prelude.{◌≡◌};
ghost use Rattle.fabric.specs.Looks.{is_clear};

use pei_types::{Lane, MachineSpec, PeiId};

/// What a core's own events say of it, as its thread keeps it: where banks are run side by side, no bank knows this.
///
/// Stamps are places in the journal of all banks, counted from 0.
#[derive(Clone, Copy, PartialEq, Eq, Debug)]
pub struct CoreLook {
    /// The lowest of its lanes, which are 1 to `buffer`, that holds no PEI; `None` where each holds one.
    pub free: Option<Lane>,
    /// How many PEIs it has issued, which is the number of its next.
    pub issues: u32,
    /// Its first PEI that has not entered, in the order of issue.
    pub first_unentered: Option<PeiId>,
    /// Its first PEI that has not left, in the order of issue.
    pub first_unfinished: Option<PeiId>,
    /// The stamp of the begin of its fence, where that is on.
    pub fence: Option<u32>,
    /// Bit k says that bank k was visited since the fence began, and then had no unfinished writer whose issue has a smaller stamp than
    /// `fence`. Bits of banks that the machine lacks are not read.
    pub cleared: u8,
}

impl CoreLook {
    /// Whether the bit of every bank is set.
    pub(crate) fn is_clear(&self, machine: &MachineSpec) -> bool
        ensures { result ≡ is_clear machine.now self.now }
    {
        let past = 1u32 << machine.banks;
        self.cleared as u32 % past + 1 == past
    }
}
