//! What a core does next.

use pei_types::{Call, EndKind, PeiId};

/// What a core does next.
#[derive(Clone, Copy, PartialEq, Eq, Debug)]
pub enum CoreNext {
    /// It makes this call, and goes on once the machine answers it.
    Call(Call),
    /// It waits: its next instruction reads or writes `register`, which the reply of `pei` is to fill.
    Busy { register: u8, pei: PeiId },
    /// It has ended.
    Ended(EndKind),
}
