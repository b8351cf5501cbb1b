//! Why no tree is built.

ghost use Rattle.std.specs.Prelude.{◌≡◌};
ghost use Rattle.kernel_text.specs.declared.stop.Stop.TheVariants.{Memory};

use pei_types::OutOfMemory;
use std::alloc::{AllocError, AllocFailed};

#[derive(Clone, Copy)]
pub(crate) enum Stop {
    /// Memory ran out.
    Memory,
    /// The tokens do not continue the grammar.
    Misfit,
}

impl From<OutOfMemory> for Stop {
    ghost from_gives = { λ _ e. e ≡ Memory };

    fn from(_e: OutOfMemory) -> Stop {
        Stop::Memory
    }
}

impl From<AllocError> for Stop {
    ghost from_gives = { λ _ e. e ≡ Memory };

    fn from(_e: AllocError) -> Stop {
        Stop::Memory
    }
}

impl<T: Drop> From<AllocFailed<T>> for Stop {
    ghost from_gives = { λ _ e. e ≡ Memory };

    fn from(_e: AllocFailed<T>) -> Stop {
        Stop::Memory
    }
}
