//! The plain types of peisim, and the definitions that the contracts of all its crates cite.
//!
//! The machine follows Ahn, Yoo, Mutlu and Choi, "PIM-Enabled Instructions", ISCA 2015, sections 3 and 4. A block has
//! 64 bytes, eight 64-bit words; words are numbers modulo 2^64, addresses are in bytes. `specs/` has the definitions.
#![tactic(auto)]

mod calls;
mod clauses;
mod events;
mod folding;
mod identifiers;
mod inflight_looks;
mod instructions;
mod lines;
mod machines;
mod operations;
mod programs;
mod stamps;

pub use calls::{Call, EndKind, TrapCause};
pub use clauses::Clause;
pub use events::{Event, EventKind};
pub use folding::{block_of, fold};
pub use identifiers::{Actor, Block, BlockNo, CoreId, Lane, OutOfMemory, PeiId};
pub use inflight_looks::{PeiLook, Phase, StallCause};
pub use instructions::{Ask, Instr};
pub use lines::{CopyLine, HeldLine};
pub use machines::{CoreConfig, MachineSpec, Policy3};
pub use operations::{Letter, Mark, Mode, Op, Operands, Place, Reply};
pub use programs::{Image, Program};
pub use stamps::{Banks, Stamped};

pub mod evidence;
