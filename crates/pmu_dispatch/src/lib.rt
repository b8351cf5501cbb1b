//! The choice of an actor's next step: which coherence message, access or stall comes next, from looks at the caches,
//! the PEIs and the vault queues.
//!
//! The order of the messages, and the rules of races and stalls, are this project's own. From the paper of PIM-enabled
//! instructions (Ahn, Yoo, Mutlu and Choi, ISCA 2015) it is that before memory executes a PEI, the block is
//! back-invalidated for a writer and written back for a reader.
#![tactic(auto)]

mod accesses;
mod lanes;
mod looks;
mod wanting;

pub use accesses::{AccessNext, access_next};
pub use lanes::{LaneNext, lane_next};
pub use looks::{Victim, WantLooks};
pub use wanting::want_next;

#[cfg(test)]
mod tests;
