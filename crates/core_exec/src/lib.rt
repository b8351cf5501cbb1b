//! One core of the simulated machine, which executes the instructions of its program up to its next call.
//!
//! A core executes in order. It asks the machine for loads, stores, PEIs, fences, outputs and its end by calls, and
//! takes in the events that answer them. A PEI does not hold it up: a register that the reply fills is busy from the
//! issue of the PEI until the PEI has acted, and only an instruction that reads or writes such a register waits. PEIs
//! and their fence follow Ahn, Yoo, Mutlu and Choi, "PIM-Enabled Instructions", ISCA 2015.
#![tactic(auto)]

mod accesses;
mod cores;
mod effects;
mod next;
mod states;
mod waits;

pub use cores::Core;
pub use next::CoreNext;
