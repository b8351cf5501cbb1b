//! Runs of programs by threads: one thread for each core, over the banks of one machine.
//!
//! Each core's thread visits the lanes of its core in turn. A step on the directory is one atomic operation, without the
//! slot of any bank. For an event the thread takes the slot of the bank in which the event stands, asks the bank whether
//! the actor has to wait, draws a stamp, makes the event, and gives the slot back. The journal of the run is all events by
//! their stamps.
//!
//! PEIs, their fence and the PIM directory follow Ahn, Yoo, Mutlu and Choi, "PIM-Enabled Instructions", ISCA 2015. That the
//! directory is a table of words that threads step on, and the slots of banks, are this project's own.
#![tactic(auto)]

mod chores;
mod cores;
mod own_peis;
mod runs;
mod slots;
mod turns;
mod visits;

pub use runs::{RunParts, run_threads};
