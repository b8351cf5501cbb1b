//! The report of a run, written line by line from a buffer on the stack.
#![tactic(auto)]

mod asks;
mod cores;
mod ends;
mod lines;
mod statistics;
mod writing;

pub use writing::write_report;
