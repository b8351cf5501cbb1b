//! The top calls of peisim: what a command answers and writes.
#![tactic(auto)]

mod checking;
mod ends;
mod faults;
mod outputs;
mod printing;
mod reading;
mod running;
mod serving;
mod status;
mod threading;
mod verdicts;
mod words;
mod writing;

pub use ends::{PlainEnd, RunEnd};
pub use faults::{Fault, status_of, write_fault};
pub use machine_file::MachineFault;
pub use pei_loader::LoadFault;
pub use serving::plain;
pub use threading::threaded;
pub use trace_check::Verdict;
