//! What the threads of a run owe the table and the banks that they share, told from logs alone.
#![tactic(auto)]

pub mod evidence;
pub mod laws;
