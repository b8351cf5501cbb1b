//! Machine files: the sizes of a machine as a TOML document, and the built-in machines.
//!
//! A file is read as an untyped table, and what the table says is judged by the one table of keys.
#![tactic(auto)]

mod faults;
mod keys;
mod machines;
mod reading;

pub use faults::MachineFault;
pub use keys::Key;
pub use machines::built_in;
pub use reading::read_machine;

pub mod evidence;
#[cfg(test)]
mod tests;
