//! A program from a number.
#![tactic(auto)]

mod generating;

pub use generating::generate;

pub mod evidence;
