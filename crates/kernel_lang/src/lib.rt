//! The compiler of kernels: the program of a kernel's text, or the text's first fault.
//!
//! A variable has a register of its own. An expression is computed in the registers from 8 on, with a variable read where it
//! stands. A `pfence` stands before an access of an array only where an `inc` or a `min` may be on its way, and before the end
//! where one may. A loop has one compare and one branch, behind its body, since it turns at least once.
#![tactic(auto)]

mod actions;
mod compiling;
mod declarations;
mod emitter;
pub mod evidence;
mod expressions;
mod homes;
mod statements;
mod variables;

pub use compiling::compile;
