//! The assembler: the program that an assembly text spells, or the text's first fault.
//!
//! A text is UTF-8 and has lines. A line has an optional label with a colon, then optionally an instruction or a
//! directive, and a comment from `#` or `;` on. The crate `asm_statements` says what one line means; here `specs/Meaning`
//! says what program a text spells, and `specs/Faults` which fault a text has first.
#![tactic(auto)]

mod assembling;
mod building;
mod faults;
mod items;
mod labels;
mod lines;
mod named;
mod pieces;
mod printing;
mod reading;
mod unknown;
mod verdicts;

pub use assembling::assemble;
pub use faults::{AsmFault, AsmKind};
pub use printing::print;

pub mod evidence;
