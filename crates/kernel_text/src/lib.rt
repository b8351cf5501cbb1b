//! The text of a kernel: its tree, or the text's first fault.
#![tactic(auto)]

mod actions;
mod agenda;
mod characters;
mod cursor;
mod declarations;
pub mod evidence;
mod expressions;
mod faults;
mod kinds;
pub mod laws;
mod names;
mod numbers;
mod parsing;
mod parts;
mod places;
mod reader;
mod senses;
mod statements;
mod stop;
mod table;
mod tokens;
mod tree;
mod trials;

pub use faults::{KernelFault, KernelKind};
pub use parsing::parse;
pub use tree::{Decl, Decls, Expr, KernelTree, Operator, Stmt, Stmts, Words};
