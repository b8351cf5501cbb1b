//! What one line of assembly says: its tokens, its label, and its instruction or directive with the operands; and what is
//! wrong with a line by itself.
//!
//! `specs/Tokens` says what the tokens of a line are, `specs/Mnemonics` has the one table of mnemonics and directives with
//! their operands and what each adds to a program, `specs/Statements` says what a line means, and `specs/LineFaults` where
//! each kind of fault stands first.
#![tactic(auto)]

mod mnemonics;
mod numbers;
mod operands;
mod registers;
mod tokens;
mod trials;

pub use mnemonics::Mnemonic;
pub use numbers::value_of_number;
pub use operands::{SourceStatement, statement_in};
pub use registers::{is_label, register_of};
pub use tokens::{Lexeme, Word, tokens_of};
pub use trials::{
    bad_char, body_of, label_of, not_utf8, number_too_large, register_range, unknown_name,
};
