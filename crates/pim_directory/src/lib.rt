//! The words of the PIM directory: one word has the claims of one entry.
//!
//! The readers that hold the entry are in bits 0 to 7, the writer that holds it is in bit 8, and the writers that wait
//! are in bits 16 to 23. A reader is granted where no writer holds the entry or waits, a writer where nobody holds it.
//! The directory follows Ahn, Yoo, Mutlu and Choi, "PIM-Enabled Instructions", ISCA 2015: each entry is a
//! reader-writer lock. How its words are laid out is this project's own.
#![tactic(auto)]

mod plain;
mod words;

pub use plain::PlainDirectory;
pub use words::{announce_word, grant_word, release_word};

#[cfg(test)]
mod tests;
