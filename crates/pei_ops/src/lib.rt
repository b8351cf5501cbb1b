//! The five PEI operations on one block of 64 bytes.
//!
//! The operations follow Ahn, Yoo, Mutlu and Choi, "PIM-Enabled Instructions", ISCA 2015. Words are numbers of 64
//! bits, and nothing here takes memory.
#![tactic(auto)]

mod bucket;
mod dot_product;
mod histogram;
mod lanes;
mod operations;
mod replies;
mod traps;
mod words;

pub use operations::{apply, mode, writes};
pub use traps::operand_fits;

#[cfg(test)]
mod tests;
