//! The caches of a machine above its memory: the private caches of the cores, the last-level cache that they share, and
//! the vaults, kept coherent by messages.
//!
//! A bus is seen as the lines of all caches without their contents, and one memory: the content of each block, as all cores
//! see it. Copies and lines may run ahead of the vaults; that they hold this one memory is what each call keeps. That
//! caches are kept coherent with PEIs in memory by back-invalidation and back-writeback follows Ahn, Yoo, Mutlu and Choi,
//! "PIM-Enabled Instructions", ISCA 2015; the table of messages is this project's own.
#![tactic(auto)]

mod accesses;
mod bus;
pub mod laws;
mod looking;
mod messages;
#[cfg(test)]
mod tests;

pub use bus::Bus;
