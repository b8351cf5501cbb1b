//! What peisim reads and writes: the traits of its outside objects, objects in memory, thin adapters over std, and
//! the gate that threads pass.
#![tactic(auto)]

mod bytes;
mod disk;
mod files;
mod gates;
pub mod laws;
mod mem_file;
mod mem_files;
mod mem_sink;
mod reading;
mod sink;
mod standard_output;
mod sure;
mod tallies;
mod text;

pub use bytes::Bytes;
pub use disk::DiskFiles;
pub use files::{Failed, Files, Which};
pub use gates::{FreeGate, Gate};
pub use mem_files::MemFiles;
pub use mem_sink::MemSink;
pub use reading::{ReadEnd, read_limited};
pub use sink::{Sink, write_all};
pub use standard_output::OutSink;
pub use sure::{SureFiles, SureSink};
pub use text::Text;

#[cfg(test)]
mod tests;
