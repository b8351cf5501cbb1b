//! Why a program is not loaded.

/// Why a program was not loaded.
#[derive(Clone, Copy, PartialEq, Eq, Debug)]
pub enum LoadFault {
    /// A line of initial words begins at this address in bytes, which is no multiple of 8.
    DataMisaligned { addr: u64 },
    /// An initial word has this address in bytes, which is past the end of memory.
    DataOutOfRange { addr: u64 },
    /// An initial word has this address in bytes, at which an earlier line gives a word too.
    DataOverlap { addr: u64 },
    /// An ask begins at this address in bytes, which is no multiple of 8, or it has a word past the end of memory.
    ShowOutOfRange { addr: u64 },
    /// This core of the machine has no entry, and each lower one has.
    NoEntry { core: u8 },
    /// Memory ran out. This says nothing of the program.
    OutOfMemory,
}
