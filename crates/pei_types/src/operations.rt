//! PEI operations, and the states of copies in the caches.

/// The operation of a PEI. `word` is the word of the block that it changes, 0 to 7.
#[derive(Clone, Copy, PartialEq, Eq, Debug)]
pub enum Op {
    /// Adds 1 to the word, modulo 2^64.
    Inc { word: u8 },
    /// Makes the word the smaller of itself and the operand, unsigned.
    Min { word: u8 },
    /// Looks a key up in a bucket of three pairs.
    Probe,
    /// Makes a byte of each 32-bit lane, shifted down.
    Hist,
    /// The dot product of 16 signed lanes.
    Dot,
}

/// Whether an operation only reads its block.
#[derive(Clone, Copy, PartialEq, Eq, Debug)]
pub enum Mode {
    Reader,
    Writer,
}

/// The operands of a PEI. Unused ones are 0.
#[derive(Clone, Copy, PartialEq, Eq, Debug)]
pub struct Operands(pub [u64; 4]);

/// The reply of a PEI: the first `len` words. Unused ones are 0.
#[derive(Clone, Copy, PartialEq, Eq, Debug)]
pub struct Reply {
    pub words: [u64; 2],
    pub len: u8,
}

/// Where a PEI is executed.
#[derive(Clone, Copy, PartialEq, Eq, Debug)]
pub enum Place {
    Host,
    Memory,
}

/// The MESI state of a block in a private cache.
#[derive(Clone, Copy, PartialEq, Eq, Debug)]
pub enum Letter {
    M,
    E,
    S,
    I,
}

/// The state of a block in the last-level cache.
#[derive(Clone, Copy, PartialEq, Eq, Debug)]
pub enum Mark {
    Absent,
    Clean,
    Dirty,
}
