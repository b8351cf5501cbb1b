//! The lines of caches.

use crate::identifiers::{Block, BlockNo};
use crate::operations::{Letter, Mark};

/// A line of a private cache: a core's copy of a block, with its letter and its content.
#[derive(Clone, Copy, PartialEq, Eq, Debug)]
pub struct CopyLine {
    pub block: BlockNo,
    pub letter: Letter,
    pub content: Block,
}

/// A line of the last-level cache: its copy of a block, with its mark and its content.
#[derive(Clone, Copy, PartialEq, Eq, Debug)]
pub struct HeldLine {
    pub block: BlockNo,
    pub mark: Mark,
    pub content: Block,
}
