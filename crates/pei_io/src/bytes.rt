//! Bytes of our own.

ghost use Rattle.std.specs.Prelude.{◌≡◌};

use std::marker::Model;

/// The bytes of a file. Contracts see them as a list.
#[derive(Drop)]
pub struct Bytes {
    content: Vec<u8>,
}

impl Model for Bytes {
    ghost use Rattle.std.specs.Prelude.{List, ℕ};

    ghost Value = { List ℕ };

    ghost view = { λ b. b.content.items };
}

impl Bytes {
    /// These bytes.
    pub(crate) fn new(content: Vec<u8>) -> Bytes
        ensures { result ≡ content.items }
    {
        Bytes { content }
    }

    /// The bytes.
    pub fn as_slice(&self) -> &[u8]
        ensures { result.now ≡ self.now }
    {
        self.content.as_slice()
    }
}
