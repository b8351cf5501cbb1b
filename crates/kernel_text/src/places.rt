//! Places in a text.

ghost use Rattle.std.specs.Prelude.{◌≡◌, ◌<◌, ◌+◌};
ghost use Rattle.kernel_text.specs.Tokens.{at_column};
ghost use Rattle.kernel_text.specs.Characters.{fault_at};
ghost use Rattle.kernel_text.specs.Lexemes.{place_behind};

use crate::faults::{KernelFault, KernelKind};

/// A line, and the column of a byte in it, both counted from 1.
#[derive(Clone, Copy)]
pub(crate) struct Place {
    pub(crate) line: u32,
    pub(crate) column: u32,
}

impl Place {
    /// The place of the first byte.
    pub(crate) const START: Place = Place { line: 1, column: 1 };

    /// A fault at this place.
    pub(crate) fn fault(self, kind: KernelKind) -> KernelFault
        ensures { result ≡ fault_at self kind }
    {
        KernelFault {
            line: self.line,
            column: self.column,
            kind,
        }
    }

    /// The place so many bytes further on in the same line.
    pub(crate) fn further(self, bytes: usize) -> Place
        requires { self.column + bytes < 4294967296 }
        ensures { result ≡ at_column self bytes }
    {
        Place {
            line: self.line,
            column: self.column + bytes as u32,
        }
    }

    /// The place behind what begins with this byte and takes so many: a line feed, or a part of a line.
    pub(crate) fn behind(self, first: u8, bytes: usize) -> Place
        requires column { self.column + bytes < 4294967296 }
        requires line { self.line + 1 < 4294967296 }
        ensures { result ≡ place_behind self first bytes }
    {
        if first == b'\n' {
            return Place {
                line: self.line + 1,
                column: 1,
            };
        }
        self.further(bytes)
    }
}
