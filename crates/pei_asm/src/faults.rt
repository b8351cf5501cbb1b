//! The faults of an assembly text.

ghost use Rattle.std.specs.Prelude.{◌≡◌};
ghost use Rattle.pei_asm.specs.declared.faults.AsmKind.TheVariants as kind;

/// What is wrong. A line is tried for the kinds in this order, up to `DoubleEntry`.
#[derive(Clone, Copy, PartialEq, Eq, Debug)]
pub enum AsmKind {
    /// A byte of the line belongs to no UTF-8 character.
    NotUtf8,
    /// A character begins no token, or a letter stands right behind a number.
    BadChar,
    /// An earlier line defines the label.
    DoubleLabel,
    /// What stands in the place of the instruction is no mnemonic and no directive.
    UnknownName,
    /// The operands do not fit the mnemonic or the directive.
    WrongOperands,
    /// A number is below -2^63 or above 2^64 - 1.
    NumberTooLarge,
    /// A reply of two words has no second register, or four operands do not have their registers.
    RegisterRange,
    /// It would be the 65,537th instruction.
    TooManyInstructions,
    /// The core, or `*`, has an entry already.
    DoubleEntry,
    /// No line defines the label. Only a text without the other faults can have this one.
    UnknownLabel,
    /// Memory ran out.
    OutOfMemory,
}

/// A fault, with its line and the column of a byte in it, both counted from 1. Want of memory has no place: both are 0.
#[derive(Clone, Copy, PartialEq, Eq, Debug)]
pub struct AsmFault {
    pub line: u32,
    pub column: u32,
    pub kind: AsmKind,
}

/// Want of memory, which has no place.
pub(crate) fn out_of_memory() -> AsmFault
    ensures { result ≡ record { line = 0; column = 0; kind = kind.OutOfMemory } }
{
    AsmFault {
        line: 0,
        column: 0,
        kind: AsmKind::OutOfMemory,
    }
}
