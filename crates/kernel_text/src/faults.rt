//! The faults of a kernel's text.

ghost use Rattle.std.specs.Prelude.{◌≡◌};
ghost use Rattle.kernel_text.specs.declared.faults.KernelKind.TheVariants as kind;

/// What is wrong. Each token is tried for the kinds from `Syntax` to `TooLong` in this order.
#[derive(Clone, Copy, PartialEq, Eq, Debug)]
pub enum KernelKind {
    /// A byte begins no token, a number runs into a letter or `_`, or a byte is above 127.
    BadChar,
    /// A number is 2^64 or more.
    NumberTooLarge,
    /// The token, or the end of the text, does not continue the grammar.
    Syntax,
    /// The seventeenth open bracket, parenthesis or brace.
    TooNested,
    /// A declared name was declared before.
    DoubleName,
    /// A name in a term, or one of the operands of `dot`, is neither declared nor a variable that is known there.
    Unknown,
    /// The name is of another kind than its place wants.
    WrongKind,
    /// The variable of a loop is assigned or counted again inside the loop.
    LoopVariable,
    /// The ninth variable.
    TooManyVariables,
    /// A size, a loop's number of turns or a shift is not among those that it may be.
    BadSize,
    /// A table has more numbers than its size.
    TooManyValues,
    /// The declared sizes together exceed 32,768.
    TooManyWords,
    /// The depth of an outermost expression exceeds 4.
    TooDeep,
    /// More than 4,000 statements, operators and terms have begun.
    TooLong,
    /// Memory ran out.
    OutOfMemory,
}

/// A fault, with its line and the column of a byte in it, both counted from 1. Want of memory has no place: both are 0.
#[derive(Clone, Copy, PartialEq, Eq, Debug)]
pub struct KernelFault {
    pub line: u32,
    pub column: u32,
    pub kind: KernelKind,
}

/// Want of memory.
pub(crate) fn out_of_memory() -> KernelFault
    ensures kind { result.kind ≡ kind.OutOfMemory }
    ensures line { result.line ≡ 0 }
    ensures column { result.column ≡ 0 }
{
    KernelFault {
        line: 0,
        column: 0,
        kind: KernelKind::OutOfMemory,
    }
}
