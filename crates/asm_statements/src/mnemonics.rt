//! The table of mnemonics and directives: the name of each, and the shapes of its operands.

ghost use Rattle.std.specs.Prelude.{◌≡◌, ℕ, List, is_some, map};
ghost use Rattle.asm_statements.specs.Mnemonics.{row_of, instruction_in};
ghost use Rattle.asm_statements.specs.Rows.{shape_of};

/// What an operand is to be.
#[derive(Clone, Copy)]
pub(crate) enum Shape {
    /// A register, and its number below this one.
    RegisterBelow(u8),
    /// Any number.
    Number,
    /// An address or a count: a number from 0 on.
    Amount,
    /// The number of a core, 0 to 7.
    OneCore,
    /// The star that stands for all cores.
    AllCores,
    /// A label.
    Place,
}

/// Any register.
const REGISTER: Shape = Shape::RegisterBelow(16);

/// A register with one behind it, for a reply of two words.
const PAIR: Shape = Shape::RegisterBelow(15);

/// A register with three behind it, for four operands.
const FOUR: Shape = Shape::RegisterBelow(13);

/// A row of the table: a mnemonic or a directive. `.entry` has two, for one core and for all.
#[derive(Clone, Copy)]
pub enum Mnemonic {
    Li,
    Add,
    Sub,
    Mul,
    And,
    Or,
    Xor,
    Addi,
    Andi,
    Shl,
    Shr,
    Ld,
    St,
    Beq,
    Bne,
    Bltu,
    Bgeu,
    Jmp,
    Pinc,
    Pmin,
    Pprobe,
    Phist,
    Pdot,
    Pfence,
    Out,
    Halt,
    EntryOfCore,
    EntryOfAll,
    Data,
    Show,
    Sum,
    Stats,
}

/// The rows in their order.
pub(crate) const MNEMONICS: [Mnemonic; 32] = [
    Mnemonic::Li,
    Mnemonic::Add,
    Mnemonic::Sub,
    Mnemonic::Mul,
    Mnemonic::And,
    Mnemonic::Or,
    Mnemonic::Xor,
    Mnemonic::Addi,
    Mnemonic::Andi,
    Mnemonic::Shl,
    Mnemonic::Shr,
    Mnemonic::Ld,
    Mnemonic::St,
    Mnemonic::Beq,
    Mnemonic::Bne,
    Mnemonic::Bltu,
    Mnemonic::Bgeu,
    Mnemonic::Jmp,
    Mnemonic::Pinc,
    Mnemonic::Pmin,
    Mnemonic::Pprobe,
    Mnemonic::Phist,
    Mnemonic::Pdot,
    Mnemonic::Pfence,
    Mnemonic::Out,
    Mnemonic::Halt,
    Mnemonic::EntryOfCore,
    Mnemonic::EntryOfAll,
    Mnemonic::Data,
    Mnemonic::Show,
    Mnemonic::Sum,
    Mnemonic::Stats,
];

impl Mnemonic {
    /// The name, as it stands in a text.
    pub(crate) fn name(self) -> &'static [u8]
        ensures { result.now ≡ (row_of self).mnemonic }
    {
        match self {
            Mnemonic::Li => b"li",
            Mnemonic::Add => b"add",
            Mnemonic::Sub => b"sub",
            Mnemonic::Mul => b"mul",
            Mnemonic::And => b"and",
            Mnemonic::Or => b"or",
            Mnemonic::Xor => b"xor",
            Mnemonic::Addi => b"addi",
            Mnemonic::Andi => b"andi",
            Mnemonic::Shl => b"shl",
            Mnemonic::Shr => b"shr",
            Mnemonic::Ld => b"ld",
            Mnemonic::St => b"st",
            Mnemonic::Beq => b"beq",
            Mnemonic::Bne => b"bne",
            Mnemonic::Bltu => b"bltu",
            Mnemonic::Bgeu => b"bgeu",
            Mnemonic::Jmp => b"jmp",
            Mnemonic::Pinc => b"pinc",
            Mnemonic::Pmin => b"pmin",
            Mnemonic::Pprobe => b"pprobe",
            Mnemonic::Phist => b"phist",
            Mnemonic::Pdot => b"pdot",
            Mnemonic::Pfence => b"pfence",
            Mnemonic::Out => b"out",
            Mnemonic::Halt => b"halt",
            Mnemonic::EntryOfCore | Mnemonic::EntryOfAll => b".entry",
            Mnemonic::Data => b".data",
            Mnemonic::Show => b".show",
            Mnemonic::Sum => b".sum",
            Mnemonic::Stats => b".stats",
        }
    }

    /// The shapes of the operands.
    pub(crate) fn shapes(self) -> &'static [Shape]
        ensures { map shape_of result.now ≡ (row_of self).shapes }
    {
        match self {
            Mnemonic::Li | Mnemonic::Pinc => &[REGISTER, Shape::Number],
            Mnemonic::Add
            | Mnemonic::Sub
            | Mnemonic::Mul
            | Mnemonic::And
            | Mnemonic::Or
            | Mnemonic::Xor => &[REGISTER, REGISTER, REGISTER],
            Mnemonic::Addi
            | Mnemonic::Andi
            | Mnemonic::Shl
            | Mnemonic::Shr
            | Mnemonic::Ld
            | Mnemonic::St => &[REGISTER, REGISTER, Shape::Number],
            Mnemonic::Beq | Mnemonic::Bne | Mnemonic::Bltu | Mnemonic::Bgeu => &[
                REGISTER,
                REGISTER,
                Shape::Place,
            ],
            Mnemonic::Jmp => &[Shape::Place],
            Mnemonic::Pmin => &[REGISTER, Shape::Number, REGISTER],
            Mnemonic::Pprobe | Mnemonic::Phist => &[PAIR, REGISTER, Shape::Number, REGISTER],
            Mnemonic::Pdot => &[REGISTER, REGISTER, Shape::Number, FOUR],
            Mnemonic::Out => &[REGISTER],
            Mnemonic::EntryOfCore => &[Shape::OneCore, Shape::Place],
            Mnemonic::EntryOfAll => &[Shape::AllCores, Shape::Place],
            Mnemonic::Data => &[Shape::Amount, Shape::Number],
            Mnemonic::Show | Mnemonic::Sum => &[Shape::Amount, Shape::Amount],
            Mnemonic::Pfence | Mnemonic::Halt | Mnemonic::Stats => &[],
        }
    }

    /// Whether the last operand may come again.
    pub(crate) fn goes_on(self) -> bool
        ensures { result ≡ (row_of self).goes_on }
    {
        matches!(self, Mnemonic::Data)
    }

    /// Whether the row is an instruction's.
    pub fn is_instruction(self) -> bool
        ensures { (values : List ℕ) → result ≡ is_some (instruction_in ((row_of self).makes values)) }
    {
        !matches!(
            self,
            Mnemonic::EntryOfCore
                | Mnemonic::EntryOfAll
                | Mnemonic::Data
                | Mnemonic::Show
                | Mnemonic::Sum
                | Mnemonic::Stats
        )
    }
}
