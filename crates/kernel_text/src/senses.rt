//! What tokens do where they stand, and what is wanted behind them.

ghost use Rattle.std.specs.Prelude.{◌≡◌, List, true};
ghost use Rattle.kernel_text.specs.declared.senses.Wanted.{Wanted};
ghost use Rattle.kernel_text.specs.Readings.{is_optional, only, before};
ghost use Rattle.kernel_text.specs.Senses.{taken};

/// What a token does at its place.
#[derive(Clone, Copy)]
pub(crate) enum Role {
    /// A keyword or a mark, and nothing more.
    Plain,
    /// The name of a table or of an array is declared.
    Declares { array: bool },
    /// The size of the name that was declared last.
    Sizes,
    /// A number of a table.
    Gives,
    /// A variable is assigned.
    Assigns,
    /// The variable of a loop.
    Counts,
    /// The loop is left.
    Leaves,
    /// How many turns a loop has.
    Turns,
    /// By how much a histogram shifts.
    Shifts,
    /// The name of an array that is written.
    Writes,
    /// The name of a table that is searched.
    LooksUp,
    /// A variable that is an operand.
    Passes,
    /// A term that is a number; the expression may have `room` more levels here.
    ReadsNumber { room: u8 },
    /// A term that is a variable, with the same room.
    ReadsVariable { room: u8 },
    /// A term that is a word of a table or of an array.
    ReadsItem,
}

/// What is wanted at a token.
#[derive(Clone, Copy)]
pub(crate) enum Wanted {
    /// This mark.
    Mark(u8),
    /// The brace that ends a loop.
    ClosingBrace,
    /// Any number of declarations.
    Declarations,
    /// The name of a table or of an array.
    DeclaredName { array: bool },
    Size,
    /// A number of a table.
    Value,
    /// Any number of further numbers, each behind a comma.
    MoreValues,
    /// Any number of statements.
    Statements,
    /// What stands behind the variable that a statement begins with.
    BehindVariable,
    /// What one variable is assigned.
    OneWord,
    /// What two variables are assigned.
    TwoWords,
    /// The second of two variables.
    SecondVariable,
    /// The variable of a loop.
    Counter,
    /// How many turns a loop has.
    TurnCount,
    /// By how much a histogram shifts.
    Shift,
    /// The name of an array.
    ArrayName,
    /// The name of a table.
    TableName,
    /// A variable that is an operand of `dot`.
    Operand,
    /// A term, where the expression around it may have `room` more levels.
    Term { room: u8 },
    /// Any number of further terms, each behind an operator, where the expression may have `room` levels.
    MoreTerms { room: u8 },
}

/// What a token does, and whether a statement, an operator or a term begins with it.
#[derive(Clone, Copy)]
pub(crate) struct Sense {
    pub(crate) role: Role,
    pub(crate) begins: bool,
}

impl Sense {
    /// A keyword or a mark.
    pub(crate) const PLAIN: Sense = Sense {
        role: Role::Plain,
        begins: false,
    };

    /// A token that begins a part.
    pub(crate) fn beginning(role: Role) -> Sense
        ensures { result ≡ record { role = role; begins = true } }
    {
        Sense { role, begins: true }
    }
}

/// The sense of a token that wants nothing behind it, where it fits.
pub(crate) fn only(fits: bool, role: Role) -> Option<Sense>
    ensures { (more : List Wanted) → taken result more ≡ before (only fits role) more }
{
    if fits {
        Some(Sense {
            role,
            begins: false,
        })
    } else {
        None
    }
}

impl Wanted {
    /// What may be left out.
    pub(crate) fn is_optional(self) -> bool
        ensures { result ≡ is_optional self }
    {
        matches!(
            self,
            Wanted::Declarations
                | Wanted::MoreValues
                | Wanted::Statements
                | Wanted::MoreTerms { .. }
        )
    }
}
