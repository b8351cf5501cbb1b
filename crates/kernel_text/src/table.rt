//! The table by which tokens are read: what the next token does where something is wanted.

ghost use Rattle.std.specs.Prelude.{◌≡◌, true, false, IfOk, IfNone, Option};
ghost use Rattle.kernel_text.specs.Tokens.{is_name};
ghost use Rattle.kernel_text.specs.Tokens.{Token as Spelled};
ghost use Rattle.kernel_text.specs.Lexemes.{token_of};
ghost use Rattle.kernel_text.specs.Readings.{is_optional, before, of_wanted, of_declarations, of_statements, of_term, behind_variable, one_word, two_words, more_values, more_terms, read};
ghost use Rattle.kernel_text.specs.Senses.{taken, next_token};

use crate::agenda::Agenda;
use crate::kinds::opens_bracket;
use crate::senses::{Role, Sense, Wanted, only};
use crate::tokens::Token;
use pei_types::OutOfMemory;

/// How many levels an expression may have.
const DEEPEST: u8 = 4;

impl Agenda {
    fn declarations(&mut self, t: Token<'_>) -> Result<Option<Sense>, OutOfMemory>
        ensures reading { IfOk result (λ s. taken s self.new ≡ before (of_declarations (token_of t.entry)) self.old) }
        ensures same { IfOk result (λ s. IfNone s (self.new ≡ self.old)) }
    {
        if t.is_word("table") {
            self.want(&[
                Wanted::DeclaredName { array: false },
                Wanted::Mark(b'['),
                Wanted::Size,
                Wanted::Mark(b']'),
                Wanted::Mark(b'='),
                Wanted::Value,
                Wanted::MoreValues,
                Wanted::Mark(b';'),
                Wanted::Declarations,
            ])?;
            return Ok(Some(Sense::PLAIN));
        }
        if t.is_word("array") {
            self.want(&[
                Wanted::DeclaredName { array: true },
                Wanted::Mark(b'['),
                Wanted::Size,
                Wanted::Mark(b']'),
                Wanted::Mark(b';'),
                Wanted::Declarations,
            ])?;
            return Ok(Some(Sense::PLAIN));
        }
        Ok(None)
    }

    /// A statement whose keyword stands here: what follows the keyword.
    fn keyword(&mut self, t: Token<'_>) -> Result<Option<Sense>, OutOfMemory>
        requires { is_name (token_of t) ≡ false }
        ensures reading { (next : Option Spelled) → IfOk result (λ s. taken s self.new ≡ before (of_statements (token_of t.entry) next) self.old) }
        ensures same { IfOk result (λ s. IfNone s (self.new ≡ self.old)) }
    {
        if t.is_word("print") {
            self.want(&[
                Wanted::Term { room: DEEPEST },
                Wanted::MoreTerms { room: DEEPEST },
                Wanted::Mark(b';'),
                Wanted::Statements,
            ])?;
        } else if t.is_word("inc") {
            self.want(&[
                Wanted::ArrayName,
                Wanted::Mark(b'['),
                Wanted::Term { room: DEEPEST },
                Wanted::MoreTerms { room: DEEPEST },
                Wanted::Mark(b']'),
                Wanted::Mark(b';'),
                Wanted::Statements,
            ])?;
        } else if t.is_word("min") {
            self.want(&[
                Wanted::ArrayName,
                Wanted::Mark(b'['),
                Wanted::Term { room: DEEPEST },
                Wanted::MoreTerms { room: DEEPEST },
                Wanted::Mark(b']'),
                Wanted::Mark(b','),
                Wanted::Term { room: DEEPEST },
                Wanted::MoreTerms { room: DEEPEST },
                Wanted::Mark(b';'),
                Wanted::Statements,
            ])?;
        } else if t.is_word("for") {
            self.want(&[
                Wanted::Counter,
                Wanted::Mark(b'<'),
                Wanted::TurnCount,
                Wanted::Mark(b'{'),
                Wanted::Statements,
                Wanted::ClosingBrace,
                Wanted::Statements,
            ])?;
        } else {
            return Ok(None);
        }
        Ok(Some(Sense::beginning(Role::Plain)))
    }

    fn statements(
        &mut self,
        t: Token<'_>,
        next: Option<Token<'_>>,
    ) -> Result<Option<Sense>, OutOfMemory>
        ensures reading { IfOk result (λ s. taken s self.new ≡ before (of_statements (token_of t.entry) (next_token next.entry)) self.old) }
        ensures same { IfOk result (λ s. IfNone s (self.new ≡ self.old)) }
    {
        if !t.is_name() {
            return self.keyword(t);
        }
        if opens_bracket(next) {
            self.want(&[
                Wanted::Mark(b'['),
                Wanted::Term { room: DEEPEST },
                Wanted::MoreTerms { room: DEEPEST },
                Wanted::Mark(b']'),
                Wanted::Mark(b'='),
                Wanted::Term { room: DEEPEST },
                Wanted::MoreTerms { room: DEEPEST },
                Wanted::Mark(b';'),
                Wanted::Statements,
            ])?;
            return Ok(Some(Sense::beginning(Role::Writes)));
        }
        self.want(&[Wanted::BehindVariable, Wanted::Statements])?;
        Ok(Some(Sense::beginning(Role::Assigns)))
    }

    fn term(
        &mut self,
        room: u8,
        t: Token<'_>,
        next: Option<Token<'_>>,
    ) -> Result<Option<Sense>, OutOfMemory>
        ensures { IfOk result (λ s. taken s self.new ≡ before (of_term room (token_of t.entry) (next_token next.entry)) self.old) }
    {
        if t.is_number() {
            return Ok(Some(Sense::beginning(Role::ReadsNumber { room })));
        }
        if t.is_name() && opens_bracket(next) {
            self.want(&[
                Wanted::Mark(b'['),
                Wanted::Term { room },
                Wanted::MoreTerms { room },
                Wanted::Mark(b']'),
            ])?;
            return Ok(Some(Sense::beginning(Role::ReadsItem)));
        }
        if t.is_name() {
            return Ok(Some(Sense::beginning(Role::ReadsVariable { room })));
        }
        if t.is_mark(b'(') {
            self.want(&[
                Wanted::Term { room },
                Wanted::MoreTerms { room },
                Wanted::Mark(b')'),
            ])?;
            return Ok(Some(Sense::beginning(Role::Plain)));
        }
        Ok(None)
    }

    fn behind_variable(&mut self, t: Token<'_>) -> Result<Option<Sense>, OutOfMemory>
        ensures { IfOk result (λ s. taken s self.new ≡ before (behind_variable (token_of t.entry)) self.old) }
    {
        if t.is_mark(b'=') {
            self.want(&[Wanted::OneWord])?;
            return Ok(Some(Sense::PLAIN));
        }
        if t.is_mark(b',') {
            self.want(&[Wanted::SecondVariable, Wanted::Mark(b'='), Wanted::TwoWords])?;
            return Ok(Some(Sense::PLAIN));
        }
        Ok(None)
    }

    fn one_word(
        &mut self,
        t: Token<'_>,
        next: Option<Token<'_>>,
    ) -> Result<Option<Sense>, OutOfMemory>
        ensures { IfOk result (λ s. taken s self.new ≡ before (one_word (token_of t.entry) (next_token next.entry)) self.old) }
    {
        if t.is_word("dot") {
            self.want(&[
                Wanted::TableName,
                Wanted::Mark(b'['),
                Wanted::Term { room: DEEPEST },
                Wanted::MoreTerms { room: DEEPEST },
                Wanted::Mark(b']'),
                Wanted::Mark(b','),
                Wanted::Operand,
                Wanted::Mark(b','),
                Wanted::Operand,
                Wanted::Mark(b','),
                Wanted::Operand,
                Wanted::Mark(b','),
                Wanted::Operand,
                Wanted::Mark(b';'),
            ])?;
            return Ok(Some(Sense::PLAIN));
        }
        self.want(&[Wanted::MoreTerms { room: DEEPEST }, Wanted::Mark(b';')])?;
        self.term(DEEPEST, t, next)
    }

    fn two_words(&mut self, t: Token<'_>) -> Result<Option<Sense>, OutOfMemory>
        ensures { IfOk result (λ s. taken s self.new ≡ before (two_words (token_of t.entry)) self.old) }
    {
        if t.is_word("probe") {
            self.want(&[
                Wanted::TableName,
                Wanted::Mark(b'['),
                Wanted::Term { room: DEEPEST },
                Wanted::MoreTerms { room: DEEPEST },
                Wanted::Mark(b']'),
                Wanted::Mark(b','),
                Wanted::Term { room: DEEPEST },
                Wanted::MoreTerms { room: DEEPEST },
                Wanted::Mark(b';'),
            ])?;
            return Ok(Some(Sense::PLAIN));
        }
        if t.is_word("hist") {
            self.want(&[
                Wanted::TableName,
                Wanted::Mark(b'['),
                Wanted::Term { room: DEEPEST },
                Wanted::MoreTerms { room: DEEPEST },
                Wanted::Mark(b']'),
                Wanted::Mark(b','),
                Wanted::Shift,
                Wanted::Mark(b';'),
            ])?;
            return Ok(Some(Sense::PLAIN));
        }
        Ok(None)
    }

    fn more_values(&mut self, t: Token<'_>) -> Result<Option<Sense>, OutOfMemory>
        ensures reading { IfOk result (λ s. taken s self.new ≡ before (more_values (token_of t.entry)) self.old) }
        ensures same { IfOk result (λ s. IfNone s (self.new ≡ self.old)) }
    {
        if t.is_mark(b',') {
            self.want(&[Wanted::Value, Wanted::MoreValues])?;
            return Ok(Some(Sense::PLAIN));
        }
        Ok(None)
    }

    fn more_terms(&mut self, room: u8, t: Token<'_>) -> Result<Option<Sense>, OutOfMemory>
        ensures reading { IfOk result (λ s. taken s self.new ≡ before (more_terms room (token_of t.entry)) self.old) }
        ensures same { IfOk result (λ s. IfNone s (self.new ≡ self.old)) }
    {
        if t.is_operator() {
            self.want(&[
                Wanted::Term {
                    room: room.saturating_sub(1),
                },
                Wanted::MoreTerms { room },
            ])?;
            return Ok(Some(Sense::beginning(Role::Plain)));
        }
        Ok(None)
    }

    /// What a token does where this is wanted before the rest. What it wants behind it is wanted then.
    fn take(
        &mut self,
        wanted: Wanted,
        t: Token<'_>,
        next: Option<Token<'_>>,
    ) -> Result<Option<Sense>, OutOfMemory>
        ensures reading { IfOk result (λ s. taken s self.new ≡ before (of_wanted wanted (token_of t.entry) (next_token next.entry)) self.old) }
        ensures same { is_optional wanted ≡ true → IfOk result (λ s. IfNone s (self.new ≡ self.old)) }
    {
        match wanted {
            Wanted::Mark(b) => Ok(only(t.is_mark(b), Role::Plain)),
            Wanted::ClosingBrace => Ok(only(t.is_mark(b'}'), Role::Leaves)),
            Wanted::Declarations => self.declarations(t),
            Wanted::DeclaredName { array } => Ok(only(t.is_name(), Role::Declares { array })),
            Wanted::Size => Ok(only(t.is_number(), Role::Sizes)),
            Wanted::Value => Ok(only(t.is_number(), Role::Gives)),
            Wanted::MoreValues => self.more_values(t),
            Wanted::Statements => self.statements(t, next),
            Wanted::BehindVariable => self.behind_variable(t),
            Wanted::OneWord => self.one_word(t, next),
            Wanted::TwoWords => self.two_words(t),
            Wanted::SecondVariable => Ok(only(t.is_name(), Role::Assigns)),
            Wanted::Counter => Ok(only(t.is_name(), Role::Counts)),
            Wanted::TurnCount => Ok(only(t.is_number(), Role::Turns)),
            Wanted::Shift => Ok(only(t.is_number(), Role::Shifts)),
            Wanted::ArrayName => Ok(only(t.is_name(), Role::Writes)),
            Wanted::TableName => Ok(only(t.is_name(), Role::LooksUp)),
            Wanted::Operand => Ok(only(t.is_name(), Role::Passes)),
            Wanted::Term { room } => self.term(room, t, next),
            Wanted::MoreTerms { room } => self.more_terms(room, t),
        }
    }

    /// What the next token does, or `None` where it does not continue the grammar. What it wants behind it is wanted then.
    pub(crate) fn read(
        &mut self,
        t: Token<'_>,
        next: Option<Token<'_>>,
    ) -> Result<Option<Sense>, OutOfMemory>
        ensures { IfOk result (λ s. taken s self.new ≡ read self.old (token_of t.entry) (next_token next.entry)) }
    {
        while let Some(wanted) = self.next() {
            if let Some(sense) = self.take(wanted, t, next)? {
                return Ok(Some(sense));
            }
            if !wanted.is_optional() {
                return Ok(None);
            }
        }
        Ok(None)
    }
}
