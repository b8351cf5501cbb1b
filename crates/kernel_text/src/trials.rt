//! Whether a kind of fault applies to a token that continues the grammar.

ghost use Rattle.std.specs.Prelude.{◌≡◌};
ghost use Rattle.kernel_text.specs.Known.{sets};
ghost use Rattle.kernel_text.specs.Faults.{is_double_name, is_unknown, is_wrong_kind, is_bad_size, is_one_value_too_many, has_too_many_words, is_too_deep};

use crate::senses::Role;

/// The sizes that a table or an array may have.
const SIZES: [u64; 10] = [8, 16, 32, 64, 128, 256, 512, 1024, 2048, 4096];

impl Role {
    /// A variable is assigned or counted.
    pub(crate) fn sets(self) -> bool
        ensures { result ≡ sets self }
    {
        matches!(self, Role::Assigns | Role::Counts)
    }

    /// `declared` tells whether the name is an array's, if it is declared.
    pub(crate) fn is_double_name(self, declared: Option<bool>) -> bool
        ensures { result ≡ is_double_name self declared }
    {
        match self {
            Role::Declares { .. } => declared.is_some(),
            _ => false,
        }
    }

    /// `variable` tells whether the name is a variable that is known.
    pub(crate) fn is_unknown(self, declared: Option<bool>, variable: bool) -> bool
        ensures { result ≡ is_unknown self declared variable }
    {
        match self {
            Role::ReadsVariable { .. } | Role::ReadsItem | Role::Passes => {
                declared.is_none() && !variable
            }
            _ => false,
        }
    }

    pub(crate) fn is_wrong_kind(self, declared: Option<bool>, variable: bool) -> bool
        ensures { result ≡ is_wrong_kind self declared variable }
    {
        match self {
            Role::Writes => declared != Some(true),
            Role::LooksUp => declared != Some(false),
            Role::ReadsItem => variable,
            Role::ReadsVariable { .. } | Role::Passes | Role::Assigns | Role::Counts => {
                declared.is_some()
            }
            _ => false,
        }
    }

    pub(crate) fn is_bad_size(self, n: u64) -> bool
        ensures { result ≡ is_bad_size self n }
    {
        match self {
            Role::Sizes => !SIZES.contains(&n),
            Role::Turns => n < 1 || n > 1_000_000,
            Role::Shifts => n > 24,
            _ => false,
        }
    }

    /// `values` numbers stand before this one.
    pub(crate) fn is_one_value_too_many(self, values: u64, size: u64) -> bool
        ensures { result ≡ is_one_value_too_many self values size }
    {
        match self {
            Role::Gives => values >= size,
            _ => false,
        }
    }

    /// The sizes so far are `words` together.
    pub(crate) fn has_too_many_words(self, words: u64, n: u64) -> bool
        ensures { result ≡ has_too_many_words self words n }
    {
        match self {
            Role::Sizes => words.saturating_add(n) > 32768,
            _ => false,
        }
    }

    /// A number or a variable is a level by itself.
    pub(crate) fn is_too_deep(self) -> bool
        ensures { result ≡ is_too_deep self }
    {
        match self {
            Role::ReadsNumber { room } | Role::ReadsVariable { room } => room == 0,
            _ => false,
        }
    }
}
