//! Names, in the order in which they came.

ghost use Rattle.std.specs.Prelude.{◌≡◌, ◌++◌, ◌∷◌, ◌-◌, [], None, OnOk, length, take};
ghost use Rattle.kernel_text.specs.Known.{kind_of, is_in};

use indexmap::IndexMap;
use pei_types::OutOfMemory;
use std::alloc::Global;
use std::marker::Model;

/// Declared names, each with whether it is an array's.
#[derive(Drop)]
pub(crate) struct DeclaredNames<'a> {
    kinds: IndexMap<&'a [u8], bool>,
}

impl<'a> Model for DeclaredNames<'a> {
    ghost use Rattle.std.specs.Prelude.{List, ℕ, Bool, map};

    ghost Value = { List (List ℕ × Bool) };

    ghost view = { λ n. map (λ e. (e.0.now, e.1)) n.kinds.entries };
}

impl<'a> DeclaredNames<'a> {
    /// No names.
    pub(crate) fn make(alloc: Global) -> DeclaredNames<'a>
        ensures { result ≡ [] }
    {
        DeclaredNames {
            kinds: IndexMap::new(alloc),
        }
    }

    /// Whether a name is that of an array, if it is declared.
    pub(crate) fn kind(&self, name: &[u8]) -> Option<bool>
        ensures { result ≡ kind_of self.now name.now }
    {
        self.kinds.get(name).copied()
    }

    /// Declares a name.
    pub(crate) fn declare(&mut self, name: &'a [u8], array: bool) -> Result<(), OutOfMemory>
        requires new { kind_of self.old name.now ≡ None }
        ensures { OnOk result (self.new ≡ self.old ++ (name.now, array) ∷ []) }
    {
        match self.kinds.insert(name, array) {
            Ok(_) => Ok(()),
            Err(_) => Err(OutOfMemory),
        }
    }
}

/// Variables: few, so that a search goes over all of them.
#[derive(Drop)]
pub(crate) struct Variables<'a> {
    names: Vec<&'a [u8]>,
}

impl<'a> Model for Variables<'a> {
    ghost use Rattle.std.specs.Prelude.{List, ℕ, map};

    ghost Value = { List (List ℕ) };

    ghost view = { λ v. map (λ name. name.now) v.names.items };
}

impl<'a> Variables<'a> {
    /// None.
    pub(crate) fn make(alloc: Global) -> Variables<'a>
        ensures { result ≡ [] }
    {
        Variables {
            names: Vec::new(alloc),
        }
    }

    pub(crate) fn len(&self) -> usize
        ensures { result ≡ length self.now }
    {
        self.names.len()
    }

    pub(crate) fn contains(&self, name: &[u8]) -> bool
        ensures { result ≡ is_in self.now name.now }
    {
        for other in &self.names {
            if name == *other {
                return true;
            }
        }
        false
    }

    /// Puts a variable behind the others.
    pub(crate) fn push(&mut self, name: &'a [u8]) -> Result<(), OutOfMemory>
        ensures { OnOk result (self.new ≡ self.old ++ name.now ∷ []) }
    {
        match self.names.push(name) {
            Ok(()) => Ok(()),
            Err(_) => Err(OutOfMemory),
        }
    }

    /// Takes the last variable away, if there is one.
    pub(crate) fn pop(&mut self)
        ensures { self.new ≡ take (length self.old - 1) self.old }
    {
        let _last = self.names.pop();
    }
}
