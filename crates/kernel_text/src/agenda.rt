//! What is wanted next, phrase by phrase.

ghost use Rattle.std.specs.Prelude.{◌≡◌, ◌++◌, ◌∷◌, [], IfNone, OnOk};
ghost use Rattle.std.specs.Option.{option_to_list};
ghost use Rattle.kernel_text.specs.Readings.{may_end};

use crate::senses::Wanted;
use pei_types::OutOfMemory;
use std::alloc::Global;
use std::marker::Model;

/// What is wanted, in order.
#[derive(Drop)]
pub(crate) struct Agenda {
    /// The last of these is the next.
    items: Vec<Wanted>,
}

impl Model for Agenda {
    ghost use Rattle.std.specs.Prelude.{List, reverse};
    ghost use Rattle.kernel_text.specs.declared.senses.Wanted.{Wanted};

    ghost Value = { List Wanted };

    ghost view = { λ a. reverse a.items.items };
}

impl Agenda {
    /// Nothing.
    pub(crate) fn make(alloc: Global) -> Agenda
        ensures { result ≡ [] }
    {
        Agenda {
            items: Vec::new(alloc),
        }
    }

    /// What is wanted next, which is not wanted any more then.
    pub(crate) fn next(&mut self) -> Option<Wanted>
        ensures some { self.old ≡ option_to_list result ++ self.new }
        ensures none { IfNone result (self.old ≡ []) }
    {
        self.items.pop()
    }

    /// Wants all of this before the rest.
    pub(crate) fn want(&mut self, phrase: &[Wanted]) -> Result<(), OutOfMemory>
        ensures { OnOk result (self.new ≡ phrase.now ++ self.old) }
    {
        let mut left = phrase.len();
        while left > 0 {
            left -= 1;
            let Ok(()) = self.items.push(phrase[left]) else {
                return Err(OutOfMemory);
            };
        }
        Ok(())
    }

    /// Whether the text may end here.
    pub(crate) fn may_end(&self) -> bool
        ensures { result ≡ may_end self.now }
    {
        for wanted in &self.items {
            if !wanted.is_optional() {
                return false;
            }
        }
        true
    }
}
