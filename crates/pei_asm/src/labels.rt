//! The labels that lines define.

ghost use Rattle.std.specs.Prelude.{◌≡◌, ◌++◌, ◌∷◌, [], None, OnOk};
ghost use Rattle.pei_asm.specs.Sources.{place_in};

use indexmap::IndexMap;
use pei_types::OutOfMemory;
use std::alloc::Global;
use std::marker::Model;

/// Labels with their places, in the order of their definitions.
#[derive(Drop)]
pub(crate) struct Labels<'a> {
    places: IndexMap<&'a [u8], u32>,
}

impl<'a> Model for Labels<'a> {
    ghost use Rattle.std.specs.Prelude.{List, ℕ, map};

    ghost Value = { List (List ℕ × ℕ) };

    ghost view = { λ l. map (λ e. (e.0.now, e.1)) l.places.entries };
}

impl<'a> Labels<'a> {
    /// No labels.
    pub(crate) fn make(alloc: Global) -> Labels<'a>
        ensures { result ≡ [] }
    {
        Labels {
            places: IndexMap::new(alloc),
        }
    }

    /// The place of a label.
    pub(crate) fn place(&self, label: &[u8]) -> Option<u32>
        ensures { result ≡ place_in self.now label.now }
    {
        self.places.get(label).copied()
    }

    /// Gives a label its place.
    pub(crate) fn define(&mut self, label: &'a [u8], place: u32) -> Result<(), OutOfMemory>
        requires new { place_in self.old label.now ≡ None }
        ensures { OnOk result (self.new ≡ self.old ++ (label.now, place) ∷ []) }
    {
        match self.places.insert(label, place) {
            Ok(_) => Ok(()),
            Err(_) => Err(OutOfMemory),
        }
    }
}
