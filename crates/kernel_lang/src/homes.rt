//! Where the declared names lie in memory, and which register has which variable.

ghost use Rattle.std.specs.Prelude.{◌≡◌, ◌+◌, ◌*◌, ◌≤◌, ◌++◌, ◌∷◌, [], None, OnOk, IfOk, length};
ghost use Rattle.std.specs.Map.{lookup};
ghost use Rattle.std.specs.Str.{bytes_eq};
ghost use Rattle.kernel_lang.specs.Homes.{FitsRegisters, home_of, register_of};
ghost use Rattle.kernel_text.specs.Sound.{with_variable};

use indexmap::IndexMap;
use pei_types::OutOfMemory;
use std::alloc::Global;
use std::marker::Model;

/// Where the words of a declared name lie: the address of the first, how many they are, and whether they are an array's.
#[derive(Clone, Copy, PartialEq, Eq, Debug)]
pub(crate) struct Home {
    pub base: u64,
    pub size: u64,
    pub array: bool,
}

/// Where all names of a kernel are. Variables are few, so that a search goes over all of them.
#[derive(Drop)]
pub(crate) struct Names<'a> {
    homes: IndexMap<&'a [u8], Home>,
    variables: Vec<&'a [u8]>,
}

impl<'a> Model for Names<'a> {
    ghost use Rattle.std.specs.Prelude.{map};
    ghost use Rattle.kernel_lang.specs.Homes.{Frame};

    ghost Value = { Frame };

    ghost view = { λ n. record { homes = map (λ e. (e.0.now, e.1)) n.homes.entries; variables = map (λ name. name.now) n.variables.items } };
}

impl<'a> Names<'a> {
    /// No names.
    pub(crate) fn make(alloc: Global) -> Names<'a>
        ensures { result ≡ record { homes = []; variables = [] } }
    {
        Names {
            homes: IndexMap::new(alloc),
            variables: Vec::new(alloc),
        }
    }

    /// Where a declared name lies. A name that is not declared, as a sound kernel has none, gets a place of its own.
    pub(crate) fn home(&self, name: &[u8]) -> Home
        requires { FitsRegisters self.now }
        ensures home { result ≡ home_of self.now name.now }
        ensures size { (8 ≤ result.size) × (result.size ≤ 4096) }
        ensures reach { result.base + 8 * result.size ≤ 262144 }
    {
        match self.homes.get(name).copied() {
            Some(home) => home,
            None => Home {
                base: 0,
                size: 8,
                array: false,
            },
        }
    }

    /// The register of a variable.
    pub(crate) fn register(&self, name: &[u8]) -> u8
        requires { FitsRegisters self.now }
        ensures register { result ≡ register_of self.now name.now }
        ensures most { result ≤ 8 }
    {
        let mut register = 0;
        for other in &self.variables {
            if name == *other {
                return register;
            }
            register += 1;
        }
        register
    }

    /// Declares a name.
    pub(crate) fn declare(&mut self, name: &'a [u8], home: Home) -> Result<(), OutOfMemory>
        requires new { lookup (bytes_eq name.now) self.old.homes ≡ None }
        ensures { OnOk result (self.new ≡ record self.old { homes = self.old.homes ++ (name.now, home) ∷ [] }) }
    {
        match self.homes.insert(name, home) {
            Ok(_) => Ok(()),
            Err(_) => Err(OutOfMemory),
        }
    }

    /// Gives a variable a register, where it has none.
    pub(crate) fn set(&mut self, name: &'a [u8]) -> Result<(), OutOfMemory>
        ensures { OnOk result (self.new ≡ record self.old { variables = with_variable self.old.variables name.now }) }
    {
        for other in &self.variables {
            if name == *other {
                return Ok(());
            }
        }
        match self.variables.push(name) {
            Ok(()) => Ok(()),
            Err(_) => Err(OutOfMemory),
        }
    }
}
