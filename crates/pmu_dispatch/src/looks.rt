//! What the caches show of a block, and which cores have it.

ghost use Rattle.std.specs.Prelude.{◌≡◌, ◌<◌, not, slice_index_or};
ghost use Rattle.pei_types.specs.MachineState.{is_i};
ghost use Rattle.pei_types.specs.MachineState.{is_owned as is_owned_lem, is_absent as is_absent_lem, is_dirty as is_dirty_lem};
ghost use Rattle.pmu_dispatch.specs.Shown.{first_core};
ghost use Rattle.pmu_dispatch.specs.Shown.{other_letters as other_letters_lem};

use pei_types::{BlockNo, CoreId, Letter, Mark};

/// What the caches show core `own` of a block.
#[derive(Clone, Copy, Debug)]
pub struct WantLooks {
    /// The block.
    pub block: BlockNo,
    /// The core that asks, 0 to 7.
    pub own: CoreId,
    /// The letter of the block in the private cache of each core; `I` for a core that the machine lacks.
    pub letters: [Letter; 8],
    /// The state of the block in the last-level cache.
    pub mark: Mark,
    /// Whether a PEI is sealed on the block: memory is to execute it.
    pub sealed: bool,
    /// The last line of the block's set in the last-level cache, where the set is full and lacks the block.
    pub llc_victim: Option<Victim>,
    /// The block of the last line of the own private cache's set, where the set is full and the own letter is `I`.
    pub l1_victim: Option<BlockNo>,
}

/// A block that the last-level cache has to give up, with its letters and its mark.
#[derive(Clone, Copy, Debug)]
pub struct Victim {
    /// The block.
    pub block: BlockNo,
    /// The letter of the block in the private cache of each core; `I` for a core that the machine lacks.
    pub letters: [Letter; 8],
    /// The state of the block in the last-level cache.
    pub mark: Mark,
}

/// Whether a letter lets its core write.
pub(crate) fn is_owned(letter: Letter) -> bool
    ensures { result ≡ is_owned_lem letter }
{
    matches!(letter, Letter::M | Letter::E)
}

/// Whether the last-level cache lacks a block.
pub(crate) fn is_absent(mark: Mark) -> bool
    ensures { result ≡ is_absent_lem mark }
{
    matches!(mark, Mark::Absent)
}

/// Whether the last-level cache is ahead of memory.
pub(crate) fn is_dirty(mark: Mark) -> bool
    ensures { result ≡ is_dirty_lem mark }
{
    matches!(mark, Mark::Dirty)
}

/// The lowest core whose letter is not `I`.
pub(crate) fn holder(letters: &[Letter; 8]) -> Option<CoreId>
    ensures { result ≡ first_core (λ letter. not (is_i letter)) letters.now }
{
    let place = letters.iter().position(|letter| *letter != Letter::I)?;
    Some(CoreId(place as u8))
}

/// The lowest core that may write the block.
pub(crate) fn owner(letters: &[Letter; 8]) -> Option<CoreId>
    ensures { result ≡ first_core is_owned_lem letters.now }
{
    let place = letters.iter().position(|letter| is_owned(*letter))?;
    Some(CoreId(place as u8))
}

impl WantLooks {
    /// The letter of the core that asks.
    pub(crate) fn own_letter(&self) -> Letter
        requires { self.now.own.0 < 8 }
        ensures { result ≡ slice_index_or self.now.letters self.now.own.0 Letter.I }
    {
        self.letters[self.own.0 as usize]
    }

    /// The letters without that of the core that asks.
    pub(crate) fn other_letters(&self) -> [Letter; 8]
        requires { self.now.own.0 < 8 }
        ensures { result ≡ other_letters_lem self.now }
    {
        let mut letters = self.letters;
        letters[self.own.0 as usize] = Letter::I;
        letters
    }
}
