//! The bus, and what is seen of memory.

ghost use Rattle.std.specs.Prelude.{◌≡◌, ◌<◌, ◌*◌, IfOk, length, map, find, replicate};
ghost use Rattle.pei_types.specs.MachineState.{cores_of, is_absent, is_ahead, letter_of};
ghost use Rattle.coherence_laws.specs.Invariants.{Invariants};
ghost use Rattle.mesi_l1.specs.Cache.{empty_cache};
ghost use Rattle.pei_types.specs.Limits.{IsWithin};
ghost use Rattle.coherence_bus.specs.Hierarchy.{content_of, empty_hierarchy, state_of};
ghost use Rattle.coherence_bus.specs.Laws.{Laws};

use coherence_laws::laws::invariants_are_kept;
use llc::{Llc, laws as shared};
use machine_laws::laws::{caches_hold_memory, contents_are_kept};
use mesi_l1::{L1, laws as private};
use pei_types::{Block, BlockNo, CoreId, Image, Letter, MachineSpec, Mark, OutOfMemory};
use stack_vaults::Vaults;
use std::alloc::Global;
use std::marker::Model;

/// The caches of a machine and its vaults.
///
/// A core that is handed to a call is one of the machine's. All memory is taken by `make`.
#[derive(Drop)]
pub struct Bus {
    pub(crate) machine: MachineSpec,
    /// The private cache of each core.
    pub(crate) caches: Vec<L1>,
    pub(crate) llc: Llc,
    pub(crate) vaults: Vaults,
}

impl Model for Bus {
    ghost use Rattle.coherence_bus.specs.Hierarchy.{Hierarchy};

    ghost Value = { Hierarchy };

    ghost use Rattle.coherence_bus.specs.Inside.{shown, IsKept};

    ghost view = { shown };

    ghost invariant = { IsKept };
}

/// So many private caches without a line.
fn empty_caches(alloc: Global, cores: u8, sets: u32, ways: u32) -> Result<Vec<L1>, OutOfMemory>
    requires sets { IsWithin 1 64 sets }
    requires ways { IsWithin 1 8 ways }
    ensures { IfOk result (λ v. v.items ≡ replicate cores (empty_cache sets ways)) }
{
    let Ok(mut caches) = Vec::with_capacity(alloc, cores as usize) else {
        return Err(OutOfMemory);
    };
    for _ in 0..cores {
        caches.push_reserved(L1::make(alloc, sets, ways)?);
    }
    Ok(caches)
}

/// Whether a copy with this letter is ahead of the last-level cache.
pub(crate) fn is_modified(letter: Letter) -> bool
    ensures { result ≡ is_ahead letter }
{
    matches!(letter, Letter::M)
}

/// Whether the last-level cache lacks a block with this mark.
fn is_absent(mark: Mark) -> bool
    ensures { result ≡ is_absent mark }
{
    matches!(mark, Mark::Absent)
}

/// The laws that the calls of the bus rest on.
pub(crate) fn laws()
    ensures { Laws }
{
    invariants_are_kept();
    contents_are_kept();
    caches_hold_memory();
    private::state_follows();
    shared::state_follows();
}

impl Bus {
    /// The caches of a machine, without a line, above the memory of an image, which has the machine's number of blocks.
    ///
    /// `OutOfMemory` says that the memory for them could not be had; no clause ties it to that.
    pub fn make(alloc: Global, spec: &MachineSpec, image: &Image) -> Result<Bus, OutOfMemory>
        requires { length image.now.words ≡ 8 * spec.now.blocks }
        ensures { IfOk result (λ h. h ≡ empty_hierarchy spec.now image.now) }
    {
        laws();
        let caches = empty_caches(alloc, spec.cores, spec.l1_sets, spec.l1_ways)?;
        let llc = Llc::make(alloc, spec.llc_sets, spec.llc_ways)?;
        let vaults = Vaults::make(alloc, image, spec.vaults)?;
        Ok(Bus {
            machine: *spec,
            caches,
            llc,
            vaults,
        })
    }

    /// The caches agree: where one core may write a block, no other has a copy; the last-level cache has each block that a
    /// core has; each set has at most its ways, each line in its own set, and no block twice.
    pub fn agree(&self)
        ensures { Invariants self.now.machine (state_of self.now) }
    {
        let _ = &self.machine;
    }

    /// The core whose copy of a block is modified.
    fn modifier(&self, b: BlockNo) -> Option<CoreId>
        ensures { result ≡ find (λ c. is_ahead (letter_of self.now.machine (state_of self.now) c b)) (cores_of self.now.machine) }
    {
        laws();
        for core in 0..self.machine.cores {
            if is_modified(self.caches[core as usize].letter(b)) {
                return Some(CoreId(core));
            }
        }
        None
    }

    /// The content of a block, which is in memory: of its modified copy, else of the last-level cache's line, else of its
    /// vault.
    pub fn peek(&self, b: BlockNo) -> Block
        requires { b.0 < self.now.machine.blocks }
        ensures { result ≡ content_of self.now b }
    {
        laws();
        if let Some(core) = self.modifier(b) {
            return self.caches[core.0 as usize].line(b);
        }
        if is_absent(self.llc.mark(b)) {
            self.vaults.read(b)
        } else {
            self.llc.line(b)
        }
    }
}
