//! The clause on guards: what each event needs of the state.

ghost use Rattle.std.specs.Prelude.{◌≡◌, ◌⊎◌, ◌<◌, ◌||◌, ◌&&◌, not, true, slice_index_or, slice_set};
ghost use Rattle.std.specs.List.{list_all};
ghost use Rattle.pei_types.specs.declared.identifiers.Actor.{Actor as Who};
ghost use Rattle.pei_types.specs.declared.events.EventKind.TheVariants as event;
ghost use Rattle.pei_types.specs.declared.machines.MachineSpec.{MachineSpec};
ghost use Rattle.pei_types.specs.Blocks.{vault_of as vault_of_lem};
ghost use Rattle.pei_types.specs.Calls.{Programs, is_actor_of, side_of as side_of_lem};
ghost use Rattle.pei_types.specs.MachineState.{State};
ghost use Rattle.pei_types.specs.MachineState.{is_absent as is_absent_lem, is_clean as is_clean_lem, is_dirty as is_dirty_lem, is_i as is_i_lem};
ghost use Rattle.pei_types.specs.MachineState.{is_ahead as is_ahead_lem, is_owned as is_owned_lem, letter_of as letter_of_lem};
ghost use Rattle.pei_types.specs.Guard.{act_guard, guard, is_lane as is_lane_lem, is_pei, seal_guard, waits_for_none};
ghost use Rattle.pei_types.specs.MachineState.{entry_is_taken, fence_of, first_unentered};
ghost use Rattle.pei_types.specs.Guard.{letter_serves as letter_serves_lem, memory_is_current as memory_is_current_lem};
ghost use Rattle.coherence_laws.specs.Invariants.{Invariants};
ghost use Rattle.pmu_dispatch.specs.Shown.{AreBlocksLooksOf, AreLooksOf};
ghost use Rattle.pmu_dispatch.specs.Steps.{is_message};
ghost use Rattle.trace_check.specs.InState.{AccessesMemory, IsOwn, IsPeis};
ghost use Rattle.trace_check.specs.InState.{may_come as may_come_lem};
ghost use Rattle.trace_check.specs.CheckerParts.{state_of};

use crate::calls::{Side, side_of};
use crate::checker::Checker;
use pei_ops::writes;
use pei_types::{
    Actor, BlockNo, CoreId, EventKind, Lane, Letter, Mark, PeiId, PeiLook, Phase, block_of,
};
use pmu_dispatch::WantLooks;

/// Whether a letter is that of a core without a copy.
fn is_i(letter: Letter) -> bool
    ensures { result ≡ is_i_lem letter }
{
    matches!(letter, Letter::I)
}

/// Whether a mark is that of a block which the last-level cache lacks.
fn is_absent(mark: Mark) -> bool
    ensures { result ≡ is_absent_lem mark }
{
    matches!(mark, Mark::Absent)
}

/// Whether a mark is that of a line ahead of memory.
fn is_dirty(mark: Mark) -> bool
    ensures { result ≡ is_dirty_lem mark }
{
    matches!(mark, Mark::Dirty)
}

/// Whether a mark is that of a line as memory has it.
fn is_clean(mark: Mark) -> bool
    ensures { result ≡ is_clean_lem mark }
{
    matches!(mark, Mark::Clean)
}

/// Whether a letter lets its core write.
fn is_owned(letter: Letter) -> bool
    ensures { result ≡ is_owned_lem letter }
{
    matches!(letter, Letter::M | Letter::E)
}

/// The letter of a core, which is I for one that the machine lacks.
fn letter_in(letters: &[Letter; 8], core: CoreId) -> Letter
    ensures { result ≡ slice_index_or letters.now core.0 Letter.I }
{
    if core.0 < 8 {
        letters[core.0 as usize]
    } else {
        Letter::I
    }
}

/// Whether no core has a block with these letters.
fn none_has(letters: &[Letter; 8]) -> bool
    ensures { result ≡ list_all is_i_lem letters.now }
{
    letters.iter().all(|letter| is_i(*letter))
}

/// Whether a copy with this letter is ahead of the last-level cache.
fn is_ahead(letter: Letter) -> bool
    ensures { result ≡ is_ahead_lem letter }
{
    matches!(letter, Letter::M)
}

/// Whether no core may write a block with these letters, and no copy of it is ahead of the last-level cache.
fn none_owns(letters: &[Letter; 8]) -> bool
    ensures { result ≡ list_all (λ l. not (is_owned_lem l || is_ahead_lem l)) letters.now }
{
    letters
        .iter()
        .all(|letter| !(is_owned(*letter) || is_ahead(*letter)))
}

/// Whether no core may write a block with these letters.
fn none_may_write(letters: &[Letter; 8]) -> bool
    ensures { result ≡ list_all (λ l. not (is_owned_lem l)) letters.now }
{
    letters.iter().all(|letter| !is_owned(*letter))
}

/// The letters without that of a core.
fn without(letters: &[Letter; 8], core: CoreId) -> [Letter; 8]
    ensures { result ≡ slice_set letters.now core.0 Letter.I }
{
    let mut others = *letters;
    if core.0 < 8 {
        others[core.0 as usize] = Letter::I;
    }
    others
}

/// Whether the letter of its own core serves a PEI at the host: a reader's any copy, a writer's one that it may write.
fn letter_serves(looks: &WantLooks, pei: &PeiLook) -> bool
    ensures { (m : MachineSpec) (s : State) → AreBlocksLooksOf m s looks.now pei.now → result ≡ letter_serves_lem m s pei.now }
{
    let letter = letter_in(&looks.letters, pei.id.core);
    if writes(pei.op) {
        is_owned(letter)
    } else {
        !is_i(letter)
    }
}

/// Whether memory may execute a PEI: no core may write the block and the last-level cache is not ahead of memory; for a
/// writer there is no copy at all.
fn memory_is_current(looks: &WantLooks, pei: &PeiLook) -> bool
    ensures { (m : MachineSpec) (s : State) → AreBlocksLooksOf m s looks.now pei.now → result ≡ memory_is_current_lem m s pei.now }
{
    let is_alone = none_has(&looks.letters) & is_absent(looks.mark);
    none_owns(&looks.letters) & !is_dirty(looks.mark) & (!writes(pei.op) | is_alone)
}

/// Whether it is the PEI of this name that was found.
fn is_named(found: Option<PeiId>, id: PeiId) -> bool
    ensures { result ≡ is_pei found id }
{
    match found {
        Some(other) => other == id,
        None => false,
    }
}

/// Whether it is this lane that was found.
fn is_lane(found: Option<Lane>, lane: Lane) -> bool
    ensures { result ≡ is_lane_lem found lane }
{
    match found {
        Some(other) => other == lane,
        None => false,
    }
}

/// Whether a core may lose its copy: it has one.
fn may_lose(looks: &WantLooks, core: CoreId) -> bool
    ensures { (m : MachineSpec) (s : State) → AreLooksOf m s looks.now → Invariants m s → (a : Who) → result ≡ guard m s a (event.Invalidate core looks.now.block) }
{
    !is_i(letter_in(&looks.letters, core))
}

/// Whether a core's copy may become shared: the core may write it.
fn may_share(looks: &WantLooks, core: CoreId) -> bool
    ensures { (m : MachineSpec) (s : State) → AreLooksOf m s looks.now → Invariants m s → (a : Who) → result ≡ guard m s a (event.Downgrade core looks.now.block) }
{
    is_owned(letter_in(&looks.letters, core))
}

/// Whether a core may evict its copy: it is the core itself, and it has one.
fn may_evict(looks: &WantLooks, core: CoreId) -> bool
    ensures { (m : MachineSpec) (s : State) → AreLooksOf m s looks.now → Invariants m s → (a : Who) → a.core ≡ looks.now.own → result ≡ guard m s a (event.EvictL1 core looks.now.block) }
{
    (core.0 == looks.own.0) & !is_i(letter_in(&looks.letters, core))
}

/// Whether a line may be written back: it is ahead of memory, and no copy may be written or is ahead of it.
fn may_clean(looks: &WantLooks) -> bool
    ensures { (m : MachineSpec) (s : State) → AreLooksOf m s looks.now → Invariants m s → (a : Who) → result ≡ guard m s a (event.Clean looks.now.block) }
{
    is_dirty(looks.mark) & none_owns(&looks.letters)
}

/// Whether a line may go: memory is as it is, and no core has a copy.
fn may_go(looks: &WantLooks) -> bool
    ensures { (m : MachineSpec) (s : State) → AreLooksOf m s looks.now → Invariants m s → (a : Who) → result ≡ guard m s a (event.EvictLlc looks.now.block) }
{
    is_clean(looks.mark) & none_has(&looks.letters)
}

impl Checker {
    /// Whether the state allows the event.
    pub(crate) fn is_guarded(&self, actor: Actor, kind: &EventKind) -> bool
        requires actor { is_actor_of self.now.machine actor ≡ true }
        requires own { IsOwn (state_of self.now) actor kind.now }
        requires access { AccessesMemory self.now.machine.blocks kind.now }
        requires invariants { Invariants self.now.machine (state_of self.now) }
        ensures { result ≡ guard self.now.machine (state_of self.now) actor kind.now }
    {
        match side_of(kind) {
            Side::Program => self.is_answer_guarded(actor.core, kind),
            Side::Pei(_) => self.is_pei_guarded(actor, kind),
            Side::Message => self.is_message_guarded(actor.core, kind),
        }
    }

    /// Whether the state allows an event of a core's program.
    fn is_answer_guarded(&self, core: CoreId, kind: &EventKind) -> bool
        requires own { core.0 < self.now.machine.cores }
        requires side { side_of_lem kind.now ≡ Programs }
        requires access { AccessesMemory self.now.machine.blocks kind.now }
        ensures { (a : Who) → a.core ≡ core → result ≡ guard self.now.machine (state_of self.now) a kind.now }
    {
        match *kind {
            EventKind::Load { addr, .. } => !is_i(self.letter_of(core, block_of(addr))),
            EventKind::Store { addr, .. } => is_owned(self.letter_of(core, block_of(addr))),
            EventKind::Issue { seq, lane, .. } => {
                let is_free = is_lane(self.inflight.free_lane(core), lane);
                is_free & (seq == self.inflight.issued(core))
            }
            EventKind::FenceBegin => !self.inflight.fence_on(core),
            EventKind::FenceEnd => self.fence_is_done(core),
            EventKind::Out { .. } => true,
            EventKind::Race { block, by, .. } => {
                let is_stores = is_named(self.inflight.conflict(block, true), by);
                is_stores | is_named(self.inflight.conflict(block, false), by)
            }
            EventKind::End { .. } => self.inflight.first_unfinished(core).is_none(),
            _ => false,
        }
    }

    /// Whether a fence of a core is on and waits for no writer.
    fn fence_is_done(&self, core: CoreId) -> bool
        requires { core.0 < self.now.machine.cores }
        ensures { result ≡ waits_for_none (fence_of (state_of self.now) core) }
    {
        if self.inflight.fence_on(core) {
            self.inflight.fence_waits(core).is_none()
        } else {
            false
        }
    }

    /// The letter of a block in the private cache of a core of the machine.
    fn letter_of(&self, core: CoreId, block: BlockNo) -> Letter
        requires { core.0 < self.now.machine.cores }
        ensures { result ≡ letter_of_lem self.now.machine (state_of self.now) core block }
    {
        letter_in(&self.looks(core, block).letters, core)
    }

    /// What the caches show a core of a block.
    pub(crate) fn looks(&self, core: CoreId, block: BlockNo) -> WantLooks
        requires { core.0 < self.now.machine.cores }
        ensures taken { AreLooksOf self.now.machine (state_of self.now) result }
        ensures own { result.own ≡ core }
        ensures block { result.block ≡ block }
    {
        let sealed = self.inflight.sealed(block);
        self.bus.want_looks(core, block, sealed)
    }

    /// Whether the state allows an event of the PEI in a lane, which is its next.
    fn is_pei_guarded(&self, actor: Actor, kind: &EventKind) -> bool
        requires actor { is_actor_of self.now.machine actor ≡ true }
        requires own { IsOwn (state_of self.now) actor kind.now }
        requires pei { IsPeis kind.now }
        requires invariants { Invariants self.now.machine (state_of self.now) }
        ensures { result ≡ guard self.now.machine (state_of self.now) actor kind.now }
    {
        let Some(pei) = self.inflight.look(actor.core, actor.lane) else {
            return false;
        };
        match *kind {
            EventKind::Enter { .. } => self.may_enter(&pei),
            EventKind::Place { .. } => true,
            EventKind::Leave { .. } => true,
            EventKind::Read { .. } => letter_serves(&self.looks(pei.id.core, pei.block), &pei),
            EventKind::Seal { vault, .. } => self.may_seal(&pei, vault),
            EventKind::Act { .. } => self.may_act(&pei),
            _ => false,
        }
    }

    /// Whether a PEI may enter the directory: it is the first of its core that has not, and its entry is free.
    fn may_enter(&self, pei: &PeiLook) -> bool
        requires { pei.now.id.core.0 < self.now.machine.cores }
        ensures { result ≡ (is_pei (first_unentered (state_of self.now) pei.now.id.core) pei.now.id && not (entry_is_taken self.now.machine (state_of self.now) pei.now)) }
    {
        let is_first = is_named(self.inflight.first_unentered(pei.id.core), pei.id);
        is_first & !self.inflight.entry_is_taken(pei)
    }

    /// The vault of a block.
    pub(crate) fn vault_of(&self, block: BlockNo) -> u8
        ensures vault { result ≡ vault_of_lem self.now.machine block }
        ensures within { result < self.now.machine.vaults }
    {
        (block.0 % self.machine.vaults) as u8
    }

    /// Whether a PEI may go to the queue of this vault.
    fn may_seal(&self, pei: &PeiLook, vault: u8) -> bool
        requires core { pei.now.id.core.0 < self.now.machine.cores }
        requires phase { pei.now.phase ≡ Phase.MemoryPlaced }
        ensures { result ≡ seal_guard self.now.machine (state_of self.now) vault pei.now }
    {
        vault == self.vault_of(pei.block)
            && !self.inflight.queue_full(vault)
            && memory_is_current(&self.looks(pei.id.core, pei.block), pei)
    }

    /// Whether a PEI that has read its block or is sealed may act.
    fn may_act(&self, pei: &PeiLook) -> bool
        requires core { pei.now.id.core.0 < self.now.machine.cores }
        requires phase { (pei.now.phase ≡ Phase.Read) ⊎ (pei.now.phase ≡ Phase.Sealed) }
        ensures { result ≡ act_guard self.now.machine (state_of self.now) pei.now pei.now.phase }
    {
        if pei.phase == Phase::Sealed {
            self.inflight.head(self.vault_of(pei.block)) == Some(pei.id)
        } else {
            !writes(pei.op) || is_owned(self.letter_of(pei.id.core, pei.block))
        }
    }

    /// Whether the state allows a coherence message.
    fn is_message_guarded(&self, own: CoreId, kind: &EventKind) -> bool
        requires own { own.0 < self.now.machine.cores }
        requires message { is_message kind.now ≡ true }
        requires invariants { Invariants self.now.machine (state_of self.now) }
        ensures { (a : Who) → a.core ≡ own → result ≡ guard self.now.machine (state_of self.now) a kind.now }
    {
        match *kind {
            EventKind::Invalidate { core, block } => may_lose(&self.looks(own, block), core),
            EventKind::Downgrade { core, block } => may_share(&self.looks(own, block), core),
            EventKind::EvictL1 { core, block } => may_evict(&self.looks(own, block), core),
            EventKind::Clean { block } => may_clean(&self.looks(own, block)),
            EventKind::EvictLlc { block } => may_go(&self.looks(own, block)),
            EventKind::Fill { block } => self.may_fill(&self.looks(own, block)),
            EventKind::GrantS { block } => self.may_grant_shared(&self.looks(own, block)),
            EventKind::GrantE { block } => self.may_grant_alone(&self.looks(own, block)),
            EventKind::GrantM { block } => self.may_grant_to_write(&self.looks(own, block)),
            _ => false,
        }
    }

    /// Whether the last-level cache may take a block in: it lacks it, no writer is sealed on it, and there is room.
    fn may_fill(&self, looks: &WantLooks) -> bool
        requires looks { AreLooksOf self.now.machine (state_of self.now) looks.now }
        requires invariants { Invariants self.now.machine (state_of self.now) }
        ensures { (a : Who) → result ≡ guard self.now.machine (state_of self.now) a (event.Fill looks.now.block) }
    {
        let sealed = self.inflight.writer_sealed(looks.block);
        is_absent(looks.mark) & !sealed & looks.llc_victim.is_none()
    }

    /// Whether a core may be granted a block to share.
    fn may_grant_shared(&self, looks: &WantLooks) -> bool
        requires looks { AreLooksOf self.now.machine (state_of self.now) looks.now }
        requires invariants { Invariants self.now.machine (state_of self.now) }
        ensures { (a : Who) → a.core ≡ looks.now.own → result ≡ guard self.now.machine (state_of self.now) a (event.GrantS looks.now.block) }
    {
        let others = without(&looks.letters, looks.own);
        self.may_come(looks) & none_may_write(&others)
    }

    /// Whether a core may be granted a block as the only one that has it.
    fn may_grant_alone(&self, looks: &WantLooks) -> bool
        requires looks { AreLooksOf self.now.machine (state_of self.now) looks.now }
        requires invariants { Invariants self.now.machine (state_of self.now) }
        ensures { (a : Who) → a.core ≡ looks.now.own → result ≡ guard self.now.machine (state_of self.now) a (event.GrantE looks.now.block) }
    {
        let others = without(&looks.letters, looks.own);
        self.may_come(looks) & none_has(&others) & !looks.sealed
    }

    /// Whether a copy may come to a core that has none: the last-level cache has the block, and there is room.
    fn may_come(&self, looks: &WantLooks) -> bool
        requires looks { AreLooksOf self.now.machine (state_of self.now) looks.now }
        requires invariants { Invariants self.now.machine (state_of self.now) }
        ensures { result ≡ may_come_lem self.now.machine (state_of self.now) looks.now.own looks.now.block }
    {
        let letter = letter_in(&looks.letters, looks.own);
        is_i(letter) & !is_absent(looks.mark) & looks.l1_victim.is_none()
    }

    /// Whether a core may be granted a block to write.
    fn may_grant_to_write(&self, looks: &WantLooks) -> bool
        requires looks { AreLooksOf self.now.machine (state_of self.now) looks.now }
        requires invariants { Invariants self.now.machine (state_of self.now) }
        ensures { (a : Who) → a.core ≡ looks.now.own → result ≡ guard self.now.machine (state_of self.now) a (event.GrantM looks.now.block) }
    {
        let letter = letter_in(&looks.letters, looks.own);
        let is_alone = none_has(&without(&looks.letters, looks.own));
        let has_room = !is_i(letter) | looks.l1_victim.is_none();
        !is_owned(letter) & !is_absent(looks.mark) & is_alone & !looks.sealed & has_room
    }
}
