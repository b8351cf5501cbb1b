//! A core's PEIs on their way, as its thread keeps them from the core's own events.

ghost use Rattle.std.specs.Prelude.{◌≡◌, ◌-◌, ◌^◌, ◌<◌, ◌≤◌, ◌↔◌, List, [], ◌∷◌, ◌++◌, true, IfSome, IfNone, IsTrue, option_map, None, false};
ghost use Rattle.pei_types.specs.declared.events.Event.{Event};
ghost use Rattle.pei_types.specs.declared.identifiers.CoreId.{CoreId};
ghost use Rattle.pei_types.specs.declared.machines.MachineSpec.{MachineSpec};
ghost use Rattle.pei_types.specs.Blocks.{same_core};
ghost use Rattle.pei_types.specs.MachineState.{state_after};
ghost use Rattle.bank_laws.specs.Laws.{BanksMerge, CoresGoOn};
ghost use Rattle.bank_laws.specs.Rows.{bank_look};
ghost use Rattle.fabric.specs.Looks.{is_clear, seen};
ghost use Rattle.shared_table.specs.Claims.{fence_at};
ghost use Rattle.thread_laws.specs.Laws.{OwnIssuesAreNew};
ghost use Rattle.thread_laws.specs.OwnEvents.{IssuesNext};
ghost use Rattle.host_run.specs.Own.{IsFirst, IsOfItsLane, IsOnLane, KeepsEvents, NoneCounts, cleared_after, counts, free_in, is_spent, lanes_after, lower_of, no_peis, pei_in, spent_after};

use fabric::CoreLook;
use pei_ops::mode;
use pei_types::{BlockNo, CoreId, Event, EventKind, Lane, Mode, PeiId};

/// A PEI that was issued and has not left.
#[derive(Clone, Copy, PartialEq, Eq, Debug)]
pub(crate) struct OwnPei {
    pub seq: u32,
    pub block: BlockNo,
    pub mode: Mode,
    pub entered: bool,
}

/// What a core's own events say of its PEIs and of its fence.
#[derive(Clone, Copy, PartialEq, Eq, Debug)]
pub(crate) struct OwnPeis {
    /// By lane, from lane 1 on.
    pub lanes: [Option<OwnPei>; 4],
    /// Whether the lane has the claim of a PEI that has left. It goes before a new PEI of the lane takes a step.
    pub spent: [bool; 4],
    /// How many the core has issued.
    pub issues: u32,
    /// The stamp at which the core's fence began that is on.
    pub fence: Option<u32>,
    /// How many banks, the first, are cleared for that fence.
    pub cleared: u8,
}

impl OwnPei {
    // Whether it counts where those alone do that have not entered, or where all do.
    fn counts(&self, unentered: bool) -> bool
        ensures { result ≡ counts unentered self.now }
    {
        !(unentered && self.entered)
    }
}

// The lower of a number so far and that of a lane's PEI, if the PEI counts.
fn lower(found: Option<u32>, lane: Option<OwnPei>, unentered: bool) -> Option<u32>
    ensures { result ≡ lower_of unentered found lane }
{
    let Some(pei) = lane else {
        return found;
    };
    if !pei.counts(unentered) {
        return found;
    }
    match found {
        Some(seq) if seq <= pei.seq => found,
        _ => Some(pei.seq),
    }
}

// The PEI of a core with this number.
fn named(core: CoreId, seq: Option<u32>) -> Option<PeiId>
    ensures { result ≡ option_map (λ n. record { core = core; seq = n }) seq }
{
    match seq {
        Some(seq) => Some(PeiId { core, seq }),
        None => None,
    }
}

// The number whose lowest bits are set, as many.
fn first_bits(count: u8) -> u8
    requires { count ≤ 8 }
    ensures { result ≡ 2 ^ count - 1 }
{
    (2u16.pow(u32::from(count)) - 1) as u8
}

// What the events of a core do to what its thread keeps.
fn laws()
    ensures cores { CoresGoOn }
    ensures merge { BanksMerge }
    ensures issues { OwnIssuesAreNew }
{
    bank_laws::laws::cores_go_on();
    bank_laws::laws::banks_merge();
    thread_laws::laws::own_issues_are_new();
}

impl OwnPeis {
    /// Those of a core that has made no event.
    pub fn none() -> OwnPeis
        ensures { result ≡ no_peis }
    {
        OwnPeis {
            lanes: [None; 4],
            spent: [false; 4],
            issues: 0,
            fence: None,
            cleared: 0,
        }
    }

    /// The PEI in a lane from 1 to 4.
    pub fn pei(&self, lane: Lane) -> Option<OwnPei>
        requires { (1 ≤ lane.0) × (lane.0 ≤ 4) }
        ensures { result ≡ pei_in self.now lane.0 }
    {
        self.lanes[lane.0 as usize - 1]
    }

    /// Whether a lane from 1 to 4 holds no PEI, and its claim is not spent.
    pub fn is_idle(&self, lane: Lane) -> bool
        requires { (1 ≤ lane.0) × (lane.0 ≤ 4) }
        ensures { result ≡ true → (pei_in self.now lane.0 ≡ None) × (is_spent self.now lane.0 ≡ false) }
    {
        self.pei(lane).is_none() && !self.spent[lane.0 as usize - 1]
    }

    /// The lowest lane that holds no PEI, of so many.
    fn free(&self, buffer: u8) -> Option<Lane>
        requires { buffer ≤ 4 }
        ensures { result ≡ free_in self.now buffer }
    {
        for number in 1..=buffer {
            let lane = Lane(number);
            if self.pei(lane).is_none() {
                return Some(lane);
            }
        }
        None
    }

    /// The lowest number of those that have not left or, if `unentered`, of those that have not entered.
    fn first(&self, unentered: bool) -> Option<u32>
        ensures some { IfSome result (λ seq. IsFirst self.now.lanes unentered seq) }
        ensures none { IfNone result (NoneCounts self.now.lanes unentered) }
    {
        let mut found: Option<u32> = None;
        for lane in 0..4 {
            found = lower(found, self.lanes[lane], unentered);
        }
        found
    }

    /// What banks are told of the core.
    pub fn look(&self, core: CoreId, buffer: u8) -> CoreLook
        requires buffer { buffer ≤ 4 }
        requires cleared { self.now.cleared ≤ 8 }
        ensures look { (m : MachineSpec) (own : List Event) → KeepsEvents m core own self.now → buffer ≡ m.buffer → seen result ≡ bank_look m (state_after m own) core }
        ensures fence { result.fence ≡ self.now.fence }
        ensures clear { (m : MachineSpec) → self.now.cleared ≡ m.banks → is_clear m result ≡ true }
    {
        laws();
        CoreLook {
            free: self.free(buffer),
            issues: self.issues,
            first_unentered: named(core, self.first(true)),
            first_unfinished: named(core, self.first(false)),
            fence: self.fence,
            cleared: first_bits(self.cleared),
        }
    }

    /// Takes in an event of the core, with its stamp.
    pub fn note(&mut self, stamp: u32, event: &Event)
        requires lane { IsOnLane event.now }
        requires issues { self.old.issues < 2 ^ 32 - 1 }
        ensures keeps { (m : MachineSpec) (c : CoreId) (own : List Event) → KeepsEvents m c own self.old → IssuesNext m own event.now → IsOfItsLane m own event.now →
            same_core event.now.actor.core c ≡ true → KeepsEvents m c (own ++ event.now ∷ []) self.new }
        ensures fence { self.new.fence ≡ fence_at self.old.fence (record { stamp = stamp; event = event.now }) event.now.kind }
        ensures lanes { self.new.lanes ≡ lanes_after event.now.actor event.now.kind self.old.lanes }
        ensures spent { self.new.spent ≡ spent_after event.now.actor event.now.kind self.old.spent }
        ensures cleared { self.new.cleared ≡ cleared_after event.now.kind self.old.cleared }
    {
        laws();
        match event.kind {
            EventKind::Issue {
                seq,
                lane,
                op,
                block,
                ..
            } => {
                self.lanes[lane.0 as usize - 1] = Some(OwnPei {
                    seq,
                    block,
                    mode: mode(op),
                    entered: false,
                });
                self.issues += 1;
            }
            EventKind::Enter { .. } => {
                let place = event.actor.lane.0 as usize - 1;
                if let Some(pei) = self.lanes[place] {
                    self.lanes[place] = Some(OwnPei {
                        entered: true,
                        ..pei
                    });
                }
            }
            EventKind::Leave { .. } => {
                let place = event.actor.lane.0 as usize - 1;
                self.lanes[place] = None;
                self.spent[place] = true;
            }
            EventKind::FenceBegin => {
                self.fence = Some(stamp);
                self.cleared = 0;
            }
            EventKind::FenceEnd => {
                self.fence = None;
                self.cleared = 0;
            }
            _ => {}
        }
    }
}
