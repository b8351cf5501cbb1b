//! Merging the banks of a fabric: all events are made again, in the order of their stamps.

ghost use Rattle.std.specs.Prelude.{◌≡◌, [], ℕ, option_map};
ghost use Rattle.std.specs.List.{AllByRecursion};
ghost use Rattle.bank_laws.specs.Logs.{AreStamped, event_with, merged};
ghost use Rattle.fabric.specs.Kept.{Keeps};
ghost use Rattle.fabric.specs.Laws.{MergeLaws};
ghost use Rattle.fabric.specs.Merge.{CanMerge, IsVouched, logs_of};

use crate::parts::Parts;
use crate::sections::{self, Section};
use crate::whole;
use bank_laws::laws::{banks_make_machine, logs_go_on};
use journal::Journal;
use pei_types::{Event, Image};
use std::snapshot::Snapshot;

/// The laws that merging rests on.
pub(crate) fn laws()
    ensures { MergeLaws }
{
    sections::laws();
    whole::laws();
    banks_make_machine();
    logs_go_on();
}

/// Each bank vouches for its events. The call does nothing, and is for contracts.
fn vouch(banks: &[Section])
    ensures { AllByRecursion IsVouched banks.now }
{
    for place in 0..banks.len() {
        banks[place].is_in_order();
    }
}

/// The event with a stamp in any bank. `near` has for each bank a place to look at first.
fn next_event(banks: &[Section], stamp: u32, near: &mut [u32; 8]) -> Option<Event>
    ensures { result ≡ option_map (λ x. x.event) (event_with stamp (logs_of banks.now)) }
{
    for bank in 0..banks.len() {
        if let Some(event) = banks[bank].event_with(stamp, &mut near[bank % 8]) {
            return Some(event);
        }
    }
    None
}

/// Makes all events of all banks again, in the order of their stamps, on parts at the start of a run.
pub(crate) fn replay_all(
    banks: &[Section],
    image: &Snapshot<Image>,
    parts: &mut Parts,
    journal: &mut Journal,
)
    requires merge { (n : ℕ) × CanMerge parts.old.machine image.now.value n banks.now }
    requires keeps { Keeps parts.old journal.old image.now.value }
    requires empty { journal.old.events ≡ [] }
    ensures machine { parts.new.machine ≡ parts.old.machine }
    ensures keeps { Keeps parts.new journal.new image.now.value }
    ensures events { (n : ℕ) → AreStamped n (logs_of banks.now) → journal.new.events ≡ merged n (logs_of banks.now) }
{
    laws();
    vouch(banks);
    let mut near = [0; 8];
    for stamp in 0..journal.spare() {
        let Some(event) = next_event(banks, stamp, &mut near) else {
            return;
        };
        parts.replay(&event);
        journal.push(event);
    }
}
