//! The place of a stamp in a journal, looked for where it is likely first.

ghost use Rattle.std.specs.Prelude.{◌≡◌, ◌≢◌, ◌<◌, AllPairs, IfNone, IfSome, Some, length, slice_get, true};
ghost use Rattle.std.specs.List.{AllByRecursion};
ghost use Rattle.fabric.specs.Places.{IsAboveLast, IsBelowNext};

use journal::Journal;

/// The place of the event with this stamp, or `None` where no event has it. The condition is that the stamps rise.
///
/// It looks at the place `near` and the one before it first. Where stamps are asked for in their order and `near` is the place
/// behind the last that was found, it ends there, whatever the length of the journal.
pub(crate) fn place_near(journal: &Journal, stamp: u32, near: u32) -> Option<u32>
    requires sized { length journal.now.stamps ≡ length journal.now.events }
    requires rising { AllPairs (λ x y. x < y) journal.now.stamps }
    ensures some { IfSome result (λ i. slice_get journal.now.stamps i ≡ Some stamp) }
    ensures none { IfNone result (AllByRecursion (λ x. x ≢ stamp) journal.now.stamps) }
{
    if near < journal.len() && journal.stamp(near) == stamp {
        return Some(near);
    }
    if lies_between(journal, stamp, near) {
        return None;
    }
    journal.place_of(stamp)
}

/// Whether the stamp before a place is smaller, and the one at it larger.
fn lies_between(journal: &Journal, stamp: u32, near: u32) -> bool
    requires sized { length journal.now.stamps ≡ length journal.now.events }
    requires rising { AllPairs (λ x y. x < y) journal.now.stamps }
    ensures { result ≡ true → AllByRecursion (λ x. x ≢ stamp) journal.now.stamps }
{
    is_above_last(journal, stamp, near) && is_below_next(journal, stamp, near)
}

/// Whether the stamp before a place is smaller, where one is before it.
fn is_above_last(journal: &Journal, stamp: u32, near: u32) -> bool
    ensures { result ≡ true → IsAboveLast journal.now.stamps stamp near }
{
    let Some(last) = near.checked_sub(1) else {
        return true;
    };
    last < journal.len() && journal.stamp(last) < stamp
}

/// Whether the stamp at a place is larger, where one is there.
fn is_below_next(journal: &Journal, stamp: u32, near: u32) -> bool
    requires { length journal.now.stamps ≡ length journal.now.events }
    ensures { result ≡ true → IsBelowNext journal.now.stamps stamp near }
{
    near >= journal.len() || stamp < journal.stamp(near)
}
