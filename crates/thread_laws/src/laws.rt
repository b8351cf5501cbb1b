//! The laws, each the contract of a function with an empty body, but for the laws that it rests on.

ghost use Rattle.thread_laws.specs.Laws.{LogsTrack, BanksFollow, EntriesAreFree, ActivesGoOn, OwnIssuesAreNew, CoresMeetBanks, BanksAreCleared};

use bank_laws::laws as banks;
use shared_table as table;

/// In a log whose events are each its PEI's next, the state after it and the log's own history name the same PEIs.
pub fn logs_track()
    ensures { LogsTrack }
{
    banks::cores_go_on();
}

/// Each event of a bank's row is its PEI's next behind the bank's own log.
pub fn banks_follow()
    ensures { BanksFollow }
{
    banks::cores_go_on();
}

/// A PEI whose entry its lane holds, and in whose way no active PEI of the bank is, finds the entry free.
pub fn entries_are_free()
    ensures { EntriesAreFree }
{
    banks::cores_go_on();
    table::actives_are_entered();
}

/// The active PEIs of a bank's log change by enters and leaves alone, and those of other cores by none of a core's events.
pub fn actives_go_on()
    ensures { ActivesGoOn }
{
    banks::cores_go_on();
    table::actives_are_entered();
}

/// The PEIs that a core's own events issue have numbers below the core's count, names of their own, and lanes of their own.
pub fn own_issues_are_new()
    ensures { OwnIssuesAreNew }
{
    banks::cores_go_on();
    banks::banks_merge();
}

/// The PEIs and the fence that a bank has of a core are those of the core's own events.
pub fn cores_meet_banks()
    ensures { CoresMeetBanks }
{
    banks::banks_keep_apart();
    banks::rows_are_local();
    banks::banks_merge();
    banks::cores_go_on();
}

/// A bank is cleared for a fence exactly where its state has no writer that was issued before the fence began.
pub fn banks_are_cleared()
    ensures { BanksAreCleared }
{
    banks::cores_go_on();
}
