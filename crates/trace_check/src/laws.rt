//! Laws of the checker, each the contract of a function with an empty body, but for the laws that it rests on.

ghost use Rattle.trace_check.specs.Verdicts.{VerdictsAreOne};
ghost use Rattle.trace_check.specs.Laws.{Laws, StateTells};

use coherence_laws::laws::{flat_memory_goes_on, lanes_hold_peis};
use history_laws::laws::{agreement_tells, exclusion_tells, fitting_events_meet};
use machine_laws::laws::{rows_make_legal, rows_meet_all};
use pei_types::evidence::{calls_fit, core_stops_once, folds_grow, legal_journals_grow};

/// What the state of a legal journal tells of the next event is what the clauses say of it.
pub fn state_tells()
    ensures { StateTells }
{
    agreement_tells();
    exclusion_tells();
    fitting_events_meet();
    lanes_hold_peis();
    rows_meet_all();
}

/// The laws that the pass through a journal rests on.
pub(crate) fn laws()
    ensures { Laws }
{
    state_tells();
    rows_make_legal();
    calls_fit();
    core_stops_once();
    folds_grow();
    legal_journals_grow();
    flat_memory_goes_on();
}

/// No two verdicts fit one journal, so `check` answers the only one that does.
pub fn verdicts_are_one()
    ensures { VerdictsAreOne }
{}
