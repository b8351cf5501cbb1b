//! The laws, each the contract of a function with an empty body.

ghost use Rattle.history_laws.specs.Fenced.{FencesNeedTheirCore};
ghost use Rattle.history_laws.specs.Laws.{StatesAgree, AgreementTells, ExclusionTells, SoundGrows, FittingMeets, RunsGoOn, PoliciesChooseActors, JournalsAreSound, NextEventsMeet, WholeRunsAreLegal, HoldingTells, RestIsState};

/// The state after a journal and the journal's own history name the same PEIs on their way, in the same phases, and the
/// same issues and fences.
pub fn states_agree()
    ensures { StatesAgree }
{}

/// So races, the oldest PEI of a core, active PEIs, drained cores and fences that may end can be told from the state
/// alone, with no look at the journal.
pub fn agreement_tells()
    ensures { AgreementTells }
{}

/// So can exclusion: a PEI conflicts with no active PEI of the history exactly where its entry is not taken in the
/// state, and one that is to enter next in its lane enters alone exactly where it finds its entry free.
pub fn exclusion_tells()
    ensures { ExclusionTells }
{}

/// A journal stays sound, with PEIs active in the order of their issue, without conflict, and fences that settle (behind
/// one that has ended, each writer issued before it began has left), by each event that enters its PEI in turn and alone,
/// and keeps its core's fence.
pub fn sound_journals_grow()
    ensures { SoundGrows }
{}

/// On a sound journal an event that has what the flat machine sees of its actor's row meets the clauses on the flat
/// machine: replies, calls, order, exclusion, fences and races.
pub fn fitting_events_meet()
    ensures { FittingMeets }
{}

/// A core whose fence is on goes on asking for it, whatever its lanes and the other cores do; so the run of a program
/// goes on by each event that fits.
pub fn runs_go_on()
    ensures { RunsGoOn }
{}

/// Each built-in policy gives turns only to actors of the machine: in turn, one actor until it stalls, by draws, or by a
/// list of such actors.
pub fn policies_choose_actors()
    ensures { PoliciesChooseActors }
{}

/// A legal journal is that of a sound run, and one of the machine below the cores is sound where no core issues while
/// its fence is on.
pub fn legal_journals_are_sound()
    ensures { JournalsAreSound }
{}

/// On the whole machine the next row of an actor meets the clauses on the flat machine, for any call that its core may
/// have made, where a PEI that enters finds its entry free; and it leaves the journal sound where a core whose fence is on
/// goes on asking for it.
pub fn next_events_meet()
    ensures { NextEventsMeet }
{}

/// Every scheduled run of the whole machine goes by rows and is legal on the flat machine, turn by turn, and its directory
/// counts who holds each entry and who waits for it, so that a PEI that holds its entry may enter.
pub fn whole_runs_are_legal()
    ensures { WholeRunsAreLegal }
{}

/// The counts of a directory's entries are not 0 where a lane holds the entry, or waits for it, and are at most 40, the
/// most lanes and programs that a machine has.
pub fn holding_tells()
    ensures { HoldingTells }
{}

/// What the laws of the state have to add, for a journal that goes by rows to be legal, is its guard, the order of
/// evictions and seals.
pub fn rest_is_state()
    ensures { RestIsState }
{}

/// The machine below the cores would let a core issue behind its own open fence, and then a later load of it is out of
/// order: so a call below the cores must be the fence while the core's fence is on.
pub fn fences_need_their_core()
    ensures { FencesNeedTheirCore }
{}
