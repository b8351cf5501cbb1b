//! The exact check of a journal: whether it is legal, and else its first event that fails a clause, with the clause.
//!
//! The check goes through the journal once. It keeps the state that the events so far leave, with caches and monitor,
//! PEIs and fences, and flat memory, and runs each core of the program along with its events. Of each event it asks every
//! clause, in the order in which they are told. It rests on the law that a journal is legal exactly where each event goes
//! by its actor's row (`machine_laws`), so that a clause on the history is read off the state.
#![tactic(auto)]

mod calls;
mod checker;
mod checking;
mod cores_along;
mod effects;
mod flat_clauses;
mod guards;
mod histories;
pub mod laws;
mod next_step;
mod pei_effects;
mod same_events;
mod state_clauses;
mod verdicts;

pub use checking::check;
pub use verdicts::Verdict;
