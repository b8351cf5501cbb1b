//! The table that the cores of a run share, each in a thread of its own: the words of the PIM directory, the word that
//! stamps are drawn from, and for each of 1 to 8 banks a slot with the bank of the machine.
//!
//! A step is one atomic operation on one word, with sequential consistency. `announce`, `try_grant`, `release`,
//! `withdraw`, `draw` and `full` wait for nobody; `hold` alone waits. The rule that each step keeps is in
//! `specs/Rule.antt`: each directory word counts the claims of all seats, a writer holds an entry alone, at most one seat
//! has a bank's slot, and each active PEI has the claim of its lane. The logs of all banks are one journal, whose places
//! are the stamps: each seat has its core's events of it, PEIs that conflict take turns in it, and fences hold.
#![tactic(auto)]

mod claims;
mod closing;
mod laws;
mod plays;
mod receipt;
mod rule;
mod seats;
mod slot;
mod stamps;
mod table;
#[cfg(test)]
mod tests;

pub use claims::{Active, Claim, Diary, Gathered, Knowledge, Look, Made, Name, Shape, Side, Word};
pub use laws::{LogFact, actives_are_entered, own_logs_follow, seats_follow};
pub use receipt::Receipt;
pub use rule::{Claimed, Shared};
pub use seats::Seats;
pub use slot::Held;
pub use table::{CoreSeat, Grant, SharedTable};
