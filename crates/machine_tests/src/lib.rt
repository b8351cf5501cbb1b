//! Tests of the machine's parts on small programs: where it starts, what turns and lanes come to, and the verdicts on traces, by the
//! public calls of `fabric`, `sched_run` and `trace_check` alone.
#![tactic(auto)]

#[cfg(test)]
mod schedule_tests;
#[cfg(test)]
mod start_tests;
#[cfg(test)]
mod verdict_tests;
