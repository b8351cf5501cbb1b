//! Tests of `plain`, the top call without threads: whole programs, machines and traces in memory, by the public calls of
//! `pei_cli` alone.
//!
//! Expected reports, traces and verdicts are worked out by hand from the definitions of the machine.
#![tactic(auto)]

#[cfg(test)]
mod bank_tests;
#[cfg(test)]
mod body_tests;
#[cfg(test)]
mod check_tests;
#[cfg(test)]
mod commands;
#[cfg(test)]
mod kernel_tests;
#[cfg(test)]
mod litmus_tests;
#[cfg(test)]
mod narrow_tests;
#[cfg(test)]
mod number_tests;
#[cfg(test)]
mod outside_tests;
#[cfg(test)]
mod programs;
#[cfg(test)]
mod refusal_tests;
#[cfg(test)]
mod run_tests;
#[cfg(test)]
mod text_tests;
