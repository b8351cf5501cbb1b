//! What the texts of traces and their first bad lines tell each other.
#![tactic(auto)]

pub mod laws;
