//! The theorem behind every run of the machine: where each actor makes its next row, and a PEI enters only where exclusion
//! allows it, the journal is legal in every clause. It joins the laws of histories with those of coherence, and follows
//! from the definitions of `pei_types` alone.
#![tactic(auto)]

pub mod laws;
