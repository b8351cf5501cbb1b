//! Tests of the two languages on texts: the assembler's faults, programs and canonical texts, and the kernels' faults, trees and
//! programs, by the public calls of `pei_asm`, `kernel_text` and `kernel_lang` alone.
#![tactic(auto)]

#[cfg(test)]
mod assembler_tests;
#[cfg(test)]
mod compiler_tests;
#[cfg(test)]
mod kernel_tests;
#[cfg(test)]
mod printing_tests;
