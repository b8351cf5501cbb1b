//! The dot product of signed lanes.

ghost use Rattle.std.specs.Prelude.{◌≡◌, ◌<◌, ◌^◌, ◌≤ℤ◌, pos, neg_ℤ};
ghost use Rattle.pei_types.specs.Operation.{dot, product_at};

use crate::lanes::{half_word, quarter_word};
use crate::replies::one_word;
use pei_types::Reply;

/// The product of the signed 32-bit lane `i` of a block and the signed 16-bit lane `i` of the operands.
fn product_at(words: &[u64; 8], operands: &[u64; 4], i: usize) -> i64
    requires { i < 16 }
    ensures value { result ≡ product_at words.now operands.now i }
    ensures at_least { neg_ℤ (pos (2 ^ 46)) ≤ℤ result }
    ensures at_most { result ≤ℤ pos (2 ^ 46) }
{
    i64::from(half_word(words, i).cast_signed())
        * i64::from(quarter_word(operands, i).cast_signed())
}

/// Replies the dot product of sixteen signed lanes, as a word in two's complement.
///
/// The lanes have 32 bits in the block, and 16 in the operands, so that the sum is at most 2^50 in size.
pub fn dot(words: &[u64; 8], operands: &[u64; 4]) -> Reply
    ensures { result ≡ dot words.now operands.now }
{
    let mut sum = 0;
    for i in 0..16 {
        sum += product_at(words, operands, i);
    }
    one_word(sum.cast_unsigned())
}
