//! The look-up of a key in a bucket of a hash table.

ghost use Rattle.std.specs.Prelude.{◌≡◌, ◌≤◌};
ghost use Rattle.pei_types.specs.Operation.{probe, value_of_key};

use crate::replies::two_words;
use pei_types::Reply;

/// Words 0 to 5 of a bucket are three pairs of a key and a value.
const PAIRS: u64 = 3;

/// The value of the first of the bucket's first `count` pairs that has this key.
fn value_of_key(key: u64, count: usize, words: &[u64; 8]) -> Option<u64>
    requires { count ≤ 3 }
    ensures { result ≡ value_of_key key count words.now }
{
    for pair in 0..count {
        if words[2 * pair] == key {
            return Some(words[2 * pair + 1]);
        }
    }
    None
}

/// Looks a key up in a bucket: replies 1 and the key's value, or 0 and word 7, the address of the next bucket.
///
/// Word 6 is the count of pairs, which is taken as at most 3. Of two pairs with the key the first answers.
#[tactic(auto, unfolding(pei_types::specs::Operation::probe))]
pub fn probe(key: u64, words: &[u64; 8]) -> Reply
    ensures { result ≡ probe key words.now }
{
    let count = words[6].min(PAIRS) as usize;
    match value_of_key(key, count, words) {
        Some(value) => two_words(1, value),
        None => two_words(0, words[7]),
    }
}
