//! The bins of a histogram.

ghost use Rattle.std.specs.Prelude.{◌≡◌, ◌≤◌};
ghost use Rattle.pei_types.specs.Operation.{bins, hist};

use crate::lanes::half_word;
use crate::replies::two_words;
use pei_types::Reply;

/// The bins of eight lanes from `first` on as bytes of a word, the lowest first.
///
/// The bin of a lane is the low byte of the lane shifted down.
fn bins(shift: u64, words: &[u64; 8], first: usize) -> u64
    requires lanes { first ≤ 8 }
    requires shift { shift ≤ 24 }
    ensures { result ≡ bins shift words.now first 8 }
{
    let mut bytes = 0;
    for k in (0..8).rev() {
        let bin = u64::from(half_word(words, first + k) >> shift) & 0xFF;
        bytes = (bytes << 8) | bin;
    }
    bytes
}

/// Replies 16 bins, one byte for each 32-bit lane of the block shifted down by `shift` bits, at most 24.
#[tactic(auto, unfolding(pei_types::specs::Operation::hist))]
pub fn hist(shift: u64, words: &[u64; 8]) -> Reply
    requires { shift ≤ 24 }
    ensures { result ≡ hist shift words.now }
{
    two_words(bins(shift, words, 0), bins(shift, words, 8))
}
