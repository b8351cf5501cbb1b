//! One word of the directory, before and after an announcement, a grant and a release.

ghost use Rattle.std.specs.Prelude.{◌≡◌, ◌<◌, IfSome, IfNone, IsTrue, IsFalse};
ghost use Rattle.pei_types.specs.Claims.{Claims, with_announcement, is_granted, with_claim, without_claim, word_of_claims};
ghost use Rattle.pim_directory.specs.Words.{IsPacked, IsReady, IsHeld};

use pei_types::Mode;

/// The reader that a word counts.
const READER: u64 = 1;
/// The bit of the writer that holds the entry.
const WRITER: u64 = 256;
/// The writer that a word counts as waiting.
const WAITING: u64 = 65_536;

/// The word when one more writer waits. The condition is that fewer than 255 wait.
pub fn announce_word(w: u64) -> u64
    requires { (c : Claims) × IsPacked c × (w ≡ word_of_claims c) × (c.waiting < 255) }
    ensures { (c : Claims) → IsPacked c → w ≡ word_of_claims c → result ≡ word_of_claims (with_announcement c) }
{
    w + WAITING
}

/// The word when a claim of this mode was granted, or `None` where it is not granted.
///
/// A reader is granted where no writer holds the entry or waits, a writer where nobody holds it; a granted writer no
/// longer waits. The condition is for a reader that there are fewer than 255, and for a writer that one waits.
pub fn grant_word(w: u64, mode: Mode) -> Option<u64>
    requires { (c : Claims) × IsPacked c × (w ≡ word_of_claims c) × IsReady c mode }
    ensures granted { IfSome result (λ n. (c : Claims) → IsPacked c → w ≡ word_of_claims c → IsTrue (is_granted c mode) × (n ≡ word_of_claims (with_claim c mode))) }
    ensures refused { IfNone result ((c : Claims) → IsPacked c → w ≡ word_of_claims c → IsFalse (is_granted c mode)) }
{
    match mode {
        Mode::Reader => {
            if w / WRITER == 0 {
                Some(w + READER)
            } else {
                None
            }
        }
        Mode::Writer => {
            if w % WAITING == 0 {
                Some(w + WRITER - WAITING)
            } else {
                None
            }
        }
    }
}

/// The word when a claim of this mode was given back. The condition is that there is such a claim.
pub fn release_word(w: u64, mode: Mode) -> u64
    requires { (c : Claims) × IsPacked c × (w ≡ word_of_claims c) × IsHeld c mode }
    ensures { (c : Claims) → IsPacked c → w ≡ word_of_claims c → IsHeld c mode → result ≡ word_of_claims (without_claim c mode) }
{
    match mode {
        Mode::Reader => w - READER,
        Mode::Writer => w - WRITER,
    }
}
