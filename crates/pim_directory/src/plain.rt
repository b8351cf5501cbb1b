//! The directory of a machine that one thread runs: a table of words.

ghost use Rattle.std.specs.Prelude.{◌≡◌, ◌<◌, IfOk, IsTrue, IsFalse, length, replicate, slice_set, slice_get, Some};
ghost use Rattle.pei_types.specs.Claims.{Claims, no_claims, with_announcement, is_granted, with_claim, without_claim, word_of_claims};
ghost use Rattle.pim_directory.specs.Words.{IsReady, IsHeld};

use crate::words::{announce_word, grant_word, release_word};
use pei_types::{Mode, OutOfMemory};
use std::alloc::Global;
use std::marker::Model;

/// The entries of a directory, seen as the list of their claims.
///
/// All memory is taken when it is made: only `make` can want memory. An entry that is handed to a call is below the
/// number of entries that it was made with.
#[derive(Drop)]
pub struct PlainDirectory {
    words: Vec<u64>,
}

impl Model for PlainDirectory {
    ghost use Rattle.std.specs.Prelude.{List, map};
    ghost use Rattle.pei_types.specs.Claims.{Claims};
    ghost use Rattle.pim_directory.specs.Words.{claims_of_word, AllPacked};

    ghost Value = { List Claims };

    ghost view = { λ d. map claims_of_word d.words.items };

    ghost invariant = { λ d. AllPacked d.words.items };
}

impl PlainDirectory {
    /// A directory of `entries` entries that nobody holds and nobody waits for.
    ///
    /// `OutOfMemory` says that the memory for them could not be had; no clause ties it to that.
    pub fn make(alloc: Global, entries: u32) -> Result<PlainDirectory, OutOfMemory>
        ensures { IfOk result (λ d. d ≡ replicate entries no_claims) }
    {
        match Vec::from_elem(alloc, 0u64, entries as usize) {
            Ok(words) => Ok(PlainDirectory { words }),
            Err(_) => Err(OutOfMemory),
        }
    }

    /// One more writer waits for the entry. The condition is that fewer than 255 wait.
    pub fn announce(&mut self, entry: u32)
        requires { (c : Claims) × (slice_get self.old entry ≡ Some c) × (c.waiting < 255) }
        ensures { (c : Claims) → slice_get self.old entry ≡ Some c → self.new ≡ slice_set self.old entry (with_announcement c) }
    {
        let at = entry as usize;
        self.words[at] = announce_word(self.words[at]);
    }

    /// Grants a claim of this mode on the entry, and answers whether it was granted. Otherwise nothing changes.
    ///
    /// The condition is for a reader that there are fewer than 255, and for a writer that one waits.
    pub fn try_grant(&mut self, entry: u32, mode: Mode) -> bool
        requires { (c : Claims) × (slice_get self.old entry ≡ Some c) × IsReady c mode }
        ensures granted { IsTrue result → (c : Claims) → slice_get self.old entry ≡ Some c → IsTrue (is_granted c mode) × (self.new ≡ slice_set self.old entry (with_claim c mode)) }
        ensures refused { IsFalse result → (self.new ≡ self.old) × ((c : Claims) → slice_get self.old entry ≡ Some c → IsFalse (is_granted c mode)) }
    {
        let at = entry as usize;
        match grant_word(self.words[at], mode) {
            Some(word) => {
                self.words[at] = word;
                true
            }
            None => false,
        }
    }

    /// A claim of this mode on the entry is given back. The condition is that there is such a claim.
    pub fn release(&mut self, entry: u32, mode: Mode)
        requires { (c : Claims) × (slice_get self.old entry ≡ Some c) × IsHeld c mode }
        ensures { (c : Claims) → slice_get self.old entry ≡ Some c → self.new ≡ slice_set self.old entry (without_claim c mode) }
    {
        let at = entry as usize;
        self.words[at] = release_word(self.words[at], mode);
    }

    /// The word of the entry.
    pub fn word(&self, entry: u32) -> u64
        requires { entry < length self.now }
        ensures { (c : Claims) → slice_get self.now entry ≡ Some c → result ≡ word_of_claims c }
    {
        self.words[entry as usize]
    }
}
