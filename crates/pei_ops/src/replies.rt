//! The replies that operations give.

ghost use Rattle.std.specs.Prelude.{◌≡◌};
ghost use Rattle.pei_types.specs.Operation.{no_reply, one_word, two_words};

use pei_types::Reply;

/// The reply of an operation that writes.
pub fn no_reply() -> Reply
    ensures { result ≡ no_reply }
{
    Reply {
        words: [0, 0],
        len: 0,
    }
}

/// A reply of one word.
pub fn one_word(word: u64) -> Reply
    ensures { result ≡ one_word word }
{
    Reply {
        words: [word, 0],
        len: 1,
    }
}

/// A reply of two words.
pub fn two_words(first: u64, second: u64) -> Reply
    ensures { result ≡ two_words first second }
{
    Reply {
        words: [first, second],
        len: 2,
    }
}
