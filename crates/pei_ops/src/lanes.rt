//! The lanes of 32 and of 16 bits in words of 64.

ghost use Rattle.std.specs.Prelude.{◌≡◌, ◌<◌};
ghost use Rattle.pei_types.specs.Operation.{half_word, quarter_word};

/// Lane `i` of the 32-bit lanes of a block, the low half of each word first.
pub fn half_word(words: &[u64; 8], i: usize) -> u32
    requires { i < 16 }
    ensures { result ≡ half_word words.now i }
{
    ((words[i / 2] >> (32 * (i % 2))) & 0xFFFF_FFFF) as u32
}

/// Lane `i` of the 16-bit lanes of four operands, the lowest quarter of each word first.
pub fn quarter_word(words: &[u64; 4], i: usize) -> u16
    requires { i < 16 }
    ensures { result ≡ quarter_word words.now i }
{
    ((words[i / 4] >> (16 * (i % 4))) & 0xFFFF) as u16
}
