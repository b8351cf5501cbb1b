//! The two operations that change a word of the block.

ghost use Rattle.std.specs.Prelude.{◌≡◌, ◌+◌, ◌%◌, ◌^◌, ◌<◌, min, slice_index, slice_set};

/// Adds 1 to a word of the block, modulo 2^64.
pub fn increment(words: &mut [u64; 8], word: u8)
    requires { word < 8 }
    ensures { words.new ≡ slice_set words.old word ((slice_index words.old word + 1) % 2 ^ 64) }
{
    let place = usize::from(word);
    words[place] = words[place].wrapping_add(1);
}

/// Makes a word of the block the smaller of itself and `bound`, unsigned.
pub fn lower(words: &mut [u64; 8], word: u8, bound: u64)
    requires { word < 8 }
    ensures { words.new ≡ slice_set words.old word (min (slice_index words.old word) bound) }
{
    let place = usize::from(word);
    words[place] = words[place].min(bound);
}
