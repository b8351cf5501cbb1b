//! Kinds of bytes, and how far a kind goes on.

ghost use Rattle.std.specs.Prelude.{◌≡◌, ◌≤◌, length, slice_index};
ghost use Rattle.std.specs.List.{prefix_len};
ghost use Rattle.std.specs.Char.{is_ascii_digit};
ghost use Rattle.kernel_text.specs.Tokens.{is_blank, is_in_line, is_remark, begins_word, continues_word, is_mark_byte};

/// A blank or a line feed.
pub(crate) fn is_blank(b: u8) -> bool
    ensures { result ≡ is_blank b }
{
    b == b' ' || b == b'\t' || b == b'\r' || b == b'\n'
}

pub(crate) fn begins_word(b: u8) -> bool
    ensures { result ≡ begins_word b }
{
    b.is_ascii_alphabetic() || b == b'_'
}

fn continues_word(b: u8) -> bool
    ensures { result ≡ continues_word b }
{
    begins_word(b) || b.is_ascii_digit()
}

/// A token by itself.
pub(crate) fn is_mark(b: u8) -> bool
    ensures { result ≡ is_mark_byte b }
{
    b"[](){}=,;<+-*&|^".contains(&b)
}

/// The byte at a place, and 0 past the end.
pub(crate) fn byte_at(bytes: &[u8], i: usize) -> u8
    ensures { result ≡ slice_index bytes.now i }
{
    if i < bytes.len() { bytes[i] } else { 0 }
}

/// How long the word is that stands first.
pub(crate) fn word_len(bytes: &[u8]) -> usize
    ensures len { result ≡ prefix_len continues_word bytes.now }
    ensures within { result ≤ length bytes.now }
{
    let mut n = 0;
    while n < bytes.len() && continues_word(bytes[n]) {
        n += 1;
    }
    n
}

/// How many digits stand first.
pub(crate) fn digits_len(bytes: &[u8]) -> usize
    ensures len { result ≡ prefix_len is_ascii_digit bytes.now }
    ensures within { result ≤ length bytes.now }
{
    let mut n = 0;
    while n < bytes.len() && bytes[n].is_ascii_digit() {
        n += 1;
    }
    n
}

/// How many bytes stand before the end of the line.
pub(crate) fn line_len(bytes: &[u8]) -> usize
    ensures len { result ≡ prefix_len is_in_line bytes.now }
    ensures within { result ≤ length bytes.now }
{
    let mut n = 0;
    while n < bytes.len() && bytes[n] != b'\n' {
        n += 1;
    }
    n
}

/// How many bytes stand before the end of the line and before the first one above 127.
pub(crate) fn remark_len(bytes: &[u8]) -> usize
    ensures len { result ≡ prefix_len is_remark bytes.now }
    ensures within { result ≤ length bytes.now }
{
    let mut n = 0;
    while n < bytes.len() && bytes[n] != b'\n' && bytes[n] < 128 {
        n += 1;
    }
    n
}
