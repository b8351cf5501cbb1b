//! The tokens of a line.

ghost use Rattle.std.specs.Prelude.{◌≡◌, ◌≤◌, ◌<◌, ◌+◌, ◌++◌, length, map, drop, IfOk, OnOk, IfSome, IfNone, slice_index, ◌^◌, true, false, ℕ};
ghost use Rattle.std.specs.List.{prefix_len};
ghost use Rattle.std.specs.Char.{is_ascii_digit, is_ascii_hexdigit, is_ascii_alphabetic};
ghost use Rattle.asm_statements.specs.Tokens.{is_blank, begins_comment, begins_name, continues_name, is_hexadecimal, unsigned_len, behind_sign, has_sign, begins_number, number_len, tokens_of, front, mark_front, one_token};
ghost use Rattle.asm_statements.specs.Lexemes.{placed_of, token_of};

use std::alloc::{AllocError, Global};

/// What a token is.
#[derive(Clone, Copy)]
pub enum Word<'a> {
    /// A name: letters, digits, `_` and `.`, of which the first is no digit.
    Name(&'a [u8]),
    /// A number, decimal or hexadecimal, by all bytes of the line from its first on; see
    /// [`value_of_number`](crate::value_of_number).
    Number(&'a [u8]),
    /// `,`
    Comma,
    /// `:`
    Colon,
    /// `*`
    Star,
    /// A character that begins no token, or a letter right behind a number.
    Stray,
}

/// A token with its column, counted from 1 in bytes.
#[derive(Clone, Copy)]
pub struct Lexeme<'a> {
    pub column: u32,
    pub word: Word<'a>,
}

fn is_blank(b: u8) -> bool
    ensures { result ≡ is_blank b }
{
    b == b' ' || b == b'\t' || b == b'\r'
}

fn begins_comment(b: u8) -> bool
    ensures { result ≡ begins_comment b }
{
    b == b'#' || b == b';'
}

fn begins_name(b: u8) -> bool
    ensures { result ≡ begins_name b }
{
    b.is_ascii_alphabetic() || b == b'_' || b == b'.'
}

fn continues_name(b: u8) -> bool
    ensures { result ≡ continues_name b }
{
    begins_name(b) || b.is_ascii_digit()
}

/// The byte at a place, and 0 past the end.
pub(crate) fn byte_at(bytes: &[u8], i: usize) -> u8
    ensures { result ≡ slice_index bytes.now i }
{
    if i < bytes.len() { bytes[i] } else { 0 }
}

fn name_len(bytes: &[u8]) -> usize
    ensures len { result ≡ prefix_len continues_name bytes.now }
    ensures within { result ≤ length bytes.now }
{
    let mut n = 0;
    while n < bytes.len() && continues_name(bytes[n]) {
        n += 1;
    }
    n
}

pub(crate) fn digits_len(bytes: &[u8]) -> usize
    ensures len { result ≡ prefix_len is_ascii_digit bytes.now }
    ensures within { result ≤ length bytes.now }
{
    let mut n = 0;
    while n < bytes.len() && bytes[n].is_ascii_digit() {
        n += 1;
    }
    n
}

pub(crate) fn hex_len(bytes: &[u8]) -> usize
    ensures len { result ≡ prefix_len is_ascii_hexdigit bytes.now }
    ensures within { result ≤ length bytes.now }
{
    let mut n = 0;
    while n < bytes.len() && bytes[n].is_ascii_hexdigit() {
        n += 1;
    }
    n
}

pub(crate) fn is_hexadecimal(bytes: &[u8]) -> bool
    ensures { result ≡ is_hexadecimal bytes.now }
{
    byte_at(bytes, 0) == b'0' && byte_at(bytes, 1) == b'x' && byte_at(bytes, 2).is_ascii_hexdigit()
}

/// How many bytes the number takes that the bytes begin with, without a sign; 0 where there is none.
fn unsigned_len(bytes: &[u8]) -> usize
    ensures len { result ≡ unsigned_len bytes.now }
    ensures within { result ≤ length bytes.now }
{
    if is_hexadecimal(bytes) {
        2 + hex_len(&bytes[2..])
    } else {
        digits_len(bytes)
    }
}

pub(crate) fn has_sign(bytes: &[u8]) -> bool
    ensures { result ≡ has_sign bytes.now }
{
    byte_at(bytes, 0) == b'-'
}

/// The same with a sign.
fn number_len(bytes: &[u8]) -> Option<usize>
    ensures none { IfNone result (begins_number bytes.now ≡ false) }
    ensures some { IfSome result (λ n. (begins_number bytes.now ≡ true) × (n ≡ number_len bytes.now)) }
    ensures within { IfSome result (λ n. (0 < n) × (n ≤ length bytes.now)) }
{
    if has_sign(bytes) {
        let len = unsigned_len(&bytes[1..]);
        if len == 0 { None } else { Some(1 + len) }
    } else {
        let len = unsigned_len(bytes);
        if len == 0 { None } else { Some(len) }
    }
}

fn mark(b: u8) -> Option<Word<'static>>
    ensures none { IfNone result (is_blank b ≡ true) }
    ensures some { IfSome result (λ w. (column : ℕ) → mark_front column b ≡ one_token column (token_of w) 1) }
{
    if is_blank(b) {
        None
    } else if b == b',' {
        Some(Word::Comma)
    } else if b == b':' {
        Some(Word::Colon)
    } else if b == b'*' {
        Some(Word::Star)
    } else {
        Some(Word::Stray)
    }
}

/// Appends the tokens that stand first, and tells how many bytes they take.
fn push_front<'a>(
    out: &mut Vec<Lexeme<'a>>,
    column: u32,
    bytes: &'a [u8],
) -> Result<usize, AllocError>
    requires some { 0 < length bytes.now }
    requires short { column + length bytes.now ≤ 4294967295 }
    ensures tokens { OnOk result (map placed_of out.new.items ≡ map placed_of out.old.items ++ (front column bytes.now).tokens) }
    ensures len { IfOk result (λ n. n ≡ (front column bytes.now).len) }
    ensures within { IfOk result (λ n. (0 < n) × (n ≤ length bytes.now)) }
{
    if begins_name(bytes[0]) {
        let len = name_len(bytes);
        out.push(Lexeme {
            column,
            word: Word::Name(&bytes[..len]),
        })?;
        return Ok(len);
    }
    if let Some(len) = number_len(bytes) {
        out.push(Lexeme {
            column,
            word: Word::Number(bytes),
        })?;
        if byte_at(bytes, len).is_ascii_alphabetic() {
            out.push(Lexeme {
                column: column + len as u32,
                word: Word::Stray,
            })?;
            return Ok(len + 1);
        }
        return Ok(len);
    }
    if let Some(word) = mark(bytes[0]) {
        out.push(Lexeme { column, word })?;
    }
    Ok(1)
}

/// The tokens of a line, in their order. A comment has none. The only error is want of memory.
pub fn tokens_of<'a>(alloc: Global, line: &'a [u8]) -> Result<Vec<Lexeme<'a>>, AllocError>
    requires { length line.now < 4294967295 }
    ensures { IfOk result (λ v. map placed_of v.items ≡ tokens_of line.now) }
{
    let mut out = Vec::new(alloc);
    let mut rest = line;
    let mut column = 1;
    while !rest.is_empty() && !begins_comment(rest[0]) {
        let len = push_front(&mut out, column, rest)?;
        let (_, after) = rest.split_at(len);
        rest = after;
        column += len as u32;
    }
    Ok(out)
}
