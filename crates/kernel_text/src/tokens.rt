//! The tokens of a text.

ghost use Rattle.std.specs.Prelude.{◌≡◌, ◌≢◌, ◌<◌, ◌+◌, ◌++◌, length, map, take, None, Some, IfOk, IfErr, OnOk, List, slice_index, true, false};
ghost use Rattle.std.specs.List.{prefix_len};
ghost use Rattle.std.specs.Char.{is_ascii_digit};
ghost use Rattle.kernel_text.specs.declared.faults.KernelKind.TheVariants as kind;
ghost use Rattle.kernel_text.specs.Tokens.{tokens_of, end_of, continues_word, front, comment_front, number_front, is_line_feed, Placed};
ghost use Rattle.kernel_text.specs.Characters.{first_character_fault};
ghost use Rattle.kernel_text.specs.Lexemes.{placed_of, found, StandsFirst};

use crate::characters::{
    begins_word, byte_at, digits_len, is_blank, is_mark, line_len, remark_len, word_len,
};
use crate::faults::{KernelFault, KernelKind, out_of_memory};
use crate::numbers::value_of_digits;
use crate::places::Place;
use std::alloc::Global;
use std::str::from_utf8;

/// A token.
#[derive(Clone, Copy)]
pub(crate) enum Token<'a> {
    /// A name or a keyword.
    Word(&'a str),
    Number(u64),
    Mark(u8),
}

/// A token, and the place of its first byte.
#[derive(Clone, Copy)]
pub(crate) struct Lexeme<'a> {
    pub(crate) place: Place,
    pub(crate) token: Token<'a>,
}

/// The tokens of a text, and the place behind its last byte.
#[derive(Drop)]
pub(crate) struct Lexemes<'a> {
    pub(crate) items: Vec<Lexeme<'a>>,
    pub(crate) end: Place,
}

/// What stands first in some bytes: a token, or a blank or a comment; and how many bytes it takes.
#[derive(Clone, Copy)]
struct Front<'a> {
    token: Option<Token<'a>>,
    len: usize,
}

/// The word that stands first.
fn word(bytes: &[u8]) -> &str
    ensures { result.now ≡ take (prefix_len continues_word bytes.now) bytes.now }
{
    match from_utf8(&bytes[..word_len(bytes)]) {
        Ok(text) => text,
        Err(_) => unreachable!(),
    }
}

/// A comment.
fn comment<'a>(at: Place, bytes: &'a [u8]) -> Result<Front<'a>, KernelFault>
    requires comment { front at bytes.now ≡ comment_front at bytes.now }
    requires first { is_line_feed (slice_index bytes.now 0) ≡ false }
    requires some { 0 < length bytes.now }
    requires short { at.column + length bytes.now < 4294967296 }
    ensures ok { IfOk result (λ f. StandsFirst at bytes.now f.token f.len) }
    ensures fault { IfErr result (λ f. (more : List Placed) → first_character_fault ((front at bytes.now).tokens ++ more) ≡ Some f) }
    ensures kind { IfErr result (λ f. f.kind ≢ kind.OutOfMemory) }
{
    let len = line_len(bytes);
    let ascii = remark_len(bytes);
    if ascii != len {
        return Err(at.further(ascii).fault(KernelKind::BadChar));
    }
    Ok(Front { token: None, len })
}

/// A number.
fn number<'a>(at: Place, bytes: &'a [u8]) -> Result<Front<'a>, KernelFault>
    requires number { front at bytes.now ≡ number_front at bytes.now }
    requires digit { is_ascii_digit (slice_index bytes.now 0) ≡ true }
    requires first { is_line_feed (slice_index bytes.now 0) ≡ false }
    requires some { 0 < length bytes.now }
    requires short { at.column + length bytes.now < 4294967296 }
    ensures ok { IfOk result (λ f. StandsFirst at bytes.now f.token f.len) }
    ensures fault { IfErr result (λ f. (more : List Placed) → first_character_fault ((front at bytes.now).tokens ++ more) ≡ Some f) }
    ensures kind { IfErr result (λ f. f.kind ≢ kind.OutOfMemory) }
{
    let len = digits_len(bytes);
    let Some(value) = value_of_digits(&bytes[..len]) else {
        return Err(at.fault(KernelKind::NumberTooLarge));
    };
    if begins_word(byte_at(bytes, len)) {
        return Err(at.further(len).fault(KernelKind::BadChar));
    }
    Ok(Front {
        token: Some(Token::Number(value)),
        len,
    })
}

fn read_front<'a>(at: Place, bytes: &'a [u8]) -> Result<Front<'a>, KernelFault>
    requires some { 0 < length bytes.now }
    requires short { at.column + length bytes.now < 4294967296 }
    ensures ok { IfOk result (λ f. StandsFirst at bytes.now f.token f.len) }
    ensures fault { IfErr result (λ f. (more : List Placed) → first_character_fault ((front at bytes.now).tokens ++ more) ≡ Some f) }
    ensures kind { IfErr result (λ f. f.kind ≢ kind.OutOfMemory) }
{
    let first = bytes[0];
    if first == b'#' {
        return comment(at, bytes);
    }
    if is_blank(first) {
        return Ok(Front {
            token: None,
            len: 1,
        });
    }
    if begins_word(first) {
        let text = word(bytes);
        return Ok(Front {
            token: Some(Token::Word(text)),
            len: text.len(),
        });
    }
    if first.is_ascii_digit() {
        return number(at, bytes);
    }
    if is_mark(first) {
        return Ok(Front {
            token: Some(Token::Mark(first)),
            len: 1,
        });
    }
    Err(at.fault(KernelKind::BadChar))
}

/// Appends a token, if there is one.
fn add<'a>(
    items: &mut Vec<Lexeme<'a>>,
    place: Place,
    token: Option<Token<'a>>,
) -> Result<(), KernelFault>
    ensures ok { OnOk result (map placed_of items.new.items ≡ map placed_of items.old.items ++ found place token.entry) }
    ensures memory { IfErr result (λ f. f.kind ≡ kind.OutOfMemory) }
    ensures place { IfErr result (λ f. (f.line ≡ 0) × (f.column ≡ 0)) }
{
    if let Some(token) = token {
        let Ok(()) = items.push(Lexeme { place, token }) else {
            return Err(out_of_memory());
        };
    }
    Ok(())
}

/// The tokens of a text, or the first fault of its characters and numbers.
pub(crate) fn read_tokens<'a>(alloc: Global, text: &'a [u8]) -> Result<Lexemes<'a>, KernelFault>
    requires { length text.now < 4294967295 }
    ensures tokens { IfOk result (λ x. map placed_of x.items.items ≡ tokens_of text.now) }
    ensures end { IfOk result (λ x. x.end ≡ end_of text.now) }
    ensures sound { IfOk result (λ x. first_character_fault (tokens_of text.now) ≡ None) }
    ensures fault { IfErr result (λ f. f.kind ≢ kind.OutOfMemory → first_character_fault (tokens_of text.now) ≡ Some f) }
    ensures memory { IfErr result (λ f. f.kind ≡ kind.OutOfMemory → (f.line ≡ 0) × (f.column ≡ 0)) }
{
    let mut items = Vec::new(alloc);
    let mut place = Place::START;
    let mut rest = text;
    while !rest.is_empty() {
        let found = read_front(place, rest)?;
        add(&mut items, place, found.token)?;
        place = place.behind(rest[0], found.len);
        let (_, after) = rest.split_at(found.len);
        rest = after;
    }
    Ok(Lexemes { items, end: place })
}
