//! Declarations, built from their tokens.

ghost use Rattle.std.specs.Prelude.{◌≡◌, ◌∷◌, ◌++◌, [], ◌<◌, ◌≤◌, List, Bool, ℕ, true, false, codes, length, map, flat_map, IfOk, IfErr};
ghost use Rattle.std.specs.Str.{byte};
ghost use Rattle.std.specs.List.{list_all};
ghost use Rattle.kernel_text.specs.declared.senses.Wanted.{Wanted};
ghost use Rattle.kernel_text.specs.declared.senses.Wanted.TheVariants as wanted;
ghost use Rattle.kernel_text.specs.declared.stop.Stop.TheVariants as stop;
ghost use Rattle.kernel_text.specs.Tokens.{word};
ghost use Rattle.kernel_text.specs.Grammar.{declaration, has_numbers, is_declaration, is_free, numbers, sized};
ghost use Rattle.kernel_text.specs.Readings.{sized as sized_wanted, ending};
ghost use Rattle.kernel_text.specs.Views.{declaration_of};
ghost use Rattle.kernel_text.specs.Beginnings.{begins_declaration};
ghost use Rattle.kernel_text.specs.Built.{tokens_in, first, continues, Reads, Sticks};

use crate::cursor::{first_of, is_mark, mark, peek};
use crate::parts::{name, number};
use crate::stop::Stop;
use crate::tokens::Lexeme;
use crate::tree::{Decl, Decls, Words};
use pei_io::Text;
use std::alloc::Global;

/// A name with its size.
fn sized<'a, 't>(
    alloc: Global,
    tokens: &'t [Lexeme<'a>],
) -> Result<((Text, u64), &'t [Lexeme<'a>]), Stop>
    ensures spelled { IfOk result (λ r. tokens_in tokens.now ≡ sized r.0.0 r.0.1 ++ tokens_in r.1.now) }
    ensures grammar { IfOk result (λ r. is_free r.0.0 ≡ true) }
    ensures reads { IfOk result (λ r. (array : Bool) → Reads (sized_wanted array) (tokens_in tokens.now) (tokens_in r.1.now)) }
    ensures sticks { IfErr result (λ e. e ≡ stop.Misfit → (array : Bool) → Sticks (sized_wanted array) (tokens_in tokens.now)) }
    ensures shorter { IfOk result (λ r. length r.1.now < length tokens.now) }
{
    let (name, behind) = name(alloc, tokens)?;
    let inside = mark(behind, b'[')?;
    let (size, end) = number(inside)?;
    let rest = mark(end, b']')?;
    Ok(((name, size), rest))
}

/// Numbers with commas between them.
fn numbers<'a, 't>(
    alloc: Global,
    tokens: &'t [Lexeme<'a>],
) -> Result<(Words, &'t [Lexeme<'a>]), Stop>
    ensures spelled { IfOk result (λ r. tokens_in tokens.now ≡ numbers r.0.items.items ++ tokens_in r.1.now) }
    ensures grammar { IfOk result (λ r. has_numbers r.0.items.items ≡ true) }
    ensures reads { IfOk result (λ r. Reads (wanted.Value ∷ wanted.MoreValues ∷ []) (tokens_in tokens.now) (tokens_in r.1.now)) }
    ensures sticks { IfErr result (λ e. e ≡ stop.Misfit → Sticks (wanted.Value ∷ wanted.MoreValues ∷ []) (tokens_in tokens.now)) }
    ensures shorter { IfOk result (λ r. length r.1.now < length tokens.now) }
{
    let (n, mut rest) = number(tokens)?;
    let mut items = Vec::new(alloc);
    items.push(n)?;
    while is_mark(rest, b',') {
        let behind = mark(rest, b',')?;
        let (next, after) = number(behind)?;
        items.push(next)?;
        rest = after;
    }
    Ok((Words { items }, rest))
}

/// A table, behind its keyword.
fn table<'a, 't>(alloc: Global, tokens: &'t [Lexeme<'a>]) -> Result<(Decl, &'t [Lexeme<'a>]), Stop>
    ensures spelled { IfOk result (λ r. word (codes "table") ∷ tokens_in tokens.now ≡ declaration (declaration_of r.0) ++ tokens_in r.1.now) }
    ensures grammar { IfOk result (λ r. is_declaration (declaration_of r.0) ≡ true) }
    ensures reads { IfOk result (λ r. Reads (sized_wanted false ++ wanted.Mark (byte "=") ∷ wanted.Value ∷ wanted.MoreValues ∷ ending) (tokens_in tokens.now) (tokens_in r.1.now)) }
    ensures sticks { IfErr result (λ e. e ≡ stop.Misfit → Sticks (sized_wanted false ++ wanted.Mark (byte "=") ∷ wanted.Value ∷ wanted.MoreValues ∷ ending) (tokens_in tokens.now)) }
    ensures shorter { IfOk result (λ r. length r.1.now < length tokens.now) }
{
    let ((name, size), behind) = sized(alloc, tokens)?;
    let inside = mark(behind, b'=')?;
    let (words, end) = numbers(alloc, inside)?;
    let rest = mark(end, b';')?;
    Ok((Decl::Table { name, size, words }, rest))
}

/// An array, behind its keyword.
fn array<'a, 't>(alloc: Global, tokens: &'t [Lexeme<'a>]) -> Result<(Decl, &'t [Lexeme<'a>]), Stop>
    ensures spelled { IfOk result (λ r. word (codes "array") ∷ tokens_in tokens.now ≡ declaration (declaration_of r.0) ++ tokens_in r.1.now) }
    ensures grammar { IfOk result (λ r. is_declaration (declaration_of r.0) ≡ true) }
    ensures reads { IfOk result (λ r. Reads (sized_wanted true ++ ending) (tokens_in tokens.now) (tokens_in r.1.now)) }
    ensures sticks { IfErr result (λ e. e ≡ stop.Misfit → Sticks (sized_wanted true ++ ending) (tokens_in tokens.now)) }
    ensures shorter { IfOk result (λ r. length r.1.now < length tokens.now) }
{
    let ((name, size), behind) = sized(alloc, tokens)?;
    let rest = mark(behind, b';')?;
    Ok((Decl::Array { name, size }, rest))
}

/// Whether a declaration stands here.
fn begins_declaration(tokens: &[Lexeme<'_>]) -> bool
    ensures { result ≡ begins_declaration (first (tokens_in tokens.now)) }
{
    match peek(tokens) {
        Some(t) => t.is_word("table") || t.is_word("array"),
        None => false,
    }
}

/// A declaration.
fn declaration<'a, 't>(
    alloc: Global,
    tokens: &'t [Lexeme<'a>],
) -> Result<(Decl, &'t [Lexeme<'a>]), Stop>
    requires { begins_declaration (first (tokens_in tokens.now)) ≡ true }
    ensures spelled { IfOk result (λ r. tokens_in tokens.now ≡ declaration (declaration_of r.0) ++ tokens_in r.1.now) }
    ensures grammar { IfOk result (λ r. is_declaration (declaration_of r.0) ≡ true) }
    ensures reads { IfOk result (λ r. (rest : List Wanted) → continues (tokens_in tokens.now) (wanted.Declarations ∷ rest) ≡ continues (tokens_in r.1.now) (wanted.Declarations ∷ rest)) }
    ensures sticks { IfErr result (λ e. e ≡ stop.Misfit → (rest : List Wanted) → continues (tokens_in tokens.now) (wanted.Declarations ∷ rest) ≡ false) }
    ensures shorter { IfOk result (λ r. length r.1.now < length tokens.now) }
{
    let Some((t, rest)) = first_of(tokens) else {
        return Err(Stop::Misfit);
    };
    if t.is_word("table") {
        let (made, behind) = table(alloc, rest)?;
        return Ok((made, behind));
    }
    let (made, behind) = array(alloc, rest)?;
    Ok((made, behind))
}

/// Any number of declarations, and the tokens behind them.
pub(crate) fn declarations<'a, 't>(
    alloc: Global,
    tokens: &'t [Lexeme<'a>],
) -> Result<(Decls, &'t [Lexeme<'a>]), Stop>
    ensures spelled { IfOk result (λ r. tokens_in tokens.now ≡ flat_map declaration (map declaration_of r.0.items.items) ++ tokens_in r.1.now) }
    ensures grammar { IfOk result (λ r. list_all is_declaration (map declaration_of r.0.items.items) ≡ true) }
    ensures reads { IfOk result (λ r. Reads (wanted.Declarations ∷ []) (tokens_in tokens.now) (tokens_in r.1.now)) }
    ensures sticks { IfErr result (λ e. e ≡ stop.Misfit → Sticks (wanted.Declarations ∷ []) (tokens_in tokens.now)) }
{
    let mut items = Vec::new(alloc);
    if !begins_declaration(tokens) {
        return Ok((Decls { items }, tokens));
    }
    let (first, mut rest) = declaration(alloc, tokens)?;
    items.push(first)?;
    while begins_declaration(rest) {
        let (made, after) = declaration(alloc, rest)?;
        items.push(made)?;
        rest = after;
    }
    Ok((Decls { items }, rest))
}
