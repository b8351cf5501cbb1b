//! The places of a program that an entry, a branch or a jump names.

ghost use Rattle.std.specs.Prelude.{◌≡◌, ◌∷◌, ◌+◌, ◌<◌, length, IfOk, IfSome};
ghost use Rattle.std.specs.List.{list_any};
ghost use Rattle.pei_asm.specs.Canonical.{IsPrintable, is_at, target_of};
ghost use Rattle.pei_asm.specs.Named.{HasNamed, Marks};

use pei_types::{CoreId, Instr, OutOfMemory, Program};
use std::alloc::Global;

/// The place that an instruction names.
fn target_of(instr: Instr) -> Option<u32>
    ensures { result ≡ target_of instr }
{
    match instr {
        Instr::Beq { to, .. }
        | Instr::Bne { to, .. }
        | Instr::Bltu { to, .. }
        | Instr::Bgeu { to, .. }
        | Instr::Jmp { to } => Some(to),
        _ => None,
    }
}

/// Marks a place, if it is given.
fn mark(places: &mut Vec<bool>, place: Option<u32>)
    requires { IfSome place (λ k. k < length places.old.items) }
    ensures { Marks places.old.items places.new.items (λ k. is_at k place) }
{
    if let Some(k) = place {
        places[k as usize] = true;
    }
}

/// Marks the places of the entries.
fn mark_entries(places: &mut Vec<bool>, program: &Program)
    requires printable { IsPrintable program.now }
    requires room { length places.old.items ≡ length program.now.instrs + 1 }
    ensures { Marks places.old.items places.new.items (λ k. list_any (is_at k) (program.now.common_entry ∷ program.now.own_entries)) }
{
    mark(places, program.entry_line(None));
    for core in 0..8 {
        mark(places, program.entry_line(Some(CoreId(core))));
    }
}

/// Marks the places that instructions name.
fn mark_targets(places: &mut Vec<bool>, program: &Program)
    requires printable { IsPrintable program.now }
    requires room { length places.old.items ≡ length program.now.instrs + 1 }
    ensures { Marks places.old.items places.new.items (λ k. list_any (λ i. is_at k (target_of i)) program.now.instrs) }
{
    for pc in 0..program.len() {
        mark(places, target_of(program.instr(pc)));
    }
}

/// For each place up to the one behind the last instruction whether it is named.
pub(crate) fn named_places(alloc: Global, program: &Program) -> Result<Vec<bool>, OutOfMemory>
    requires printable { IsPrintable program.now }
    ensures { IfOk result (λ places. HasNamed program.now places.items) }
{
    let Ok(mut places) = vec![in alloc; false; program.len() as usize + 1] else {
        return Err(OutOfMemory);
    };
    mark_entries(&mut places, program);
    mark_targets(&mut places, program);
    Ok(places)
}
