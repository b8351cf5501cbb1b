//! Whether two events are the same, which a derived test tells only field by field.

ghost use Rattle.std.specs.Prelude.{◌≡◌, ◌↔◌, IsTrue, true};
ghost use Rattle.pei_types.specs.Calls.{Programs, side_of as side_of_lem};
ghost use Rattle.pei_types.specs.Texts.{is_issue};
ghost use Rattle.pmu_dispatch.specs.Steps.{is_message};
ghost use Rattle.trace_check.specs.InState.{IsPeis};

use crate::calls::{Side, side_of};
use pei_types::{EventKind, Place};

/// Whether two places are the same.
pub(crate) fn is_same_place(place: Place, other: Place) -> bool
    ensures { IsTrue result ↔ (place ≡ other) }
{
    match (place, other) {
        (Place::Host, Place::Host) | (Place::Memory, Place::Memory) => true,
        (Place::Host, Place::Memory) | (Place::Memory, Place::Host) => false,
    }
}

/// Whether the same happened.
pub(crate) fn is_same(kind: &EventKind, other: &EventKind) -> bool
    ensures { IsTrue result ↔ (kind.now ≡ other.now) }
{
    match side_of(kind) {
        Side::Program => is_same_answer(kind, other),
        Side::Pei(_) => is_same_pei_event(kind, other),
        Side::Message => is_same_message(kind, other),
    }
}

/// Whether a core's program did the same.
fn is_same_answer(kind: &EventKind, other: &EventKind) -> bool
    requires { side_of_lem kind.now ≡ Programs }
    ensures { IsTrue result ↔ (kind.now ≡ other.now) }
{
    match *kind {
        EventKind::Load { addr, value } => {
            matches!(*other, EventKind::Load { addr: at, value: put } if addr == at && value == put)
        }
        EventKind::Store { addr, value } => {
            matches!(*other, EventKind::Store { addr: at, value: put } if addr == at && value == put)
        }
        EventKind::Issue { .. } => is_same_issue(kind, other),
        EventKind::FenceBegin => matches!(*other, EventKind::FenceBegin),
        EventKind::FenceEnd => matches!(*other, EventKind::FenceEnd),
        EventKind::Out { value } => matches!(*other, EventKind::Out { value: put } if value == put),
        EventKind::Race { pc, block, by } => {
            matches!(*other, EventKind::Race { pc: at, block: on, by: with } if pc == at && block == on && by == with)
        }
        EventKind::End { kind: how } =>
            matches!(*other, EventKind::End { kind: told } if how == told),
        _ => false,
    }
}

/// Whether an issue is the same.
fn is_same_issue(kind: &EventKind, other: &EventKind) -> bool
    ensures { IsTrue (is_issue kind.now) → IsTrue result ↔ (kind.now ≡ other.now) }
{
    match (*kind, *other) {
        (
            EventKind::Issue {
                seq,
                lane,
                op,
                block,
                operands,
            },
            EventKind::Issue {
                seq: number,
                lane: from,
                op: made,
                block: on,
                operands: with,
            },
        ) => seq == number && lane == from && op == made && block == on && operands == with,
        _ => false,
    }
}

/// Whether a PEI did the same.
fn is_same_pei_event(kind: &EventKind, other: &EventKind) -> bool
    requires { IsPeis kind.now }
    ensures { IsTrue result ↔ (kind.now ≡ other.now) }
{
    match *kind {
        EventKind::Enter { seq } =>
            matches!(*other, EventKind::Enter { seq: number } if seq == number),
        EventKind::Place { seq, place } => {
            matches!(*other, EventKind::Place { seq: number, place: to } if seq == number && is_same_place(place, to))
        }
        EventKind::Read { seq } =>
            matches!(*other, EventKind::Read { seq: number } if seq == number),
        EventKind::Seal { seq, vault } => {
            matches!(*other, EventKind::Seal { seq: number, vault: to } if seq == number && vault == to)
        }
        EventKind::Act { seq, reply } => {
            matches!(*other, EventKind::Act { seq: number, reply: told } if seq == number && reply == told)
        }
        EventKind::Leave { seq } =>
            matches!(*other, EventKind::Leave { seq: number } if seq == number),
        _ => false,
    }
}

/// Whether a coherence message is the same.
fn is_same_message(kind: &EventKind, other: &EventKind) -> bool
    requires { is_message kind.now ≡ true }
    ensures { IsTrue result ↔ (kind.now ≡ other.now) }
{
    match *kind {
        EventKind::Invalidate { core, block } => {
            matches!(*other, EventKind::Invalidate { core: of, block: on } if core == of && block == on)
        }
        EventKind::Downgrade { core, block } => {
            matches!(*other, EventKind::Downgrade { core: of, block: on } if core == of && block == on)
        }
        EventKind::EvictL1 { core, block } => {
            matches!(*other, EventKind::EvictL1 { core: of, block: on } if core == of && block == on)
        }
        EventKind::Clean { block } =>
            matches!(*other, EventKind::Clean { block: on } if block == on),
        EventKind::EvictLlc { block } =>
            matches!(*other, EventKind::EvictLlc { block: on } if block == on),
        EventKind::Fill { block } => matches!(*other, EventKind::Fill { block: on } if block == on),
        EventKind::GrantS { block } =>
            matches!(*other, EventKind::GrantS { block: on } if block == on),
        EventKind::GrantE { block } =>
            matches!(*other, EventKind::GrantE { block: on } if block == on),
        EventKind::GrantM { block } =>
            matches!(*other, EventKind::GrantM { block: on } if block == on),
        _ => false,
    }
}
