//! Each number of a trace is changed, one at a time.

ghost use Rattle.std.specs.Prelude.{◌≤◌, ◌<◌, length};

use crate::commands::{Served, serve};
use crate::programs::NARROW;
use itoa::Buffer;
use pei_cli::{Fault, PlainEnd, Verdict};
use pei_types::OutOfMemory;
use std::alloc::Global;
use std::test::Fail;

/// Each of two cores loads a word of block 65, raises one of block 64, waits and loads it, stores it in block 65, and puts out
/// its number and both. By round robin core 1 ends with a race.
const SHARED: &[u8] =
    b".entry *, s\ns: li r1, 4096\nld r2, r1, 64\npinc r1, 0\npfence\nld r3, r1, 0\nst r3, r1, 64\nout r15\n\
out r2\nout r3\nhalt\n";

/// The changes of one number in the trace of `SHARED` that leave it legal, by the line and the line's new bytes. The other
/// core wants the same message then, and it is the same whoever makes it.
const STILL_LEGAL: [(u32, &str); 1] = [(2, "1.0 fill 65")];

/// Whether a number begins at a place of a trace.
fn begins_number(trace: &[u8], at: usize) -> bool
    requires { at < length trace.now }
{
    at > 0 && trace[at].is_ascii_digit() && !trace[at - 1].is_ascii_alphanumeric()
}

/// The value of the digits that a text begins with, modulo 2^64.
fn number_of(digits: &[u8]) -> u64 {
    let mut value = 0u64;
    for digit in digits {
        value = value
            .wrapping_mul(10)
            .wrapping_add(u64::from(digit.wrapping_sub(b'0')));
    }
    value
}

/// The trace with the number at a place made greater by one, or 0. None where that is the number that is there.
fn with_number(
    alloc: Global,
    trace: &[u8],
    at: usize,
    raised: bool,
) -> Result<Option<Vec<u8>>, OutOfMemory>
    requires { at ≤ length trace.now }
{
    let rest = &trace[at..];
    let len = rest
        .iter()
        .position(|byte| !byte.is_ascii_digit())
        .unwrap_or(rest.len());
    let old = number_of(&rest[..len]);
    let new = if raised { old.wrapping_add(1) } else { 0 };
    if new == old {
        return Ok(None);
    }
    let mut buffer = Buffer::new();
    let mut text = Vec::new(alloc);
    let mut whole = text.extend_from_slice(&trace[..at]).is_ok();
    whole &= text
        .extend_from_slice(buffer.format(new).as_bytes())
        .is_ok();
    whole &= text.extend_from_slice(&rest[len..]).is_ok();
    if whole {
        Ok(Some(text))
    } else {
        Err(OutOfMemory)
    }
}

/// Whether a trace of which this line was changed is one of those that stay legal. Its bytes from the line on begin with
/// the line.
fn stays_legal(line: u32, text: &[u8]) -> bool {
    STILL_LEGAL.iter().any(|(at, bytes)| *at == line && text.starts_with(bytes.as_bytes()))
}

/// The line at which a check refuses a trace.
fn refused_at(served: &Served) -> Option<u32> {
    match &served.result {
        Ok(
            PlainEnd::Checked {
                verdict: Verdict::Illegal { line, .. },
                ..
            },
        ) => Some(*line),
        Err(Fault::TraceBad { line }) => Some(*line),
        _ => None,
    }
}

/// What a change of one number comes to, where the lines before are as they were. An actor makes one event next, so a
/// change behind the actor is refused in its line. Another actor may make the event too, so that a later line is refused, or
/// none.
fn is_expected(at: Option<u32>, line: u32, in_actor: bool, stays: bool) -> bool {
    match at {
        Some(at) => !stays && (at == line || in_actor && at > line),
        None => stays && in_actor,
    }
}

/// Each number of a trace of forty lines is changed, to one more and to 0, one at a time.
#[test]
fn changes_of_one_number_are_judged(rt: HostRuntime) -> Result<(), Fail> {
    let machine = NARROW[0].as_bytes();
    let run = serve(rt.alloc(), "sched p m rr 1000 trace", SHARED, machine, b"")?;
    let trace = run.sink.bytes();
    let (mut line, mut begin, mut in_actor, mut stay) = (1u32, 0usize, true, 0usize);
    for at in 0..trace.len() {
        match trace[at] {
            b'\n' => {
                line = line.wrapping_add(1);
                begin = at + 1;
                in_actor = true;
            }
            b' ' => in_actor = false,
            _ => {}
        }
        for raised in [true, false] {
            if !begins_number(trace, at) {
                continue;
            }
            let Some(other) = with_number(rt.alloc(), trace, at, raised)? else {
                continue;
            };
            let verdict = serve(rt.alloc(), "check p m t", SHARED, machine, other.as_slice())?;
            let stays = other
                .get(begin..)
                .is_some_and(|text| stays_legal(line, text));
            stay = stay.wrapping_add(usize::from(stays));
            assert!(rt;
                is_expected(refused_at(&verdict), line, in_actor, stays),
                "{line} {at} {raised}"
            );
        }
    }
    assert_eq!(rt; line, 41);
    assert_eq!(rt; stay, STILL_LEGAL.len());
    Ok(())
}
