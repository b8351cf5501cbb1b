//! Small programs for a memory of 16 blocks, whose last word has the address 1,016.

ghost use Rattle.pei_types.specs.Limits.{IsWithin};

use crate::{LoadFault, load};
use pei_types::{Ask, CoreId, Image, MachineSpec, Policy3, Program};
use std::test::Fail;

/// A line of two initial words, with the address of the first.
type Line = (u64, [u64; 2]);

#[tactic(auto, unfolding(pei_types::specs::Limits::log_two))]
fn machine(cores: u8) -> MachineSpec
    requires { IsWithin 1 8 cores }
{
    MachineSpec {
        cores,
        blocks: 16,
        l1_sets: 4,
        l1_ways: 2,
        llc_sets: 16,
        llc_ways: 4,
        vaults: 4,
        queue: 4,
        directory: 64,
        buffer: 4,
        banks: 1,
        fuel: 10_000,
        events: 64,
        placement: Policy3::Monitor,
    }
}

/// A program of these lines and asks, with no entry.
fn program_of(rt: &HostRuntime, lines: &[Line], asks: &[Ask]) -> Result<Program, Fail> {
    let mut program = Program::make(rt.alloc());
    for (addr, words) in lines {
        if program.lines() >= 100 || program.push_words(*addr, words).is_err() {
            return Err(Fail::from("there is room for the lines"));
        }
    }
    for ask in asks {
        if program.push_ask(*ask).is_err() {
            return Err(Fail::from("there is room for the asks"));
        }
    }
    Ok(program)
}

/// Two cores: what loading refuses these lines and asks for, where each core enters at 3.
fn fault_of(rt: &HostRuntime, lines: &[Line], asks: &[Ask]) -> Result<Option<LoadFault>, Fail> {
    let mut program = program_of(rt, lines, asks)?;
    program.set_entry(None, 3);
    Ok(load(rt.alloc(), &program, &machine(2)).err())
}

fn show(addr: u64, count: u64) -> Ask {
    Ask::Show { addr, count }
}

fn sum(addr: u64, count: u64) -> Ask {
    Ask::Sum { addr, count }
}

fn misaligned(addr: u64) -> Option<LoadFault> {
    Some(LoadFault::DataMisaligned { addr })
}

fn past(addr: u64) -> Option<LoadFault> {
    Some(LoadFault::DataOutOfRange { addr })
}

fn overlap(addr: u64) -> Option<LoadFault> {
    Some(LoadFault::DataOverlap { addr })
}

#[test]
fn lines_are_tested_in_order(rt: HostRuntime) -> Result<(), Fail> {
    let top = u64::MAX - 7;
    let rows: [(&[Line], Option<LoadFault>); 11] = [
        (&[], None),
        (&[(0, [1, 2]), (1008, [3, 4])], None),
        (&[(1016, [1, 2])], past(1024)),
        (&[(1024, [1, 2])], past(1024)),
        (&[(top, [1, 2])], past(top)),
        (&[(8, [1, 2]), (4, [3, 4])], misaligned(4)),
        (&[(1025, [1, 2])], misaligned(1025)),
        (&[(64, [1, 2]), (72, [3, 4])], overlap(72)),
        (&[(64, [1, 2]), (56, [3, 4])], overlap(64)),
        (&[(64, [1, 2]), (64, [1, 2]), (4, [3, 4])], overlap(64)),
        (&[(1016, [1, 2]), (1016, [3, 4])], past(1024)),
    ];
    for (lines, fault) in &rows {
        assert_eq!(rt; fault_of(&rt, lines, &[])?, *fault);
    }
    Ok(())
}

#[test]
fn asks_are_tested_after_lines(rt: HostRuntime) -> Result<(), Fail> {
    let top = u64::MAX - 7;
    let rows = [
        (show(0, 128), None),
        (sum(1016, 1), None),
        (show(4096, 0), None),
        (show(12, 0), Some(12)),
        (show(1016, 2), Some(1016)),
        (sum(1024, 1), Some(1024)),
        (sum(top, 1), Some(top)),
        (show(8, u64::MAX), Some(8)),
    ];
    for (ask, refused) in &rows {
        let fault = refused.map(|addr| LoadFault::ShowOutOfRange { addr });
        assert_eq!(rt; fault_of(&rt, &[], &[*ask])?, fault);
    }
    let first = Some(LoadFault::ShowOutOfRange { addr: 1 });
    assert_eq!(rt;
        fault_of(&rt, &[], &[show(0, 1), sum(1, 1), sum(2, 1)])?,
        first
    );
    assert_eq!(rt; fault_of(&rt, &[(2, [1, 2])], &[sum(1, 1)])?, misaligned(2));
    Ok(())
}

#[test]
fn entries_are_set(rt: HostRuntime) -> Result<(), Fail> {
    let mut program = program_of(&rt, &[], &[])?;
    let asking = program_of(&rt, &[], &[sum(1, 1)])?;
    let asked = load(rt.alloc(), &asking, &machine(3)).err();
    assert_eq!(rt; asked, Some(LoadFault::ShowOutOfRange { addr: 1 }));
    let first = load(rt.alloc(), &program, &machine(3)).err();
    assert_eq!(rt; first, Some(LoadFault::NoEntry { core: 0 }));
    program.set_entry(Some(CoreId(0)), 5);
    let second = load(rt.alloc(), &program, &machine(3)).err();
    assert_eq!(rt; second, Some(LoadFault::NoEntry { core: 1 }));
    program.set_entry(None, 3);
    let Ok(image) = load(rt.alloc(), &program, &machine(3)) else {
        return Err(Fail::from("each core has an entry"));
    };
    assert_eq!(rt; image.entry(CoreId(0)), 5);
    assert_eq!(rt; image.entry(CoreId(1)), 3);
    assert_eq!(rt; image.entry(CoreId(2)), 3);
    Ok(())
}

#[test]
fn words_are_placed(rt: HostRuntime) -> Result<(), Fail> {
    let mut program = program_of(&rt, &[(1008, [11, 12]), (64, [13, 14])], &[])?;
    program.set_entry(None, 0);
    let Ok(image) = load(rt.alloc(), &program, &machine(1)) else {
        return Err(Fail::from("the words are in memory"));
    };
    let words = image.words();
    assert_eq!(rt; words.len(), 128);
    for (i, word) in words.iter().enumerate() {
        let expected = match i {
            126 => 11,
            127 => 12,
            8 => 13,
            9 => 14,
            _ => 0,
        };
        assert_eq!(rt; *word, expected);
    }
    Ok(())
}
