//! Worked examples.

ghost use Rattle.std.specs.Prelude.{◌≤◌};

use crate::{apply, mode, operand_fits, writes};
use pei_types::{Block, Mode, Op, Operands, Reply, TrapCause};

const MAX: u64 = u64::MAX;

fn one_operand(operand: u64) -> Operands {
    Operands([operand, 0, 0, 0])
}

/// The two words of the histogram of a block.
fn histogram(words: [u64; 8], shift: u64) -> [u64; 2]
    requires { shift ≤ 24 }
{
    apply(Op::Hist, &Operands([shift, 0, 0, 0]), &mut Block(words)).words
}

#[test]
fn words_change(rt: HostRuntime) {
    let mut block = Block([1, MAX, 41, 0, 0, 0, 0, 9]);
    let reply = apply(Op::Inc { word: 1 }, &one_operand(0), &mut block);
    assert_eq!(rt;
        reply,
        Reply {
            words: [0, 0],
            len: 0
        }
    );
    apply(Op::Inc { word: 7 }, &one_operand(0), &mut block);
    assert_eq!(rt; block, Block([1, 0, 41, 0, 0, 0, 0, 10]));
    for (operand, least) in [(5, 5), (6, 5), (MAX, 5), (4, 4)] {
        let mut block = Block([3, 0, 0, 5, 0, 0, 0, 9]);
        let reply = apply(Op::Min { word: 3 }, &one_operand(operand), &mut block);
        assert_eq!(rt;
            reply,
            Reply {
                words: [0, 0],
                len: 0
            }
        );
        assert_eq!(rt;
            block,
            Block([3, 0, 0, least, 0, 0, 0, 9]),
            "5 and {operand}"
        );
    }
}

#[test]
fn buckets_are_searched(rt: HostRuntime) {
    for (count, key, words) in [
        (0, 7, [0, 8192]),
        (9, 7, [1, 70]),
        (9, 9, [1, 90]),
        (2, 9, [0, 8192]),
        (5, 5, [0, 8192]),
    ] {
        let bucket = Block([7, 70, 7, 71, 9, 90, count, 8192]);
        let mut block = bucket;
        let reply = apply(Op::Probe, &one_operand(key), &mut block);
        assert_eq!(rt;
            reply,
            Reply { words, len: 2 },
            "key {key} of {count} pairs"
        );
        assert_eq!(rt; block, bucket);
    }
}

#[test]
fn lanes_are_counted(rt: HostRuntime) {
    let first = [0xAB00000012345678, 0, 0, 0, 0, 0, 0, 0];
    assert_eq!(rt; histogram(first, 24), [43794, 0]);
    let last = [0, 0, 0, 0, 0, 0, 0, 0x000001CD00000000];
    assert_eq!(rt; histogram(last, 0), [0, 0xCD00000000000000]);
    assert_eq!(rt; histogram(last, 8), [0, 0x0100000000000000]);
}

#[test]
fn lanes_are_multiplied(rt: HostRuntime) {
    for (words, operands, product) in [
        (
            [0x8000000080000000; 8],
            [0x8000800080008000; 4],
            1125899906842624,
        ),
        // -2 times -3
        ([0xFFFFFFFE, 0, 0, 0, 0, 0, 0, 0], [0xFFFD, 0, 0, 0], 6),
        // -2^31 times 1
        (
            [0x80000000, 0, 0, 0, 0, 0, 0, 0],
            [1, 0, 0, 0],
            0xFFFFFFFF80000000,
        ),
        // lane 5 of each, 3 times 7
        ([0, 0, 0x300000000, 0, 0, 0, 0, 0], [0, 0x70000, 0, 0], 21),
    ] {
        let reply = apply(Op::Dot, &Operands(operands), &mut Block(words));
        assert_eq!(rt;
            reply,
            Reply {
                words: [product, 0],
                len: 1
            }
        );
    }
}

#[test]
fn writers_change_their_block(rt: HostRuntime) {
    for op in [Op::Inc { word: 0 }, Op::Min { word: 7 }] {
        assert!(rt; writes(op));
        assert_eq!(rt; mode(op), Mode::Writer);
    }
    for op in [Op::Probe, Op::Hist, Op::Dot] {
        assert!(rt; !writes(op));
        assert_eq!(rt; mode(op), Mode::Reader);
    }
}

#[test]
fn the_first_trap_is_told(rt: HostRuntime) {
    for (whole_block, shift, addr, blocks, trap) in [
        (false, None, 4, 1, Some(TrapCause::Align)),
        (false, None, 8, 1, None),
        (true, None, 8, 1, Some(TrapCause::Align)),
        (false, None, 56, 1, None),
        (false, None, 64, 1, Some(TrapCause::Range)),
        (false, None, 0, 0, Some(TrapCause::Range)),
        (false, None, 274877906872, u32::MAX, None),
        (true, Some(25), 100, 1, Some(TrapCause::Align)),
        (true, Some(25), 64, 1, Some(TrapCause::Range)),
        (true, Some(25), 0, 1, Some(TrapCause::Shift)),
        (true, Some(24), 0, 1, None),
    ] {
        let told = operand_fits(whole_block, shift, addr, blocks);
        assert_eq!(rt; told, trap, "at {addr} of {blocks} blocks");
    }
}
