//! Texts with their faults, and texts that spell one program.

ghost use Rattle.std.specs.Prelude.{◌<◌, length};

use pei_asm::{AsmFault, AsmKind, assemble};
use pei_types::{Ask, CoreId, Instr, Program};
use std::test::Fail;

/// Texts, each with the fault that it must have.
const FAULTS: [(&[u8], u32, u32, AsmKind); 24] = [
    (b"halt # \xFF", 1, 8, AsmKind::NotUtf8),
    (b"# \xC3\xA9\nhalt !\xFF", 2, 7, AsmKind::NotUtf8),
    (b"halt !", 1, 6, AsmKind::BadChar),
    (b"li r1, 12ab", 1, 10, AsmKind::BadChar),
    (b"li r1, 0x", 1, 9, AsmKind::BadChar),
    (b"foo \xC3\xA9", 1, 5, AsmKind::BadChar),
    (b"x: halt\nx: halt", 2, 1, AsmKind::DoubleLabel),
    (b"x: halt\n x: foo", 2, 2, AsmKind::DoubleLabel),
    (b"r1: halt", 1, 1, AsmKind::UnknownName),
    (b"x: .x: halt", 1, 4, AsmKind::UnknownName),
    (b"x: y: halt", 1, 4, AsmKind::UnknownName),
    (b"HALT", 1, 1, AsmKind::UnknownName),
    (b"\tli r1", 1, 2, AsmKind::WrongOperands),
    (b"li r01, 1", 1, 1, AsmKind::WrongOperands),
    (b"s: .entry 8, s", 1, 4, AsmKind::WrongOperands),
    (b".show -1, 1", 1, 1, AsmKind::WrongOperands),
    (b".data 0", 1, 1, AsmKind::WrongOperands),
    (
        b"li r1, 18446744073709551616",
        1,
        8,
        AsmKind::NumberTooLarge,
    ),
    (
        b"li r1, -9223372036854775809",
        1,
        8,
        AsmKind::NumberTooLarge,
    ),
    (b"pdot r4, r13, 0, r13", 1, 18, AsmKind::RegisterRange),
    (b"phist r15, r1, 0, r2", 1, 7, AsmKind::RegisterRange),
    (
        b"s: halt\n.entry *, s\n.entry *, s",
        3,
        1,
        AsmKind::DoubleEntry,
    ),
    (b"jmp y", 1, 5, AsmKind::UnknownLabel),
    (b"jmp y\nhalt\nfoo", 3, 1, AsmKind::UnknownName),
];

fn assembled(rt: &HostRuntime, text: &[u8]) -> Result<Program, Fail>
    requires { length text.now < 4294967295 }
{
    match assemble(rt.alloc(), text) {
        Ok(program) => Ok(program),
        Err(_) => Err(Fail::from("the text spells a program")),
    }
}

#[test]
fn each_text_has_its_fault(rt: HostRuntime) -> Result<(), Fail> {
    for (text, line, column, kind) in FAULTS {
        match assemble(rt.alloc(), text) {
            Ok(_) => return Err(Fail::from("the text has a fault")),
            Err(fault) => assert_eq!(rt; fault, AsmFault { line, column, kind }),
        }
    }
    Ok(())
}

#[test]
fn all_spellings_spell_one_program(rt: HostRuntime) -> Result<(), Fail> {
    let texts: [&[u8]; 2] = [
        b".entry *, s\n.entry 3, add\n.data 64, 1, 2\n.show 64, 2\n.sum 0, 8\n.stats\ns: li r1, 18446744073709551615\nadd: beq r1, r2, end\npinc r1, 8\nend:",
        b"; all of it\r\n.stats\t# first\n.entry 0x3 ,add\n.entry *,s\n.data 0x40,0x1,2\n\n.show 64,2\n.sum -0, 8\n s :\nli r1,-1\nadd: beq r1, r2, end # to the end\npinc r1, 0x8\nend:\n",
    ];
    let instrs = [
        Instr::Li { rd: 1, n: u64::MAX },
        Instr::Beq {
            ra: 1,
            rb: 2,
            to: 3,
        },
        Instr::Pinc { ra: 1, n: 8 },
    ];
    for text in texts {
        let program = assembled(&rt, text)?;
        assert_eq!(rt; program.len(), 3);
        for pc in 0..3 {
            assert_eq!(rt; program.instr(pc), instrs[pc as usize]);
        }
        assert_eq!(rt; program.entry_line(None), Some(0));
        assert_eq!(rt; program.entry_line(Some(CoreId(3))), Some(1));
        assert_eq!(rt; program.entry_line(Some(CoreId(0))), None);
        assert_eq!(rt; program.lines(), 1);
        assert_eq!(rt; program.line(0).0, 64);
        assert_eq!(rt; program.line(0).1, [1, 2].as_slice());
        assert_eq!(rt;
            program.asks(),
            [
                Ask::Show { addr: 64, count: 2 },
                Ask::Sum { addr: 0, count: 8 }
            ]
            .as_slice()
        );
        assert!(rt; program.stats());
    }
    Ok(())
}
