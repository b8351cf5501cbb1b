//! The programs of kernels, as canonical texts worked out by hand, and the largest kernels.

ghost use Rattle.std.specs.Prelude.{◌<◌, length};

use kernel_lang::compile;
use kernel_text::{KernelFault, KernelKind};
use pei_asm::evidence::spelled_programs_are_printable;
use pei_asm::{assemble, print};
use pei_io::Text;
use pei_types::OutOfMemory;
use std::alloc::Global;
use std::test::Fail;

/// The canonical text of a kernel's program.
fn compiled(alloc: Global, text: &[u8]) -> Result<Text, Fail>
    requires { length text.now < 4294967295 }
{
    let program = compile(alloc, text)?;
    Ok(print(alloc, &program)?)
}

/// Kernels, each with the canonical text of its program.
const PROGRAMS: [(&[u8], &str); 3] = [
    (b"", ".entry 0, L0\nL0: halt\n"),
    (
        b"array A[8];\nfor i < 10 { inc A[i]; }\nprint A[1];",
        ".entry 0, L0\n.sum 0, 8\nL0: li r0, 0\nL1: andi r8, r0, 7\nshl r8, r8, 3\npinc r8, 0\naddi r0, r0, 1\nli r8, 10\nbne r0, r8, L1\npfence\nld r8, r15, 8\nout r8\nhalt\n",
    ),
    (
        b"table T[8] = 7, 70, 0, 0, 0, 0, 1, 64;\na, b = probe T[0], 7;\nprint a; print b;",
        ".entry 0, L0\n.data 0, 7, 70, 0, 0, 0, 0, 1, 64\n.sum 0, 8\nL0: li r9, 7\npprobe r13, r15, 0, r9\naddi r0, r13, 0\naddi r1, r14, 0\nout r0\nout r1\nhalt\n",
    ),
];

#[test]
fn programs_are_as_worked_out(rt: HostRuntime) -> Result<(), Fail> {
    for (text, want) in PROGRAMS {
        assert!(rt; text.len() < 1000);
        assert_eq!(rt; compiled(rt.alloc(), text)?.as_str(), want);
    }
    Ok(())
}

#[test]
fn faults_are_those_of_the_text(rt: HostRuntime) -> Result<(), Fail> {
    let fault = compile(rt.alloc(), b"table T[8] = 1;\ninc T[0];").err();
    let kind = KernelKind::WrongKind;
    let (line, column) = (2, 5);
    assert_eq!(rt; fault, Some(KernelFault { line, column, kind }));
    Ok(())
}

/// Adds a name with a number of four digits.
fn add_name(text: &mut Vec<u8>, number: u32) -> Result<(), OutOfMemory> {
    let digits = [
        b'T',
        digit(number / 1000),
        digit(number / 100),
        digit(number / 10),
        digit(number),
    ];
    add(text, &digits)
}

fn digit(number: u32) -> u8 {
    b'0' + (number % 10) as u8
}

fn add(text: &mut Vec<u8>, piece: &[u8]) -> Result<(), OutOfMemory> {
    match text.extend_from_slice(piece) {
        Ok(()) => Ok(()),
        Err(_) => Err(OutOfMemory),
    }
}

/// As many full tables as words allow, of the largest words, and then a statement so many times.
fn largest(
    alloc: Global,
    first: &[u8],
    statement: &[u8],
    times: u32,
) -> Result<Vec<u8>, OutOfMemory> {
    let mut text = Vec::new(alloc);
    for number in 0..4096 {
        add(&mut text, b"table ")?;
        add_name(&mut text, number)?;
        add(&mut text, b"[8] = 18446744073709551615")?;
        for _ in 1..8 {
            add(&mut text, b",18446744073709551615")?;
        }
        add(&mut text, b";\n")?;
    }
    add(&mut text, first)?;
    for _ in 0..times {
        add(&mut text, statement)?;
    }
    Ok(text)
}

/// The longest canonical texts fit into a program's file, and spell the program again.
#[test]
fn largest_kernels_fit(rt: HostRuntime) -> Result<(), Fail> {
    for (first, statement, times, least) in [
        (
            b"".as_slice(),
            b"for v < 1000000 { }\n".as_slice(),
            4000u32,
            1_030_000usize,
        ),
        (
            b"v = 0;\n",
            b"v = dot T4095[v], v, v, v, v;\n",
            1999,
            1_030_000,
        ),
    ] {
        let text = largest(rt.alloc(), first, statement, times)?;
        assert!(rt; text.len() <= 1_048_576);
        let canonical = compiled(rt.alloc(), text.as_slice())?;
        let length = canonical.as_str().len();
        assert!(rt; length > least, "{length}");
        assert!(rt; length <= 1_048_576, "{length}");
        spelled_programs_are_printable();
        let again = assemble(rt.alloc(), canonical.as_str().as_bytes())?;
        assert!(rt; print(rt.alloc(), &again)?.as_str() == canonical.as_str());
    }
    Ok(())
}
