//! Words, programs and machines that are refused, and the line of each fault.

use crate::commands::{serve, status};
use crate::programs::{RAISE, RAISE_BY_ALL};
use pei_asm::{AsmFault, AsmKind};
use pei_cli::{Fault, LoadFault, status_of, write_fault};
use pei_io::{MemSink, Which};
use std::test::Fail;

/// What is said to words that name no command.
pub(crate) const USAGE: &str = "usage: peisim asm or sched or run or check or gen\n";

/// Commands over a program, their status, and the line of their fault.
const REFUSED: [(&str, &str, u8, &str); 28] = [
    ("sched p -1 rr 1000", "", 3, "load bad NoEntry 0\n"),
    (
        "sched p -1 rr 1000",
        "pdot r4, r13, 0, r13",
        3,
        "program bad 1:18 RegisterRange\n",
    ),
    (
        "sched p -1 rr 1000",
        "x: halt\nx: halt",
        3,
        "program bad 2:1 DoubleLabel\n",
    ),
    (
        "sched p -1 rr 1000",
        "jmp y",
        3,
        "program bad 1:5 UnknownLabel\n",
    ),
    (
        "sched p -1 rr 1000",
        "halt\nfrobnicate r1\n",
        3,
        "program bad 2:1 UnknownName\n",
    ),
    (
        "sched p -1 rr 1000",
        ".data 4, 41, 42\n.sum 262136, 2\n",
        3,
        "load bad DataMisaligned 4\n",
    ),
    (
        "sched p -1 rr 1000",
        ".data 262136, 41, 42\n",
        3,
        "load bad DataOutOfRange 262144\n",
    ),
    (
        "sched p -1 rr 1000",
        ".data 0, 41\n.sum 262136, 2\n",
        3,
        "load bad ShowOutOfRange 262136\n",
    ),
    ("", "", 2, USAGE),
    ("sched p -1 rr", "", 2, USAGE),
    ("sched p -1 rr 1000 more", "", 2, USAGE),
    ("sched p -1 rr 1000 report", "", 2, USAGE),
    ("run p -1", "", 2, USAGE),
    ("run p -1 rr 1000", "", 2, USAGE),
    ("asm", "", 2, USAGE),
    ("asm p q", "", 2, USAGE),
    (
        "asm p",
        "halt\n  halt halt",
        3,
        "program bad 2:3 WrongOperands\n",
    ),
    ("gen", "", 2, USAGE),
    ("gen +1", "", 2, USAGE),
    ("gen 18446744073709551616", "", 2, USAGE),
    ("gen 1 trace", "", 2, USAGE),
    (
        "sched p -0 rr 1000",
        ".entry 0, s\ns: halt",
        4,
        "machine bad MissingKey cores\n",
    ),
    ("sched p -1 +1 1000", "", 2, USAGE),
    ("sched p -1  1000", "", 2, USAGE),
    ("sched p m +1 1000", "", 2, USAGE),
    ("sched p -1 18446744073709551616 1000", "", 2, USAGE),
    ("sched p -1 rr 1000000001", "", 2, USAGE),
    ("view p -1 t 0", "", 2, USAGE),
];

#[test]
fn refused_commands_write_nothing(rt: HostRuntime) -> Result<(), Fail> {
    for (command, program, want_status, line) in REFUSED {
        let served = serve(rt.alloc(), command, program.as_bytes(), b"", b"")?;
        assert_eq!(rt; served.line.bytes(), line.as_bytes(), "{command}");
        assert_eq!(rt; status(&served), want_status, "{command}");
        assert_eq!(rt; served.sink.bytes(), b"".as_slice(), "{command}");
    }
    Ok(())
}

/// Programs and machines, the status of a run, and the line of its fault: the program's comes first, then the machine's,
/// then that of loading.
const REFUSED_MACHINES: [(&[u8], &str, u8, &str); 12] = [
    (
        RAISE,
        "cores = 9\nblocks = 64\n",
        4,
        "machine bad OutOfLimits cores\n",
    ),
    (RAISE, "cores = 2\n", 4, "machine bad MissingKey blocks\n"),
    (
        RAISE,
        "x = 1\ncores = 1\nblocks = 64\n",
        4,
        "machine bad UnknownKey x\n",
    ),
    (RAISE, "'a b' = 1\n", 4, "machine bad UnknownKey a b\n"),
    (
        RAISE,
        "cores = 1\nblocks = 128\nbanks = 16\n",
        4,
        "machine bad OutOfLimits banks\n",
    ),
    (RAISE, "cores = ", 4, "machine bad BadToml\n"),
    (
        RAISE,
        "cores = 1.0\nblocks = 64\n",
        4,
        "machine bad NotInteger cores\n",
    ),
    (
        RAISE,
        "cores = 1\nblocks = 64\nvaults = 3\n",
        4,
        "machine bad NotPowerOfTwo vaults\n",
    ),
    (
        RAISE,
        "cores = 1\nblocks = 64\nplacement = 1\n",
        4,
        "machine bad BadPolicy\n",
    ),
    (
        b"frobnicate r1\n",
        "cores = 9\n",
        3,
        "program bad 1:1 UnknownName\n",
    ),
    (
        b"",
        "cores = 9\nblocks = 64\n",
        4,
        "machine bad OutOfLimits cores\n",
    ),
    (
        RAISE_BY_ALL,
        "cores = 1\nblocks = 64\nfuel = 0\n",
        4,
        "machine bad OutOfLimits fuel\n",
    ),
];

#[test]
fn refused_machines_write_nothing(rt: HostRuntime) -> Result<(), Fail> {
    for (program, machine, want_status, line) in REFUSED_MACHINES {
        let served = serve(
            rt.alloc(),
            "sched p m rr 1000",
            program,
            machine.as_bytes(),
            b"",
        )?;
        assert_eq!(rt; served.line.bytes(), line.as_bytes(), "{machine}");
        assert_eq!(rt; status(&served), want_status, "{machine}");
        assert_eq!(rt; served.sink.bytes(), b"".as_slice(), "{machine}");
    }
    Ok(())
}

/// Faults that no command above ends with.
#[test]
fn faults_have_a_status_and_a_line(rt: HostRuntime) -> Result<(), Fail> {
    for (fault, status, line) in [
        (
            Fault::ProgramBad(AsmFault {
                line: 12,
                column: 345,
                kind: AsmKind::WrongOperands,
            }),
            3,
            "program bad 12:345 WrongOperands\n",
        ),
        (
            Fault::LoadBad(LoadFault::NoEntry { core: 7 }),
            3,
            "load bad NoEntry 7\n",
        ),
        (
            Fault::LoadBad(LoadFault::DataOverlap { addr: 8 }),
            3,
            "load bad DataOverlap 8\n",
        ),
        (
            Fault::LoadBad(LoadFault::ShowOutOfRange { addr: u64::MAX }),
            3,
            "load bad ShowOutOfRange 18446744073709551615\n",
        ),
        (
            Fault::ReadFault {
                which: Which::Trace,
            },
            8,
            "read fault trace\n",
        ),
        (
            Fault::InputTooLong {
                which: Which::Trace,
            },
            13,
            "input too long trace\n",
        ),
        (Fault::OutOfMemory, 10, "out of memory\n"),
    ] {
        let mut sink = MemSink::make(rt.alloc(), 100, 100, &[])?;
        assert_eq!(rt; status_of(&fault), status);
        assert!(rt; write_fault(&fault, &mut sink).is_ok());
        assert_eq!(rt; sink.bytes(), line.as_bytes());
    }
    Ok(())
}
