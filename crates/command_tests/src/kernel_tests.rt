//! Kernels: what they compile to and come to, and their faults.

use crate::commands::{serve_kernel, status};
use std::test::Fail;

/// A row of the paper: what a command on a kernel writes, and its status.
#[derive(Clone, Copy)]
struct Row {
    command: &'static str,
    kernel: &'static [u8],
    output: &'static [u8],
    status: u8,
}

const INCREMENTS: &[u8] = b"array A[8];\nfor i < 10 { inc A[i]; }\nprint A[1];";

const PROBES: &[u8] =
    b"table T[8] = 7, 70, 0, 0, 0, 0, 1, 64;\na, b = probe T[0], 7;\nprint a;\nprint b;\na, b = probe T[0], 8;\nprint a;\nprint b;";

const ROWS: [Row; 7] = [
    Row {
        command: "ksched k -1 rr 100000",
        kernel: INCREMENTS,
        output: b"out 0 2\ncore 0 halt\nsum 0 8 10\nstatus 0\n",
        status: 0,
    },
    Row {
        command: "ksched k -1 serial 100000",
        kernel: PROBES,
        output: b"out 0 1\nout 0 70\nout 0 0\nout 0 64\ncore 0 halt\nsum 0 8 142\nstatus 0\n",
        status: 0,
    },
    Row {
        command: "ksched k -1 rr 100",
        kernel: b"",
        output: b"core 0 halt\nstatus 0\n",
        status: 0,
    },
    Row {
        command: "ksched k -1 rr 1 trace",
        kernel: b"",
        output: b"peisim-trace 1 mesi\n0.0 end halt\n",
        status: 0,
    },
    Row {
        command: "ksched k -1 7 0",
        kernel: INCREMENTS,
        output: b"core 0 unfinished\nsum 0 8 0\nstatus 7\n",
        status: 7,
    },
    Row {
        command: "kernel k",
        kernel: b"",
        output: b".entry 0, L0\nL0: halt\n",
        status: 0,
    },
    Row {
        command: "kernel k",
        kernel: INCREMENTS,
        output: b".entry 0, L0\n.sum 0, 8\nL0: li r0, 0\nL1: andi r8, r0, 7\nshl r8, r8, 3\npinc r8, 0\naddi r0, r0, 1\nli r8, 10\nbne r0, r8, L1\npfence\nld r8, r15, 8\nout r8\nhalt\n",
        status: 0,
    },
];

#[test]
fn kernels_come_to_their_meaning(rt: HostRuntime) -> Result<(), Fail> {
    for row in ROWS {
        let served = serve_kernel(rt.alloc(), row.command, row.kernel, b"", 0, 0)?;
        assert_eq!(rt; served.sink.bytes(), row.output);
        assert_eq!(rt; status(&served), row.status);
        assert_eq!(rt; served.line.bytes(), b"".as_slice());
    }
    Ok(())
}

/// A command on a kernel that is refused, where the read and the write of these numbers fail: the line, and the status.
#[derive(Clone, Copy)]
struct Refusal {
    command: &'static str,
    kernel: &'static [u8],
    machine: &'static [u8],
    read_fails: u32,
    write_fails: u32,
    line: &'static [u8],
    status: u8,
}

/// The empty kernel on a machine that is no text of a machine, which refuses it at its first fault.
const EMPTY: Refusal = Refusal {
    command: "ksched k m rr 100",
    kernel: b"",
    machine: b"cores",
    read_fails: 0,
    write_fails: 0,
    line: b"machine bad BadToml\n",
    status: 4,
};

const REFUSALS: [Refusal; 10] = [
    EMPTY,
    Refusal {
        command: "ksched k -1 rr 100000",
        kernel: b"table T[8] = 1;\ninc T[0];",
        line: b"kernel bad 2:5 WrongKind\n",
        status: 15,
        ..EMPTY
    },
    Refusal {
        kernel: b"array A[8];\n\x80",
        line: b"kernel bad 2:1 BadChar\n",
        status: 15,
        ..EMPTY
    },
    Refusal {
        command: "kernel k",
        kernel: b"array A[9];",
        line: b"kernel bad 1:9 BadSize\n",
        status: 15,
        ..EMPTY
    },
    Refusal {
        command: "ksched k -2 rr 100000",
        kernel: INCREMENTS,
        line: b"load bad NoEntry 1\n",
        status: 3,
        ..EMPTY
    },
    Refusal {
        command: "kernel k",
        read_fails: 1,
        line: b"read fault kernel\n",
        status: 8,
        ..EMPTY
    },
    Refusal {
        command: "kernel k",
        write_fails: 1,
        line: b"write fault\n",
        status: 9,
        ..EMPTY
    },
    Refusal {
        command: "ksched k -1 rr 100",
        write_fails: 1,
        line: b"write fault\n",
        status: 9,
        ..EMPTY
    },
    Refusal {
        command: "kernel k more",
        line: b"usage: peisim asm or sched or run or check or gen\n",
        status: 2,
        ..EMPTY
    },
    Refusal {
        command: "ksched k -1 rr",
        line: b"usage: peisim asm or sched or run or check or gen\n",
        status: 2,
        ..EMPTY
    },
];

#[test]
fn kernels_are_refused(rt: HostRuntime) -> Result<(), Fail> {
    for row in REFUSALS {
        let served = serve_kernel(
            rt.alloc(),
            row.command,
            row.kernel,
            row.machine,
            row.read_fails,
            row.write_fails,
        )?;
        assert_eq!(rt; served.line.bytes(), row.line);
        assert_eq!(rt; status(&served), row.status);
        assert_eq!(rt; served.sink.bytes(), b"".as_slice());
    }
    Ok(())
}
