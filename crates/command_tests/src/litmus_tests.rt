//! Litmus programs, with the outcomes that docs/LITMUS.md tells. The programs are those of examples/litmus/.

use crate::commands::{serve, status};
use std::test::Fail;

/// Core 0 increments a word and sets a flag by a store. Core 1 waits for the flag and reads the word by a PEI.
const MESSAGE: &str =
    ".entry 0, writer\n.entry 1, reader\nwriter: pinc r0, 4096\nli r1, 1\nst r1, r0, 4160\nhalt\n\
reader: li r4, 1\nwait: ld r2, r0, 4160\nbeq r2, r0, wait\npdot r3, r0, 4096, r4\nout r3\nhalt\n";

/// The same, with a fence before the flag.
const MESSAGE_FENCE: &str =
    ".entry 0, writer\n.entry 1, reader\nwriter: pinc r0, 4096\npfence\nli r1, 1\nst r1, r0, 4160\nhalt\n\
reader: li r4, 1\nwait: ld r2, r0, 4160\nbeq r2, r0, wait\npdot r3, r0, 4096, r4\nout r3\nhalt\n";

/// Without the fence, and core 1 reads the word by a load.
const MESSAGE_LOAD: &str =
    ".entry 0, writer\n.entry 1, reader\nwriter: pinc r0, 4096\nli r1, 1\nst r1, r0, 4160\nhalt\n\
reader: ld r2, r0, 4160\nbeq r2, r0, reader\nld r3, r0, 4096\nout r3\nhalt\n";

/// With the fence, and core 1 reads the word by a load.
const MESSAGE_FENCE_LOAD: &str =
    ".entry 0, writer\n.entry 1, reader\nwriter: pinc r0, 4096\npfence\nli r1, 1\nst r1, r0, 4160\nhalt\n\
reader: ld r2, r0, 4160\nbeq r2, r0, reader\nld r3, r0, 4096\nout r3\nhalt\n";

/// Each core adds 1 to a word by a PEI, and to another by a load and a store.
const INCREMENTS: &str =
    ".entry *, s\n.show 4096, 1\n.show 4160, 1\ns: pinc r0, 4096\nld r1, r0, 4160\naddi r1, r1, 1\n\
st r1, r0, 4160\nhalt\n";

/// Core 0 increments a word and loads a flag. Core 1 stores the flag and reads the word by a PEI.
const STORE_BUFFERING: &str =
    ".entry 0, first\n.entry 1, second\nfirst: pinc r0, 4096\nld r2, r0, 4160\nout r2\nhalt\n\
second: li r4, 1\nst r4, r0, 4160\npdot r3, r0, 4096, r4\nout r3\nhalt\n";

/// Core 0 increments a word and sets a flag. Core 1 waits for the flag, fences and loads the word.
const FENCE_WAITS: &str =
    ".entry 0, writer\n.entry 1, reader\nwriter: pinc r0, 4096\nli r1, 1\nst r1, r0, 4160\nhalt\n\
reader: ld r2, r0, 4160\nbeq r2, r0, reader\npfence\nld r3, r0, 4096\nout r3\nhalt\n";

/// Core 0 increments a word. Core 1 fences and loads it, and knows nothing of the increment.
const LOAD_BEHIND_FENCE: &str =
    ".entry 0, writer\n.entry 1, reader\nwriter: pinc r0, 4096\nhalt\nreader: pfence\nld r3, r0, 4096\n\
out r3\nhalt\n";

/// Core 0 increments words of two blocks. Core 1 waits a little and loads the second and then the first.
const TWO_BLOCKS: &str =
    ".entry 0, writer\n.entry 1, reader\nwriter: st r0, r0, 4104\npinc r0, 4096\npinc r0, 4288\nhalt\n\
reader: li r5, 10\nwait: ld r6, r0, 4224\naddi r5, r5, -1\nbne r5, r0, wait\nld r2, r0, 4288\nout r2\n\
ld r3, r0, 4096\nout r3\nhalt\n";

/// A barrier: core 1 counts to two by PEIs and sets a flag, for which core 0 waits by loads.
const BARRIER: &str =
    ".entry 0, waits\n.entry 1, releases\nwaits: li r1, 10\nst r1, r0, 8192\npinc r0, 4096\n\
spin: ld r2, r0, 4160\nbeq r2, r0, spin\nld r3, r0, 8256\nout r3\nhalt\nreleases: li r1, 20\n\
st r1, r0, 8256\npinc r0, 4096\nli r4, 1\nli r5, 2\nli r6, 0\nli r7, 0\ncount: pdot r8, r0, 4096, r4\n\
bne r8, r5, count\nli r1, 1\nst r1, r0, 4160\nld r3, r0, 8192\nout r3\nhalt\n";

/// Two cores, every PEI in memory, and else the sizes of the built-in machine.
const MEMORY: &str =
    "cores = 2\nblocks = 4096\nl1_sets = 4\nl1_ways = 2\nllc_sets = 16\nllc_ways = 4\nvaults = 4\n\
queue = 4\ndirectory = 64\nbuffer = 4\nfuel = 10000\nevents = 262144\nplacement = 'memory'\n";

/// A run of a litmus program.
struct Outcome {
    command: &'static str,
    program: &'static str,
    machine: &'static str,
    /// What it writes.
    want: &'static str,
    status: u8,
}

/// Commands over a program and a machine, what is written, and the status.
const OUTCOMES: [Outcome; 10] = [
    // the flag is seen and the old word is read
    Outcome {
        command: "sched p -2 45 100000",
        program: MESSAGE,
        machine: "",
        want: "core 0 halt\nout 1 0\ncore 1 halt\nstatus 0\n",
        status: 0,
    },
    // never behind a fence
    Outcome {
        command: "sched p -2 45 100000",
        program: MESSAGE_FENCE,
        machine: "",
        want: "core 0 halt\nout 1 1\ncore 1 halt\nstatus 0\n",
        status: 0,
    },
    // the load races
    Outcome {
        command: "sched p -2 6 100000",
        program: MESSAGE_LOAD,
        machine: "",
        want: "core 0 halt\ncore 1 race 6 64 0 0\nstatus 5\n",
        status: 5,
    },
    // and does not behind a fence
    Outcome {
        command: "sched p -2 6 100000",
        program: MESSAGE_FENCE_LOAD,
        machine: "",
        want: "core 0 halt\nout 1 1\ncore 1 halt\nstatus 0\n",
        status: 0,
    },
    // an increment by load and store is lost, and none by a PEI
    Outcome {
        command: "sched p -2 0 100000",
        program: INCREMENTS,
        machine: "",
        want: "core 0 halt\ncore 1 halt\nmem 4096 2\nmem 4160 1\nstatus 0\n",
        status: 0,
    },
    // both read 0
    Outcome {
        command: "sched p -2 45 100000",
        program: STORE_BUFFERING,
        machine: "",
        want: "out 0 0\ncore 0 halt\nout 1 0\ncore 1 halt\nstatus 0\n",
        status: 0,
    },
    // the fence waits for the other core's writer
    Outcome {
        command: "sched p -2 6 100000",
        program: FENCE_WAITS,
        machine: "",
        want: "core 0 halt\nout 1 1\ncore 1 halt\nstatus 0\n",
        status: 0,
    },
    // a fence does not help a core that knows nothing of the PEI
    Outcome {
        command: "sched p -2 0 100000",
        program: LOAD_BEHIND_FENCE,
        machine: "",
        want: "core 0 halt\ncore 1 race 3 64 0 0\nstatus 5\n",
        status: 5,
    },
    // the second increment is there, and the first is on its way
    Outcome {
        command: "sched p m 16 100000",
        program: TWO_BLOCKS,
        machine: MEMORY,
        want: "core 0 halt\nout 1 1\ncore 1 race 10 64 0 0\nstatus 5\n",
        status: 5,
    },
    // core 0 keeps the turn until its fuel is spent
    Outcome {
        command: "sched p -2 serial 100000",
        program: BARRIER,
        machine: "",
        want: "core 0 fuel\nout 1 10\ncore 1 halt\nstatus 5\n",
        status: 5,
    },
];

#[test]
fn litmus_outcomes_are_as_told(rt: HostRuntime) -> Result<(), Fail> {
    for row in &OUTCOMES {
        let (command, program) = (row.command, row.program);
        let served = serve(
            rt.alloc(),
            command,
            program.as_bytes(),
            row.machine.as_bytes(),
            b"",
        )?;
        assert_eq!(rt;
            served.sink.bytes(),
            row.want.as_bytes(),
            "{command} {program}"
        );
        assert_eq!(rt; status(&served), row.status, "{command} {program}");
    }
    Ok(())
}
