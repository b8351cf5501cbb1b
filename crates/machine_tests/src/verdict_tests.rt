//! Journals of one core, with the verdicts worked out by hand.

ghost use Rattle.std.specs.Prelude.{◌≡◌};

use journal::{Journal, read_trace};
use pei_types::{Clause, CoreId, Image, Instr, MachineSpec, Policy3, Program};
use std::alloc::Global;
use std::test::Fail;
use trace_check::{Verdict, check};

/// The built-in machine of one core.
#[tactic(auto, unfolding(pei_types::specs::Limits::log_two))]
fn machine() -> MachineSpec
    ensures { result.blocks ≡ 4096 }
{
    MachineSpec {
        cores: 1,
        blocks: 4096,
        l1_sets: 4,
        l1_ways: 2,
        llc_sets: 16,
        llc_ways: 4,
        vaults: 4,
        queue: 4,
        directory: 64,
        buffer: 4,
        banks: 1,
        fuel: 10000,
        events: 262144,
        placement: Policy3::Monitor,
    }
}

/// Increments the word at 4096 by a PEI, fences, loads the word and puts it out.
fn program(alloc: Global) -> Result<Program, Fail> {
    let mut program = Program::make(alloc);
    program.push_instr(Instr::Li { rd: 1, n: 4096 })?;
    program.push_instr(Instr::Pinc { ra: 1, n: 0 })?;
    program.push_instr(Instr::Pfence)?;
    program.push_instr(Instr::Ld { rd: 2, ra: 1, n: 0 })?;
    program.push_instr(Instr::Out { ra: 2 })?;
    program.push_instr(Instr::Halt)?;
    Ok(program)
}

/// The verdict on a trace.
fn verdict(alloc: Global, text: &[u8]) -> Result<Verdict, Fail> {
    let journal = read_trace(alloc, text)?;
    let image = Image::make(alloc, 4096)?;
    Ok(check(alloc, &program(alloc)?, &machine(), &image, &journal)?)
}

/// Traces, each with its verdict.
const ROWS: [(&[u8], Verdict); 9] = [
    (
        b"peisim-trace 1 mesi\n0.0 issue 0 1 pinc 4096 0 0 0 0\n0.0 fbegin\n0.1 enter 0\n0.1 place 0 memory\n0.1 seal 0 0\n0.1 act 0 0 0 0\n0.1 leave 0\n0.0 fend\n0.0 fill 64\n0.0 grante 64\n0.0 load 4096 1\n0.0 out 1\n0.0 end halt\n",
        Verdict::Legal { complete: true },
    ),
    (
        b"peisim-trace 1 mesi\n0.0 issue 0 1 pinc 4096 0 0 0 0\n0.0 fbegin\n0.1 enter 0\n0.1 place 0 memory\n0.1 seal 0 0\n0.1 act 0 0 0 0\n0.1 leave 0\n0.0 fend\n0.0 fill 64\n0.0 grante 64\n0.0 load 4096 1\n0.0 out 1\n",
        Verdict::Legal { complete: false },
    ),
    (b"peisim-trace 1 mesi\n", Verdict::Legal { complete: false }),
    (
        b"peisim-trace 1 mesi\n0.0 issue 0 1 pinc 4096 0 0 0 0\n0.0 fbegin\n0.1 enter 0\n0.1 place 0 memory\n0.1 seal 0 0\n0.1 act 0 0 0 0\n0.1 leave 0\n0.0 fend\n0.0 fill 64\n0.0 grante 64\n0.0 load 4096 2\n0.0 out 1\n0.0 end halt\n",
        Verdict::Illegal {
            line: 12,
            clause: Clause::Replies,
        },
    ),
    (
        b"peisim-trace 1 mesi\n0.0 issue 0 1 pinc 4096 0 0 0 0\n0.0 fbegin\n0.1 enter 0\n0.1 place 0 memory\n0.1 seal 0 0\n0.1 act 0 0 0 0\n0.1 leave 0\n0.0 fend\n0.0 grante 64\n0.0 load 4096 1\n0.0 out 1\n0.0 end halt\n",
        Verdict::Illegal {
            line: 10,
            clause: Clause::Guard,
        },
    ),
    (
        b"peisim-trace 1 mesi\n0.0 issue 0 1 pinc 4096 0 0 0 0\n0.0 fbegin\n0.1 enter 0\n0.1 place 0 host\n0.1 seal 0 0\n0.1 act 0 0 0 0\n0.1 leave 0\n0.0 fend\n0.0 fill 64\n0.0 grante 64\n0.0 load 4096 1\n0.0 out 1\n0.0 end halt\n",
        Verdict::Illegal {
            line: 5,
            clause: Clause::Monitor,
        },
    ),
    (
        b"peisim-trace 1 mesi\n0.0 issue 0 1 pinc 4096 0 0 0 0\n0.0 fbegin\n0.1 enter 0\n0.1 place 0 memory\n0.1 seal 0 0\n0.1 act 0 0 0 0\n0.0 fend\n0.1 leave 0\n0.0 fill 64\n0.0 grante 64\n0.0 load 4096 1\n0.0 out 1\n0.0 end halt\n",
        Verdict::Illegal {
            line: 8,
            clause: Clause::Fence,
        },
    ),
    (
        b"peisim-trace 1 mesi\n0.0 issue 0 1 pinc 4096 0 0 0 0\n0.0 fbegin\n0.1 enter 0\n0.1 place 0 memory\n0.1 seal 0 0\n0.1 act 0 0 0 0\n0.1 leave 0\n0.0 fill 64\n0.0 fend\n0.0 grante 64\n0.0 load 4096 1\n0.0 out 1\n0.0 end halt\n",
        Verdict::Illegal {
            line: 9,
            clause: Clause::Next,
        },
    ),
    (
        b"peisim-trace 1 mesi\n0.0 issue 0 1 pinc 4096 0 0 0 0\n0.0 fbegin\n0.1 enter 0\n0.1 place 0 memory\n0.1 seal 0 0\n0.1 act 0 1 0 0\n0.1 leave 0\n0.0 fend\n0.0 fill 64\n0.0 grante 64\n0.0 load 4096 1\n0.0 out 1\n0.0 end halt\n",
        Verdict::Illegal {
            line: 7,
            clause: Clause::Replies,
        },
    ),
];

#[test]
fn tells_the_first_event_that_fails(rt: HostRuntime) -> Result<(), Fail> {
    for (text, found) in ROWS {
        assert_eq!(rt; verdict(rt.alloc(), text)?, found);
    }
    Ok(())
}
