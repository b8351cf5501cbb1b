//! Tests that a wrong body fails: a machine that one might build carelessly makes another trace, or writes another word.
//!
//! Traces are worked out turn by turn. With one entry of its operand buffer a core has two actors, so on two cores each
//! actor has every fourth turn.

use crate::commands::{Served, serve, status};
use pei_types::OutOfMemory;
use std::alloc::Global;
use std::test::Fail;

/// A program on a machine, and what each actor in turn comes to.
struct Worked {
    program: &'static [u8],
    machine: &'static [u8],
    trace: &'static [u8],
    report: &'static [u8],
}

/// What a worked run wrote: its report and its trace.
fn both(alloc: Global, worked: &Worked) -> Result<(Served, Served), OutOfMemory> {
    let (program, machine) = (worked.program, worked.machine);
    let report = serve(alloc, "sched p m rr 1000", program, machine, b"")?;
    let trace = serve(alloc, "sched p m rr 1000 trace", program, machine, b"")?;
    Ok((report, trace))
}

/// Core 0 reads block 64 by a PEI in memory. Core 1 puts 0 out twice and loads a word of the block: it is granted the block
/// while the reader is sealed, so it shares it, though no other core has a copy.
const SEALED_READER: Worked = Worked {
    program: b".entry 0, a\n.entry 1, b\na: phist r2, r0, 4096, r0\nhalt\nb: out r0\nout r0\nld r2, r0, 4096\nhalt\n",
    machine: b"cores=2\nblocks=128\nvaults=1\nbuffer=1\nplacement='memory'\n",
    trace: b"peisim-trace 1 mesi\n0.0 issue 0 1 phist 4096 0 0 0 0\n1.0 out 0\n0.1 enter 0\n1.0 out 0\n\
0.1 place 0 memory\n1.0 fill 64\n0.1 seal 0 0\n1.0 grants 64\n0.1 act 0 2 0 0\n1.0 load 4096 0\n0.1 leave 0\n\
1.0 end halt\n0.0 end halt\n",
    report: b"core 0 halt\nout 1 0\nout 1 0\ncore 1 halt\nstatus 0\n",
};

/// An exclusive grant on a sealed block is a trace with `grante` in place of `grants`.
#[test]
fn a_sealed_block_is_granted_shared(rt: HostRuntime) -> Result<(), Fail> {
    let (report, trace) = both(rt.alloc(), &SEALED_READER)?;
    assert_eq!(rt; trace.sink.bytes(), SEALED_READER.trace);
    assert_eq!(rt; report.sink.bytes(), SEALED_READER.report);
    assert_eq!(rt; status(&report), 0);
    Ok(())
}

/// Each of two cores raises one word by a PEI at the host. The second has its entry behind the first one's release, takes
/// the block away from the first, and reads what that wrote.
const RAISED_AT_HOST: Worked = Worked {
    program: b".entry *, s\n.show 4096, 1\ns: pinc r0, 4096\nhalt\n",
    machine: b"cores=2\nblocks=128\nvaults=1\nbuffer=1\nplacement='host'\n",
    trace: b"peisim-trace 1 mesi\n0.0 issue 0 1 pinc 4096 0 0 0 0\n1.0 issue 0 1 pinc 4096 0 0 0 0\n0.1 enter 0\n\
0.1 place 0 host\n0.1 fill 64\n0.1 grantm 64\n0.1 read 0\n0.1 act 0 0 0 0\n0.1 leave 0\n0.0 end halt\n\
1.1 enter 0\n1.1 place 0 host\n1.1 inv 0 64\n1.1 grantm 64\n1.1 read 0\n1.1 act 0 0 0 0\n1.1 leave 0\n1.0 end halt\n",
    report: b"core 0 halt\ncore 1 halt\nmem 4096 2\nstatus 0\n",
};

/// A PEI that reads its block before it enters writes back what it read, and the other core's increment is lost.
#[test]
fn an_increment_is_not_lost(rt: HostRuntime) -> Result<(), Fail> {
    let (report, trace) = both(rt.alloc(), &RAISED_AT_HOST)?;
    assert_eq!(rt; report.sink.bytes(), RAISED_AT_HOST.report);
    assert_eq!(rt; trace.sink.bytes(), RAISED_AT_HOST.trace);
    assert_eq!(rt; status(&report), 0);
    Ok(())
}

/// Both cores load a word of block 64 and share it. Core 0 raises the word in memory, for which both copies and the line of
/// the last-level cache go, fences and loads it.
const SHARED_COPIES: Worked = Worked {
    program: b".entry 0, a\n.entry 1, b\na: ld r2, r0, 4096\npinc r0, 4096\npfence\nld r2, r0, 4096\nout r2\nhalt\n\
b: ld r2, r0, 4096\nhalt\n",
    machine: b"cores=2\nblocks=128\nvaults=1\nbuffer=1\nplacement='memory'\n",
    trace: b"peisim-trace 1 mesi\n0.0 fill 64\n1.0 grante 64\n0.0 down 1 64\n1.0 load 4096 0\n0.0 grants 64\n\
1.0 end halt\n0.0 load 4096 0\n0.0 issue 0 1 pinc 4096 0 0 0 0\n0.0 fbegin\n0.1 enter 0\n0.1 place 0 memory\n\
0.1 inv 0 64\n0.1 inv 1 64\n0.1 evict2 64\n0.1 seal 0 0\n0.1 act 0 0 0 0\n0.1 leave 0\n0.0 fend\n0.0 fill 64\n\
0.0 grante 64\n0.0 load 4096 1\n0.0 out 1\n0.0 end halt\n",
    report: b"out 0 1\ncore 0 halt\ncore 1 halt\nstatus 0\n",
};

/// Sealed with a shared copy left, the writer acts in memory, and core 0 loads and puts out what its old copy has.
#[test]
fn a_writer_is_sealed_without_copies(rt: HostRuntime) -> Result<(), Fail> {
    let (report, trace) = both(rt.alloc(), &SHARED_COPIES)?;
    assert_eq!(rt; report.sink.bytes(), SHARED_COPIES.report);
    assert_eq!(rt; trace.sink.bytes(), SHARED_COPIES.trace);
    assert_eq!(rt; status(&report), 0);
    Ok(())
}

/// Core 1 stores 5. Core 0 puts 0 out three times, and reads the word by a PEI in memory: what core 1 has is shared first, and
/// the line written back.
const STORED_AHEAD: Worked = Worked {
    program: b".entry 0, a\n.entry 1, b\na: li r4, 1\nout r0\nout r0\nout r0\npdot r3, r0, 4096, r4\nout r3\nhalt\n\
b: li r1, 5\nst r1, r0, 4096\nhalt\n",
    machine: b"cores=2\nblocks=128\nvaults=1\nbuffer=1\nplacement='memory'\n",
    trace: b"peisim-trace 1 mesi\n0.0 out 0\n1.0 fill 64\n0.0 out 0\n1.0 grantm 64\n0.0 out 0\n1.0 store 4096 5\n\
0.0 issue 0 1 pdot 4096 1 0 0 0\n1.0 end halt\n0.1 enter 0\n0.1 place 0 memory\n0.1 down 1 64\n0.1 clean 64\n\
0.1 seal 0 0\n0.1 act 0 1 5 0\n0.0 out 5\n0.1 leave 0\n0.0 end halt\n",
    report: b"out 0 0\nout 0 0\nout 0 0\nout 0 5\ncore 0 halt\ncore 1 halt\nstatus 0\n",
};

/// Sealed beside a line that is ahead, the reader answers what memory had before the store.
#[test]
fn a_reader_is_sealed_behind_the_store(rt: HostRuntime) -> Result<(), Fail> {
    let (report, trace) = both(rt.alloc(), &STORED_AHEAD)?;
    assert_eq!(rt; report.sink.bytes(), STORED_AHEAD.report);
    assert_eq!(rt; trace.sink.bytes(), STORED_AHEAD.trace);
    assert_eq!(rt; status(&report), 0);
    Ok(())
}

/// A private cache of two lines has blocks 64 and 65. A load of block 64 makes block 65 the last, which goes for block 66.
const PRIVATE_VICTIM: Worked = Worked {
    program: b".entry 0, s\ns: ld r1, r0, 4096\nld r1, r0, 4160\nld r1, r0, 4096\nld r1, r0, 4224\nhalt\n",
    machine: b"cores=1\nblocks=128\nl1_sets=1\nl1_ways=2\nllc_sets=1\nllc_ways=4\nvaults=1\nbuffer=1\n",
    trace: b"peisim-trace 1 mesi\n0.0 fill 64\n0.0 grante 64\n0.0 load 4096 0\n0.0 fill 65\n0.0 grante 65\n\
0.0 load 4160 0\n0.0 load 4096 0\n0.0 fill 66\n0.0 evict1 0 65\n0.0 grante 66\n0.0 load 4224 0\n0.0 end halt\n",
    report: b"core 0 halt\nstatus 0\n",
};

/// A last-level cache of two lines, above a private one of one line. The second grant of block 64 makes block 65 the last.
const SHARED_VICTIM: Worked = Worked {
    program: b".entry 0, s\ns: ld r1, r0, 4096\nld r1, r0, 4160\nld r1, r0, 4096\nld r1, r0, 4224\nhalt\n",
    machine: b"cores=1\nblocks=128\nl1_sets=1\nl1_ways=1\nllc_sets=1\nllc_ways=2\nvaults=1\nbuffer=1\n",
    trace: b"peisim-trace 1 mesi\n0.0 fill 64\n0.0 grante 64\n0.0 load 4096 0\n0.0 fill 65\n0.0 evict1 0 64\n\
0.0 grante 65\n0.0 load 4160 0\n0.0 evict1 0 65\n0.0 grante 64\n0.0 load 4096 0\n0.0 evict2 65\n0.0 fill 66\n\
0.0 evict1 0 64\n0.0 grante 66\n0.0 load 4224 0\n0.0 end halt\n",
    report: b"core 0 halt\nstatus 0\n",
};

/// The first line of each set, and the one that came first, is block 64, which stays.
#[test]
fn the_last_line_is_the_victim(rt: HostRuntime) -> Result<(), Fail> {
    for worked in [&PRIVATE_VICTIM, &SHARED_VICTIM] {
        let (report, trace) = both(rt.alloc(), worked)?;
        assert_eq!(rt; trace.sink.bytes(), worked.trace);
        assert_eq!(rt; report.sink.bytes(), worked.report);
        assert_eq!(rt; status(&report), 0);
    }
    Ok(())
}

/// While a PEI on block 64 is on its way, its core loads a word of block 2, which lies in the same vault, and whose number folds
/// to the same chain of PEIs.
const BESIDE_A_PEI: Worked = Worked {
    program: b".entry 0, s\ns: pinc r0, 4096\nld r2, r0, 128\nout r2\nhalt\n",
    machine: b"cores=1\nblocks=128\nvaults=1\nbuffer=1\nplacement='memory'\n",
    trace: b"peisim-trace 1 mesi\n0.0 issue 0 1 pinc 4096 0 0 0 0\n0.0 fill 2\n0.0 grante 2\n0.1 enter 0\n\
0.0 load 128 0\n0.1 place 0 memory\n0.0 out 0\n0.1 seal 0 0\n0.1 act 0 0 0 0\n0.1 leave 0\n0.0 end halt\n",
    report: b"out 0 0\ncore 0 halt\nstatus 0\n",
};

/// Where an access races with each PEI of its vault, or of its chain, the core ends with a race.
#[test]
fn an_access_of_another_block_is_made(rt: HostRuntime) -> Result<(), Fail> {
    let (report, trace) = both(rt.alloc(), &BESIDE_A_PEI)?;
    assert_eq!(rt; trace.sink.bytes(), BESIDE_A_PEI.trace);
    assert_eq!(rt; report.sink.bytes(), BESIDE_A_PEI.report);
    assert_eq!(rt; status(&report), 0);
    Ok(())
}
