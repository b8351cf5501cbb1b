//! Runs of small programs, with journals, turns and memory worked out by hand.

ghost use Rattle.std.specs.Prelude.{◌≡◌, ◌<◌, ◌≤◌, length, IfOk, IsTrue, OnOk};
ghost use Rattle.std.specs.List.{All};
ghost use Rattle.pei_types.specs.Calls.{is_actor_of};
ghost use Rattle.pei_types.specs.Limits.{IsWithin};
ghost use Rattle.pei_types.specs.Program.{HasRegisters};
ghost use Rattle.inflight.specs.OnTheWay.{IsLaneOf};
ghost use Rattle.sched_run.specs.Choice.{HasActorsOf};

use fabric::{Fabric, Turn};
use pei_types::{
    Actor, BlockNo, Call, CoreId, EndKind, Event, EventKind, Image, Instr, Lane, MachineSpec, Op,
    Operands, OutOfMemory, PeiId, Place, Policy3, Program, Reply, StallCause,
};
use sched_run::{Actors, Policy, SchedEnd, run_schedule};
use std::alloc::Global;
use std::test::Fail;

/// The word that programs count in: word 0 of block 64.
const COUNTER: u64 = 4096;

/// Sets r1 to the address of the counter.
const POINTS: Instr = Instr::Li { rd: 1, n: COUNTER };

/// Adds 1 to the word at r1.
const COUNTS: Instr = Instr::Pinc { ra: 1, n: 0 };

/// Loads the word at r1 into r2.
const LOADS: Instr = Instr::Ld { rd: 2, ra: 1, n: 0 };

const HALTED: Option<EndKind> = Some(EndKind::Halt);

/// A machine with this many cores, of four lanes each beside the program's.
#[tactic(auto, unfolding(pei_types::specs::Limits::log_two))]
fn machine_with(cores: u8, fuel: u32, events: u32, placement: Policy3) -> MachineSpec
    requires cores { IsWithin 1 8 cores }
    requires fuel { IsWithin 1 1000000 fuel }
    requires events { IsWithin 64 1048576 events }
    ensures cores { result.cores ≡ cores }
    ensures blocks { result.blocks ≡ 4096 }
    ensures buffer { result.buffer ≡ 4 }
{
    MachineSpec {
        cores,
        blocks: 4096,
        l1_sets: 4,
        l1_ways: 2,
        llc_sets: 16,
        llc_ways: 4,
        vaults: 4,
        queue: 4,
        directory: 64,
        buffer: 4,
        banks: 1,
        fuel,
        events,
        placement,
    }
}

/// The same as it is built in.
fn machine(cores: u8, placement: Policy3) -> MachineSpec
    requires { IsWithin 1 8 cores }
    ensures cores { result.cores ≡ cores }
    ensures blocks { result.blocks ≡ 4096 }
    ensures buffer { result.buffer ≡ 4 }
{
    machine_with(cores, 10_000, 262_144, placement)
}

/// A machine with one line in each private cache and few below them.
#[tactic(auto, unfolding(pei_types::specs::Limits::log_two))]
fn small_machine(cores: u8, llc_ways: u32, buffer: u8, placement: Policy3) -> MachineSpec
    requires cores { IsWithin 1 8 cores }
    requires ways { IsWithin 1 2 llc_ways }
    requires buffer { IsWithin 1 4 buffer }
    ensures cores { result.cores ≡ cores }
    ensures blocks { result.blocks ≡ 128 }
    ensures buffer { result.buffer ≡ buffer }
{
    MachineSpec {
        cores,
        blocks: 128,
        l1_sets: 1,
        l1_ways: 1,
        llc_sets: 1,
        llc_ways,
        vaults: 16,
        queue: 16,
        directory: 2048,
        buffer,
        banks: 1,
        fuel: 100_000,
        events: 524_288,
        placement,
    }
}

/// The end of a run from memory of zeros, where core 0 begins at the first instruction and core 1 at `second`.
fn run(
    alloc: Global,
    spec: &MachineSpec,
    instrs: &[Instr],
    second: u32,
    policy: &Policy,
    turns: u64,
) -> Result<SchedEnd, OutOfMemory>
    requires few { length instrs.now ≤ 100 }
    requires registers { All HasRegisters instrs.now }
    requires actors { HasActorsOf spec.now policy.now }
    ensures { IfOk result (λ end. end.fabric.machine ≡ spec.now) }
{
    let mut program = Program::make(alloc);
    for instr in instrs {
        program.push_instr(*instr)?;
    }
    let mut image = Image::make(alloc, spec.blocks)?;
    image.set_entry(CoreId(1), second);
    run_schedule(alloc, &program, spec, &image, policy, turns)
}

/// The number of events and of turns of such a run, the ends of cores 0 and 1, and the counter.
fn outcome(
    alloc: Global,
    spec: &MachineSpec,
    instrs: &[Instr],
    second: u32,
    policy: &Policy,
    turns: u64,
) -> Result<(u32, u64, [Option<EndKind>; 2], u64), OutOfMemory>
    requires blocks { 128 ≤ spec.now.blocks }
    requires few { length instrs.now ≤ 100 }
    requires registers { All HasRegisters instrs.now }
    requires actors { HasActorsOf spec.now policy.now }
{
    let end = run(alloc, spec, instrs, second, policy, turns)?;
    let events = end.fabric.journal().len();
    let ends = [end.cores[0], end.cores[1]];
    Ok((events, end.turns, ends, end.fabric.peek(COUNTER)))
}

fn actor(core: u8, lane: u8) -> Actor
    ensures core { result.core.0 ≡ core }
    ensures lane { result.lane.0 ≡ lane }
{
    Actor {
        core: CoreId(core),
        lane: Lane(lane),
    }
}

/// Puts so many turns of an actor behind a list of a machine's actors.
fn add_turns(
    actors: &mut Actors,
    spec: &MachineSpec,
    actor: Actor,
    times: u32,
) -> Result<(), OutOfMemory>
    requires actor { IsTrue (is_actor_of spec.now actor) }
    requires before { All (λ a. IsTrue (is_actor_of spec.now a)) actors.old }
    ensures { OnOk result (All (λ a. IsTrue (is_actor_of spec.now a)) actors.new) }
{
    for _ in 0..times {
        actors.push(actor)?;
    }
    Ok(())
}

/// A list of so many turns of each of these actors of a machine, by core and lane.
fn turns_of(
    alloc: Global,
    spec: &MachineSpec,
    steps: &[(u8, u8, u32)],
) -> Result<Policy, OutOfMemory>
    requires actors { All (λ step. (step.0 < spec.now.cores) × (step.1 ≤ spec.now.buffer)) steps.now }
    ensures { IfOk result (λ policy. HasActorsOf spec.now policy) }
{
    let mut actors = Actors::make(alloc);
    for (core, lane, times) in steps {
        add_turns(&mut actors, spec, actor(*core, *lane), *times)?;
    }
    Ok(Policy::List(actors))
}

fn event(core: u8, lane: u8, kind: EventKind) -> Event {
    Event {
        actor: actor(core, lane),
        kind,
    }
}

/// The first program: it counts, waits, loads and shows the count.
const FIRST: [Instr; 6] = [
    POINTS,
    COUNTS,
    Instr::Pfence,
    LOADS,
    Instr::Out { ra: 2 },
    Instr::Halt,
];

/// One core counts once. The actors are lanes 0 to 4 of the core, so the program has turns 0, 5, 10, .., and lane 1 has
/// turns 1, 6, 11, .., of which the first announces it, the second is its grant and the last but one its release.
#[test]
fn counts_once(rt: HostRuntime) -> Result<(), Fail> {
    let (seq, addr, value) = (0, COUNTER, 1);
    let issue = EventKind::Issue {
        seq,
        lane: Lane(1),
        op: Op::Inc { word: 0 },
        block: BlockNo(64),
        operands: Operands([0; 4]),
    };
    let place = Place::Memory;
    let reply = Reply {
        words: [0; 2],
        len: 0,
    };
    let kind = EndKind::Halt;
    let all = [
        event(0, 0, issue),
        event(0, 0, EventKind::FenceBegin),
        event(0, 1, EventKind::Enter { seq }),
        event(0, 1, EventKind::Place { seq, place }),
        event(0, 1, EventKind::Seal { seq, vault: 0 }),
        event(0, 1, EventKind::Act { seq, reply }),
        event(0, 1, EventKind::Leave { seq }),
        event(0, 0, EventKind::FenceEnd),
        event(0, 0, EventKind::Fill { block: BlockNo(64) }),
        event(0, 0, EventKind::GrantE { block: BlockNo(64) }),
        event(0, 0, EventKind::Load { addr, value }),
        event(0, 0, EventKind::Out { value }),
        event(0, 0, EventKind::End { kind }),
    ];
    let spec = machine(1, Policy3::Monitor);
    for (most, turns, events, end) in [
        (0, 0, 0, None),
        (60, 60, 12, None),
        (1000, 61, 13, HALTED),
    ] {
        let run = run(rt.alloc(), &spec, &FIRST, 0, &Policy::RoundRobin, most)?;
        assert_eq!(rt; run.turns, turns);
        assert_eq!(rt; run.cores, [end, None, None, None, None, None, None, None]);
        assert_eq!(rt; run.fabric.machine(), spec);
        assert_eq!(rt; run.fabric.into_journal().events(), &all[..events]);
    }
    Ok(())
}

/// A load of block 64; PEIs on block 65, and on block 64 again.
const UNMONITORED: [Instr; 4] = [
    Instr::Ld {
        rd: 2,
        ra: 0,
        n: 4096,
    },
    Instr::Phist {
        rd: 4,
        ra: 0,
        n: 4160,
        rs: 0,
    },
    Instr::Phist {
        rd: 6,
        ra: 0,
        n: 4096,
        rs: 0,
    },
    Instr::Halt,
];

/// Runs of one core, in turn, and one actor until it stalls.
#[test]
fn runs_one_core(rt: HostRuntime) -> Result<(), Fail> {
    // A PEI at the host brings its block in, and may write it.
    let host = machine(1, Policy3::Host);
    let in_turn = outcome(rt.alloc(), &host, &FIRST, 0, &Policy::RoundRobin, 1000)?;
    assert_eq!(rt; in_turn, (13, 61, [HALTED, None], 1));

    let one = machine(1, Policy3::Monitor);
    let serial = outcome(rt.alloc(), &one, &FIRST, 0, &Policy::Serial, 1000)?;
    assert_eq!(rt; serial, (13, 21, [HALTED, None], 1));

    // Of three PEIs on one block two are placed in memory, then one at the host.
    let thrice = [POINTS, COUNTS, COUNTS, COUNTS, Instr::Pfence, Instr::Halt];
    let placed = outcome(rt.alloc(), &one, &thrice, 0, &Policy::Serial, 1000)?;
    assert_eq!(rt; placed, (23, 37, [HALTED, None], 3));

    // A block that lies in a private cache and has no entry in the monitor is placed in memory.
    let small = small_machine(1, 1, 4, Policy3::Monitor);
    let placed = outcome(rt.alloc(), &small, &UNMONITORED, 0, &Policy::Serial, 1000)?;
    assert_eq!(rt; placed, (17, 26, [HALTED, None], 0));

    Ok(())
}

/// A load with no fence races.
#[test]
fn ends_with_a_race(rt: HostRuntime) -> Result<(), Fail> {
    let one = machine(1, Policy3::Monitor);
    let unfenced = [POINTS, COUNTS, LOADS, Instr::Halt];
    let (core, seq) = (CoreId(0), 0);
    let (pc, block, by) = (2, BlockNo(64), PeiId { core, seq });
    let raced = run(rt.alloc(), &one, &unfenced, 0, &Policy::RoundRobin, 1000)?;
    assert_eq!(rt; raced.cores[0], Some(EndKind::Race { pc, block, by }));
    Ok(())
}

/// The words of seed 1 begin with 0x33a70be6, 0x7dbcf3ee, 0xcadf4751, 0x11ac71c0, 0xf8ffee3b: places 4, 4, 7, 4 and 5 of the
/// ten, of which the last is the program of core 1. The next is that of core 0.
#[test]
fn draws_its_actors(rt: HostRuntime) -> Result<(), Fail> {
    let two = machine(2, Policy3::Monitor);
    let once = [POINTS, COUNTS, Instr::Halt];
    for (most, events) in [(4, 0), (5, 1), (6, 2)] {
        let drawn = outcome(rt.alloc(), &two, &once, 0, &Policy::Seeded(1), most)?;
        assert_eq!(rt; drawn, (events, most, [None, None], 0));
    }
    Ok(())
}

/// Core 0 counts; core 1, from instruction 3 on, loads from blocks 65 and 66.
const TAKEN: [Instr; 6] = [
    POINTS,
    COUNTS,
    Instr::Halt,
    Instr::Ld {
        rd: 2,
        ra: 0,
        n: 4160,
    },
    Instr::Ld {
        rd: 2,
        ra: 0,
        n: 4224,
    },
    Instr::Halt,
];

/// Core 0 reads block 64 by a PEI; core 1, from instruction 3 on, loads from it.
const SEALED: [Instr; 5] = [
    POINTS,
    Instr::Phist {
        rd: 4,
        ra: 1,
        n: 0,
        rs: 0,
    },
    Instr::Halt,
    Instr::Ld {
        rd: 2,
        ra: 0,
        n: 4096,
    },
    Instr::Halt,
];

/// Core 0 waits at a fence; core 1, from instruction 2 on, adds 1 to a word of block 128.
const FENCED: [Instr; 5] = [
    Instr::Pfence,
    Instr::Halt,
    Instr::Li { rd: 1, n: 8192 },
    COUNTS,
    Instr::Halt,
];

/// Core 0 stores 5; core 1, from instruction 3 on, adds 1 to it.
const STORED: [Instr; 5] = [
    Instr::Li { rd: 1, n: 5 },
    Instr::St {
        rv: 1,
        ra: 0,
        n: COUNTER,
    },
    Instr::Halt,
    Instr::Pinc { ra: 0, n: COUNTER },
    Instr::Halt,
];

/// Runs of two cores by lists of actors.
#[test]
fn runs_by_lists(rt: HostRuntime) -> Result<(), Fail> {
    let both = [HALTED, HALTED];

    // Another core takes the block away between a PEI's read and its act.
    let narrow = small_machine(2, 2, 1, Policy3::Host);
    let list = &[
        (0, 0, 1),
        (0, 1, 7),
        (1, 0, 7),
        (0, 1, 7),
        (0, 0, 1),
        (1, 0, 3),
    ];
    let policy = turns_of(rt.alloc(), &narrow, list)?;
    let taken = outcome(rt.alloc(), &narrow, &TAKEN, 3, &policy, 1000)?;
    assert_eq!(rt; taken, (23, 26, both, 1));

    // A core loads the block of a sealed reader.
    let two = machine(2, Policy3::Monitor);
    let list = &[
        (0, 0, 1),
        (0, 1, 4),
        (1, 0, 3),
        (0, 1, 3),
        (0, 0, 1),
        (1, 0, 1),
    ];
    let policy = turns_of(rt.alloc(), &two, list)?;
    let sealed = outcome(rt.alloc(), &two, &SEALED, 3, &policy, 1000)?;
    assert_eq!(rt; sealed, (11, 13, both, 0));

    // A fence waits for a PEI of another core.
    let list = &[(1, 0, 1), (0, 0, 2), (1, 1, 7), (0, 0, 2), (1, 0, 1)];
    let policy = turns_of(rt.alloc(), &two, list)?;
    let fenced = outcome(rt.alloc(), &two, &FENCED, 2, &policy, 1000)?;
    assert_eq!(rt; fenced, (10, 13, both, 0));

    // A PEI in memory takes back what another core has stored.
    let memory = machine(2, Policy3::Memory);
    let list = &[(0, 0, 4), (1, 0, 1), (1, 1, 11), (1, 0, 1)];
    let policy = turns_of(rt.alloc(), &memory, list)?;
    let stored = outcome(rt.alloc(), &memory, &STORED, 3, &policy, 1000)?;
    assert_eq!(rt; stored, (14, 17, both, 6));
    Ok(())
}

/// Two cores with two lanes each, above a vault whose queue has room for two, where memory executes every PEI.
#[tactic(auto, unfolding(pei_types::specs::Limits::log_two))]
fn crowded_machine() -> MachineSpec
    ensures cores { result.cores ≡ 2 }
    ensures blocks { result.blocks ≡ 128 }
    ensures buffer { result.buffer ≡ 2 }
{
    MachineSpec {
        cores: 2,
        blocks: 128,
        l1_sets: 1,
        l1_ways: 1,
        llc_sets: 1,
        llc_ways: 1,
        vaults: 1,
        queue: 2,
        directory: 64,
        buffer: 2,
        banks: 1,
        fuel: 100,
        events: 64,
        placement: Policy3::Memory,
    }
}

/// Each core counts in two blocks of its own, and waits; core 1 begins at instruction 3.
const CROWDED: [Instr; 6] = [
    Instr::Pinc { ra: 0, n: COUNTER },
    Instr::Pinc { ra: 0, n: 4160 },
    Instr::Pfence,
    Instr::Pinc { ra: 0, n: 4224 },
    Instr::Pinc { ra: 0, n: 4288 },
    Instr::Pfence,
];

/// What a lane comes to behind turns of a list.
fn lane_after(
    alloc: Global,
    spec: &MachineSpec,
    steps: &[(u8, u8, u32)],
    core: CoreId,
    lane: Lane,
) -> Result<Turn, OutOfMemory>
    requires actors { All (λ step. (step.0 < spec.now.cores) × (step.1 ≤ spec.now.buffer)) steps.now }
    requires lane { IsLaneOf spec.now core lane }
{
    let policy = turns_of(alloc, spec, steps)?;
    let mut end = run(alloc, spec, &CROWDED, 3, &policy, 1000)?;
    Ok(end.fabric.lane(core, lane))
}

/// Why lanes wait: one without a PEI; the first and the second of a core whose PEIs have not entered; the second of a core
/// whose PEIs are both in the vault's queue; and one of another core whose PEI is to go into that queue too.
#[test]
fn lanes_tell_why_they_wait(rt: HostRuntime) -> Result<(), Fail> {
    let spec = crowded_machine();
    let issued = &[(1, 0, 2)];
    let sealed = &[(0, 0, 2), (0, 1, 5), (0, 2, 5), (1, 0, 1), (1, 1, 4)];
    let reached = [
        lane_after(rt.alloc(), &spec, &[], CoreId(1), Lane(2))?,
        lane_after(rt.alloc(), &spec, issued, CoreId(1), Lane(1))?,
        lane_after(rt.alloc(), &spec, issued, CoreId(1), Lane(2))?,
        lane_after(rt.alloc(), &spec, sealed, CoreId(0), Lane(2))?,
        lane_after(rt.alloc(), &spec, sealed, CoreId(1), Lane(1))?,
    ];
    let seq = 0;
    let (first, head) = (
        PeiId {
            core: CoreId(1),
            seq,
        },
        PeiId {
            core: CoreId(0),
            seq,
        },
    );
    assert_eq!(rt;
        reached,
        [
            Turn::Stalled(StallCause::Idle),
            Turn::Stalled(StallCause::NeedsGrant),
            Turn::Stalled(StallCause::NotOldest { pei: first }),
            Turn::Stalled(StallCause::NotHead { pei: head }),
            Turn::Stalled(StallCause::VaultFull { vault: 0 }),
        ]
    );
    Ok(())
}

/// Why a program waits: for a free entry of its core's buffer, for its end, and, behind its fence, for its own PEI. The
/// causes of lanes and these three are all.
#[test]
fn programs_tell_why_they_wait(rt: HostRuntime) -> Result<(), Fail> {
    let spec = small_machine(1, 1, 1, Policy3::Memory);
    let image = Image::make(rt.alloc(), 128)?;
    let mut fabric = Fabric::make(rt.alloc(), &spec, &image)?;
    let (core, seq) = (CoreId(0), 0);
    let pei = PeiId { core, seq };
    let call = Call::Pei {
        op: Op::Inc { word: 0 },
        block: BlockNo(64),
        operands: Operands([0; 4]),
    };
    let Turn::Did(
        Event {
            kind: EventKind::Issue { .. },
            ..
        },
    ) = fabric.call(core, &call)
    else {
        assert!(rt; false);
        return Ok(());
    };
    let Turn::Stalled(full) = fabric.call(core, &call) else {
        assert!(rt; false);
        return Ok(());
    };
    let kind = EndKind::Halt;
    let ending = fabric.call(core, &Call::End { kind });
    fabric.call(core, &Call::Fence);
    let waiting = fabric.call(core, &Call::Fence);
    let reached = [Turn::Stalled(full), ending, waiting];
    assert_eq!(rt;
        reached,
        [
            Turn::Stalled(StallCause::BufferFull),
            Turn::Stalled(StallCause::Draining { pei }),
            Turn::Stalled(StallCause::FenceWaits { pei }),
        ]
    );
    Ok(())
}

/// Eight cores count in blocks of their own at the host, in 50,000 rounds of 40 turns. Each has one PEI at a time. Its lane
/// is announced in the round of its issue, has its grant in the next, and then enters, is placed, reads, acts, leaves and
/// is released; the fence ends in the round of the release, and the next PEI is issued in the one behind it. The first PEI
/// of a core takes two rounds more, to bring its block in. So PEI 0 acts in round 7, and PEI k in round 8 * k + 7.
#[test]
fn makes_many_turns(rt: HostRuntime) -> Result<(), Fail> {
    let instrs = [
        Instr::Shl {
            rd: 1,
            ra: 15,
            n: 6,
        },
        COUNTS,
        Instr::Pfence,
        Instr::Jmp { to: 1 },
    ];
    let spec = machine_with(8, 1_000_000, 1_048_576, Policy3::Host);
    let run = run(
        rt.alloc(),
        &spec,
        &instrs,
        0,
        &Policy::RoundRobin,
        2_000_000,
    )?;
    assert_eq!(rt; run.turns, 2_000_000);
    assert_eq!(rt; run.cores, [None; 8]);
    for core in 0..8 {
        assert_eq!(rt; run.fabric.peek(64 * core), 6_250);
    }
    Ok(())
}
