//! Small programs, with values worked out by hand.

ghost use Rattle.std.specs.Prelude.{◌≡◌, false};
ghost use Rattle.pei_types.specs.Program.{HasRegisters};
ghost use Rattle.core_exec.specs.CoreView.{retires};

use super::*;
use pei_types::{Actor, BlockNo, Call, Lane, Op, Operands, OutOfMemory, PeiId, Reply, TrapCause};
use std::alloc::Global;
use std::test::Fail;

/// Memory has the addresses below 1,024.
const BLOCKS: u32 = 16;

/// What each core is given.
const CONFIG: CoreConfig = CoreConfig {
    fuel: 100,
    blocks: BLOCKS,
};

/// What core 5 does next on `li r1, a; li r2, b; INSTR; out r3; out r2`, of which `out r2` has the index 4.
fn next_within(
    alloc: Global,
    fuel: u32,
    instr: Instr,
    a: u64,
    b: u64,
) -> Result<CoreNext, OutOfMemory>
    requires { HasRegisters instr }
{
    let mut program = Program::make(alloc);
    program.push_instr(Instr::Li { rd: 1, n: a })?;
    program.push_instr(Instr::Li { rd: 2, n: b })?;
    program.push_instr(instr)?;
    program.push_instr(Instr::Out { ra: 3 })?;
    program.push_instr(Instr::Out { ra: 2 })?;
    let image = Image::make(alloc, BLOCKS)?;
    Ok(Core::make(&image, CoreId(5)).next_call(&program, CoreConfig { fuel, ..CONFIG }))
}

/// The same with ample fuel.
fn next_after(alloc: Global, instr: Instr, a: u64, b: u64) -> Result<CoreNext, OutOfMemory>
    requires { HasRegisters instr }
{
    next_within(alloc, 100, instr, a, b)
}

/// What the core does next, which this event answers if it asks for something.
fn answered(core: &mut Core, program: &Program, kind: EventKind) -> CoreNext {
    let next = core.next_call(program, CONFIG);
    let asks = match next {
        CoreNext::Call(Call::End { .. }) | CoreNext::Busy { .. } | CoreNext::Ended(_) => false,
        CoreNext::Call(_) => true,
    };
    if asks {
        core.answer(&event(kind));
    }
    next
}

fn event(kind: EventKind) -> Event
    ensures { result.kind ≡ kind }
{
    let actor = Actor {
        core: CoreId(5),
        lane: Lane(0),
    };
    Event { actor, kind }
}

fn issue(seq: u32) -> EventKind {
    EventKind::Issue {
        seq,
        lane: Lane(1),
        op: Op::Probe,
        block: BlockNo(0),
        operands: Operands([0; 4]),
    }
}

fn act(seq: u32, words: [u64; 2]) -> EventKind
    ensures { retires result ≡ false }
{
    EventKind::Act {
        seq,
        reply: Reply { words, len: 2 },
    }
}

fn out(value: u64) -> CoreNext {
    CoreNext::Call(Call::Out { value })
}

fn end(kind: EndKind) -> CoreNext {
    CoreNext::Call(Call::End { kind })
}

fn trap(pc: u32, cause: TrapCause) -> CoreNext {
    end(EndKind::Trap { pc, cause })
}

fn pei(op: Op, block: u32, operands: [u64; 4]) -> CoreNext {
    CoreNext::Call(Call::Pei {
        op,
        block: BlockNo(block),
        operands: Operands(operands),
    })
}

#[test]
fn computes(rt: HostRuntime) -> Result<(), Fail> {
    let alloc = rt.alloc();
    let (rd, ra, rb) = (3, 1, 2);
    let top = 1 << 63;
    let add = Instr::Add { rd, ra, rb };
    assert_eq!(rt; next_after(alloc, add, u64::MAX, 2)?, out(1));
    let sub = Instr::Sub { rd, ra, rb };
    assert_eq!(rt; next_after(alloc, sub, 1, 2)?, out(u64::MAX));
    let mul = Instr::Mul { rd, ra, rb };
    assert_eq!(rt; next_after(alloc, mul, top + 3, 5)?, out(top + 15));
    let and = Instr::And { rd, ra, rb };
    assert_eq!(rt; next_after(alloc, and, 12, 10)?, out(8));
    let or = Instr::Or { rd, ra, rb };
    assert_eq!(rt; next_after(alloc, or, 12, 10)?, out(14));
    let xor = Instr::Xor { rd, ra, rb };
    assert_eq!(rt; next_after(alloc, xor, 12, 10)?, out(6));
    let addi = Instr::Addi { rd, ra, n: 3 };
    assert_eq!(rt; next_after(alloc, addi, u64::MAX, 0)?, out(2));
    let andi = Instr::Andi { rd, ra, n: 6 };
    assert_eq!(rt; next_after(alloc, andi, 12, 0)?, out(4));
    let shl = Instr::Shl { rd, ra, n: 65 };
    assert_eq!(rt; next_after(alloc, shl, top + 1, 0)?, out(2));
    let shr = Instr::Shr { rd, ra, n: 65 };
    assert_eq!(rt; next_after(alloc, shr, top + 2, 0)?, out((1 << 62) + 1));
    assert_eq!(rt; next_after(alloc, Instr::Out { ra: 15 }, 0, 0)?, out(5));
    Ok(())
}

/// A branch that is taken puts out r2, which holds b; one that is not puts out r3, which holds 0.
#[test]
fn branches(rt: HostRuntime) -> Result<(), Fail> {
    let alloc = rt.alloc();
    let (ra, rb, to) = (1, 2, 4);
    let beq = Instr::Beq { ra, rb, to };
    assert_eq!(rt; next_after(alloc, beq, 7, 7)?, out(7));
    assert_eq!(rt; next_after(alloc, beq, 7, 8)?, out(0));
    let bne = Instr::Bne { ra, rb, to };
    assert_eq!(rt; next_after(alloc, bne, 7, 8)?, out(8));
    assert_eq!(rt; next_after(alloc, bne, 7, 7)?, out(0));
    let bltu = Instr::Bltu { ra, rb, to };
    assert_eq!(rt; next_after(alloc, bltu, 1, u64::MAX)?, out(u64::MAX));
    assert_eq!(rt; next_after(alloc, bltu, 7, 7)?, out(0));
    let bgeu = Instr::Bgeu { ra, rb, to };
    assert_eq!(rt; next_after(alloc, bgeu, u64::MAX, 1)?, out(1));
    assert_eq!(rt; next_after(alloc, bgeu, 7, 7)?, out(7));
    assert_eq!(rt; next_after(alloc, bgeu, 7, 8)?, out(0));
    assert_eq!(rt; next_after(alloc, Instr::Jmp { to }, 1, 2)?, out(2));
    assert_eq!(rt;
        next_after(alloc, Instr::Jmp { to: 5 }, 1, 2)?,
        trap(5, TrapCause::Pc)
    );
    Ok(())
}

#[test]
fn calls(rt: HostRuntime) -> Result<(), Fail> {
    let alloc = rt.alloc();
    let (rd, ra, n) = (3, 1, 8);
    let ld = Instr::Ld { rd, ra, n };
    let load = CoreNext::Call(Call::Load { pc: 2, addr: 24 });
    assert_eq!(rt; next_after(alloc, ld, 16, 9)?, load);
    assert_eq!(rt; next_after(alloc, ld, 1020, 9)?, trap(2, TrapCause::Align));
    assert_eq!(rt; next_after(alloc, ld, 1016, 9)?, trap(2, TrapCause::Range));
    let st = Instr::St { rv: 2, ra, n };
    let store = CoreNext::Call(Call::Store {
        pc: 2,
        addr: 0,
        value: 9,
    });
    assert_eq!(rt; next_after(alloc, st, u64::MAX - 7, 9)?, store);
    let pinc = Instr::Pinc { ra, n };
    assert_eq!(rt;
        next_after(alloc, pinc, 128, 9)?,
        pei(Op::Inc { word: 1 }, 2, [0; 4])
    );
    let pmin = Instr::Pmin { ra, n, rv: 2 };
    assert_eq!(rt;
        next_after(alloc, pmin, 48, 9)?,
        pei(Op::Min { word: 7 }, 0, [9, 0, 0, 0])
    );
    let pprobe = Instr::Pprobe { rd, ra, n, rk: 2 };
    assert_eq!(rt;
        next_after(alloc, pprobe, 56, 9)?,
        pei(Op::Probe, 1, [9, 0, 0, 0])
    );
    assert_eq!(rt;
        next_after(alloc, pprobe, 64, 9)?,
        trap(2, TrapCause::Align)
    );
    let phist = Instr::Phist { rd, ra, n, rs: 2 };
    assert_eq!(rt;
        next_after(alloc, phist, 56, 24)?,
        pei(Op::Hist, 1, [24, 0, 0, 0])
    );
    assert_eq!(rt;
        next_after(alloc, phist, 56, 25)?,
        trap(2, TrapCause::Shift)
    );
    assert_eq!(rt;
        next_after(alloc, phist, 1016, 25)?,
        trap(2, TrapCause::Range)
    );
    let pdot = Instr::Pdot { rd, ra, n, rw: 1 };
    assert_eq!(rt;
        next_after(alloc, pdot, 56, 9)?,
        pei(Op::Dot, 1, [56, 9, 0, 0])
    );
    Ok(())
}

/// Two `li` are retired before INSTR. Neither a `halt` nor an instruction that traps is counted.
#[test]
fn spends_fuel(rt: HostRuntime) -> Result<(), Fail> {
    let alloc = rt.alloc();
    let jmp = Instr::Jmp { to: 2 };
    assert_eq!(rt; next_within(alloc, 100, jmp, 0, 0)?, end(EndKind::Fuel));
    assert_eq!(rt;
        next_within(alloc, 2, Instr::Halt, 0, 0)?,
        end(EndKind::Fuel)
    );
    assert_eq!(rt;
        next_within(alloc, 3, Instr::Halt, 0, 0)?,
        end(EndKind::Halt)
    );
    let trapping = Instr::Ld { rd: 3, ra: 1, n: 0 };
    assert_eq!(rt; next_within(alloc, 2, trapping, 4, 0)?, end(EndKind::Fuel));
    assert_eq!(rt;
        next_within(alloc, 3, trapping, 4, 0)?,
        trap(2, TrapCause::Align)
    );
    let addi = Instr::Addi { rd: 3, ra: 1, n: 1 };
    assert_eq!(rt; next_within(alloc, 3, addi, 4, 0)?, end(EndKind::Fuel));
    assert_eq!(rt; next_within(alloc, 4, addi, 4, 0)?, out(5));
    Ok(())
}

/// r2 and r3 wait for the reply of PEI 0, r4 for that of PEI 1, which acts first.
#[test]
fn waits_for_replies(rt: HostRuntime) -> Result<(), Fail> {
    let alloc = rt.alloc();
    let mut program = Program::make(alloc);
    let (ra, n) = (0, 0);
    program.push_instr(Instr::Pprobe {
        rd: 2,
        ra,
        n,
        rk: 0,
    })?;
    program.push_instr(Instr::Pdot {
        rd: 4,
        ra,
        n,
        rw: 8,
    })?;
    program.push_instr(Instr::Sub {
        rd: 5,
        ra: 3,
        rb: 2,
    })?;
    program.push_instr(Instr::Out { ra: 5 })?;
    program.push_instr(Instr::Out { ra: 4 })?;
    let image = Image::make(alloc, BLOCKS)?;
    let mut core = Core::make(&image, CoreId(5));
    assert_eq!(rt;
        answered(&mut core, &program, issue(0)),
        pei(Op::Probe, 0, [0; 4])
    );
    assert_eq!(rt;
        answered(&mut core, &program, issue(1)),
        pei(Op::Dot, 0, [0; 4])
    );
    let busy = CoreNext::Busy {
        register: 2,
        pei: PeiId {
            core: CoreId(5),
            seq: 0,
        },
    };
    assert_eq!(rt; core.next_call(&program, CONFIG), busy);
    core.answer(&event(act(1, [11, 0])));
    assert_eq!(rt; core.next_call(&program, CONFIG), busy);
    core.answer(&event(act(0, [7, 9])));
    assert_eq!(rt;
        answered(&mut core, &program, EventKind::Out { value: 2 }),
        out(2)
    );
    assert_eq!(rt; core.next_call(&program, CONFIG), out(11));
    Ok(())
}

/// A load of 77, an output, a fence, and a store that races.
#[test]
fn takes_answers(rt: HostRuntime) -> Result<(), Fail> {
    let alloc = rt.alloc();
    let mut program = Program::make(alloc);
    program.push_instr(Instr::Ld { rd: 1, ra: 0, n: 8 })?;
    program.push_instr(Instr::Out { ra: 1 })?;
    program.push_instr(Instr::Pfence)?;
    program.push_instr(Instr::St { rv: 1, ra: 0, n: 0 })?;
    let image = Image::make(alloc, BLOCKS)?;
    let mut core = Core::make(&image, CoreId(5));
    let (addr, value) = (8, 77);
    let load = CoreNext::Call(Call::Load { pc: 0, addr });
    assert_eq!(rt;
        answered(&mut core, &program, EventKind::Load { addr, value }),
        load
    );
    assert_eq!(rt;
        answered(&mut core, &program, EventKind::Out { value }),
        out(77)
    );
    let fence = CoreNext::Call(Call::Fence);
    assert_eq!(rt; answered(&mut core, &program, EventKind::FenceBegin), fence);
    assert_eq!(rt; answered(&mut core, &program, EventKind::FenceEnd), fence);
    let store = CoreNext::Call(Call::Store {
        pc: 3,
        addr: 0,
        value,
    });
    let (pc, block) = (3, BlockNo(0));
    let by = PeiId {
        core: CoreId(2),
        seq: 4,
    };
    assert_eq!(rt;
        answered(&mut core, &program, EventKind::Race { pc, block, by }),
        store
    );
    let kind = EndKind::Race { pc, block, by };
    assert_eq!(rt; core.next_call(&program, CONFIG), end(kind));
    core.answer(&event(EventKind::End { kind }));
    assert_eq!(rt; core.next_call(&program, CONFIG), CoreNext::Ended(kind));
    Ok(())
}
