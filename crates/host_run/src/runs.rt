//! A run of the whole machine by threads.

ghost use Rattle.std.specs.Prelude.{All, ◌≡◌, ◌+◌, ◌-◌, ◌*◌, ◌<◌, ◌≤◌, ◌++◌, [], length, map, replicate, vec_len, IfOk, None};
ghost use Rattle.std.specs.List.{range_with_len};
ghost use Rattle.fabric.specs.Banks.{banks_at_start};
ghost use Rattle.history_laws.specs.Laws.{JournalsAreSound};
ghost use Rattle.bank_laws.specs.Laws.{BanksKeepApart, LogsMakeLegal};
ghost use Rattle.shared_table.specs.Parts.{core_number};
ghost use Rattle.host_run.specs.ThreadInvariant.{IsDone};
ghost use Rattle.host_run.specs.Runs.{IsRunOf};
ghost use Rattle.host_run.specs.NewSeat.{IsNewSeat};

use crate::cores::CoreRun;
use crate::slots::{Run, RunBank};
use crate::visits::Place;
use crossbeam_utils::Backoff;
use fabric::{Bank, Fabric};
use pei_io::Gate;
use pei_types::{Banks, CoreId, EndKind, Image, MachineSpec, OutOfMemory, Program};
use shared_table::{CoreSeat, Receipt, Seats, SharedTable};
use std::alloc::Global;
use std::marker::{Brand, PhantomData};
use std::sync::Wait;
use std::thread;
use std::thread::Threads;

/// How a run by threads ended: the machine with its journal and memory; how each core ended, if it did; and of each core
/// its events, as its thread had them.
#[derive(Drop)]
pub struct RunParts {
    pub fabric: Fabric,
    pub cores: [Option<EndKind>; 8],
    pub receipt: Receipt,
}

/// Runs a program on the whole machine, from an image of its memory, by a thread for each core.
///
/// Each thread visits the lanes of its core in turn. It stops where its core has ended and its claims are released, or where
/// the journal is full. The condition is that the image has a word for each word of memory. `OutOfMemory` comes only
/// where memory could not be had for the machine, the table or the threads, and nothing says that the call returns.
pub fn run_threads<R: Threads + Wait + Sync, G: Gate>(
    rt: &R,
    alloc: Global,
    program: &Program,
    spec: &MachineSpec,
    image: &Image,
    gate: &G,
) -> Result<RunParts, OutOfMemory>
    requires image { length image.now.words ≡ 8 * spec.now.blocks }
    ensures fabric { IfOk result (λ r. (r.fabric.machine ≡ spec.now) × (r.fabric.image ≡ image.now)) }
    ensures run { IfOk result (λ r. IsRunOf program.now spec.now image.now r.fabric.journal r.cores r.receipt) }
{
    run_as::<Brand, R, G>(rt, alloc, program, spec, image, gate)
}

// What is said of the journal of all banks.
fn laws()
    ensures apart { BanksKeepApart }
    ensures legal { LogsMakeLegal }
    ensures sound { JournalsAreSound }
{
    bank_laws::laws::banks_keep_apart();
    bank_laws::laws::logs_make_legal();
    history_laws::laws::legal_journals_are_sound();
}

/// A bank as the value behind a slot.
fn slot_of<L: Run + Send + Sync>(alloc: Global, bank: Bank) -> Result<RunBank<L>, OutOfMemory>
    requires { (bank.machine ≡ L.machine) × (bank.image ≡ L.image) }
    ensures { IfOk result (λ s. s.bank.value ≡ bank) }
{
    let Ok(bank) = Box::new(alloc, bank) else {
        return Err(OutOfMemory);
    };
    Ok(RunBank {
        bank,
        of: PhantomData,
    })
}

/// The bank behind a slot.
fn bank_in<L: Run + Send + Sync>(slot: RunBank<L>) -> Bank
    ensures { result ≡ slot.bank.value }
{
    let RunBank { bank, of: _ } = slot;
    Box::into_inner(bank)
}

/// The banks of a machine that has made no event, as values behind slots.
fn with_run<L: Run + Send + Sync>(
    alloc: Global,
    mut banks: Banks<Bank>,
) -> Result<Banks<RunBank<L>>, OutOfMemory>
    requires { banks ≡ banks_at_start L.machine L.image }
    ensures { IfOk result (λ slots. map (λ s. s.bank.value) slots ≡ banks) }
{
    let Some(first) = banks.take_first() else {
        unreachable!()
    };
    let mut slots = Banks::make(slot_of(alloc, first)?);
    while let Some(bank) = banks.take_first() {
        slots.push(slot_of(alloc, bank)?);
    }
    Ok(slots)
}

/// The banks behind the slots.
fn without_run<L: Run + Send + Sync>(mut slots: Banks<RunBank<L>>) -> Banks<Bank>
    requires { (0 < length slots) × (length slots ≤ 8) }
    ensures { result ≡ map (λ s. s.bank.value) slots }
{
    let Some(first) = slots.take_first() else {
        unreachable!()
    };
    let mut banks = Banks::make(bank_in(first));
    while let Some(slot) = slots.take_first() {
        banks.push(bank_in(slot));
    }
    banks
}

/// Takes all seats out, in order.
fn take_all<L: Run + Send + Sync>(
    alloc: Global,
    mut seats: Seats<RunBank<L>>,
) -> Result<(Vec<CoreSeat<RunBank<L>>>, Seats<RunBank<L>>), OutOfMemory>
    requires { length seats.list ≤ 8 }
    ensures taken { IfOk result (λ r. r.0.items ≡ seats.list) }
    ensures left { IfOk result (λ r. (r.1.list ≡ []) × (r.1.table ≡ seats.table)) }
{
    let Ok(mut jobs) = Vec::with_capacity(alloc, 8) else {
        return Err(OutOfMemory);
    };
    while let Some(seat) = seats.take() {
        jobs.push_reserved(seat);
    }
    Ok((jobs, seats))
}

/// Puts all seats back, in order, and tells how each core ended.
fn put_all<L: Run + Send + Sync>(
    seats: &mut Seats<RunBank<L>>,
    done: Vec<(CoreSeat<RunBank<L>>, Option<EndKind>)>,
) -> [Option<EndKind>; 8]
    requires empty { seats.old.list ≡ [] }
    requires few { length done.items ≤ 8 }
    requires table { All (λ x. x.0.table ≡ seats.old.table) done.items }
    requires order { map (λ x. core_number x.0) done.items ≡ range_with_len 0 (length done.items) }
    ensures seats { (seats.new.table ≡ seats.old.table) × (seats.new.list ≡ map (λ x. x.0) done.items) }
    ensures ends { result ≡ map (λ x. x.1) done.items ++ replicate (8 - length done.items) None }
{
    let mut ends = [None; 8];
    for (seat, end) in done {
        ends[seat.core().0 as usize] = end;
        seats.put(seat);
    }
    ends
}

/// The thread of one core.
fn run_core<L: Run + Send + Sync, R: Wait, G: Gate>(
    rt: &R,
    table: &SharedTable<RunBank<L>>,
    program: &Program,
    spec: &MachineSpec,
    image: &Image,
    gate: &G,
    seat: CoreSeat<RunBank<L>>,
) -> (CoreSeat<RunBank<L>>, Option<EndKind>)
    requires marker { (program.now ≡ L.program) × (spec.now ≡ L.machine) × (image.now ≡ L.image) }
    requires table { (table.now.entries ≡ L.machine.directory) × (table.now.banks ≡ L.machine.banks) × (table.now.events ≡ L.machine.events) }
    requires seat { IsNewSeat table.now.table seat × (core_number seat < L.machine.cores) }
    ensures done { IsDone L.program L.machine L.image table.now.table result.0 result.1 }
    ensures core { core_number result.0 ≡ core_number seat }
{
    let mut seat = seat;
    let core = seat.core();
    let place = Place {
        rt,
        table,
        program,
        spec,
        gate,
        core,
        pause: Backoff::new(),
    };
    let mut run = CoreRun::make(image, core);
    place.run(&mut seat, &mut run);
    (seat, run.end)
}

/// The run, where its type says what it is of.
fn run_as<L: Run + Send + Sync, R: Threads + Wait + Sync, G: Gate>(
    rt: &R,
    alloc: Global,
    program: &Program,
    spec: &MachineSpec,
    image: &Image,
    gate: &G,
) -> Result<RunParts, OutOfMemory>
    requires image { length image.now.words ≡ 8 * spec.now.blocks }
    requires marker { (program.now ≡ L.program) × (spec.now ≡ L.machine) × (image.now ≡ L.image) }
    ensures fabric { IfOk result (λ r. (r.fabric.machine ≡ spec.now) × (r.fabric.image ≡ image.now)) }
    ensures run { IfOk result (λ r. IsRunOf program.now spec.now image.now r.fabric.journal r.cores r.receipt) }
{
    laws();
    let fabric = Fabric::make(alloc, spec, image)?;
    let slots = with_run::<L>(alloc, fabric.split())?;
    let (table, seats) = SharedTable::make(alloc, spec.directory, spec.cores, spec.events, slots)?;
    let (jobs, mut seats) = take_all(alloc, seats)?;
    let shared = &table;
    let done = thread::map_vec(
        rt,
        jobs,
        &|seat: CoreSeat<RunBank<L>>| -> (CoreSeat<RunBank<L>>, Option<EndKind>)
            requires { (program.now ≡ L.program) × (spec.now ≡ L.machine) × (image.now ≡ L.image) × (shared.now.entries ≡ L.machine.directory) × (shared.now.banks ≡ L.machine.banks) × (shared.now.events ≡ L.machine.events) × IsNewSeat shared.now.table seat × (core_number seat < L.machine.cores) }
            ensures { IsDone L.program L.machine L.image shared.entry.now.table result.0 result.1 × (core_number result.0 ≡ core_number seat) }
        { run_core(rt, shared, program, spec, image, gate, seat) },
    );
    let Ok(done) = done else {
        return Err(OutOfMemory);
    };
    let cores = put_all(&mut seats, done);
    let (slots, receipt) = table.close(seats);
    Ok(RunParts {
        fabric: Fabric::merge(without_run(slots)),
        cores,
        receipt,
    })
}
