//! A run of the whole machine by a schedule of actors.

ghost use Rattle.std.specs.Prelude.{◌≡◌, ◌≤◌, ◌*◌, length, IfOk};
ghost use Rattle.pei_types.specs.Legal.{Legal};
ghost use Rattle.pei_types.specs.Schedule.{run_at_start};
ghost use Rattle.sched_run.specs.Choice.{HasActorsOf};
ghost use Rattle.sched_run.specs.ElevenClauses.{ElevenClauses};
ghost use Rattle.sched_run.specs.Scheduled.{EndsInTime, IsAfter, IsEndOf, run_of, SpendsTurns};
ghost use Rattle.sched_run.specs.DefinedRun.{IsRunning, run_in};

use crate::policies::Policy;
use crate::running::Running;
use fabric::Fabric;
use history_laws::laws::policies_choose_actors;
use pei_types::{EndKind, Image, MachineSpec, OutOfMemory, Program};
use std::alloc::Global;

/// How a run by a schedule ended: the machine as it is then, with its journal and memory; how each core ended, if it
/// did; and the number of turns that were made.
#[derive(Drop)]
pub struct SchedEnd {
    pub fabric: Fabric,
    pub cores: [Option<EndKind>; 8],
    pub turns: u64,
}

/// Runs a program on the whole machine, from an image of its memory, for at most `turns` turns.
///
/// The run stops earlier where each core has ended, the journal is full, or the list of the policy's actors is at its
/// end. The conditions are that the image has a word for each word of memory, and that a list has only actors of this
/// machine. `OutOfMemory` says that the memory for the machine could not be had, before the first turn; no clause ties it to
/// that.
pub fn run_schedule(
    alloc: Global,
    program: &Program,
    spec: &MachineSpec,
    image: &Image,
    policy: &Policy,
    turns: u64,
) -> Result<SchedEnd, OutOfMemory>
    requires image { length image.now.words ≡ 8 * spec.now.blocks }
    requires actors { HasActorsOf spec.now policy.now }
    ensures run { IfOk result (λ v. IsEndOf spec.now image.now (run_of program.now spec.now image.now policy.now turns) v) }
    ensures legal { IfOk result (λ v. Legal program.now spec.now image.now v.fabric.journal) }
    ensures laws { IfOk result (λ v. ElevenClauses program.now spec.now image.now v.fabric.journal) }
    ensures ends_in_time { IfOk result (λ v. EndsInTime spec.now policy.now turns v.fabric.journal) }
    ensures spends { IfOk result (λ v. SpendsTurns spec.now policy.now turns v.fabric.journal v.turns) }
{
    machine_laws::laws::whole_runs_are_legal();
    progress_laws::laws::serial_runs_end();
    let mut running = Running::start(alloc, spec, image)?;
    let made = play(&mut running, program, policy, turns);
    Ok(SchedEnd {
        fabric: running.fabric,
        cores: running.ends,
        turns: made,
    })
}

/// Takes at most so many turns, and answers how many it took.
fn play(running: &mut Running, program: &Program, policy: &Policy, turns: u64) -> u64
    requires actors { HasActorsOf running.old.fabric.machine policy.now }
    requires start { run_in running.old 0 ≡ run_at_start running.old.fabric.machine }
    requires running { IsRunning program.now running.old }
    ensures after { IsAfter program.now policy.now turns result running.old running.new }
    ensures spends { SpendsTurns running.new.fabric.machine policy.now turns running.new.fabric.journal result }
{
    policies_choose_actors();
    let machine = running.fabric.machine();
    let mut draws = policy.draws();
    for made in 0..turns {
        if running.is_over() {
            return made;
        }
        let Some(actor) = policy.choose(&mut draws, &machine, made, running.stalls) else {
            return made;
        };
        running.turn(program, actor);
    }
    turns
}
