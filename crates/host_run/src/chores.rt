//! The loop of one core's thread.

ghost use Rattle.std.specs.Prelude.{◌≡◌, ℕ, ◌≤◌, IsTrue, IsFalse};
ghost use Rattle.host_run.specs.ThreadInvariant.{IsDone, IsFull, IsInTurn, IsLetGo};
ghost use Rattle.host_run.specs.Own.{core_of};
ghost use Rattle.shared_table.specs.Own.{Has};
ghost use Rattle.shared_table.specs.Parts.{claims, core_number};
ghost use Rattle.shared_table.specs.declared.claims.Claim.TheVariants.{Free};

use crate::cores::CoreRun;
use crate::slots::{Run, RunBank};
use crate::visits::{Place, laws};
use pei_io::Gate;
use pei_types::Lane;
use shared_table::{Claim, CoreSeat};
use std::sync::Wait;

/// Whether the lanes of a seat have nothing of the directory.
fn is_released<L: Run + Send + Sync>(seat: &CoreSeat<RunBank<L>>) -> bool
    ensures { IsTrue result → (lane : ℕ) → 1 ≤ lane → lane ≤ 4 → Has (claims seat.now) lane Free }
{
    for lane in 1..=4 {
        if seat.claim(Lane(lane)) != Claim::Free {
            return false;
        }
    }
    true
}

impl<'a, L: Run + Send + Sync, R: Wait, G: Gate> Place<'a, L, R, G> {
    /// Takes turns, lane by lane, until the core has ended and its claims are released, or no stamp is left. Before each
    /// turn that has something to do it asks whether one is left.
    pub fn run(&self, seat: &mut CoreSeat<RunBank<L>>, run: &mut CoreRun)
        requires turn { IsInTurn L.program L.machine L.image self.now.table.now.table seat.old run.old }
        requires core { self.now.core ≡ core_of seat.old }
        ensures done { IsDone L.program L.machine L.image self.now.table.now.table seat.new run.new.end }
        ensures core { core_number seat.new ≡ core_number seat.old }
    {
        for _ in self.rt.forever() {
            if run.end.is_some() && is_released(seat) {
                return;
            }
            if !self.round(seat, run) {
                self.let_go(seat, run);
                return;
            }
        }
    }

    /// One turn for each lane. False where no stamp was left before one of them or in one.
    fn round(&self, seat: &mut CoreSeat<RunBank<L>>, run: &mut CoreRun) -> bool
        requires turn { IsInTurn L.program L.machine L.image self.now.table.now.table seat.old run.old }
        requires core { self.now.core ≡ core_of seat.old }
        ensures goes { IsTrue result → IsInTurn L.program L.machine L.image self.now.table.now.table seat.new run.new }
        ensures full { IsFalse result → IsFull L.program L.machine L.image self.now.table.now.table seat.new run.new }
        ensures core { core_of seat.new ≡ core_of seat.old }
    {
        for lane in 0..=self.spec.buffer {
            if !self.turn(seat, run, lane) {
                return false;
            }
        }
        true
    }

    /// A turn of the core's program, which is lane 0, or of a lane with its PEI. False where no stamp was left. A lane that has
    /// neither a PEI nor a claim to release has nothing to do, and asks for nothing.
    fn turn(&self, seat: &mut CoreSeat<RunBank<L>>, run: &mut CoreRun, lane: u8) -> bool
        requires turn { IsInTurn L.program L.machine L.image self.now.table.now.table seat.old run.old }
        requires core { self.now.core ≡ core_of seat.old }
        requires lane { lane ≤ L.machine.buffer }
        ensures goes { IsTrue result → IsInTurn L.program L.machine L.image self.now.table.now.table seat.new run.new }
        ensures full { IsFalse result → IsFull L.program L.machine L.image self.now.table.now.table seat.new run.new }
        ensures core { core_of seat.new ≡ core_of seat.old }
    {
        if lane > 0 && run.own.is_idle(Lane(lane)) {
            true
        } else if self.is_full(seat, run) {
            false
        } else if lane == 0 {
            self.program_turn(seat, run)
        } else {
            self.lane_turn(seat, run, Lane(lane))
        }
    }

    /// Whether no stamp is left.
    fn is_full(&self, seat: &mut CoreSeat<RunBank<L>>, run: &CoreRun) -> bool
        requires turn { IsInTurn L.program L.machine L.image self.now.table.now.table seat.old run.now }
        ensures goes { IsFalse result → IsInTurn L.program L.machine L.image self.now.table.now.table seat.new run.now }
        ensures full { IsTrue result → IsFull L.program L.machine L.image self.now.table.now.table seat.new run.now }
        ensures core { core_of seat.new ≡ core_of seat.old }
    {
        let _ = run;
        laws();
        self.table.full(seat)
    }

    /// Withdraws what is announced, and releases the claims that no active PEI needs.
    fn let_go(&self, seat: &mut CoreSeat<RunBank<L>>, run: &CoreRun)
        requires full { IsFull L.program L.machine L.image self.now.table.now.table seat.old run.now }
        ensures done { IsDone L.program L.machine L.image self.now.table.now.table seat.new run.now.end }
        ensures core { core_number seat.new ≡ core_number seat.old }
    {
        for lane in 1..=4 {
            self.let_lane_go(seat, run, Lane(lane));
        }
    }

    /// The same for one lane.
    fn let_lane_go(&self, seat: &mut CoreSeat<RunBank<L>>, run: &CoreRun, lane: Lane)
        requires lane { (1 ≤ lane.0) × (lane.0 ≤ 4) }
        requires kept { IsLetGo L.program L.machine L.image self.now.table.now.table seat.old run.now }
        ensures kept { IsLetGo L.program L.machine L.image self.now.table.now.table seat.new run.now }
        ensures core { core_number seat.new ≡ core_number seat.old }
    {
        laws();
        let is_active = match run.own.pei(lane) {
            Some(pei) => pei.entered,
            None => false,
        };
        match seat.claim(lane) {
            Claim::Announced(_) => self.table.withdraw(seat, lane),
            Claim::Held(_, _) if !is_active => self.table.release(seat, lane),
            _ => {}
        }
    }
}
