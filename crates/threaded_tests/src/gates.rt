//! Threads that are held at a gate.

use crate::commands::{RAISE_HUNDRED, RAISED_BY_TWO, run};
use pei_io::Gate;
use std::sync::atomic::{AtomicU64, Ordering};
use std::test::Fail;

/// A gate that holds each core at a point until another core has come to that point too, for so many turns at most.
#[derive(Drop)]
struct Meeting {
    point: u8,
    arrived: AtomicU64,
    late: AtomicU64,
}

impl Meeting {
    fn at(point: u8) -> Meeting {
        Meeting {
            point,
            arrived: AtomicU64::new(0),
            late: AtomicU64::new(0),
        }
    }
}

impl Gate for Meeting {
    fn pass(&self, core: u8, point: u8) {
        let _ = core;
        if point != self.point {
            return;
        }
        self.arrived.fetch_add(1, Ordering::SeqCst);
        for _ in 0..10_000_000 {
            if self.arrived.load(Ordering::SeqCst) >= 2 {
                return;
            }
        }
        self.late.store(1, Ordering::SeqCst);
    }
}

/// Cores that ran one after the other, in whichever order, would not meet.
#[test]
fn two_cores_run_at_once(rt: HostRuntime) -> Result<(), Fail> {
    for point in 0..2 {
        let gate = Meeting::at(point);
        let ended = run(&rt, rt.alloc(), "run p -2", RAISE_HUNDRED, b"", &gate)?;
        assert_eq!(rt; ended.sink.bytes(), RAISED_BY_TWO);
        assert_eq!(rt; gate.late.load(Ordering::SeqCst), 0);
        assert_eq!(rt; gate.arrived.load(Ordering::SeqCst), 2);
    }
    Ok(())
}
