//! The machine at its start.

ghost use Rattle.std.specs.Prelude.{◌≡◌};

use fabric::{Fabric, Turn};
use pei_types::{CoreId, Image, Lane, MachineSpec, Policy3, StallCause};
use std::test::Fail;

/// Two cores with one line each, and two lines below them, above 128 blocks.
#[tactic(auto, unfolding(pei_types::specs::Limits::log_two))]
fn small_machine() -> MachineSpec
    ensures cores { result.cores ≡ 2 }
    ensures blocks { result.blocks ≡ 128 }
    ensures buffer { result.buffer ≡ 4 }
{
    MachineSpec {
        cores: 2,
        blocks: 128,
        l1_sets: 1,
        l1_ways: 1,
        llc_sets: 1,
        llc_ways: 2,
        vaults: 16,
        queue: 16,
        directory: 2048,
        buffer: 4,
        banks: 1,
        fuel: 100_000,
        events: 524_288,
        placement: Policy3::Monitor,
    }
}

#[test]
fn starts_empty(rt: HostRuntime) -> Result<(), Fail> {
    let spec = small_machine();
    let mut image = Image::make(rt.alloc(), 128)?;
    image.set_word(4096, 7);
    let mut fabric = Fabric::make(rt.alloc(), &spec, &image)?;
    assert_eq!(rt; fabric.peek(4096), 7);
    assert_eq!(rt; fabric.needs(CoreId(1), Lane(4)), None);
    assert_eq!(rt;
        fabric.lane(CoreId(1), Lane(4)),
        Turn::Stalled(StallCause::Idle)
    );
    assert_eq!(rt; fabric.machine(), spec);
    assert!(rt; fabric.journal().is_empty());
    assert_eq!(rt; fabric.into_journal().spare(), 524_288);
    Ok(())
}
