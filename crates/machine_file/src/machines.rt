//! The built-in machines.

ghost use Rattle.machine_file.specs.Machine.{IsBuiltIn};
ghost use Rattle.pei_types.specs.Limits.{IsWithin};

use pei_types::{MachineSpec, Policy3};

/// The built-in machine of 1 to 8 cores: `-1` to `-8` in the place of a machine file.
///
/// Its caches, vaults and directory are small, so that short programs fill them. It takes no memory.
#[tactic(auto, unfolding(pei_types::specs::Limits::log_two))]
pub fn built_in(cores: u8) -> MachineSpec
    requires { IsWithin 1 8 cores }
    ensures { IsBuiltIn cores result }
{
    MachineSpec {
        cores,
        blocks: 4096,
        l1_sets: 4,
        l1_ways: 2,
        llc_sets: 16,
        llc_ways: 4,
        vaults: 4,
        queue: 4,
        directory: 64,
        buffer: 4,
        banks: 1,
        fuel: 10_000,
        events: 262_144,
        placement: Policy3::Monitor,
    }
}
