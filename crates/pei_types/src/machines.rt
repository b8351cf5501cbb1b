//! The sizes of a machine.

ghost use Rattle.pei_types.specs.Limits.{IsWithin, IsPowerOfTwo};
ghost use Rattle.std.specs.Prelude.{◌≡◌, ◌≤◌};

/// How PEIs are placed: by the locality monitor, all at the host, or all in memory.
#[derive(Clone, Copy, PartialEq, Eq, Debug)]
pub enum Policy3 {
    Monitor,
    Host,
    Memory,
}

/// The sizes of a machine, within the limits of a machine file.
///
/// `cores` is 1 to 8, `blocks` of memory 16 to 65,536; `l1_sets` (to 64), `llc_sets` (to 1,024), `vaults` (to 16) and
/// `directory` entries (2 to 2,048) are powers of two; a set of a private cache has `l1_ways` lines (to 8), one of the
/// last-level cache `llc_ways` (to 16); a vault's `queue` holds up to 16 PEIs, a core's operand `buffer` up to 4; a core
/// retires up to `fuel` instructions (to 1,000,000), a journal has room for `events` (64 to 1,048,576). `banks` (to 8) is a
/// power of two, and at most `l1_sets`, `llc_sets` and `vaults`.
#[derive(Clone, Copy, PartialEq, Eq, Debug)]
pub struct MachineSpec {
    pub cores: u8,
    pub blocks: u32,
    pub l1_sets: u32,
    pub l1_ways: u32,
    pub llc_sets: u32,
    pub llc_ways: u32,
    pub vaults: u32,
    pub queue: u32,
    pub directory: u32,
    pub buffer: u8,
    pub banks: u32,
    pub fuel: u32,
    pub events: u32,
    pub placement: Policy3,
    ghost cores_in_limits: { IsWithin 1 8 cores },
    ghost blocks_in_limits: { IsWithin 16 65536 blocks },
    ghost l1_sets_in_limits: { IsWithin 1 64 l1_sets × IsPowerOfTwo l1_sets },
    ghost l1_ways_in_limits: { IsWithin 1 8 l1_ways },
    ghost llc_sets_in_limits: { IsWithin 1 1024 llc_sets × IsPowerOfTwo llc_sets },
    ghost llc_ways_in_limits: { IsWithin 1 16 llc_ways },
    ghost vaults_in_limits: { IsWithin 1 16 vaults × IsPowerOfTwo vaults },
    ghost queue_in_limits: { IsWithin 1 16 queue },
    ghost directory_in_limits: { IsWithin 2 2048 directory × IsPowerOfTwo directory },
    ghost buffer_in_limits: { IsWithin 1 4 buffer },
    ghost banks_in_limits: { IsWithin 1 8 banks × IsPowerOfTwo banks × (banks ≤ l1_sets) × (banks ≤ llc_sets) × (banks ≤ vaults) },
    ghost fuel_in_limits: { IsWithin 1 1000000 fuel },
    ghost events_in_limits: { IsWithin 64 1048576 events },
}

/// What a machine gives each of its cores, beside the program and the image: a core retires up to `fuel` instructions, and
/// memory has `blocks` blocks of 64 bytes (to 65,536).
#[derive(Clone, Copy, PartialEq, Eq, Debug)]
pub struct CoreConfig {
    pub fuel: u32,
    pub blocks: u32,
}

impl MachineSpec {
    ghost use Rattle.pei_types.specs.Core.{core_config};

    /// What the machine gives its cores.
    pub fn core_config(&self) -> CoreConfig
        ensures { result ≡ core_config self.now }
    {
        CoreConfig {
            fuel: self.fuel,
            blocks: self.blocks,
        }
    }
}
