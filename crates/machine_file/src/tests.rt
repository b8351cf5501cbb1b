//! Machine files with their faults, and files that describe a machine.

use crate::{Key, MachineFault, built_in, read_machine};
use pei_types::{MachineSpec, Policy3};
use std::test::Fail;

/// Files, each with the kind of its fault and the key that the fault names, if it names one.
const FAULTS: [(&[u8], &str, &str); 63] = [
    (b"cores = ", "BadToml", ""),
    (b"cores = 1\ncores = 1", "BadToml", ""),
    (
        b"x = 1\ncores = 9223372036854775808\nblocks = 64",
        "BadToml",
        "",
    ),
    (b"cores = -9223372036854775809\nblocks = 64", "BadToml", ""),
    (b"cores = 1\nblocks = 64\n# \xff", "BadToml", ""),
    (b"x = 1\ny", "BadToml", ""),
    (b"cores = 1\nblocks = 64\nx = 1", "UnknownKey", "x"),
    (b"zz = 1\nb = 2", "UnknownKey", "b"),
    (b"b = 1\nba = 1\nZ = 1", "UnknownKey", "Z"),
    (b"b = 1\nZ = 1\nba = 1", "UnknownKey", "Z"),
    (b"ba = 1\nb = 1\nZ = 1", "UnknownKey", "Z"),
    (b"ba = 1\nZ = 1\nb = 1", "UnknownKey", "Z"),
    (b"Z = 1\nb = 1\nba = 1", "UnknownKey", "Z"),
    (b"Z = 1\nba = 1\nb = 1", "UnknownKey", "Z"),
    (b"cores = 9\nblocks = 64\nCores = 1", "UnknownKey", "Cores"),
    (b"a.b = 1\ncores = 1\nblocks = 64", "UnknownKey", "a"),
    (b"'a.b' = 1\ncores = 1\nblocks = 64", "UnknownKey", "a.b"),
    (b"\"\" = 1\ncores = 1\nblocks = 64", "UnknownKey", ""),
    (b"cores = 1\nblocks = 64\n[a]\ncores = 9", "UnknownKey", "a"),
    (b"[core]\ns = 1", "UnknownKey", "core"),
    (b"", "MissingKey", "cores"),
    (b"# nothing\n\n# but comments\n", "MissingKey", "cores"),
    (b"fuel = -1", "MissingKey", "cores"),
    (b"blocks = 64", "MissingKey", "cores"),
    (b"cores = 2", "MissingKey", "blocks"),
    (b"cores = 9\nplacement = 1", "MissingKey", "blocks"),
    (b"[cores]\n", "MissingKey", "blocks"),
    (b"cores = \"1\"\nblocks = 64", "NotInteger", "cores"),
    (b"cores = 1.0\nblocks = 64", "NotInteger", "cores"),
    (b"cores.x = 1\nblocks = 64", "NotInteger", "cores"),
    (
        b"blocks = true\ncores = 1\nvaults = 3",
        "NotInteger",
        "blocks",
    ),
    (b"cores = 1\nblocks = nan", "NotInteger", "blocks"),
    (b"cores = 1\nblocks = [64]", "NotInteger", "blocks"),
    (b"cores = 1\nblocks = 64\n[fuel]\n", "NotInteger", "fuel"),
    (b"cores = 9\nblocks = 64\n", "OutOfLimits", "cores"),
    (b"cores = -0\nblocks = 64\n", "OutOfLimits", "cores"),
    (
        b"cores = -9223372036854775808\nblocks = 64\n",
        "OutOfLimits",
        "cores",
    ),
    (
        b"cores = 9223372036854775807\nblocks = 64\n",
        "OutOfLimits",
        "cores",
    ),
    (b"cores = 4294967297\nblocks = 64\n", "OutOfLimits", "cores"),
    (b"'cores' = 1\n\"blocks\" = 15", "OutOfLimits", "blocks"),
    (b"cores = 1\nblocks = 65537", "OutOfLimits", "blocks"),
    (
        b"events = 0\nblocks = 0\ncores = 1",
        "OutOfLimits",
        "blocks",
    ),
    (
        b"cores = 1\nblocks = 64\nl1_sets = 0",
        "OutOfLimits",
        "l1_sets",
    ),
    (
        b"cores = 1\nblocks = 64\nvaults = 17",
        "OutOfLimits",
        "vaults",
    ),
    (
        b"cores = 1\nblocks = 64\ndirectory = 1",
        "OutOfLimits",
        "directory",
    ),
    (
        b"cores = 1\nblocks = 64\nbuffer = 5",
        "OutOfLimits",
        "buffer",
    ),
    (b"cores = 1\nblocks = 64\nbanks = 0", "OutOfLimits", "banks"),
    (
        b"cores = 1\nblocks = 64\nbanks = 16",
        "OutOfLimits",
        "banks",
    ),
    (
        b"cores = 1\nblocks = 64\nbanks = 3\nl1_sets = 2",
        "OutOfLimits",
        "banks",
    ),
    (
        b"cores = 1\nblocks = 64\nbanks = 8\nllc_sets = 4",
        "OutOfLimits",
        "banks",
    ),
    (
        b"cores = 1\nblocks = 64\nbanks = 8\nvaults = 4",
        "OutOfLimits",
        "banks",
    ),
    (
        b"cores = 1\nblocks = 64\nbanks = 8\nvaults = 17",
        "OutOfLimits",
        "vaults",
    ),
    (
        b"cores = 1\nblocks = 64\nfuel = 1000001",
        "OutOfLimits",
        "fuel",
    ),
    (
        b"cores = 1\nblocks = 64\nevents = 63\nplacement = 1",
        "OutOfLimits",
        "events",
    ),
    (
        b"cores = 1\nblocks = 64\nvaults = 3\nqueue = 17",
        "NotPowerOfTwo",
        "vaults",
    ),
    (
        b"cores = 1\nblocks = 64\nllc_sets = 1023",
        "NotPowerOfTwo",
        "llc_sets",
    ),
    (
        b"cores = 1\nblocks = 64\ndirectory = 3",
        "NotPowerOfTwo",
        "directory",
    ),
    (
        b"cores = 1\nblocks = 64\nbanks = 3",
        "NotPowerOfTwo",
        "banks",
    ),
    (
        b"cores = 1\nblocks = 64\nbanks = 3\nl1_sets = 4\nvaults = 4",
        "NotPowerOfTwo",
        "banks",
    ),
    (
        b"cores = 1\nblocks = 64\nplacement = \"Host\"",
        "BadPolicy",
        "",
    ),
    (b"cores = 1\nblocks = 64\nplacement = 1", "BadPolicy", ""),
    (b"cores = 1\nblocks = 64\nplacement = \"\"", "BadPolicy", ""),
    (b"cores = 1\nblocks = 64\n[placement]\n", "BadPolicy", ""),
];

/// The kind of a fault, and the key that it names.
fn told(fault: &MachineFault) -> (&str, &str) {
    match fault {
        MachineFault::BadToml => ("BadToml", ""),
        MachineFault::UnknownKey { key } => ("UnknownKey", key.as_str()),
        MachineFault::MissingKey { key } => ("MissingKey", key.name()),
        MachineFault::NotInteger { key } => ("NotInteger", key.name()),
        MachineFault::OutOfLimits { key } => ("OutOfLimits", key.name()),
        MachineFault::NotPowerOfTwo { key } => ("NotPowerOfTwo", key.name()),
        MachineFault::BadPolicy => ("BadPolicy", ""),
        MachineFault::OutOfMemory => ("OutOfMemory", ""),
    }
}

#[test]
fn each_file_has_its_fault(rt: HostRuntime) -> Result<(), Fail> {
    for (text, kind, key) in FAULTS {
        match read_machine(rt.alloc(), text) {
            Ok(_) => return Err(Fail::from("the file has a fault")),
            Err(fault) => {
                let (its_kind, its_key) = told(&fault);
                assert_eq!(rt; its_kind, kind);
                assert_eq!(rt; its_key, key);
            }
        }
    }
    Ok(())
}

/// The machine that a file describes.
fn described(rt: &HostRuntime, text: &[u8]) -> Result<MachineSpec, Fail> {
    match read_machine(rt.alloc(), text) {
        Ok(spec) => Ok(spec),
        Err(_) => Err(Fail::from("the file describes a machine")),
    }
}

#[test]
fn cores_and_blocks_alone_give_the_defaults(rt: HostRuntime) -> Result<(), Fail> {
    let spec = described(&rt, b"# two\n'cores' = 2\nblocks = 0x80\n")?;
    assert_eq!(rt; (spec.cores, spec.blocks), (2, 128));
    assert_eq!(rt; (spec.l1_sets, spec.l1_ways), (64, 4));
    assert_eq!(rt; (spec.llc_sets, spec.llc_ways), (1024, 16));
    assert_eq!(rt; (spec.vaults, spec.queue), (16, 16));
    assert_eq!(rt; (spec.directory, spec.buffer, spec.banks), (2048, 4, 1));
    assert_eq!(rt; (spec.fuel, spec.events), (100_000, 524_288));
    assert_eq!(rt; spec.placement, Policy3::Monitor);
    Ok(())
}

#[test]
fn banks_are_taken_up_to_their_bounds(rt: HostRuntime) -> Result<(), Fail> {
    let two = described(&rt, b"cores = 1\nblocks = 128\nbanks = 2")?;
    assert_eq!(rt; (two.banks, two.blocks, two.vaults), (2, 128, 16));
    let four = described(
        &rt,
        b"cores = 1\nblocks = 64\nvaults = 4\nbanks = 4\nllc_sets = 4\nl1_sets = 4",
    )?;
    assert_eq!(rt; four.banks, 4);
    Ok(())
}

#[test]
fn each_end_of_the_limits_is_taken(rt: HostRuntime) -> Result<(), Fail> {
    let least = described(
        &rt,
        b"events = 64\nfuel = 1\nbanks = 1\nbuffer = 1\ndirectory = 2\nqueue = 1\nvaults = 1\nllc_ways = 1\nllc_sets = 1\nl1_ways = 1\nl1_sets = 1\nblocks = 16\ncores = 1\nplacement = 'host'",
    )?;
    assert_eq!(rt;
        (least.cores, least.blocks, least.l1_sets, least.l1_ways),
        (1, 16, 1, 1)
    );
    assert_eq!(rt;
        (least.llc_sets, least.llc_ways, least.vaults, least.queue),
        (1, 1, 1, 1)
    );
    assert_eq!(rt;
        (least.directory, least.buffer, least.fuel, least.events),
        (2, 1, 1, 64)
    );
    assert_eq!(rt; least.placement, Policy3::Host);
    let greatest = described(
        &rt,
        b"cores = 8\nblocks = 65_536\nl1_sets = 64\nl1_ways = 8\nllc_sets = 1024\nllc_ways = 16\nvaults = 16\nqueue = 16\ndirectory = 2048\nbuffer = 4\nbanks = 8\nfuel = 1000000\nevents = 1048576\nplacement = \"memory\"",
    )?;
    assert_eq!(rt;
        (greatest.cores, greatest.blocks, greatest.l1_ways),
        (8, 65_536, 8)
    );
    assert_eq!(rt;
        (greatest.banks, greatest.fuel, greatest.events),
        (8, 1_000_000, 1_048_576)
    );
    assert_eq!(rt; greatest.placement, Policy3::Memory);
    Ok(())
}

#[test]
fn built_in_machines_are_small(rt: HostRuntime) -> Result<(), Fail> {
    let spec = built_in(3);
    assert_eq!(rt;
        (spec.cores, spec.blocks, spec.l1_sets, spec.l1_ways),
        (3, 4096, 4, 2)
    );
    assert_eq!(rt;
        (spec.llc_sets, spec.llc_ways, spec.vaults, spec.queue),
        (16, 4, 4, 4)
    );
    assert_eq!(rt; (spec.directory, spec.buffer, spec.banks), (64, 4, 1));
    assert_eq!(rt; (spec.fuel, spec.events), (10_000, 262_144));
    assert_eq!(rt; Key::L1Sets.name(), "l1_sets");
    Ok(())
}
