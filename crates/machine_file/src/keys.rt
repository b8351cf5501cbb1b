//! The keys of a machine file, with the one table of their limits and defaults.

ghost use Rattle.std.specs.Prelude.{◌≡◌, Some, true, false};
ghost use Rattle.machine_file.specs.Keys.{row_of};

/// A key of a machine file.
#[derive(Clone, Copy, PartialEq, Eq, Debug)]
pub enum Key {
    /// How many cores.
    Cores,
    /// How many blocks of 64 bytes memory has.
    Blocks,
    /// Sets of a private cache.
    L1Sets,
    /// Lines in a set of a private cache.
    L1Ways,
    /// Sets of the last-level cache.
    LlcSets,
    /// Lines in a set of the last-level cache.
    LlcWays,
    /// Vaults of memory.
    Vaults,
    /// PEIs that a vault's queue holds.
    Queue,
    /// Entries of the PIM directory.
    Directory,
    /// Entries of a core's operand buffer.
    Buffer,
    /// Banks that the blocks may be split over.
    Banks,
    /// Instructions that a core retires at most.
    Fuel,
    /// Events that a journal has room for.
    Events,
    /// How PEIs are placed.
    Placement,
}

/// The keys for numbers, in the order in which they are tested.
pub(crate) const NUMBER_KEYS: [Key; 13] = [
    Key::Cores,
    Key::Blocks,
    Key::L1Sets,
    Key::L1Ways,
    Key::LlcSets,
    Key::LlcWays,
    Key::Vaults,
    Key::Queue,
    Key::Directory,
    Key::Buffer,
    Key::Banks,
    Key::Fuel,
    Key::Events,
];

/// A row of the table: the name of a key in a file, the least and the greatest number that it takes, the number that
/// stands where a file does not name it (none for a key that a file has to name), and whether it takes powers of two
/// alone. That other keys' numbers bound `banks` too is seen to where a file is read.
#[derive(Clone, Copy)]
pub(crate) struct KeyRow {
    pub name: &'static str,
    pub least: u32,
    pub greatest: u32,
    pub default: Option<u32>,
    pub power_of_two: bool,
}

/// A row for a number of any kind.
fn any_number(name: &'static str, least: u32, greatest: u32, default: Option<u32>) -> KeyRow
    ensures name { result.name.now ≡ name.now }
    ensures least { result.least ≡ least }
    ensures greatest { result.greatest ≡ greatest }
    ensures default { result.default ≡ default }
    ensures power_of_two { result.power_of_two ≡ false }
{
    KeyRow {
        name,
        least,
        greatest,
        default,
        power_of_two: false,
    }
}

/// A row for a power of two.
fn power(name: &'static str, least: u32, greatest: u32, default: u32) -> KeyRow
    ensures name { result.name.now ≡ name.now }
    ensures least { result.least ≡ least }
    ensures greatest { result.greatest ≡ greatest }
    ensures default { result.default ≡ Some default }
    ensures power_of_two { result.power_of_two ≡ true }
{
    KeyRow {
        name,
        least,
        greatest,
        default: Some(default),
        power_of_two: true,
    }
}

impl Key {
    /// The row of the table. The placement is no number, so its row has its name alone.
    pub(crate) fn row(self) -> KeyRow
        ensures name { result.name.now ≡ (row_of self).name }
        ensures least { result.least ≡ (row_of self).least }
        ensures greatest { result.greatest ≡ (row_of self).greatest }
        ensures default { result.default ≡ (row_of self).default }
        ensures power_of_two { result.power_of_two ≡ (row_of self).power_of_two }
    {
        match self {
            Key::Cores => any_number("cores", 1, 8, None),
            Key::Blocks => any_number("blocks", 16, 65_536, None),
            Key::L1Sets => power("l1_sets", 1, 64, 64),
            Key::L1Ways => any_number("l1_ways", 1, 8, Some(4)),
            Key::LlcSets => power("llc_sets", 1, 1024, 1024),
            Key::LlcWays => any_number("llc_ways", 1, 16, Some(16)),
            Key::Vaults => power("vaults", 1, 16, 16),
            Key::Queue => any_number("queue", 1, 16, Some(16)),
            Key::Directory => power("directory", 2, 2048, 2048),
            Key::Buffer => any_number("buffer", 1, 4, Some(4)),
            Key::Banks => power("banks", 1, 8, 1),
            Key::Fuel => any_number("fuel", 1, 1_000_000, Some(100_000)),
            Key::Events => any_number("events", 64, 1_048_576, Some(524_288)),
            Key::Placement => any_number("placement", 0, 0, None),
        }
    }

    /// The name of the key in a file.
    pub fn name(self) -> &'static str
        ensures { result.now ≡ (row_of self).name }
    {
        self.row().name
    }
}
