//! Reading machine files.

ghost use Rattle.std.specs.Prelude.{◌≡◌, ◌≤◌, nat_le, None, Some, IfSome, IfOk, IfErr, IsTrue, pos, option_map, is_some, map, find, true, false};
ghost use Rattle.std.specs.List.{list_all, list_any, AllByRecursion};
ghost use Rattle.std.specs.Option.{option_or};
ghost use Rattle.std.specs.Str.{bytes_eq};
ghost use Rattle.toml.specs.Data.{get_member};
ghost use Rattle.toml.specs.View.{table_view, view};
ghost use Rattle.machine_file.specs.Faults.{refusal_of};
ghost use Rattle.machine_file.specs.Keys.{row_of, number_keys, placement_name};
ghost use Rattle.machine_file.specs.Machine as spec;
ghost use Rattle.pei_types.specs.Limits.{IsWithin, IsPowerOfTwo};

use crate::faults::MachineFault;
use crate::keys::{Key, NUMBER_KEYS};
use pei_io::Text;
use pei_types::{MachineSpec, Policy3};
use std::alloc::Global;
use toml::{Table, Value};

/// Reads a machine file: a TOML document whose top table names the sizes of a machine.
///
/// A key that the file does not name has its default; `cores` and `blocks` have none. The answer is the machine or the
/// file's first fault: the text, an unknown key, a missing key, then key by key no integer, out of the limits or no
/// power of two, then the placement.
#[tactic(auto, using(crate::proofs::Firsts::all_known))]
pub fn read_machine(alloc: Global, bytes: &[u8]) -> Result<MachineSpec, MachineFault>
    ensures ok { IfOk result (λ m. spec.DescribesOf (spec.table_of bytes.now) m) }
    ensures fault { IfErr result (λ f. IfSome (refusal_of f) (λ r. spec.file_fault bytes.now ≡ Some r)) }
{
    let table = read_table(alloc, bytes)?;
    if let Some(name) = first_unknown(&table) {
        return Err(unknown_key(alloc, name));
    }
    if let Some(key) = first_missing(&NUMBER_KEYS, &table) {
        return Err(MachineFault::MissingKey { key });
    }
    machine_of(&table)
}

/// The table that the bytes are.
fn read_table(alloc: Global, bytes: &[u8]) -> Result<Table, MachineFault>
    ensures ok { IfOk result (λ t. spec.table_of bytes.now ≡ Some (table_view t)) }
    ensures fault { IfErr result (λ f. IfSome (refusal_of f) (λ r. (r ≡ spec.BadToml) × (spec.table_of bytes.now ≡ None))) }
{
    match toml::table_from_slice(alloc, bytes) {
        Ok(table) => Ok(table),
        Err(error) if error.is_memory() => Err(MachineFault::OutOfMemory),
        Err(_) => Err(MachineFault::BadToml),
    }
}

/// The fault of an unknown key.
fn unknown_key(alloc: Global, name: &str) -> MachineFault
    ensures { IfSome (refusal_of result) (λ r. r ≡ spec.UnknownKey name.now) }
{
    match Text::make(alloc, name) {
        Ok(key) => MachineFault::UnknownKey { key },
        Err(_) => MachineFault::OutOfMemory,
    }
}

/// Whether one of these keys has this name.
fn any_named(keys: &[Key], name: &str) -> bool
    ensures { result ≡ list_any (λ r. bytes_eq r.name name.now) (map row_of keys.now) }
{
    for key in keys {
        if key.name() == name {
            return true;
        }
    }
    false
}

/// Whether a machine file may have a key of this name.
fn is_known(name: &str) -> bool
    ensures { result ≡ spec.is_known_key name.now }
{
    name == Key::Placement.name() || any_named(&NUMBER_KEYS, name)
}

/// The first key of the table, in the order of bytes, that is no key of a machine file.
fn first_unknown(table: &Table) -> Option<&str>
    ensures { option_map (λ k. spec.UnknownKey k.now) result ≡ spec.unknown_key (table_view table.now) }
{
    for (key, _value) in table.iter() {
        if !is_known(key.as_str()) {
            return Some(key.as_str());
        }
    }
    None
}

/// What the table has at a key.
fn value_at<'a>(table: &'a Table, key: Key) -> Option<&'a Value>
    ensures { option_map (λ v. view v.now) result ≡ get_member (row_of key).name (table_view table.now) }
{
    table.get(key.name())
}

/// The first of these keys that the file has to name and does not.
fn first_missing(keys: &[Key], table: &Table) -> Option<Key>
    ensures { option_map row_of result ≡ find (spec.is_missing (table_view table.now)) (map row_of keys.now) }
{
    for key in keys {
        if key.row().default.is_none() && value_at(table, *key).is_none() {
            return Some(*key);
        }
    }
    None
}

/// Whether a number is a power of two.
#[tactic(auto, using(crate::proofs::PowerTests::power_test, crate::proofs::PowerTests::zero_is_no_power))]
fn is_power(number: u32) -> bool
    ensures { result ≡ spec.is_power_of_two number }
{
    number > 0 && 2u32.pow(number.ilog2()) == number
}

/// Whether a number is above none of these.
fn is_at_most(number: u32, bounds: &[u32]) -> bool
    ensures { result ≡ list_all (λ bound. nat_le number bound) bounds.now }
{
    bounds.iter().all(|bound| number <= *bound)
}

/// Whether a number is within the limits of a key, and above none of the bounds.
fn is_within(key: Key, bounds: &[u32], number: u32) -> bool
    ensures { result ≡ spec.is_within (row_of key) bounds.now number }
{
    let row = key.row();
    row.least <= number && number <= row.greatest && is_at_most(number, bounds)
}

/// The number for a key that is this integer, if it is one. The bounds are the numbers of the keys that bound it.
#[tactic(auto, using(crate::proofs::Firsts::limits_kept, crate::proofs::Firsts::bounds_kept))]
fn sized(key: Key, bounds: &[u32], integer: Option<i64>) -> Result<u32, MachineFault>
    ensures ok { IfOk result (λ n. integer ≡ Some (pos n)) }
    ensures within { IfOk result (λ n. IsWithin (row_of key).least (row_of key).greatest n) }
    ensures bounded { IfOk result (λ n. AllByRecursion (λ bound. n ≤ bound) bounds.now) }
    ensures power { IfOk result (λ n. IsTrue (row_of key).power_of_two → IsPowerOfTwo n) }
    ensures fine { IfOk result (λ n. spec.number_fault (row_of key) bounds.now integer ≡ None) }
    ensures told { IfErr result (λ f. is_some (refusal_of f) ≡ true) }
    ensures fault { IfErr result (λ f. spec.number_fault (row_of key) bounds.now integer ≡ refusal_of f) }
{
    let Some(integer) = integer else {
        return Err(MachineFault::NotInteger { key });
    };
    match u32::try_from(integer) {
        Ok(number) if is_within(key, bounds, number) => {
            if key.row().power_of_two && !is_power(number) {
                Err(MachineFault::NotPowerOfTwo { key })
            } else {
                Ok(number)
            }
        }
        _ => Err(MachineFault::OutOfLimits { key }),
    }
}

/// The number that the table gives for a key, or else its default, which is above none of the bounds.
fn number(table: &Table, key: Key, bounds: &[u32]) -> Result<u32, MachineFault>
    requires found { spec.is_missing (table_view table.now) (row_of key) ≡ false }
    requires by_default { IfSome (row_of key).default (λ n. AllByRecursion (λ bound. n ≤ bound) bounds.now) }
    ensures ok { IfOk result (λ n. spec.number_at (row_of key) (get_member (row_of key).name (table_view table.now)) ≡ Some n) }
    ensures within { IfOk result (λ n. IsWithin (row_of key).least (row_of key).greatest n) }
    ensures bounded { IfOk result (λ n. AllByRecursion (λ bound. n ≤ bound) bounds.now) }
    ensures power { IfOk result (λ n. IsTrue (row_of key).power_of_two → IsPowerOfTwo n) }
    ensures fine { IfOk result (λ n. spec.value_fault (row_of key) bounds.now (get_member (row_of key).name (table_view table.now)) ≡ None) }
    ensures told { IfErr result (λ f. is_some (refusal_of f) ≡ true) }
    ensures fault { IfErr result (λ f. spec.value_fault (row_of key) bounds.now (get_member (row_of key).name (table_view table.now)) ≡ refusal_of f) }
{
    match value_at(table, key) {
        Some(value) => sized(key, bounds, value.as_integer()),
        None => match key.row().default {
            Some(default) => Ok(default),
            None => Err(MachineFault::MissingKey { key }),
        },
    }
}

/// The policy of this name.
fn policy_named(name: &str) -> Option<Policy3>
    ensures { result ≡ spec.policy_named name.now }
{
    match name {
        "monitor" => Some(Policy3::Monitor),
        "host" => Some(Policy3::Host),
        "memory" => Some(Policy3::Memory),
        _ => None,
    }
}

/// The policy that the table gives, or else the monitor's.
fn placement(table: &Table) -> Option<Policy3>
    ensures { result ≡ spec.policy_of (get_member placement_name (table_view table.now)) }
{
    match value_at(table, Key::Placement) {
        Some(value) => policy_named(value.as_str()?),
        None => Some(Policy3::Monitor),
    }
}

/// The machine of a table that has all keys that it has to have.
#[tactic(auto, using(crate::proofs::Firsts::found_first))]
fn machine_of(table: &Table) -> Result<MachineSpec, MachineFault>
    requires { find (spec.is_missing (table_view table.now)) number_keys ≡ None }
    ensures ok { IfOk result (λ m. spec.HasNumbers (table_view table.now) m) }
    ensures placement { IfOk result (λ m. spec.policy_of (get_member placement_name (table_view table.now)) ≡ Some m.placement) }
    ensures fault { IfErr result (λ f. option_or (spec.first_value_fault (table_view table.now) number_keys) (spec.policy_fault (spec.policy_of (get_member placement_name (table_view table.now)))) ≡ refusal_of f) }
{
    let cores = number(table, Key::Cores, &[])?;
    let blocks = number(table, Key::Blocks, &[])?;
    let l1_sets = number(table, Key::L1Sets, &[])?;
    let l1_ways = number(table, Key::L1Ways, &[])?;
    let llc_sets = number(table, Key::LlcSets, &[])?;
    let llc_ways = number(table, Key::LlcWays, &[])?;
    let vaults = number(table, Key::Vaults, &[])?;
    let queue = number(table, Key::Queue, &[])?;
    let directory = number(table, Key::Directory, &[])?;
    let buffer = number(table, Key::Buffer, &[])?;
    let banks = number(table, Key::Banks, &[l1_sets, llc_sets, vaults])?;
    let fuel = number(table, Key::Fuel, &[])?;
    let events = number(table, Key::Events, &[])?;
    let placement = placement(table).ok_or(MachineFault::BadPolicy)?;
    Ok(MachineSpec {
        cores: cores as u8,
        blocks,
        l1_sets,
        l1_ways,
        llc_sets,
        llc_ways,
        vaults,
        queue,
        directory,
        buffer: buffer as u8,
        banks,
        fuel,
        events,
        placement,
    })
}
