//! The status of a run.

ghost use Rattle.std.specs.Prelude.{◌≡◌, take};
ghost use Rattle.std.specs.List.{list_all};
ghost use Rattle.pei_types.specs.Ends.{ends_of, status_of, is_halt};
ghost use Rattle.std.specs.Prelude.{is_some};

use journal::Journal;
use pei_types::{EndKind, MachineSpec};

/// The status of a run, by how its cores ended.
pub(crate) fn run_status(spec: &MachineSpec, journal: &Journal, ends: &[Option<EndKind>; 8]) -> u8
    requires { ends.now ≡ ends_of journal.now.events }
    ensures { result ≡ status_of spec.now journal.now.events }
{
    let ends = &ends[..spec.cores as usize];
    if all_ended(ends) {
        if all_halted(ends) { 0 } else { 5 }
    } else if journal.len() == spec.events {
        6
    } else {
        7
    }
}

/// Whether each of these cores has ended.
fn all_ended(ends: &[Option<EndKind>]) -> bool
    ensures { result ≡ list_all is_some ends.now }
{
    ends.iter().all(|end| end.is_some())
}

/// Whether each of these cores has halted.
fn all_halted(ends: &[Option<EndKind>]) -> bool
    ensures { result ≡ list_all is_halt ends.now }
{
    ends.iter().all(|end| *end == Some(EndKind::Halt))
}
