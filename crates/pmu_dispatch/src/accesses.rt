//! Loads and stores.

ghost use Rattle.std.specs.Prelude.{◌≡◌, ◌<◌};
ghost use Rattle.pmu_dispatch.specs.Steps.{IsAccessRow};
ghost use Rattle.pmu_dispatch.specs.Shown.{suffices as suffices_lem};

use crate::looks::{WantLooks, is_owned};
use crate::wanting::want_next;
use pei_types::{EventKind, Letter, PeiId};

/// What a load or a store comes to.
#[derive(Clone, Copy, PartialEq, Eq, Debug)]
pub enum AccessNext {
    /// The access races with this PEI and is not made.
    Race { by: PeiId },
    /// The own letter lets the core make the access.
    Hit,
    /// This coherence message comes before the access.
    Message(EventKind),
}

/// What a load (`store` is false) or a store (`store` is true) of the own core comes to.
///
/// `conflict` is the first PEI on its way with which the access races, if there is one. The core is 0 to 7.
pub fn access_next(looks: &WantLooks, conflict: Option<PeiId>, store: bool) -> AccessNext
    requires { looks.now.own.0 < 8 }
    ensures { IsAccessRow store looks.now conflict result }
{
    if let Some(by) = conflict {
        return AccessNext::Race { by };
    }
    if suffices(looks.own_letter(), store) {
        AccessNext::Hit
    } else {
        AccessNext::Message(want_next(looks, store))
    }
}

/// Whether a letter lets its core read its copy, or with `modify` write it.
pub(crate) fn suffices(letter: Letter, modify: bool) -> bool
    ensures { result ≡ suffices_lem modify letter }
{
    if modify {
        is_owned(letter)
    } else {
        letter != Letter::I
    }
}
