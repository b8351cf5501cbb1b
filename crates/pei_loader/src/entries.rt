//! The entries of an image.

ghost use Rattle.std.specs.Prelude.{◌≡◌, None, OnOk, IfErr, length};
ghost use Rattle.pei_types.specs.Image.{entry_refusal};
ghost use Rattle.pei_loader.specs.Faults.{IsFaultOf};
ghost use Rattle.pei_loader.specs.Entries.{Enters};

use crate::faults::LoadFault;
use pei_types::{CoreId, Image, MachineSpec, Program};

/// Gives each core of the machine its entry; the lowest core without one is refused.
pub(crate) fn set_entries(
    image: &mut Image,
    spec: &MachineSpec,
    program: &Program,
) -> Result<(), LoadFault>
    requires { length image.old.entries ≡ 8 }
    ensures ok { OnOk result (Enters program.now spec.now.cores image.old.words image.new) }
    ensures entered { OnOk result (entry_refusal program.now spec.now ≡ None) }
    ensures refused { IfErr result (λ f. IsFaultOf f (entry_refusal program.now spec.now)) }
{
    for core in 0..spec.cores {
        let Some(entry) = program.entry(CoreId(core)) else {
            return Err(LoadFault::NoEntry { core });
        };
        image.set_entry(CoreId(core), entry);
    }
    Ok(())
}
