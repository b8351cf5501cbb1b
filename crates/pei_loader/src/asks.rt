//! The asks of a program: what its report shows has to be in memory.

ghost use Rattle.std.specs.Prelude.{◌≡◌, None, OnOk, IfErr};
ghost use Rattle.pei_types.specs.Image.{ask_refusal, asks_refusal, range_refusal};
ghost use Rattle.pei_loader.specs.Faults.{IsFaultOf};

use crate::faults::LoadFault;
use pei_types::{Ask, MachineSpec, Program};

/// The first ask that memory does not hold is refused.
pub(crate) fn check_asks(spec: &MachineSpec, program: &Program) -> Result<(), LoadFault>
    ensures ok { OnOk result (asks_refusal spec.now.blocks program.now.asks ≡ None) }
    ensures refused { IfErr result (λ f. IsFaultOf f (asks_refusal spec.now.blocks program.now.asks)) }
{
    for ask in program.asks() {
        check_ask(spec, *ask)?;
    }
    Ok(())
}

/// An ask is refused where its address is no word's, or where it has a word past memory.
fn check_ask(spec: &MachineSpec, ask: Ask) -> Result<(), LoadFault>
    ensures ok { OnOk result (ask_refusal spec.now.blocks ask ≡ None) }
    ensures refused { IfErr result (λ f. IsFaultOf f (ask_refusal spec.now.blocks ask)) }
{
    match ask {
        Ask::Show { addr, count } => check_range(spec, addr, count),
        Ask::Sum { addr, count } => check_range(spec, addr, count),
    }
}

/// So many words from an address in bytes on.
fn check_range(spec: &MachineSpec, addr: u64, count: u64) -> Result<(), LoadFault>
    ensures ok { OnOk result (range_refusal spec.now.blocks addr count ≡ None) }
    ensures refused { IfErr result (λ f. IsFaultOf f (range_refusal spec.now.blocks addr count)) }
{
    let end = 64 * u64::from(spec.blocks);
    if addr % 8 != 0 {
        return Err(LoadFault::ShowOutOfRange { addr });
    }
    if count > 0 && (addr > end || count > (end - addr) / 8) {
        return Err(LoadFault::ShowOutOfRange { addr });
    }
    Ok(())
}
