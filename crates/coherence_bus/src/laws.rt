//! A law of the bus, the contract of a function with an empty body, but for the law that it rests on.

ghost use Rattle.coherence_bus.specs.Wants.{WantsAreAllowed};

use coherence_laws::laws::rows_are_allowed;

/// The message that the table of steps asks for, on the way of a block of memory to a core whose letter does not suffice,
/// meets the conditions of `Bus::message`, where no PEI is sealed on the block.
pub fn wants_are_allowed()
    ensures { WantsAreAllowed }
{
    rows_are_allowed();
}
