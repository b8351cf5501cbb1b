//! Facts on the definitions.

ghost use Rattle.workload_gen.specs.Examples.{GenerateRightly};

/// A generated text, and the fewest and the most rounds.
pub fn generated_text_is_right()
    ensures { GenerateRightly }
{}
