//! The text of a generated program.

ghost use Rattle.std.specs.Prelude.{◌≡◌, ◌++◌, decimal, codes};
ghost use Rattle.pei_io.specs.Outside.{Writes};
ghost use Rattle.workload_gen.specs.Generated.{generated, rounds};

use itoa::Buffer;
use pei_io::laws::writes_join;
use pei_io::{Failed, Sink, write_all};

/// The lines before the seed's: all cores enter at `start`, and the sum is that of 4,096 words.
const HEAD: &[u8] = b".entry *, start\n.sum 65536, 4096\n";

/// The lines between the seed's and the rounds': each core has a seed of its own.
const CONSTANTS: &[u8] =
    b"add r1, r1, r15\nli r2, 6364136223846793005\nli r3, 1442695040888963407\n";

/// The lines behind the rounds': what a core does in each round, and the end.
const ROUND: &[u8] = b"loop: mul r1, r1, r2\nadd r1, r1, r3\nshr r5, r1, 30\nandi r6, r5, 32760\n\
pinc r6, 65536\nandi r7, r5, 32704\nphist r8, r7, 65536, r0\naddi r4, r4, -1\nbne r4, r0, loop\n\
pfence\nhalt\n";

/// How often each core goes round.
fn rounds(n: u64) -> u64
    ensures { result ≡ rounds n }
{
    64 * (n % 16 + 1)
}

/// Writes a number in decimal.
fn write_number<K: Sink>(number: u64, sink: &mut K) -> Result<(), Failed>
    ensures { Writes (decimal number) (K.written sink.old) (K.written sink.new) (K.faults sink.old) (K.faults sink.new) result }
{
    write_all(sink, Buffer::new().format(number).as_bytes())
}

/// Writes a line that ends with a number.
fn write_setting<K: Sink>(before: &[u8], number: u64, sink: &mut K) -> Result<(), Failed>
    ensures { Writes (before.now ++ decimal number ++ codes "\n") (K.written sink.old) (K.written sink.new) (K.faults sink.old) (K.faults sink.new) result }
{
    writes_join();
    write_all(sink, before)?;
    write_number(number, sink)?;
    write_all(sink, b"\n")
}

/// Writes the program of number n, line by line, without memory.
///
/// All of the text is written, or a front of it where the sink failed, which is the only error.
pub fn generate<K: Sink>(n: u64, sink: &mut K) -> Result<(), Failed>
    ensures { Writes (generated n) (K.written sink.old) (K.written sink.new) (K.faults sink.old) (K.faults sink.new) result }
{
    writes_join();
    write_all(sink, HEAD)?;
    write_setting(b"start: li r1, ", n, sink)?;
    write_all(sink, CONSTANTS)?;
    write_setting(b"li r4, ", rounds(n), sink)?;
    write_all(sink, ROUND)
}

#[cfg(test)]
mod tests;
