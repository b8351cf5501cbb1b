//! What a program asks to see of memory.

ghost use Rattle.std.specs.Prelude.{◌≡◌, ◌*◌, ◌%◌, ◌^◌, ◌<◌, [], ◌∷◌, codes, decimal, All, map, flat_map, sum};
ghost use Rattle.pei_io.specs.Outside.{Writes};
ghost use Rattle.pei_types.specs.declared.instructions.Ask.{Ask};
ghost use Rattle.pei_types.specs.FlatMemory.{flat_word};
ghost use Rattle.pei_types.specs.Texts.{line, addresses, ask_lines};
ghost use Rattle.report.specs.Shown.{AreWords, HasWords, word_line};

use crate::lines::Line;
use fabric::Fabric;
use pei_io::laws::writes_join;
use pei_io::{Failed, Sink};
use pei_types::{Ask, Program};

/// Writes the lines of each ask of a program, in order. The condition is that the words of each are aligned and in memory.
pub(crate) fn write_asks<K: Sink>(
    fabric: &Fabric,
    program: &Program,
    sink: &mut K,
) -> Result<(), Failed>
    requires { All (HasWords (64 * fabric.now.machine.blocks)) program.now.asks }
    ensures { Writes (flat_map (ask_lines fabric.now.image fabric.now.journal) program.now.asks) (K.written sink.old) (K.written sink.new) (K.faults sink.old) (K.faults sink.new) result }
{
    write_each_ask(fabric, program.asks(), sink)
}

/// Writes the lines of each of these asks.
fn write_each_ask<K: Sink>(fabric: &Fabric, asks: &[Ask], sink: &mut K) -> Result<(), Failed>
    requires { All (HasWords (64 * fabric.now.machine.blocks)) asks.now }
    ensures { Writes (flat_map (ask_lines fabric.now.image fabric.now.journal) asks.now) (K.written sink.old) (K.written sink.new) (K.faults sink.old) (K.faults sink.new) result }
{
    writes_join();
    for ask in asks {
        write_ask(fabric, *ask, sink)?;
    }
    Ok(())
}

/// Writes the lines of an ask: each word, or their sum.
fn write_ask<K: Sink>(fabric: &Fabric, ask: Ask, sink: &mut K) -> Result<(), Failed>
    requires { HasWords (64 * fabric.now.machine.blocks) ask }
    ensures { Writes (ask_lines fabric.now.image fabric.now.journal ask) (K.written sink.old) (K.written sink.new) (K.faults sink.old) (K.faults sink.new) result }
{
    match ask {
        Ask::Show { addr, count } => write_words(fabric, addr, count, sink),
        Ask::Sum { addr, count } => {
            write_sum(addr, count, sum_of_words(fabric, addr, count), sink)
        }
    }
}

/// Writes a line for each of so many words from an address on.
fn write_words<K: Sink>(fabric: &Fabric, addr: u64, count: u64, sink: &mut K) -> Result<(), Failed>
    requires { AreWords (64 * fabric.now.machine.blocks) addr count }
    ensures { Writes (flat_map (word_line (flat_word fabric.now.image fabric.now.journal)) (addresses addr count)) (K.written sink.old) (K.written sink.new) (K.faults sink.old) (K.faults sink.new) result }
{
    writes_join();
    for i in 0..count {
        let at = addr + 8 * i;
        write_word(at, fabric.peek(at), sink)?;
    }
    Ok(())
}

/// The sum of so many words from an address on, modulo 2^64.
fn sum_of_words(fabric: &Fabric, addr: u64, count: u64) -> u64
    requires { AreWords (64 * fabric.now.machine.blocks) addr count }
    ensures { result ≡ sum (map (flat_word fabric.now.image fabric.now.journal) (addresses addr count)) % 2 ^ 64 }
{
    let mut total = 0u64;
    for i in 0..count {
        total = total.wrapping_add(fabric.peek(addr + 8 * i));
    }
    total
}

/// Writes the line of a word of memory.
fn write_word<K: Sink>(addr: u64, value: u64, sink: &mut K) -> Result<(), Failed>
    ensures { Writes (line (codes "mem" ∷ decimal addr ∷ decimal value ∷ [])) (K.written sink.old) (K.written sink.new) (K.faults sink.old) (K.faults sink.new) result }
{
    let mut line = Line::new();
    line.add(b"mem ");
    line.add_number(addr);
    line.add(b" ");
    line.add_number(value);
    line.add(b"\n");
    line.write(sink)
}

/// Writes the line of a sum.
fn write_sum<K: Sink>(addr: u64, count: u64, total: u64, sink: &mut K) -> Result<(), Failed>
    ensures { Writes (line (codes "sum" ∷ decimal addr ∷ decimal count ∷ decimal total ∷ [])) (K.written sink.old) (K.written sink.new) (K.faults sink.old) (K.faults sink.new) result }
{
    let mut line = Line::new();
    line.add(b"sum ");
    line.add_number(addr);
    line.add(b" ");
    line.add_number(count);
    line.add(b" ");
    line.add_number(total);
    line.add(b"\n");
    line.write(sink)
}
