//! The whole report.

ghost use Rattle.std.specs.Prelude.{◌≡◌, ◌*◌, [], ◌∷◌, All, codes, decimal, flat_map};
ghost use Rattle.pei_io.specs.Outside.{Writes};
ghost use Rattle.pei_types.specs.Ends.{ends_of, status_of};
ghost use Rattle.pei_types.specs.Texts.{line, ask_lines, report_text};
ghost use Rattle.report.specs.Shown.{HasWords, asked_stats, report_with};

use crate::asks::write_asks;
use crate::cores::write_cores;
use crate::lines::Line;
use crate::statistics::write_stats;
use fabric::Fabric;
use journal::Journal;
use pei_io::laws::writes_join;
use pei_io::{Failed, Sink};
use pei_types::{EndKind, MachineSpec, Program};

/// Writes the report of a run, one line a piece, without memory: for each core its outputs and how it ended, the words or
/// sums that the program asks for, the statistics if it asks for them, and the status. Sums are modulo 2^64.
///
/// The conditions are that the words of each ask are aligned and in memory, and that `cores` and `status` are those of the
/// machine's journal. The only error is a fault of the sink, after a front of the report was written.
pub fn write_report<K: Sink>(
    program: &Program,
    spec: &MachineSpec,
    fabric: &Fabric,
    cores: &[Option<EndKind>; 8],
    status: u8,
    sink: &mut K,
) -> Result<(), Failed>
    requires asks { All (HasWords (64 * fabric.now.machine.blocks)) program.now.asks }
    requires cores { cores.now ≡ ends_of fabric.now.journal }
    requires status { status ≡ status_of spec.now fabric.now.journal }
    ensures { Writes (report_text program.now spec.now fabric.now.image fabric.now.journal) (K.written sink.old) (K.written sink.new) (K.faults sink.old) (K.faults sink.new) result }
{
    write_parts(program, spec, fabric, fabric.journal(), cores, status, sink)
}

/// Writes the parts of the report, one behind another.
fn write_parts<K: Sink>(
    program: &Program,
    spec: &MachineSpec,
    fabric: &Fabric,
    journal: &Journal,
    cores: &[Option<EndKind>; 8],
    status: u8,
    sink: &mut K,
) -> Result<(), Failed>
    requires asks { All (HasWords (64 * fabric.now.machine.blocks)) program.now.asks }
    requires cores { cores.now ≡ ends_of journal.now.events }
    requires status { status ≡ status_of spec.now journal.now.events }
    ensures { Writes (report_with (flat_map (ask_lines fabric.now.image fabric.now.journal) program.now.asks) program.now spec.now journal.now.events) (K.written sink.old) (K.written sink.new) (K.faults sink.old) (K.faults sink.new) result }
{
    writes_join();
    write_cores(journal, spec, cores, sink)?;
    write_asks(fabric, program, sink)?;
    write_asked_stats(program, journal, sink)?;
    write_status(status, sink)
}

/// Writes the statistics, if the program asks for them.
fn write_asked_stats<K: Sink>(
    program: &Program,
    journal: &Journal,
    sink: &mut K,
) -> Result<(), Failed>
    ensures { Writes (asked_stats program.now journal.now.events) (K.written sink.old) (K.written sink.new) (K.faults sink.old) (K.faults sink.new) result }
{
    writes_join();
    if program.stats() {
        write_stats(&journal.counts(), sink)
    } else {
        Ok(())
    }
}

/// Writes the line of the status.
fn write_status<K: Sink>(status: u8, sink: &mut K) -> Result<(), Failed>
    ensures { Writes (line (codes "status" ∷ decimal status ∷ [])) (K.written sink.old) (K.written sink.new) (K.faults sink.old) (K.faults sink.new) result }
{
    let mut line = Line::new();
    line.add(b"status ");
    line.add_number(status as u64);
    line.add(b"\n");
    line.write(sink)
}
