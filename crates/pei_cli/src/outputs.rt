//! What is written of a run.

ghost use Rattle.std.specs.Prelude.{◌≡◌, ◌*◌, All};
ghost use Rattle.pei_io.specs.Outside.{Writes};
ghost use Rattle.pei_types.specs.Ends.{ends_of, status_of};
ghost use Rattle.report.specs.Shown.{HasWords};
ghost use Rattle.pei_cli.specs.Words.{output_as};
ghost use Rattle.pei_cli.specs.Outcomes.{output_text};

use crate::words::Output;
use fabric::Fabric;
use pei_io::{Failed, Sink};
use pei_types::{EndKind, MachineSpec, Program};
use report::write_report;

/// Writes the report of a run, or the trace of its journal.
pub(crate) fn write_output<K: Sink>(
    program: &Program,
    machine: &MachineSpec,
    fabric: &Fabric,
    cores: &[Option<EndKind>; 8],
    status: u8,
    output: Output,
    sink: &mut K,
) -> Result<(), Failed>
    requires asks { All (HasWords (64 * fabric.now.machine.blocks)) program.now.asks }
    requires cores { cores.now ≡ ends_of fabric.now.journal }
    requires status { status ≡ status_of machine.now fabric.now.journal }
    ensures { Writes (output_text (output_as output) program.now machine.now fabric.now.image fabric.now.journal) (K.written sink.old) (K.written sink.new) (K.faults sink.old) (K.faults sink.new) result }
{
    match output {
        Output::Report => write_report(program, machine, fabric, cores, status, sink),
        Output::Trace => fabric.journal().write_trace(sink),
    }
}
