//! The lines of the cores: what each has put out, and how it ended.

ghost use Rattle.std.specs.Prelude.{◌≡◌, ◌++◌, [], ◌∷◌, codes, decimal, flat_map};
ghost use Rattle.pei_io.specs.Outside.{Writes};
ghost use Rattle.pei_types.specs.MachineState.{cores_of};
ghost use Rattle.pei_types.specs.Ends.{ends_of};
ghost use Rattle.pei_types.specs.Texts.{line, how_ended, core_lines};
ghost use Rattle.report.specs.Shown.{output_lines_of};

use crate::ends::add_end;
use crate::lines::Line;
use journal::Journal;
use pei_io::laws::writes_join;
use pei_io::{Failed, Sink};
use pei_types::{CoreId, EndKind, Event, EventKind, MachineSpec};

/// Writes the lines of each core of the machine, in order.
pub(crate) fn write_cores<K: Sink>(
    journal: &Journal,
    spec: &MachineSpec,
    ends: &[Option<EndKind>; 8],
    sink: &mut K,
) -> Result<(), Failed>
    requires { ends.now ≡ ends_of journal.now.events }
    ensures { Writes (flat_map (core_lines journal.now.events) (cores_of spec.now)) (K.written sink.old) (K.written sink.new) (K.faults sink.old) (K.faults sink.new) result }
{
    writes_join();
    for core in 0..spec.cores {
        write_core(journal, CoreId(core), &ends[core as usize], sink)?;
    }
    Ok(())
}

/// Writes the lines of a core: its outputs, and how it ended.
fn write_core<K: Sink>(
    journal: &Journal,
    core: CoreId,
    end: &Option<EndKind>,
    sink: &mut K,
) -> Result<(), Failed>
    ensures { Writes (output_lines_of core journal.now.events ++ line (codes "core" ∷ decimal core.0 ∷ how_ended end.now)) (K.written sink.old) (K.written sink.new) (K.faults sink.old) (K.faults sink.new) result }
{
    writes_join();
    write_outputs(journal, core, sink)?;
    write_end(core, end, sink)
}

/// Writes a line for each output of a core, in order.
fn write_outputs<K: Sink>(journal: &Journal, core: CoreId, sink: &mut K) -> Result<(), Failed>
    ensures { Writes (output_lines_of core journal.now.events) (K.written sink.old) (K.written sink.new) (K.faults sink.old) (K.faults sink.new) result }
{
    writes_join();
    for i in 0..journal.len() {
        write_output_in(core, &journal.get(i), sink)?;
    }
    Ok(())
}

/// Writes the line of an event, if it is an output of this core.
fn write_output_in<K: Sink>(core: CoreId, event: &Event, sink: &mut K) -> Result<(), Failed>
    ensures { Writes (output_lines_of core (event.now ∷ [])) (K.written sink.old) (K.written sink.new) (K.faults sink.old) (K.faults sink.new) result }
{
    writes_join();
    if event.actor.core == core {
        if let EventKind::Out { value } = event.kind {
            return write_output(core, value, sink);
        }
    }
    Ok(())
}

/// Writes the line of an output.
fn write_output<K: Sink>(core: CoreId, value: u64, sink: &mut K) -> Result<(), Failed>
    ensures { Writes (line (codes "out" ∷ decimal core.0 ∷ decimal value ∷ [])) (K.written sink.old) (K.written sink.new) (K.faults sink.old) (K.faults sink.new) result }
{
    let mut line = Line::new();
    line.add(b"out ");
    line.add_number(core.0 as u64);
    line.add(b" ");
    line.add_number(value);
    line.add(b"\n");
    line.write(sink)
}

/// Writes the line of how a core ended.
fn write_end<K: Sink>(core: CoreId, end: &Option<EndKind>, sink: &mut K) -> Result<(), Failed>
    ensures { Writes (line (codes "core" ∷ decimal core.0 ∷ how_ended end.now)) (K.written sink.old) (K.written sink.new) (K.faults sink.old) (K.faults sink.new) result }
{
    let mut line = Line::new();
    line.add(b"core ");
    line.add_number(core.0 as u64);
    line.add(b" ");
    add_end(&mut line, end);
    line.add(b"\n");
    line.write(sink)
}
