//! The statistics of a run.

ghost use Rattle.std.specs.Prelude.{◌≡◌, ◌≤◌, length, map, flat_map, All};
ghost use Rattle.pei_io.specs.Outside.{Writes};
ghost use Rattle.pei_types.specs.Texts.{stat_line};
ghost use Rattle.report.specs.Rows.{rows_of, row_line};

use crate::lines::Line;
use journal::Stats;
use pei_io::laws::writes_join;
use pei_io::{Failed, Sink};

/// A name and a count.
type Row = (&'static [u8], u32);

/// Writes a line for each statistic.
pub(crate) fn write_stats<K: Sink>(stats: &Stats, sink: &mut K) -> Result<(), Failed>
    ensures { Writes (flat_map row_line (rows_of stats.now)) (K.written sink.old) (K.written sink.new) (K.faults sink.old) (K.faults sink.new) result }
{
    write_rows(&rows(stats), sink)
}

/// The statistics in the order of the report.
fn rows(stats: &Stats) -> [Row; 20]
    ensures rows { map (λ r. (r.0.now, r.1)) result ≡ rows_of stats.now }
    ensures short { All (λ r. length r.0.now ≤ 6) result }
{
    [
        (b"events", stats.events),
        (b"loads", stats.loads),
        (b"stores", stats.stores),
        (b"issues", stats.issues),
        (b"host", stats.host),
        (b"memory", stats.memory),
        (b"reads", stats.reads),
        (b"seals", stats.seals),
        (b"acts", stats.acts),
        (b"fences", stats.fences),
        (b"races", stats.races),
        (b"inv", stats.inv),
        (b"down", stats.down),
        (b"evict1", stats.evict1),
        (b"clean", stats.clean),
        (b"evict2", stats.evict2),
        (b"fill", stats.fill),
        (b"grants", stats.grants),
        (b"grante", stats.grante),
        (b"grantm", stats.grantm),
    ]
}

/// Writes a line for each of these rows, whose names are short.
fn write_rows<K: Sink>(rows: &[Row], sink: &mut K) -> Result<(), Failed>
    requires { All (λ r. length r.0.now ≤ 6) rows.now }
    ensures { Writes (flat_map row_line (map (λ r. (r.0.now, r.1)) rows.now)) (K.written sink.old) (K.written sink.new) (K.faults sink.old) (K.faults sink.new) result }
{
    writes_join();
    for row in rows {
        write_stat(row.0, row.1, sink)?;
    }
    Ok(())
}

/// Writes the line of one statistic.
fn write_stat<K: Sink>(name: &[u8], count: u32, sink: &mut K) -> Result<(), Failed>
    requires { length name.now ≤ 6 }
    ensures { Writes (stat_line name.now count) (K.written sink.old) (K.written sink.new) (K.faults sink.old) (K.faults sink.new) result }
{
    let mut line = Line::new();
    line.add(b"stat ");
    line.add(name);
    line.add(b" ");
    line.add_number(count as u64);
    line.add(b"\n");
    line.write(sink)
}
