// Texts that a sink takes.
ghost use Rattle.std.specs.Prelude.{◌≡◌};
ghost use Rattle.run_report.specs.Failures.{HasEnds};
ghost use Rattle.run_report.specs.Writing.{Writes, WritesLines, WritesSummary};

use crate::failures::ends_of;
use crate::lines::line_of;
use dl_kinds::{IoErr, Sink};
use machine_core::{End, Machine};
use std::alloc::Global;
use std::collections::BTreeMap;

/// What stands above the lines of the downloads.
const HEADING: &[u8] = b"gid|stat|completed|total|code|path\n";

/// The sink takes a text, unless it fails or memory is wanting.
pub(crate) fn put<O: Sink>(out: &mut O, text: &[u8]) -> Result<(), IoErr>
    ensures { Writes O.Sink text.now out.old out.new result }
{
    out.write(text)
}

// Writes the lines of the downloads, one by one. After an Err nothing more is written.
fn write_lines<O: Sink>(
    alloc: Global,
    machine: &Machine,
    ends: &BTreeMap<u64, End>,
    out: &mut O,
) -> Result<(), IoErr>
    requires { HasEnds ends.now machine.now.past }
    ensures { WritesLines O.Sink machine.now.start machine.now.past out.old out.new result }
{
    for n in 0..u32::MAX {
        let Some((gid, _)) = machine.added(n) else {
            return Ok(());
        };
        let line = line_of(alloc, machine, ends, gid)?;
        put(out, &line)?;
    }
    // Fewer downloads than this can be added.
    Err(IoErr::NoMemory)
}

/// Writes the summary. After an Err nothing more is written.
pub(crate) fn write_summary<O: Sink>(
    alloc: Global,
    machine: &Machine,
    out: &mut O,
) -> Result<(), IoErr>
    ensures { WritesSummary O.Sink machine.now.start machine.now.past out.old out.new result }
{
    let ends = ends_of(alloc, machine.journal())?;
    put(out, HEADING)?;
    write_lines(alloc, machine, &ends, out)
}
