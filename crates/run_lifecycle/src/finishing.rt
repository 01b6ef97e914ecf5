// The end of a run.
ghost use Rattle.run_lifecycle.specs.Finishes.{EndsBy, Finishes, PrintsRefusal};

use crate::ended::Ended;
use dl_disk::Disk;
use dl_kinds::Sink;
use engine_core::Engine;
use run_report::{RunEnding, report, report_refusal};
use std::alloc::Global;

/// Tells why a run didn't begin. Where memory was wanting nothing is told.
pub fn refuse<O: Sink>(alloc: Global, refusal: RunEnding, out: &mut O) -> RunEnding
    ensures { PrintsRefusal O.Sink refusal out.old out.new result }
{
    match refusal {
        RunEnding::NoMemory => RunEnding::NoMemory,
        _ => report_refusal(alloc, refusal, out),
    }
}

// Writes the summary of a run, unless memory was wanting, and says how it ended.
fn tell<D: Disk, O: Sink>(
    alloc: Global,
    engine: &Engine<D>,
    is_short: bool,
    out: &mut O,
) -> RunEnding
    ensures ends { EndsBy O.Sink is_short engine.now out.old out.new result }
{
    match is_short {
        true => RunEnding::NoMemory,
        false => report(alloc, engine.machine(), out),
    }
}

/// Writes the summary of a run, unless memory was wanting, and takes its engine apart.
pub fn finish<D: Disk, O: Sink>(
    alloc: Global,
    engine: Engine<D>,
    is_short: bool,
    out: &mut O,
) -> Ended<D>
    ensures { Finishes O.Sink engine is_short out.old result out.new }
{
    let ending = tell(alloc, &engine, is_short, out);
    let _legal = engine.machine().journal();
    let (disk, journal) = engine.into_parts();
    Ended {
        ending,
        disk,
        journal,
    }
}
