// The line that a check prints, and how it ends then.
ghost use Rattle.std.specs.Prelude.{◌≡◌, IfOk, string_bytes};
ghost use Rattle.check_run.specs.Endings.{counts_line, ending_of_counts, IsReportedCount};

use dl_kinds::{IoErr, Sink};
use machine_core::End;
use payload_repair::Counts;
use run_report::RunEnding;
use std::alloc::{AllocError, Global};

fn counts_line(alloc: Global, counts: Counts) -> Result<String, AllocError>
    ensures { IfOk result (λ line. string_bytes line ≡ counts_line counts) }
{
    let Counts {
        pieces,
        right,
        repaired,
        blocks,
    } = counts;
    format!(in alloc; "pieces {pieces} right {right} repaired {repaired} blocks {blocks}\n")
}

fn ending_of_counts(counts: Counts) -> RunEnding
    ensures { result ≡ ending_of_counts counts }
{
    if counts.right as u64 + counts.repaired as u64 == counts.pieces as u64 {
        RunEnding::Done
    } else {
        RunEnding::Failed(End::Checksum)
    }
}

// Prints the line, and says how the check ends.
pub(crate) fn report_counts<O: Sink>(alloc: Global, counts: Counts, out: &mut O) -> RunEnding
    ensures { IsReportedCount O.Sink counts out.old out.new result }
{
    let Ok(line) = counts_line(alloc, counts) else {
        return RunEnding::NoMemory;
    };
    match out.write(line.as_bytes()) {
        Ok(()) => ending_of_counts(counts),
        Err(IoErr::Fault) => RunEnding::SinkFault,
        Err(IoErr::NoMemory) => RunEnding::NoMemory,
    }
}
