// What a run prints at its end.
ghost use Rattle.std.specs.Prelude.{◌≡◌, ◌⊎◌, ◌++◌, ◌∷◌, [], IfOk, codes, string_bytes};
ghost use Rattle.run_report.specs.Writing.{IsReported, PrintsError, PrintsSummary, Writes, error_line};
ghost use Rattle.run_report.specs.declared.endings.RunEnding.TheVariants as ended;

use crate::writing::{put, write_summary};
use crate::{RunEnding, ending};
use dl_kinds::{IoErr, Sink};
use machine_core::Machine;
use std::alloc::{AllocError, Global};

fn error_line(alloc: Global, refusal: RunEnding) -> Result<String, AllocError>
    ensures { IfOk result (λ line. string_bytes line ≡ error_line refusal) }
{
    let code = refusal.code();
    format!(in alloc; "error {code}\n")
}

/// Writes `error` and the exit status of a run that ends before anything is done. How it ends stays where the sink fails.
pub fn report_refusal<O: Sink>(alloc: Global, refusal: RunEnding, out: &mut O) -> RunEnding
    ensures ending { (result ≡ refusal) ⊎ (result ≡ ended.NoMemory) }
    ensures output { PrintsError O.Sink refusal out.old out.new result }
{
    let Ok(line) = error_line(alloc, refusal) else {
        return RunEnding::NoMemory;
    };
    match put(out, line.as_bytes()) {
        Ok(()) | Err(IoErr::Fault) => refusal,
        Err(IoErr::NoMemory) => RunEnding::NoMemory,
    }
}

/// Writes the summary of a run, line by line, and says how the run ends. The memory that it takes is that of a line, and of the
/// ends of all downloads. It looks at each event twice.
pub fn report<O: Sink>(alloc: Global, machine: &Machine, out: &mut O) -> RunEnding
    ensures ending { IsReported O.Sink machine.now.start machine.now.past
        out.old out.new result }
    ensures output { PrintsSummary O.Sink machine.now.start machine.now.past
        out.old out.new result }
{
    match write_summary(alloc, machine, out) {
        Ok(()) => ending(machine),
        Err(IoErr::Fault) => RunEnding::SinkFault,
        Err(IoErr::NoMemory) => RunEnding::NoMemory,
    }
}
