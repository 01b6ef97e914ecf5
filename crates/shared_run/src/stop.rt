// The last turn of a run.
ghost use Rattle.std.specs.Prelude.{◌≡◌};
ghost use Rattle.run_lifecycle.specs.Begins as begins;
ghost use Rattle.shared_run.specs.Together.{StopsBehind};

use dl_disk::Disk;
use dl_kinds::Moment;
use engine_core::Engine;
use engine_turns::{Operation, Said};
use turn_desk::Served;

fn is_no_memory(said: &Said) -> bool
    ensures { result ≡ begins.is_no_memory said.now }
{
    matches!(said, Said::NoMemory)
}

/// Stops the run, behind all turns of its desk, and says whether memory was wanting for that.
pub(crate) fn stop<D: Disk>(engine: &mut Engine<D>) -> bool
    ensures { StopsBehind D.Disk engine.old engine.new result }
{
    let stopped = engine.serve(Operation::Stop { now: Moment(0) });
    is_no_memory(&stopped.said)
}
