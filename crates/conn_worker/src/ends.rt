// How work ends, and pauses.
ghost use Rattle.std.specs.Prelude.{◌≡◌};
ghost use Rattle.conn_worker.specs.Ends.{end_of_said, is_finished, pause_of};

use engine_turns::Said;

/// Why a worker takes no more turns.
#[derive(Clone, Copy, Debug, PartialEq, Eq)]
pub enum WorkEnd {
    /// Nothing is left to do.
    Finished,
    /// So many events came that no further operation is begun.
    JournalFull,
    NoMemory,
}

/// So many turns were taken that no more are.
#[derive(Clone, Copy, Debug, PartialEq, Eq)]
pub struct Spent;

/// How long a worker waits that has nothing to do, in milliseconds.
pub const IDLE_PAUSE: u64 = 50;

/// How an answer ends the work, if it does.
pub(crate) fn end_of(said: &Said) -> Option<WorkEnd>
    ensures { result ≡ end_of_said said.now }
{
    match said {
        Said::Finished => Some(WorkEnd::Finished),
        Said::JournalFull { .. } => Some(WorkEnd::JournalFull),
        Said::NoMemory => Some(WorkEnd::NoMemory),
        _ => None,
    }
}

/// Whether work ended since nothing is left to do.
pub(crate) fn is_finished(came: Result<WorkEnd, Spent>) -> bool
    ensures { result ≡ is_finished came }
{
    matches!(came, Ok(WorkEnd::Finished))
}

/// How long an answer makes a worker wait, in milliseconds.
pub(crate) fn pause_of(said: &Said) -> Option<u64>
    ensures { result ≡ pause_of said.now }
{
    match said {
        Said::Hold { ms } => Some(*ms),
        Said::Idle => Some(IDLE_PAUSE),
        _ => None,
    }
}
