// What stands in the lists of a queue, and why a call is refused.
ghost use Rattle.std.specs.Prelude.{◌≡◌};
ghost use Rattle.dl_queue.specs.declared.kinds.QueueErr.TheVariants.{NoMemory};
ghost use Rattle.dl_queue.specs.Endings.{ended_status, ending_by_status, ending_by_standing};

use dl_kinds::{Gid, Status};
use option_set::Options;
use std::alloc::{AllocError, AllocFailed};
use thiserror::Error;

/// The most downloads that may be added in a run.
pub const MAX_DOWNLOADS: usize = 65_536;

/// A download that waits or is paused.
#[derive(Clone, Copy, Debug, PartialEq, Eq)]
pub struct Queued {
    pub gid: Gid,
    pub paused: bool,
}

/// How a download stopped.
#[derive(Clone, Copy, Debug, PartialEq, Eq)]
pub enum Ending {
    Failed,
    Complete,
    Removed,
}

/// A download that has stopped.
#[derive(Clone, Copy, Debug, PartialEq, Eq)]
pub struct Stopped {
    pub gid: Gid,
    pub ending: Ending,
}

impl Stopped {
    /// The status that it stopped with.
    pub fn status(&self) -> Status
        ensures { result ≡ ended_status self.now.ending }
    {
        status_by_ending(self.ending)
    }
}

/// The status of a download that stopped so.
pub(crate) fn status_by_ending(ending: Ending) -> Status
    ensures { result ≡ ended_status ending }
{
    match ending {
        Ending::Failed => Status::Failed,
        Ending::Complete => Status::Complete,
        Ending::Removed => Status::Removed,
    }
}

/// How a download stops that gets this status; one of those that aren't of stopped downloads counts as `Failed`.
pub(crate) fn ending_by_status(status: Status) -> Ending
    ensures { result ≡ ending_by_status status }
{
    match status {
        Status::Complete => Ending::Complete,
        Status::Removed => Ending::Removed,
        _ => Ending::Failed,
    }
}

/// How a download stopped that stands so; one that stands in none of the lists counts as `Failed`.
pub(crate) fn ending_by_standing(standing: Option<Status>) -> Ending
    ensures { result ≡ ending_by_standing standing }
{
    match standing {
        Some(status) => ending_by_status(status),
        None => Ending::Failed,
    }
}

/// A download that was added in this run, with its options.
#[derive(Debug, Drop)]
pub struct Added {
    pub gid: Gid,
    pub options: Options,
}

/// From where a position counts.
#[derive(Clone, Copy, Debug, PartialEq, Eq)]
pub enum How {
    /// From the front of the waiting downloads (`POS_SET`).
    Set,
    /// From the download's own place (`POS_CUR`).
    Cur,
    /// From the last place (`POS_END`).
    End,
}

/// Why a call changes nothing.
#[derive(Clone, Copy, Debug, PartialEq, Eq, Error)]
pub enum QueueErr {
    #[error("no download has this gid")]
    NotFound,
    #[error("{count} downloads have gids that begin so")]
    Ambiguous { count: u32 },
    #[error("the call isn't lawful in the download's status")]
    WrongStatus(Status),
    #[error("the gid was used in this run")]
    SameGid,
    #[error("{count} downloads were added")]
    Full { count: u32 },
    #[error("out of memory")]
    NoMemory,
}

impl From<AllocError> for QueueErr {
    ghost from_gives = { λ _ e. e ≡ NoMemory };

    fn from(_: AllocError) -> Self {
        QueueErr::NoMemory
    }
}

impl<T: Drop> From<AllocFailed<T>> for QueueErr {
    ghost from_gives = { λ _ e. e ≡ NoMemory };

    fn from(_: AllocFailed<T>) -> Self {
        QueueErr::NoMemory
    }
}
