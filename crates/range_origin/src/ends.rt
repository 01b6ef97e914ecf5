// How connections end.
ghost use Rattle.std.specs.Prelude.{◌≡◌};
ghost use Rattle.range_origin.specs.Ends.{visit_end_by};

use dl_kinds::IoErr;

/// Why a connection was closed.
#[derive(Clone, Copy, Debug, PartialEq, Eq)]
pub enum VisitEnd {
    /// Its peer sends no more, and each request was answered.
    AtItsEnd,
    /// A request was answered behind which the connection ends.
    HungUp,
    /// A call of the door failed.
    Failed,
    /// The disk failed within the content of a reply.
    DiskFailed,
    /// A file became shorter while it was sent.
    Cut,
    /// Memory ran out.
    Starved,
}

/// Why a door is served no more.
#[derive(Clone, Copy, Debug, PartialEq, Eq)]
pub enum OriginEnd {
    /// No client comes any more.
    Closed,
    /// No client could be let in. The count is that of the door's faults.
    Fault { count: u64 },
    /// The buffers couldn't be made.
    NoMemory,
}

pub(crate) fn visit_end_by(error: IoErr) -> VisitEnd
    ensures { result ≡ visit_end_by error }
{
    match error {
        IoErr::Fault => VisitEnd::Failed,
        IoErr::NoMemory => VisitEnd::Starved,
    }
}
