// How connections and doors end.
ghost use Rattle.std.specs.Prelude.{◌≡◌};
ghost use Rattle.console_http.specs.Ends.{end_by_error};

use console_socket::SocketEnd;
use dl_kinds::IoErr;

/// Why a connection was closed.
#[derive(Clone, Copy, Debug, PartialEq, Eq)]
pub enum ConnectionEnd {
    /// Its peer sends no more, and each whole request was answered.
    AtItsEnd,
    /// A request was answered behind which the connection ends.
    HungUp,
    /// The run is finished.
    RunEnded,
    /// A call of the door failed.
    Failed,
    /// Memory ran out.
    Starved,
    /// It was kept as a WebSocket, which ended so.
    Socket(SocketEnd),
}

/// Why a door is served no more.
#[derive(Clone, Copy, Debug, PartialEq, Eq)]
pub enum DoorEnd {
    /// No client comes any more.
    Closed,
    /// The run is finished.
    Finished,
    /// No client could be let in. The count is that of the door's faults.
    Fault { count: u64 },
    /// The buffers couldn't be made.
    NoBuffers,
}

pub(crate) fn end_by_error(error: IoErr) -> ConnectionEnd
    ensures { result ≡ end_by_error error }
{
    match error {
        IoErr::Fault => ConnectionEnd::Failed,
        IoErr::NoMemory => ConnectionEnd::Starved,
    }
}
