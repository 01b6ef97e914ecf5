// How sockets end.

/// Why a WebSocket was kept no longer.
#[derive(Clone, Copy, Debug, PartialEq, Eq)]
pub enum SocketEnd {
    /// The run is finished, and all notices were sent.
    Finished,
    /// Its peer closed it, or sends no more.
    Closed,
    /// The request asked for no WebSocket that there is here.
    Refused,
    /// Its peer broke the protocol, or sent a message above the limit.
    Broken,
    /// A call of the door failed.
    Failed,
    /// Memory ran out.
    Starved,
}
