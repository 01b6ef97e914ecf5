// What a call is answered.
use dl_kinds::Gid;
use dl_queue::QueueErr;

/// What a call is answered.
#[derive(Clone, Copy, Debug, PartialEq, Eq)]
pub enum Applied {
    /// This download was added.
    Added { gid: Gid },
    /// The call was of this download: `Remove`, `Pause` and `Unpause`.
    Named { gid: Gid },
    Fine,
    /// The download waits at this place, from 0.
    Moved { position: u32 },
    /// The call changes nothing.
    Refused { refusal: QueueErr },
    /// The call asks, and changes nothing. Its reply is read off the run.
    Asked,
}
