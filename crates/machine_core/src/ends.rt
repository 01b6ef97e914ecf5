// How a download ends.
ghost use Rattle.std.specs.Prelude.{◌≡◌, IsTrue};
ghost use Rattle.dl_kinds.specs.declared.gid.Gid.{Gid};
ghost use Rattle.dl_queue.specs.Calls.{QueueCall, has_stopped};
ghost use Rattle.machine_core.specs.Replays.{stop_of};

use dl_kinds::{Gid, Mark, Status};

/// How a download ends, with what shows why.
#[derive(Clone, Copy, Debug, PartialEq, Eq)]
pub enum End {
    Complete,
    /// No mirror has a try left for the piece; this is its last counted mark.
    Dead { piece: u32, mark: Mark },
    /// The disk failed; this is its count of faults.
    Disk { count: u64 },
    /// The payload stands without a control file.
    Exists { length: u64 },
    PieceLength { have: u32, want: u32 },
    Length { have: u64, want: u64 },
    InfoHash,
    /// The control file breaks its format at this byte.
    Unreadable { at: u64 },
    /// No plan of the download's piece length has this total.
    TooLarge { total: u64 },
    /// It would write a file of this download.
    SameFile { gid: Gid },
    /// It has the info hash of this download.
    SameHash { gid: Gid },
    /// The payload doesn't have its checksum.
    Checksum,
}

impl End {
    /// The status with which it stops.
    pub(crate) fn status(&self) -> Status
        ensures status { (gid : Gid) → stop_of gid self.now ≡ QueueCall.Stop gid result }
        ensures stopped { IsTrue (has_stopped result) }
    {
        match self {
            End::Complete => Status::Complete,
            _ => Status::Failed,
        }
    }
}
