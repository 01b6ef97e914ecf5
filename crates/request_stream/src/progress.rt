// How far the request at the front of the bytes was read.
ghost use Rattle.std.specs.Prelude.{◌≤◌, ℕ, length, take, IfSome};
ghost use Rattle.request_stream.specs.HeadParts.{EndsIn};
ghost use Rattle.request_stream.specs.Progress.{IsReadUpTo, IsUnfinishedAt};

use crate::parts::{HeadPart, last_part};
use http_heads::{MAX_HEAD_BYTES, ask_heads_are_one_and_stay};

/// How far the request at the front of the bytes was read, so that what came before isn't read again with each piece
/// that comes.
#[derive(Clone, Copy, Debug, PartialEq, Eq)]
pub enum RequestProgress {
    /// Nothing was read.
    Unread,
    /// So many bytes are the front of a head, and end in this part of it.
    InHead { read: usize, part: HeadPart },
    /// The head was read, and the content has come whole with so many bytes.
    InContent { until: usize },
}

/// The front of a head is read on from behind the first `read` bytes. None where it may be whole, or no head.
pub(crate) fn read_head_on(bytes: &[u8], read: usize, part: HeadPart) -> Option<RequestProgress>
    requires within { read ≤ length bytes.now }
    requires ends { EndsIn part (take read bytes.now) }
    ensures { IfSome result (λ progress. (most : ℕ) → IsUnfinishedAt most bytes.now progress) }
{
    ask_heads_are_one_and_stay();
    if bytes.len() >= MAX_HEAD_BYTES {
        return None;
    }
    match last_part(bytes, read, part) {
        Some(part) => Some(RequestProgress::InHead {
            read: bytes.len(),
            part,
        }),
        None => None,
    }
}

/// Reads on where the request is known to be unfinished without the head that was read before. None where all has to be
/// read anew.
pub(crate) fn read_on(bytes: &[u8], progress: RequestProgress) -> Option<RequestProgress>
    requires { (most : ℕ) × IsReadUpTo most bytes.now progress }
    ensures { IfSome result (λ now. (most : ℕ) → IsReadUpTo most bytes.now progress
        → IsUnfinishedAt most bytes.now now) }
{
    match progress {
        RequestProgress::Unread => None,
        RequestProgress::InHead { read, part } => read_head_on(bytes, read, part),
        RequestProgress::InContent { until } => {
            if bytes.len() < until {
                Some(progress)
            } else {
                None
            }
        }
    }
}
