// The request at the front of the bytes.
ghost use Rattle.std.specs.Prelude.{◌≤◌, ℕ, length};
ghost use Rattle.http_heads.specs.AskHeads.{IsAskHead};
ghost use Rattle.request_stream.specs.Next.{IsNextRequest};
ghost use Rattle.request_stream.specs.Progress.{IsReadUpTo};

use crate::parts::HeadPart;
use crate::progress::{RequestProgress, read_head_on, read_on};
use crate::refusal::{Refusal, allowed};
use http_heads::{AskHead, AskRead, ask_heads_are_one_and_stay, hangs_up, read_ask_head};
use std::alloc::Global;

/// What stands at the front of bytes.
#[derive(Clone, Copy, Debug, PartialEq, Eq)]
pub enum NextRequest {
    /// A request that is served: its content stands from `from` up to `used`, where the next request begins. Its
    /// connection ends behind the answer where it is the `last`.
    Served {
        from: usize,
        used: usize,
        last: bool,
    },
    TurnedAway(Refusal),
    /// The front of a request.
    More,
    NoMemory,
}

// The request that the head begins.
fn behind_head(
    most: u32,
    bytes: &[u8],
    head: &AskHead,
    size: usize,
    progress: &mut RequestProgress,
) -> NextRequest
    requires begins { IsAskHead bytes.now head.now size }
    requires within { size ≤ length bytes.now }
    requires read { IsReadUpTo most bytes.now progress.old }
    ensures next { IsNextRequest most bytes.now result }
    ensures read { IsReadUpTo most bytes.now progress.new }
{
    ask_heads_are_one_and_stay();
    match allowed(most, head) {
        Ok(len) => {
            let used = size + len as usize;
            if used <= bytes.len() {
                NextRequest::Served {
                    from: size,
                    used,
                    last: hangs_up(head),
                }
            } else {
                *progress = RequestProgress::InContent { until: used };
                NextRequest::More
            }
        }
        Err(refusal) => NextRequest::TurnedAway(refusal),
    }
}

// How far the front of a head was read.
fn head_progress(bytes: &[u8]) -> RequestProgress
    ensures { (most : ℕ) → IsReadUpTo most bytes.now result }
{
    match read_head_on(bytes, 0, HeadPart::EmptyLines) {
        Some(progress) => progress,
        None => RequestProgress::Unread,
    }
}

fn read_anew(alloc: Global, most: u32, bytes: &[u8], progress: &mut RequestProgress) -> NextRequest
    requires read { IsReadUpTo most bytes.now progress.old }
    ensures next { IsNextRequest most bytes.now result }
    ensures read { IsReadUpTo most bytes.now progress.new }
{
    ask_heads_are_one_and_stay();
    match read_ask_head(alloc, bytes) {
        AskRead::Whole { head, used } => {
            behind_head(most, bytes, &head, used as usize, progress)
        }
        AskRead::More => {
            *progress = head_progress(bytes);
            NextRequest::More
        }
        AskRead::Bad => NextRequest::TurnedAway(Refusal::BadRequest),
        AskRead::NoMemory => NextRequest::NoMemory,
    }
}

/// The request at the front of the bytes, of which so much was read before. Its content takes at most `most` bytes. The
/// answer is `More` just where no whole request stands there, unless memory ran out.
pub fn next_request(
    alloc: Global,
    most: u32,
    bytes: &[u8],
    progress: &mut RequestProgress,
) -> NextRequest
    requires read { IsReadUpTo most bytes.now progress.old }
    ensures next { IsNextRequest most bytes.now result }
    ensures read { IsReadUpTo most bytes.now progress.new }
{
    match read_on(bytes, *progress) {
        Some(now) => {
            *progress = now;
            NextRequest::More
        }
        None => read_anew(alloc, most, bytes, progress),
    }
}
