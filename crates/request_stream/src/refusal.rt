// Why a request is turned away.
ghost use Rattle.std.specs.Prelude.{◌≡◌, ◌≤◌, Some, MatchResult};
ghost use Rattle.http_heads.specs.Content.{content_length};
ghost use Rattle.request_stream.specs.Requests.{refusal_by_head, refusal_by_length, IsAllowed};

use http_heads::{AskHead, ContentLength, content_length};

/// Why a request is turned away. The connection is closed behind the response.
#[derive(Clone, Copy, Debug, PartialEq, Eq)]
pub enum Refusal {
    /// The bytes aren't the front of a request's head, or its head is beyond the limits.
    BadRequest,
    /// The target isn't `/jsonrpc`.
    NotFound,
    /// The method isn't POST.
    MethodNotAllowed,
    /// The head doesn't tell the length of the content, or not by one field in digits alone.
    LengthRequired,
    /// The content is longer than the limit.
    ContentTooLarge,
}

// The length of the content.
fn allowed_length(most: u32, head: &AskHead) -> Result<u32, Refusal>
    ensures { MatchResult result
        (λ len. (content_length head.now ≡ ContentLength.Bytes len) × (len ≤ most))
        (λ refusal. refusal_by_length most (content_length head.now) ≡ Some refusal) }
{
    match content_length(head) {
        ContentLength::Bytes(len) if len <= most as u64 => Ok(len as u32),
        ContentLength::Bytes(_) => Err(Refusal::ContentTooLarge),
        ContentLength::Beyond => Err(Refusal::ContentTooLarge),
        ContentLength::Unclear => Err(Refusal::LengthRequired),
    }
}

/// The length of the content of a request that is served, or why it is turned away.
pub(crate) fn allowed(most: u32, head: &AskHead) -> Result<u32, Refusal>
    ensures { MatchResult result (IsAllowed most head.now)
        (λ refusal. refusal_by_head most head.now ≡ Some refusal) }
{
    if head.target.as_str() != "/jsonrpc" {
        return Err(Refusal::NotFound);
    }
    if head.method.as_str() != "POST" {
        return Err(Refusal::MethodNotAllowed);
    }
    allowed_length(most, head)
}
