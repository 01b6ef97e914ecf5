// What a request asks for.
ghost use Rattle.std.specs.Prelude.{◌≡◌, ◌+◌, ◌≤◌, IfOk, IfSome};
ghost use Rattle.http_header.specs.Token.{lowercase};
ghost use Rattle.http_heads.specs.Content.{content_length};
ghost use Rattle.origin_replies.specs.Aims as specs;
ghost use Rattle.origin_replies.specs.Replies.{IsWithinFile, first_sent, len_sent};

use crate::laws::spans_lie_within;
use crate::name::name_of;
use crate::reply::{Reply, reply_by_span};
use crate::span::{Span, span_of};
use dl_kinds::{NoMemory, Text};
use http_header::{HeaderMap, HeaderValue};
use http_heads::{AskHead, ContentLength, content_length, sole_field};
use std::alloc::Global;

/// What comes of the head of a request alone.
#[derive(Debug, Drop)]
pub enum Aim {
    /// It is refused by this reply.
    Refused(Reply),
    /// It asks for the file of this name.
    File(Text),
}

/// Whether the request is a GET.
pub fn is_get(head: &AskHead) -> bool
    ensures { result ≡ specs.is_get head.now }
{
    head.method.as_str() == "GET"
}

fn is_head(head: &AskHead) -> bool
    ensures { result ≡ specs.is_head head.now }
{
    head.method.as_str() == "HEAD"
}

// Whether there is a field of the name, in any case.
fn has_field(fields: &HeaderMap<HeaderValue>, name: &str) -> bool
    ensures { result ≡ specs.has_field fields.now (lowercase name.now) }
{
    fields.get_all(name).iter().next().is_some()
}

fn is_no_content(length: ContentLength) -> bool
    ensures { result ≡ specs.is_no_content length }
{
    match length {
        ContentLength::Bytes(len) => len == 0,
        ContentLength::Beyond => false,
        ContentLength::Unclear => false,
    }
}

/// Whether the request tells of content: by a field Transfer-Encoding, or by Content-Length, but for a single one of 0.
pub fn tells_content(head: &AskHead) -> bool
    ensures { result ≡ specs.tells_content head.now }
{
    has_field(&head.fields, "transfer-encoding")
        || has_field(&head.fields, "content-length") && !is_no_content(content_length(head))
}

/// What comes of the head: a request that tells of content is refused, then one of another method than GET and HEAD, and
/// then one whose target has no name.
pub fn aim_of(alloc: Global, head: &AskHead) -> Result<Aim, NoMemory>
    ensures aim { IfOk result (λ aim. aim ≡ specs.aim_of head.now) }
    ensures plain { IfOk result specs.IsPlainAim }
{
    if tells_content(head) {
        return Ok(Aim::Refused(Reply::BadRequest));
    }
    if !is_get(head) && !is_head(head) {
        return Ok(Aim::Refused(Reply::MethodNotAllowed));
    }
    match name_of(alloc, head.target.as_str())? {
        Some(name) => Ok(Aim::File(name)),
        None => Ok(Aim::Refused(Reply::NotFound)),
    }
}

// Which bytes of a file of this length are asked for. A HEAD is answered as a GET without a range.
fn span_asked(head: &AskHead, total: u64) -> Span
    ensures { result ≡ specs.span_asked head.now total }
{
    if is_get(head) {
        span_of(sole_field(&head.fields, "range"), total)
    } else {
        Span::All
    }
}

/// The reply to a request for a file of this length, and None for no file.
pub fn reply_by_length(head: &AskHead, file: Option<u64>) -> Reply
    ensures reply { result ≡ specs.reply_by_length head.now file }
    ensures within { IsWithinFile result }
    ensures fits { IfSome file (λ total. first_sent result + len_sent result ≤ total) }
{
    spans_lie_within();
    match file {
        Some(total) => reply_by_span(span_asked(head, total), total),
        None => Reply::NotFound,
    }
}
