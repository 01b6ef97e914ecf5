// The head of a reply.
ghost use Rattle.std.specs.Prelude.{◌≡◌, ◌≤◌, length};
ghost use Rattle.httparse.specs.Grammar.{HasNoResponse, MayBecomeResponse};
ghost use Rattle.httparse.specs.Spans.{IsResponseWithin, IsResponseOf};
ghost use Rattle.http_heads.specs.declared.head.HeadRead.TheVariants.{More, Bad};
ghost use Rattle.http_heads.specs.Heads.{IfWhole, IsHead, IsUnfinished, IsNoHead};

use crate::fields::fields_at;
use crate::{MAX_HEAD_BYTES, MAX_HEAD_FIELDS};
use http_header::{HeaderMap, HeaderValue};
use httparse::spans::{EMPTY_HEADER_SPAN, HeaderSpan, ResponseSpans, parse_response};
use httparse::{Error, Status};
use std::alloc::Global;

/// The head of a reply: its status, and its fields, whose names are in lower case.
#[derive(Debug, Drop)]
pub struct Head {
    pub status: u16,
    /// The minor version: 1 for HTTP/1.1, and 0 for HTTP/1.0.
    pub minor: u8,
    pub fields: HeaderMap<HeaderValue>,
}

/// What bytes begin with.
#[derive(Debug, Drop)]
pub enum HeadRead {
    /// A head, and how many bytes it takes.
    Whole { head: Head, used: u32 },
    /// The front of a head.
    More,
    /// Neither, or a head of more than 65,536 bytes or 64 fields.
    Bad,
    NoMemory,
}

fn whole(alloc: Global, bytes: &[u8], spans: &[HeaderSpan], parts: &ResponseSpans) -> HeadRead
    requires within { IsResponseWithin bytes.now spans.now parts.now }
    requires found { IsResponseOf bytes.now spans.now parts.now }
    ensures whole { IfWhole result (IsHead bytes.now) }
    ensures within { IfWhole result (λ _ used. used ≤ length bytes.now) }
    ensures more { result ≡ More → IsUnfinished bytes.now }
    ensures bad { result ≡ Bad → IsNoHead bytes.now }
{
    if parts.len > MAX_HEAD_BYTES || parts.headers > MAX_HEAD_FIELDS {
        return HeadRead::Bad;
    }
    match fields_at(alloc, bytes, &spans[..parts.headers]) {
        Ok(fields) => HeadRead::Whole {
            head: Head {
                status: parts.code,
                minor: parts.version,
                fields,
            },
            used: parts.len as u32,
        },
        Err(_) => HeadRead::NoMemory,
    }
}

// The same where there may be more fields than the limit.
fn read_any(alloc: Global, bytes: &[u8]) -> HeadRead
    ensures whole { IfWhole result (IsHead bytes.now) }
    ensures within { IfWhole result (λ _ used. used ≤ length bytes.now) }
    ensures more { result ≡ More → IsUnfinished bytes.now }
    ensures bad { result ≡ Bad → IsNoHead bytes.now }
{
    let Ok(mut spans) = Vec::from_elem(alloc, EMPTY_HEADER_SPAN, bytes.len() / 3) else {
        return HeadRead::NoMemory;
    };
    match parse_response(bytes, spans.as_mut_slice()) {
        Ok(Status::Complete(parts)) => whole(alloc, bytes, spans.as_slice(), &parts),
        Ok(Status::Partial) => unfinished(bytes),
        Err(Error::TooManyHeaders) => unreachable!(),
        Err(_) => HeadRead::Bad,
    }
}

fn unfinished(bytes: &[u8]) -> HeadRead
    requires none { HasNoResponse bytes.now }
    requires some { MayBecomeResponse bytes.now }
    ensures whole { IfWhole result (IsHead bytes.now) }
    ensures within { IfWhole result (λ _ used. used ≤ length bytes.now) }
    ensures more { result ≡ More → IsUnfinished bytes.now }
    ensures bad { result ≡ Bad → IsNoHead bytes.now }
{
    if bytes.len() < MAX_HEAD_BYTES {
        HeadRead::More
    } else {
        HeadRead::Bad
    }
}

/// Reads the head of a reply at the front of the bytes. Lines end in CR LF or in LF alone, and empty lines before the
/// head are passed over.
pub fn read_head(alloc: Global, bytes: &[u8]) -> HeadRead
    ensures whole { IfWhole result (IsHead bytes.now) }
    ensures within { IfWhole result (λ _ used. used ≤ length bytes.now) }
    ensures more { result ≡ More → IsUnfinished bytes.now }
    ensures bad { result ≡ Bad → IsNoHead bytes.now }
{
    let mut spans = [EMPTY_HEADER_SPAN; MAX_HEAD_FIELDS];
    match parse_response(bytes, &mut spans) {
        Ok(Status::Complete(parts)) => whole(alloc, bytes, &spans, &parts),
        Ok(Status::Partial) => unfinished(bytes),
        Err(Error::TooManyHeaders) => read_any(alloc, bytes),
        Err(_) => HeadRead::Bad,
    }
}
