// The head of a request.
ghost use Rattle.std.specs.Prelude.{◌≡◌, ◌≤◌, length, IfOk, IsUtf8};
ghost use Rattle.httparse.specs.Grammar.{HasNoRequest, NeverHasRequest, MayBecomeRequest};
ghost use Rattle.httparse.specs.Spans.{span_bytes, IsWithin, IsRequestWithin, IsRequestOf};
ghost use Rattle.http_heads.specs.declared.ask_head.AskRead.TheVariants.{More, Bad};
ghost use Rattle.http_heads.specs.AskHeads.{IfWholeAsk, IsAskHead, IsAskUnfinished, IsNoAskHead};

use crate::fields::fields_at;
use crate::target::ends_in_target;
use crate::{MAX_HEAD_BYTES, MAX_HEAD_FIELDS};
use dl_kinds::{NoMemory, Text};
use http_header::{HeaderMap, HeaderValue};
use httparse::spans::{EMPTY_HEADER_SPAN, HeaderSpan, RequestSpans, Span, parse_request};
use httparse::{Error, Status};
use std::alloc::Global;

/// The head of a request: its request line, and its fields, whose names are in lower case.
#[derive(Debug, Drop)]
pub struct AskHead {
    pub method: Text,
    pub target: Text,
    /// The minor version: 1 for HTTP/1.1, and 0 for HTTP/1.0.
    pub minor: u8,
    pub fields: HeaderMap<HeaderValue>,
}

/// What bytes begin with.
#[derive(Debug, Drop)]
pub enum AskRead {
    /// A head, and how many bytes it takes.
    Whole { head: AskHead, used: u32 },
    /// The front of a head.
    More,
    /// Neither, or a head of more than 65,536 bytes or 64 fields.
    Bad,
    NoMemory,
}

fn text_at(alloc: Global, bytes: &[u8], span: Span) -> Result<Text, NoMemory>
    requires within { IsWithin (length bytes.now) span }
    requires utf8 { IsUtf8 (span_bytes bytes.now span) }
    ensures { IfOk result (λ text. text ≡ span_bytes bytes.now span) }
{
    match std::str::from_utf8(span.of(bytes)) {
        Ok(text) => Text::of(alloc, text),
        Err(_) => unreachable!(),
    }
}

fn head_at(
    alloc: Global,
    bytes: &[u8],
    spans: &[HeaderSpan],
    parts: &RequestSpans,
) -> Result<AskHead, NoMemory>
    requires within { IsRequestWithin bytes.now spans.now parts.now }
    requires found { IsRequestOf bytes.now spans.now parts.now }
    requires bytes_fit { parts.now.len ≤ MAX_HEAD_BYTES }
    requires fields_fit { parts.now.headers ≤ MAX_HEAD_FIELDS }
    ensures { IfOk result (λ head. IsAskHead bytes.now head parts.now.len) }
{
    Ok(AskHead {
        method: text_at(alloc, bytes, parts.method)?,
        target: text_at(alloc, bytes, parts.path)?,
        minor: parts.version,
        fields: fields_at(alloc, bytes, &spans[..parts.headers])?,
    })
}

fn whole(alloc: Global, bytes: &[u8], spans: &[HeaderSpan], parts: &RequestSpans) -> AskRead
    requires within { IsRequestWithin bytes.now spans.now parts.now }
    requires found { IsRequestOf bytes.now spans.now parts.now }
    ensures whole { IfWholeAsk result (IsAskHead bytes.now) }
    ensures within { IfWholeAsk result (λ _ used. used ≤ length bytes.now) }
    ensures more { result ≡ More → IsAskUnfinished bytes.now }
    ensures bad { result ≡ Bad → IsNoAskHead bytes.now }
{
    if parts.len > MAX_HEAD_BYTES || parts.headers > MAX_HEAD_FIELDS {
        return AskRead::Bad;
    }
    match head_at(alloc, bytes, spans, parts) {
        Ok(head) => AskRead::Whole {
            head,
            used: parts.len as u32,
        },
        Err(_) => AskRead::NoMemory,
    }
}

fn unfinished(bytes: &[u8]) -> AskRead
    requires none { HasNoRequest bytes.now }
    requires some { MayBecomeRequest bytes.now }
    ensures whole { IfWholeAsk result (IsAskHead bytes.now) }
    ensures within { IfWholeAsk result (λ _ used. used ≤ length bytes.now) }
    ensures more { result ≡ More → IsAskUnfinished bytes.now }
    ensures bad { result ≡ Bad → IsNoAskHead bytes.now }
{
    if bytes.len() < MAX_HEAD_BYTES {
        AskRead::More
    } else {
        AskRead::Bad
    }
}

// Bytes that nothing makes a head. Whether a target is text is known only at its end.
fn refused(bytes: &[u8]) -> AskRead
    requires { NeverHasRequest bytes.now }
    ensures whole { IfWholeAsk result (IsAskHead bytes.now) }
    ensures within { IfWholeAsk result (λ _ used. used ≤ length bytes.now) }
    ensures more { result ≡ More → IsAskUnfinished bytes.now }
    ensures bad { result ≡ Bad → IsNoAskHead bytes.now }
{
    if ends_in_target(bytes) {
        unfinished(bytes)
    } else {
        AskRead::Bad
    }
}

// The head where there may be more fields than the limit.
fn read_any(alloc: Global, bytes: &[u8]) -> AskRead
    ensures whole { IfWholeAsk result (IsAskHead bytes.now) }
    ensures within { IfWholeAsk result (λ _ used. used ≤ length bytes.now) }
    ensures more { result ≡ More → IsAskUnfinished bytes.now }
    ensures bad { result ≡ Bad → IsNoAskHead bytes.now }
{
    let Ok(mut spans) = Vec::from_elem(alloc, EMPTY_HEADER_SPAN, bytes.len() / 3) else {
        return AskRead::NoMemory;
    };
    match parse_request(bytes, spans.as_mut_slice()) {
        Ok(Status::Complete(parts)) => whole(alloc, bytes, spans.as_slice(), &parts),
        Ok(Status::Partial) => unfinished(bytes),
        Err(Error::TooManyHeaders) => unreachable!(),
        Err(_) => refused(bytes),
    }
}

/// Reads the head of a request at the front of the bytes. Lines end in CR LF or in LF alone, and empty lines before the
/// head are passed over. Where only the target is at fault, the answer is `More` until the target has ended.
pub fn read_ask_head(alloc: Global, bytes: &[u8]) -> AskRead
    ensures whole { IfWholeAsk result (IsAskHead bytes.now) }
    ensures within { IfWholeAsk result (λ _ used. used ≤ length bytes.now) }
    ensures more { result ≡ More → IsAskUnfinished bytes.now }
    ensures bad { result ≡ Bad → IsNoAskHead bytes.now }
{
    let mut spans = [EMPTY_HEADER_SPAN; MAX_HEAD_FIELDS];
    match parse_request(bytes, &mut spans) {
        Ok(Status::Complete(parts)) => whole(alloc, bytes, &spans, &parts),
        Ok(Status::Partial) => unfinished(bytes),
        Err(Error::TooManyHeaders) => read_any(alloc, bytes),
        Err(_) => refused(bytes),
    }
}
