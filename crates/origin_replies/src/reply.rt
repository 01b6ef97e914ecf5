// Replies.
ghost use Rattle.std.specs.Prelude.{◌≡◌, IfOk, string_bytes};
ghost use Rattle.origin_replies.specs.declared.reply.Reply.TheVariants.{Whole, Part, Outside};
ghost use Rattle.origin_replies.specs.Replies as specs;

use crate::span::Span;
use dl_kinds::NoMemory;
use std::alloc::Global;

/// What a request is answered by.
#[derive(Clone, Copy, Debug, PartialEq, Eq)]
pub enum Reply {
    /// All of a file of so many bytes.
    Whole { total: u64 },
    /// The bytes from the first to the last one, both among them.
    Part { first: u64, last: u64, total: u64 },
    /// A range was asked for that has no byte of the file.
    Outside { total: u64 },
    /// The target names no file, or there is no such file.
    NotFound,
    /// The method is neither GET nor HEAD.
    MethodNotAllowed,
    /// The bytes aren't the front of a request's head, or its head is beyond the limits or tells of content.
    BadRequest,
    /// The disk failed where the length of the file was looked up.
    Failed,
}

/// The reply to a request for these bytes of a file of so many.
pub fn reply_by_span(span: Span, total: u64) -> Reply
    ensures { result ≡ specs.reply_by_span span total }
{
    match span {
        Span::All => Reply::Whole { total },
        Span::Part { first, last } => Reply::Part { first, last, total },
        Span::Outside => Reply::Outside { total },
    }
}

/// The place of the first byte of the file that is sent.
pub fn first_sent(reply: Reply) -> u64
    ensures { result ≡ specs.first_sent reply }
{
    match reply {
        Reply::Part { first, .. } => first,
        _ => 0,
    }
}

/// How many bytes of the file are sent.
pub fn len_sent(reply: Reply) -> u64
    requires { specs.IsWithinFile reply }
    ensures { result ≡ specs.len_sent reply }
{
    match reply {
        Reply::Whole { total } => total,
        Reply::Part { first, last, .. } => last - first + 1,
        _ => 0,
    }
}

fn whole_head(alloc: Global, total: u64) -> Result<String, NoMemory>
    ensures { IfOk result (λ text. string_bytes text ≡ specs.head_of_reply (Whole total)) }
{
    format!(in alloc;
        "HTTP/1.1 200 OK\r\nContent-Type: application/octet-stream\r\nAccept-Ranges: bytes\r\nContent-Length: {total}\r\n\r\n"
    )
}

fn part_head(alloc: Global, first: u64, last: u64, total: u64) -> Result<String, NoMemory>
    requires { specs.IsWithinFile (Part first last total) }
    ensures { IfOk result (λ text. string_bytes text ≡ specs.head_of_reply (Part first last total)) }
{
    let len = last - first + 1;
    format!(in alloc;
        "HTTP/1.1 206 Partial Content\r\nContent-Type: application/octet-stream\r\nAccept-Ranges: bytes\r\nContent-Range: bytes {first}-{last}/{total}\r\nContent-Length: {len}\r\n\r\n"
    )
}

fn outside_head(alloc: Global, total: u64) -> Result<String, NoMemory>
    ensures { IfOk result (λ text. string_bytes text ≡ specs.head_of_reply (Outside total)) }
{
    format!(in alloc;
        "HTTP/1.1 416 Range Not Satisfiable\r\nContent-Range: bytes */{total}\r\nContent-Length: 0\r\n\r\n"
    )
}

fn fixed_head(reply: Reply) -> &'static str
    requires { specs.HasNoNumber reply }
    ensures { result.now ≡ specs.head_of_reply reply }
{
    match reply {
        Reply::NotFound => "HTTP/1.1 404 Not Found\r\nContent-Length: 0\r\n\r\n",
        Reply::MethodNotAllowed => {
            "HTTP/1.1 405 Method Not Allowed\r\nAllow: GET, HEAD\r\nContent-Length: 0\r\n\r\n"
        }
        Reply::BadRequest => "HTTP/1.1 400 Bad Request\r\nContent-Length: 0\r\n\r\n",
        _ => "HTTP/1.1 500 Internal Server Error\r\nContent-Length: 0\r\n\r\n",
    }
}

/// The head of the reply, up to the empty line and with it.
pub fn reply_head(alloc: Global, reply: Reply) -> Result<String, NoMemory>
    requires { specs.IsWithinFile reply }
    ensures { IfOk result (λ text. string_bytes text ≡ specs.head_of_reply reply) }
{
    match reply {
        Reply::Whole { total } => whole_head(alloc, total),
        Reply::Part { first, last, total } => part_head(alloc, first, last, total),
        Reply::Outside { total } => outside_head(alloc, total),
        Reply::NotFound | Reply::MethodNotAllowed | Reply::BadRequest | Reply::Failed => {
            String::from_str(alloc, fixed_head(reply))
        }
    }
}
