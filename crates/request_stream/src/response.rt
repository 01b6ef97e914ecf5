// Responses, as they are sent.
ghost use Rattle.std.specs.Prelude.{◌≡◌, ◌<◌, ◌^◌, IfOk};
ghost use Rattle.request_stream.specs.Responses.{content_head, response_head, refusal_response};

use crate::refusal::Refusal;
use dl_kinds::NoMemory;
use std::alloc::Global;

fn content_head(alloc: Global, len: usize) -> Result<Vec<u8>, NoMemory>
    ensures { IfOk result (λ head. head.items ≡ content_head len) }
{
    let text = format!(in alloc;
        "HTTP/1.1 200 OK\r\nContent-Type: application/json-rpc\r\nContent-Length: {len}\r\n\r\n"
    )?;
    Ok(text.into_bytes())
}

/// The head of the response to a request that is served, by the length of its content, if there is any. The content is to
/// be sent behind it.
pub fn response_head(alloc: Global, len: Option<usize>) -> Result<Vec<u8>, NoMemory>
    ensures { IfOk result (λ head. head.items ≡ response_head len) }
{
    match len {
        Some(len) => content_head(alloc, len),
        None => Vec::from_slice(alloc, b"HTTP/1.1 204 No Content\r\n\r\n"),
    }
}

/// The response to a request that is turned away. It has no content.
pub fn refusal_response(refusal: Refusal) -> &'static [u8]
    ensures { result.now ≡ refusal_response refusal }
{
    match refusal {
        Refusal::BadRequest => b"HTTP/1.1 400 Bad Request\r\nContent-Length: 0\r\n\r\n",
        Refusal::NotFound => b"HTTP/1.1 404 Not Found\r\nContent-Length: 0\r\n\r\n",
        Refusal::MethodNotAllowed => {
            b"HTTP/1.1 405 Method Not Allowed\r\nAllow: POST\r\nContent-Length: 0\r\n\r\n"
        }
        Refusal::LengthRequired => b"HTTP/1.1 411 Length Required\r\nContent-Length: 0\r\n\r\n",
        Refusal::ContentTooLarge => b"HTTP/1.1 413 Content Too Large\r\nContent-Length: 0\r\n\r\n",
    }
}
