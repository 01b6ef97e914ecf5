// Replies of mirrors in memory.
ghost use Rattle.std.specs.Prelude.{◌≡◌, ◌≤◌, ◌<◌, [], IfOk, string_bytes};
ghost use Rattle.link_source.specs.Memory.{reply_seen};
ghost use Rattle.link_source.specs.Resources.{bytes_of};
ghost use Rattle.link_source.specs.Replies.{bare_reply, body_text, text_of, length_line, not_found, moved, not_satisfiable, part_head, part_reply, ranges_reply, whole_head, whole_reply, status_head, flipped, spoiled_text, text_under};

use crate::bad_answers::{Bad, BadKind};
use crate::chunks::in_chunks;
use crate::resources::Resource;
use std::alloc::{AllocError, Global};

/// A reply before it is written.
#[derive(Debug, Drop)]
pub struct MemReply {
    /// Up to the empty line, and that line.
    head: Vec<u8>,
    /// The content is the resource's from this place on.
    place: u64,
    content: Vec<u8>,
    chunked: bool,
}

// A reply without content.
fn without_content(alloc: Global, head: String) -> MemReply
    ensures { reply_seen result ≡ bare_reply (string_bytes head) }
{
    MemReply {
        head: head.into_bytes(),
        place: 0,
        content: Vec::new(alloc),
        chunked: false,
    }
}

#[tactic(auto, unfolding(crate::specs::Replies::not_found))]
pub fn not_found_reply(alloc: Global) -> Result<MemReply, AllocError>
    ensures { IfOk result (λ reply. reply_seen reply ≡ bare_reply not_found) }
{
    let head = String::from_str(alloc, "HTTP/1.1 404 Not Found\r\nContent-Length: 0\r\n\r\n")?;
    Ok(without_content(alloc, head))
}

pub fn moved_reply(alloc: Global, location: &str) -> Result<MemReply, AllocError>
    ensures { IfOk result (λ reply. reply_seen reply ≡ bare_reply (moved location.now)) }
{
    let head = format!(in alloc;
        "HTTP/1.1 302 Found\r\nLocation: {location}\r\nContent-Length: 0\r\n\r\n"
    )?;
    Ok(without_content(alloc, head))
}

fn not_satisfiable_reply(alloc: Global, total: u64) -> Result<MemReply, AllocError>
    ensures { IfOk result (λ reply. reply_seen reply ≡ bare_reply (not_satisfiable total)) }
{
    let head = format!(in alloc;
        "HTTP/1.1 416 Range Not Satisfiable\r\nContent-Range: bytes */{total}\r\nContent-Length: 0\r\n\r\n"
    )?;
    Ok(without_content(alloc, head))
}

// How the length of the content is told.
fn length_field(alloc: Global, chunked: bool, length: u64) -> Result<String, AllocError>
    ensures { IfOk result (λ field. string_bytes field ≡ length_line chunked length) }
{
    if chunked {
        String::from_str(alloc, "Transfer-Encoding: chunked\r\n")
    } else {
        format!(in alloc; "Content-Length: {length}\r\n")
    }
}

fn head_of_part(
    alloc: Global,
    chunked: bool,
    first: u64,
    last: u64,
    total: u64,
) -> Result<Vec<u8>, AllocError>
    requires ordered { first ≤ last }
    requires within { last < total }
    ensures { IfOk result (λ head. head.items ≡ part_head chunked first last total) }
{
    let field = length_field(alloc, chunked, last + 1 - first)?;
    let text = format!(in alloc;
        "HTTP/1.1 206 Partial Content\r\nContent-Range: bytes {first}-{last}/{total}\r\n{field}\r\n"
    )?;
    Ok(text.into_bytes())
}

/// The bytes from first to last, as far as there are some.
pub fn reply_by_range(
    alloc: Global,
    chunked: bool,
    resource: &Resource<'_>,
    first: u64,
    last: u64,
) -> Result<MemReply, AllocError>
    requires { first ≤ last }
    ensures { IfOk result (λ reply. reply_seen reply
        ≡ ranges_reply chunked (bytes_of resource.now) first last) }
{
    let total = resource.len();
    if first >= total {
        return not_satisfiable_reply(alloc, total);
    }
    let last = last.min(total - 1);
    let head = head_of_part(alloc, chunked, first, last, total)?;
    let content = resource.part(alloc, first, last + 1 - first)?;
    Ok(MemReply {
        head,
        place: first,
        content,
        chunked,
    })
}

fn head_of_whole(alloc: Global, told: bool, total: u64) -> Result<Vec<u8>, AllocError>
    ensures { IfOk result (λ head. head.items ≡ whole_head told total) }
{
    if told {
        let text = format!(in alloc; "HTTP/1.1 200 OK\r\nContent-Length: {total}\r\n\r\n")?;
        Ok(text.into_bytes())
    } else {
        let text = String::from_str(alloc, "HTTP/1.1 200 OK\r\n\r\n")?;
        Ok(text.into_bytes())
    }
}

/// All bytes, whose number is told or not.
pub fn reply_in_whole(
    alloc: Global,
    told: bool,
    resource: &Resource<'_>,
) -> Result<MemReply, AllocError>
    ensures { IfOk result (λ reply. reply_seen reply ≡ whole_reply told (bytes_of resource.now)) }
{
    let head = head_of_whole(alloc, told, resource.len())?;
    Ok(MemReply {
        head,
        place: 0,
        content: resource.part(alloc, 0, resource.len())?,
        chunked: false,
    })
}

/// No reply.
pub fn silence(alloc: Global) -> MemReply
    ensures { reply_seen result ≡ bare_reply [] }
{
    MemReply {
        head: Vec::new(alloc),
        place: 0,
        content: Vec::new(alloc),
        chunked: false,
    }
}

fn status_text(alloc: Global, status: u16) -> Result<Vec<u8>, AllocError>
    ensures { IfOk result (λ text. text.items ≡ status_head status) }
{
    let head = format!(in alloc; "HTTP/1.1 {status} \r\nContent-Length: 0\r\n\r\n")?;
    Ok(head.into_bytes())
}

impl MemReply {
    // The content as it is sent.
    fn into_body(self, alloc: Global) -> Result<(Vec<u8>, Vec<u8>), AllocError>
        ensures head { IfOk result (λ parts. parts.0.items ≡ (reply_seen self).head) }
        ensures body { IfOk result (λ parts. parts.1.items ≡ body_text (reply_seen self)) }
    {
        if self.chunked {
            let body = in_chunks(alloc, &self.content)?;
            Ok((self.head, body))
        } else {
            Ok((self.head, self.content))
        }
    }

    fn into_text(self, alloc: Global) -> Result<Vec<u8>, AllocError>
        ensures { IfOk result (λ text. text.items ≡ text_of (reply_seen self)) }
    {
        let (mut text, body) = self.into_body(alloc)?;
        text.extend_from_slice(&body)?;
        Ok(text)
    }

    fn into_cut_text(self, alloc: Global, count: u32) -> Result<Vec<u8>, AllocError>
        ensures { IfOk result (λ text. text.items
            ≡ spoiled_text (BadKind.Cut count) (reply_seen self)) }
    {
        let (mut text, mut body) = self.into_body(alloc)?;
        body.truncate(count as usize);
        text.extend_from_slice(&body)?;
        Ok(text)
    }

    fn flip(&mut self, place: u64)
        ensures { reply_seen self.new ≡ flipped place (reply_seen self.old) }
    {
        if place < self.place {
            return;
        }
        let index = place - self.place;
        if index < self.content.len() as u64 {
            self.content[index as usize] ^= 255;
        }
    }

    fn into_spoiled_text(mut self, alloc: Global, kind: BadKind) -> Result<Vec<u8>, AllocError>
        ensures { IfOk result (λ text. text.items ≡ spoiled_text kind (reply_seen self)) }
    {
        match kind {
            BadKind::Status(status) => status_text(alloc, status),
            BadKind::Cut(count) => self.into_cut_text(alloc, count),
            BadKind::Flip(place) => {
                self.flip(place);
                self.into_text(alloc)
            }
        }
    }

    /// The bytes that are sent, where there is a bad answer or none.
    pub fn text_under(self, alloc: Global, bad: Option<Bad>) -> Result<Vec<u8>, AllocError>
        ensures { IfOk result (λ text. text.items ≡ text_under bad (reply_seen self)) }
    {
        match bad {
            Some(bad) => self.into_spoiled_text(alloc, bad.kind),
            None => self.into_text(alloc),
        }
    }
}
