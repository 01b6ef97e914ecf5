// Mirrors in memory, and what they answer.
ghost use Rattle.std.specs.Prelude.{◌≡◌, ◌≤◌, ◌↔◌, [], None, find, position, IsTrue, IfOk, option_copied};
ghost use Rattle.std.specs.Str.{bytes_eq};
ghost use Rattle.link_source.specs.Mirrors.{reply_of, mirror_at, mirror_reply, content_reply};
ghost use Rattle.link_source.specs.Memory.{is_at, mirror_of, mirrors_of, reply_seen, stored_at, true_reply, GivesText};
ghost use Rattle.link_source.specs.Resources.{bytes_of};
ghost use Rattle.link_source.specs.Replies.{text_under};

use crate::bad_answers::{Bad, BadAnswers};
use crate::replies::{
    MemReply, moved_reply, not_found_reply, reply_by_range, reply_in_whole, silence,
};
use crate::requests::{Asked, read_request};
use crate::resources::Resource;
use dl_kinds::{Blob, Text};
use std::alloc::{AllocError, Global};

/// What stands at a target.
#[derive(Debug, Drop)]
pub enum MemFile {
    Bytes(Blob),
    /// The first bytes of the load of this number, which are made as they are asked for.
    Load { n: u64, len: u64 },
    /// The resource is at this location, which is a URL or is relative to the one that led here.
    Moved(Text),
}

/// How a mirror replies to a request for a part of a resource.
#[derive(Clone, Copy, Debug, PartialEq, Eq)]
pub enum Manner {
    /// The part that was asked for, with its place and its length.
    Ranges,
    /// The whole resource, with its length.
    Whole,
    /// The part that was asked for, with its place, in chunks of at most 4,096 bytes.
    Chunked,
    /// The whole resource, which ends with the stream.
    ToEnd,
}

/// A mirror in memory.
#[derive(Debug, Drop)]
pub struct MemMirror {
    /// As `Endpoint` has it.
    pub host: Text,
    pub port: u16,
    /// Files by target, as `Endpoint` has it. Of two at one target the first counts.
    pub files: Vec<(Text, MemFile)>,
    pub manner: Manner,
}

/// What is answered to bytes, and the number of the mirror that replied, if one did.
#[derive(Debug, Drop)]
pub struct Answered {
    pub text: Vec<u8>,
    pub mirror: Option<usize>,
}

// The first file of a target.
fn find_file<'a>(files: &'a [(Text, MemFile)], target: &[u8]) -> Option<&'a MemFile>
    ensures { option_copied result ≡ stored_at files.now target.now }
{
    files
        .iter()
        .find(|(name, _)| name.bytes() == target)
        .map(|(_, file)| file)
}

fn reply_with(
    alloc: Global,
    manner: Manner,
    resource: &Resource<'_>,
    asked: &Asked<'_>,
) -> Result<MemReply, AllocError>
    requires { asked.now.first ≤ asked.now.last }
    ensures { IfOk result (λ reply. reply_seen reply
        ≡ content_reply manner (bytes_of resource.now) asked.now.first asked.now.last) }
{
    match manner {
        Manner::Ranges => reply_by_range(alloc, false, resource, asked.first, asked.last),
        Manner::Chunked => reply_by_range(alloc, true, resource, asked.first, asked.last),
        Manner::Whole => reply_in_whole(alloc, true, resource),
        Manner::ToEnd => reply_in_whole(alloc, false, resource),
    }
}

impl MemMirror {
    // The reply to a request.
    fn reply(&self, alloc: Global, asked: &Asked<'_>) -> Result<MemReply, AllocError>
        requires { asked.now.first ≤ asked.now.last }
        ensures { IfOk result (λ reply. reply_seen reply
            ≡ mirror_reply (mirror_of self.now)
            asked.now.target.now asked.now.first asked.now.last) }
    {
        match find_file(&self.files, asked.target) {
            None => not_found_reply(alloc),
            Some(MemFile::Moved(location)) => moved_reply(alloc, location.as_str()),
            Some(MemFile::Bytes(bytes)) => {
                let stored = Resource::Stored(bytes.bytes());
                reply_with(alloc, self.manner, &stored, asked)
            }
            Some(MemFile::Load { n, len }) => {
                let load = Resource::Load { n: *n, len: *len };
                reply_with(alloc, self.manner, &load, asked)
            }
        }
    }
}

// The first mirror of a host and a port.
fn find_mirror<'a>(mirrors: &'a [MemMirror], host: &str, port: u16) -> Option<&'a MemMirror>
    ensures { option_copied result ≡ find (is_at host.now port) mirrors.now }
{
    mirrors.iter().find(|mirror| mirror.port == port && mirror.host.as_str() == host)
}

/// Whether no mirror has this host and port.
pub fn is_unknown(mirrors: &[MemMirror], host: &str, port: u16) -> bool
    ensures { IsTrue result ↔ (mirror_at (mirrors_of mirrors.now) host.now port ≡ None) }
{
    find_mirror(mirrors, host, port).is_none()
}

// Its number.
fn number_of(mirrors: &[MemMirror], host: &str, port: u16) -> Option<usize>
    ensures { result ≡ position (is_at host.now port) mirrors.now }
{
    mirrors.iter().position(|mirror| mirror.port == port && mirror.host.as_str() == host)
}

// The true reply of a host and a port to a request.
fn reply_to(
    alloc: Global,
    mirrors: &[MemMirror],
    host: &str,
    port: u16,
    asked: &Asked<'_>,
) -> Result<MemReply, AllocError>
    requires { asked.now.first ≤ asked.now.last }
    ensures { IfOk result (λ reply. reply_seen reply
        ≡ true_reply mirrors.now host.now port
        asked.now.target.now asked.now.first asked.now.last) }
{
    match find_mirror(mirrors, host, port) {
        Some(mirror) => mirror.reply(alloc, asked),
        None => Ok(silence(alloc)),
    }
}

// What is sent to a request, where this bad answer stands in the reply's place, or none.
fn text_to(
    alloc: Global,
    mirrors: &[MemMirror],
    host: &str,
    port: u16,
    asked: &Asked<'_>,
    bad: Option<Bad>,
) -> Result<Vec<u8>, AllocError>
    requires { asked.now.first ≤ asked.now.last }
    ensures { IfOk result (λ text. text.items ≡ text_under bad
        (true_reply mirrors.now host.now port
        asked.now.target.now asked.now.first asked.now.last)) }
{
    reply_to(alloc, mirrors, host, port, asked)?.text_under(alloc, bad)
}

/// No reply.
pub fn unanswered(alloc: Global) -> Answered
    ensures text { result.text.items ≡ [] }
    ensures mirror { result.mirror ≡ None }
{
    Answered {
        text: Vec::new(alloc),
        mirror: None,
    }
}

// What a host and a port answer to bytes.
pub fn answer(
    alloc: Global,
    mirrors: &[MemMirror],
    bad: &BadAnswers,
    host: &str,
    port: u16,
    bytes: &[u8],
) -> Result<Answered, AllocError>
    ensures { IfOk result (λ answer. GivesText mirrors.now bad.now.left.items bad.now.used.items
        host.now port bytes.now answer.text.items answer.mirror) }
{
    let Some(asked) = read_request(alloc, host, port, bytes)? else {
        return Ok(unanswered(alloc));
    };
    let mirror = number_of(mirrors, host, port);
    let next = bad.next_of(mirror);
    let text = text_to(alloc, mirrors, host, port, &asked, next)?;
    Ok(Answered { text, mirror })
}
