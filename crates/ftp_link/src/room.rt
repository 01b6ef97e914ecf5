// What a talk reads with.
ghost use Rattle.std.specs.Prelude.{◌≡◌, ◌≤◌, ◌<◌, ◌+◌, ◌++◌, List, ℕ, Ok, true, length, take, IsTrue, IfOk, OnErr, vec_len, vec_capacity};
ghost use Rattle.dl_kinds.specs.Causes.{HasCause};
ghost use Rattle.link_source.specs.Exchanges.{TakesDue, with_received};
ghost use Rattle.link_source.specs.Link.{HasData, Receives, ReceivesData};
ghost use Rattle.link_source.specs.declared.exchanges.TheConstants.{MOST_RECEIVED};
ghost use Rattle.ftp_link.specs.Rooms.{Gained};
ghost use Rattle.ftp_link.specs.declared.room.TheConstants.{MAX_REPLY_BYTES};

use dl_kinds::{IoErr, NoMemory};
use link_source::{Links, MOST_RECEIVED};
use std::alloc::Global;

/// The most bytes that are heard of a reply.
pub const MAX_REPLY_BYTES: usize = 32_768;

/// What a talk reads with: its buffers are made once.
#[derive(Debug, Drop)]
pub struct FtpRoom {
    /// What came of the newest reply.
    pub(crate) heard: Vec<u8>,
    /// Where a link puts bytes.
    block: Vec<u8>,
    ghost roomy: { MAX_REPLY_BYTES ≤ vec_capacity heard },
    ghost whole: { vec_len block ≡ MOST_RECEIVED },
}

// Receives some bytes into the front of a block.
fn receive<L: Links>(link: &mut L, block: &mut [u8], most: usize) -> Result<usize, IoErr>
    requires some { 0 < most }
    requires few { most ≤ MOST_RECEIVED }
    requires room { most ≤ length block.old }
    requires listens { IsTrue L.tells → (L.state link.old).listens ≡ true }
    ensures most { IfOk result (λ count. count ≤ most) }
    ensures received { IfOk result (λ count. IsTrue L.tells
        → Receives count block.new (L.state link.old) (L.state link.new)) }
    ensures failed { OnErr result (IsTrue L.tells → L.state link.new ≡ L.state link.old) }
    ensures cause { HasCause (L.faults link.old) (L.faults link.new) result }
{
    link.recv(&mut block[..most])
}

// So of the data.
fn receive_data<L: Links>(link: &mut L, block: &mut [u8], most: usize) -> Result<usize, IoErr>
    requires some { 0 < most }
    requires few { most ≤ MOST_RECEIVED }
    requires room { most ≤ length block.old }
    requires dialled { IsTrue L.tells → HasData (L.state link.old) }
    ensures most { IfOk result (λ count. count ≤ most) }
    ensures received { IfOk result (λ count. IsTrue L.tells
        → ReceivesData count block.new (L.state link.old) (L.state link.new)) }
    ensures failed { OnErr result (IsTrue L.tells → L.state link.new ≡ L.state link.old) }
    ensures cause { HasCause (L.faults link.old) (L.faults link.new) result }
{
    link.recv_data(&mut block[..most])
}

// Puts the first bytes of a block at the end of a vector that has room for them.
fn append(out: &mut Vec<u8>, block: &[u8], count: usize)
    requires within { count ≤ length block.now }
    requires room { vec_len out.old + count ≤ vec_capacity out.old }
    ensures grows { out.new.items ≡ out.old.items ++ take count block.now }
    ensures len { vec_len out.new ≡ vec_len out.old + count }
    ensures capacity { vec_capacity out.old ≤ vec_capacity out.new }
{
    let Ok(()) = out.extend_from_slice(&block[..count]) else {
        unreachable!()
    };
}

impl FtpRoom {
    pub fn new(alloc: Global) -> Result<Self, NoMemory> {
        Ok(FtpRoom {
            heard: Vec::with_capacity(alloc, MAX_REPLY_BYTES)?,
            block: vec![in alloc; 0; MOST_RECEIVED]?,
        })
    }

    /// Hears more of the newest reply, at most so many bytes.
    pub(crate) fn hear<L: Links>(&mut self, link: &mut L, most: usize) -> Result<usize, IoErr>
        requires some { 0 < most }
        requires few { vec_len self.old.heard + most ≤ MAX_REPLY_BYTES }
        requires listens { IsTrue L.tells → (L.state link.old).listens ≡ true }
        ensures most { IfOk result (λ count. count ≤ most) }
        ensures hears { IfOk result (λ count. (buffer : List ℕ)
            × Gained count buffer self.old.heard.items self.new.heard.items
            × (IsTrue L.tells → Receives count buffer (L.state link.old) (L.state link.new))) }
        ensures len { IfOk result (λ count. vec_len self.new.heard ≡ vec_len self.old.heard + count) }
        ensures same { OnErr result (self.new.heard.items ≡ self.old.heard.items) }
        ensures failed { OnErr result (IsTrue L.tells → L.state link.new ≡ L.state link.old) }
        ensures cause { HasCause (L.faults link.old) (L.faults link.new) result }
    {
        let count = receive(link, &mut self.block, most)?;
        append(&mut self.heard, &self.block, count);
        Ok(count)
    }

    /// Takes more of the data, at most so many bytes, and puts it at the end of `out`.
    pub(crate) fn take<L: Links>(
        &mut self,
        link: &mut L,
        out: &mut Vec<u8>,
        most: usize,
    ) -> Result<usize, IoErr>
        requires some { 0 < most }
        requires few { most ≤ MOST_RECEIVED }
        requires room { vec_len out.old + most ≤ vec_capacity out.old }
        requires dialled { IsTrue L.tells → HasData (L.state link.old) }
        ensures most { IfOk result (λ count. count ≤ most) }
        ensures takes { IfOk result (λ count. (buffer : List ℕ)
            × Gained count buffer out.old.items out.new.items
            × (IsTrue L.tells → ReceivesData count buffer (L.state link.old) (L.state link.new))) }
        ensures len { IfOk result (λ count. vec_len out.new ≡ vec_len out.old + count) }
        ensures same { OnErr result (out.new.items ≡ out.old.items) }
        ensures capacity { vec_capacity out.old ≤ vec_capacity out.new }
        ensures heard { self.new.heard.items ≡ self.old.heard.items }
        ensures failed { OnErr result (IsTrue L.tells → L.state link.new ≡ L.state link.old) }
        ensures cause { HasCause (L.faults link.old) (L.faults link.new) result }
    {
        let count = receive_data(link, &mut self.block, most)?;
        append(out, &self.block, count);
        Ok(count)
    }
}
