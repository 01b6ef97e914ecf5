// What comes of a connection.
ghost use Rattle.std.specs.Prelude.{◌≡◌, ◌<◌, ◌≤◌, ◌+◌, ℕ, List, length, drop, false, slice_range, ◌++◌, IfOk, MatchOption, IsTrue, true};
ghost use Rattle.http_heads.specs.declared.limits.TheConstants.{MAX_HEAD_BYTES};
ghost use Rattle.request_stream.specs.Next.{IsNextRequest};
ghost use Rattle.console_http.specs.Readings.{fresh_reading};
ghost use Rattle.console_http.specs.Receiving.{HasReceived};

use crate::ends::{ConnectionEnd, end_by_error};
use dl_kinds::NoMemory;
use door_source::Doors;
use http_heads::MAX_HEAD_BYTES;
use request_stream::{NextRequest, RequestProgress, next_request, requests_are_one_and_stay};
use std::alloc::Global;
use std::marker::Model;

/// The most bytes that are received at once.
pub const PIECE_BYTES: usize = 65_536;

/// What came of a connection and was not answered yet, and the buffers for it, which serve one connection behind another. At
/// most so many bytes wait as the longest head and content of a request and one piece have together.
#[derive(Debug, Drop)]
pub struct Intake {
    unread: Vec<u8>,
    piece: Vec<u8>,
    most: u32,
    progress: RequestProgress,
    is_due: bool,
}

impl Model for Intake {
    ghost use Rattle.std.specs.Prelude.{◌≡◌, ◌≤◌, ◌+◌, length, vec_len};
    ghost use Rattle.http_heads.specs.declared.limits.TheConstants.{MAX_HEAD_BYTES};
    ghost use Rattle.request_stream.specs.Progress.{IsReadUpTo};
    ghost use Rattle.console_http.specs.Readings.{Reading};
    ghost use Rattle.console_http.specs.declared.intake.TheConstants.{PIECE_BYTES};

    ghost Value = { Reading };

    ghost view = { λ intake. record {
      most = intake.most;
      unread = intake.unread.items;
      is_due = intake.is_due;
    } };

    ghost invariant = { λ intake. (length intake.piece.items ≡ PIECE_BYTES)
        × (length intake.unread.items ≤ intake.most + MAX_HEAD_BYTES + PIECE_BYTES)
        × IsReadUpTo intake.most intake.unread.items intake.progress };
}

// Puts the piece behind the others, or tells that the connection ends.
fn put_behind(unread: &mut Vec<u8>, piece: &[u8]) -> Option<ConnectionEnd>
    ensures { MatchOption result (unread.new.items ≡ unread.old.items ++ piece.now)
        (λ end. (end ≡ ConnectionEnd.Starved) × (unread.new.items ≡ unread.old.items)) }
{
    match unread.extend_from_slice(piece) {
        Ok(()) => None,
        Err(_) => Some(ConnectionEnd::Starved),
    }
}

// Receives the next bytes into the piece, and puts them behind the others.
fn receive_behind<A: Doors>(
    door: &mut A,
    unread: &mut Vec<u8>,
    piece: &mut [u8],
) -> Option<ConnectionEnd>
    requires some { 0 < length piece.old }
    requires opened { IsTrue A.tells → (A.state door.old).is_open ≡ true }
    ensures stays_open { IsTrue A.tells → (A.state door.new).is_open ≡ true }
    ensures few { length unread.new.items ≤ length unread.old.items + length piece.old }
    ensures grows { (more : List ℕ) × (unread.new.items ≡ unread.old.items ++ more) }
    ensures received { HasReceived A.Doors door.old unread.old.items
        door.new unread.new.items result }
{
    match door.recv(piece) {
        Ok(0) => Some(ConnectionEnd::AtItsEnd),
        Ok(count) => put_behind(unread, &piece[..count]),
        Err(error) => Some(end_by_error(error)),
    }
}

impl Intake {
    /// Makes the buffers. The content of a request may take at most `most` bytes.
    pub fn new(alloc: Global, most: u32) -> Result<Self, NoMemory>
        ensures { IfOk result (λ intake. intake ≡ fresh_reading most) }
    {
        Ok(Intake {
            unread: Vec::new(alloc),
            piece: vec![in alloc; 0; PIECE_BYTES]?,
            most,
            progress: RequestProgress::Unread,
            is_due: false,
        })
    }

    /// Forgets the connection before.
    pub(crate) fn clear(&mut self)
        ensures { self.new ≡ fresh_reading self.old.most }
    {
        self.unread.clear();
        self.progress = RequestProgress::Unread;
        self.is_due = false;
    }

    /// The request at the front, which is read on from where it was read before.
    pub(crate) fn next(&mut self, alloc: Global) -> NextRequest
        ensures same { self.new ≡ self.old }
        ensures next { IsNextRequest self.old.most self.old.unread result }
    {
        next_request(alloc, self.most, &self.unread, &mut self.progress)
    }

    /// The most bytes that the content of a request may take.
    pub(crate) fn most(&self) -> u32
        ensures { result ≡ self.now.most }
    {
        self.most
    }

    /// What came and was not answered yet.
    pub(crate) fn unread(&self) -> &[u8]
        ensures { result.now ≡ self.now.unread }
    {
        &self.unread
    }

    pub(crate) fn between(&self, from: usize, used: usize) -> &[u8]
        requires ordered { from ≤ used }
        requires within { used ≤ length self.now.unread }
        ensures { result.now ≡ slice_range self.now.unread from used }
    {
        &self.unread[from..used]
    }

    /// The request at the front was answered.
    pub(crate) fn take_off(&mut self, used: usize)
        requires { used ≤ length self.old.unread }
        ensures { self.new ≡ record self.old
            { unread = drop used self.old.unread; is_due = true } }
    {
        self.unread.drain(..used);
        self.progress = RequestProgress::Unread;
        self.is_due = true;
    }

    /// Whether a request was answered since it was last asked whether the run is finished.
    pub(crate) fn is_due(&self) -> bool
        ensures { result ≡ self.now.is_due }
    {
        self.is_due
    }

    pub(crate) fn settle(&mut self)
        ensures { self.new ≡ record self.old { is_due = false } }
    {
        self.is_due = false;
    }

    /// Receives the next bytes, or tells how the connection ends.
    pub(crate) fn receive<A: Doors>(&mut self, door: &mut A) -> Option<ConnectionEnd>
        requires few { length self.old.unread < MAX_HEAD_BYTES + self.old.most }
        requires opened { IsTrue A.tells → (A.state door.old).is_open ≡ true }
        ensures stays_open { IsTrue A.tells → (A.state door.new).is_open ≡ true }
        ensures same { self.new ≡ record self.old { unread = self.new.unread } }
        ensures received { HasReceived A.Doors door.old self.old.unread
            door.new self.new.unread result }
    {
        requests_are_one_and_stay();
        receive_behind(door, &mut self.unread, &mut self.piece)
    }
}
