// What comes of a connection.
ghost use Rattle.std.specs.Prelude.{◌≡◌, ◌<◌, ◌≤◌, ◌+◌, ◌==◌, length, drop, false, true, IfOk, IsTrue};
ghost use Rattle.std.specs.List.{list_any};
ghost use Rattle.http_heads.specs.AskHeads.{IfWholeAsk, IsAskHead, IsAskUnfinished, IsNoAskHead};
ghost use Rattle.http_heads.specs.declared.ask_head.AskRead.TheVariants.{Bad, More};
ghost use Rattle.http_heads.specs.declared.limits.TheConstants.{MAX_HEAD_BYTES};
ghost use Rattle.range_origin.specs.Conversations.{HasReceived, HasTakenIn, fresh_reading};
ghost use Rattle.range_origin.specs.declared.intake.TheConstants.{LINE_FEED};

use crate::ends::{VisitEnd, visit_end_by};
use dl_kinds::NoMemory;
use door_source::{Doors, newest_connection_is_one};
use http_heads::{AskRead, MAX_HEAD_BYTES, read_ask_head};
use std::alloc::Global;
use std::marker::Model;

/// The most bytes that are received at once.
const RECEIVED_BYTES: usize = 65_536;

/// The last byte of each line.
const LINE_FEED: u8 = b'\n';

/// What came of a connection and was not answered yet, and the buffers for it, which serve one connection behind another. At
/// most so many bytes wait as the longest head and one piece have together.
#[derive(Debug, Drop)]
pub(crate) struct Intake {
    unread: Vec<u8>,
    piece: Vec<u8>,
    is_due: bool,
    is_over: bool,
}

impl Model for Intake {
    ghost use Rattle.std.specs.Prelude.{◌≡◌, ◌<◌, ◌≤◌, ◌+◌, length, false};
    ghost use Rattle.http_heads.specs.declared.limits.TheConstants.{MAX_HEAD_BYTES};
    ghost use Rattle.range_origin.specs.Conversations.{Reading};
    ghost use Rattle.range_origin.specs.declared.intake.TheConstants.{RECEIVED_BYTES};

    ghost Value = { Reading };

    ghost view = { λ intake. record {
      unread = intake.unread.items;
      is_due = intake.is_due;
      is_over = intake.is_over;
    } };

    ghost invariant = { λ intake. (length intake.piece.items ≡ RECEIVED_BYTES)
        × (length intake.unread.items ≤ MAX_HEAD_BYTES + RECEIVED_BYTES)
        × (intake.is_due ≡ false → length intake.unread.items < MAX_HEAD_BYTES) };
}

// Whether a line ends in the bytes. A head ends with a line, so that it pays to look for one then.
fn ends_line(bytes: &[u8]) -> bool
    ensures { result ≡ list_any (λ byte. byte == LINE_FEED) bytes.now }
{
    bytes.iter().any(|byte| *byte == LINE_FEED)
}

// Receives the next bytes, and puts them behind the others. Tells how the connection ends, or how many came.
fn receive_behind<A: Doors>(
    door: &mut A,
    unread: &mut Vec<u8>,
    piece: &mut [u8],
) -> Result<usize, VisitEnd>
    requires some { 0 < length piece.old }
    requires opened { IsTrue A.tells → (A.state door.old).is_open ≡ true }
    ensures stays_open { IsTrue A.tells → (A.state door.new).is_open ≡ true }
    ensures few { length unread.new.items ≤ length unread.old.items + length piece.old }
    ensures bound { IfOk result (λ count. count ≤ length piece.new) }
    ensures received { HasTakenIn A.Doors door.old unread.old.items door.new unread.new.items result }
{
    newest_connection_is_one();
    match door.recv(piece) {
        Ok(count) => match unread.extend_from_slice(&piece[..count]) {
            Ok(()) => Ok(count),
            Err(_) => Err(VisitEnd::Starved),
        },
        Err(error) => Err(visit_end_by(error)),
    }
}

impl Intake {
    /// Makes the buffers.
    pub(crate) fn new(alloc: Global) -> Result<Self, NoMemory>
        ensures { IfOk result (λ intake. intake ≡ fresh_reading) }
    {
        Ok(Intake {
            unread: Vec::new(alloc),
            piece: vec![in alloc; 0; RECEIVED_BYTES]?,
            is_due: false,
            is_over: false,
        })
    }

    /// Forgets the connection before.
    pub(crate) fn clear(&mut self)
        ensures { self.new ≡ fresh_reading }
    {
        self.unread.clear();
        self.is_due = false;
        self.is_over = false;
    }

    /// The head at the front.
    pub(crate) fn next(&self, alloc: Global) -> AskRead
        ensures whole { IfWholeAsk result (IsAskHead self.now.unread) }
        ensures within { IfWholeAsk result (λ _ used. used ≤ length self.now.unread) }
        ensures more { result ≡ More → IsAskUnfinished self.now.unread }
        ensures bad { result ≡ Bad → IsNoAskHead self.now.unread }
    {
        read_ask_head(alloc, &self.unread)
    }

    /// The request at the front was answered.
    pub(crate) fn take_off(&mut self, used: usize)
        requires { used ≤ length self.old.unread }
        ensures { self.new ≡ record self.old
            { unread = drop used self.old.unread; is_due = true } }
    {
        self.unread.drain(..used);
        self.is_due = true;
    }

    pub(crate) fn is_due(&self) -> bool
        ensures { result ≡ self.now.is_due }
    {
        self.is_due
    }

    pub(crate) fn is_over(&self) -> bool
        ensures { result ≡ self.now.is_over }
    {
        self.is_over
    }

    /// No whole head stands at the front.
    pub(crate) fn settle(&mut self)
        requires { length self.old.unread < MAX_HEAD_BYTES }
        ensures { self.new ≡ record self.old { is_due = false } }
    {
        self.is_due = false;
    }

    /// Receives the next bytes, or tells how the connection ends.
    pub(crate) fn receive<A: Doors>(&mut self, door: &mut A) -> Option<VisitEnd>
        requires settled { self.old.is_due ≡ false }
        requires opened { IsTrue A.tells → (A.state door.old).is_open ≡ true }
        ensures stays_open { IsTrue A.tells → (A.state door.new).is_open ≡ true }
        ensures received { HasReceived A.Doors door.old self.old door.new self.new result }
    {
        match receive_behind(door, &mut self.unread, &mut self.piece) {
            Ok(count) => {
                self.is_over = count == 0;
                self.is_due = self.is_over
                    || self.unread.len() >= MAX_HEAD_BYTES
                    || ends_line(&self.piece[..count]);
                None
            }
            Err(end) => Some(end),
        }
    }
}
