// What a chain reads with.
ghost use Rattle.std.specs.Prelude.{◌≤◌, vec_capacity};
ghost use Rattle.reply_reader.specs.declared.slices.TheConstants.{MAX_PIECE_BYTES};

use crate::inbox::Inbox;
use dl_kinds::{NoMemory, Text};
use reply_reader::MAX_PIECE_BYTES;
use std::alloc::Global;

/// Where the link is open.
#[derive(Debug, Drop)]
pub(crate) struct Peer {
    pub host: Text,
    pub port: u16,
}

/// What a chain reads with: its buffers are made once. It knows where the link is open, so that a chain goes on over the
/// connection of the one before.
#[derive(Debug, Drop)]
pub struct ChainRoom {
    pub(crate) inbox: Inbox,
    /// Where the bytes go that aren't wanted.
    pub(crate) dropped: Vec<u8>,
    /// Where the newest request went.
    pub(crate) peer: Option<Peer>,
    /// Whether its reply ended just where it was read, so that the connection may take another request.
    pub(crate) rests: bool,
    ghost roomy: { MAX_PIECE_BYTES ≤ vec_capacity dropped },
}

impl ChainRoom {
    ghost use Rattle.std.specs.Prelude.{◌≡◌, false, List, IfOk};
    ghost use Rattle.link_source.specs.Link.{LinkState};
    ghost use Rattle.link_source.specs.Exchanges.{Exchange};
    ghost use Rattle.request_chain.specs.Rests.{RestsOn, RestsWhole};

    pub fn new(alloc: Global) -> Result<Self, NoMemory>
        ensures rests { IfOk result (λ room. (link : LinkState) → RestsOn room link) }
        ensures whole { IfOk result
            (λ room. (exchanges : List Exchange) → RestsWhole room exchanges) }
    {
        Ok(ChainRoom {
            inbox: Inbox::new(alloc)?,
            dropped: Vec::with_capacity(alloc, MAX_PIECE_BYTES)?,
            peer: None,
            rests: false,
        })
    }

    /// Whether the connection may take another request.
    pub fn rests(&self) -> bool
        ensures { result ≡ self.now.rests }
    {
        self.rests
    }

    /// The room of a chain that begins on a connection of its own.
    pub fn without_connection(self) -> Self
        ensures rests { (link : LinkState) → RestsOn result link }
        ensures whole { (exchanges : List Exchange) → RestsWhole result exchanges }
    {
        let mut room = self;
        room.rests = false;
        room
    }

    /// Forgets the connection: the next chain begins on one of its own.
    pub fn leave_connection(&mut self)
        ensures rests { (link : LinkState) → RestsOn self.new link }
        ensures whole { (exchanges : List Exchange) → RestsWhole self.new exchanges }
        ensures rests_not { self.new.rests ≡ false }
    {
        self.rests = false;
    }
}
