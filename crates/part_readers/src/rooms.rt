// What readers of parts are made with.
use dl_kinds::NoMemory;
use ftp_link::FtpRoom;
use request_chain::ChainRoom;
use std::alloc::Global;

/// What readers of parts are made with, one after the other: the buffers of requests, which know where the link is open, and
/// those of dialogues.
#[derive(Debug, Drop)]
pub struct PartRooms {
    pub(crate) chain: ChainRoom,
    pub(crate) ftp: FtpRoom,
}

impl PartRooms {
    ghost use Rattle.std.specs.Prelude.{◌≡◌, List, IfOk};
    ghost use Rattle.link_source.specs.Link.{LinkState};
    ghost use Rattle.link_source.specs.Exchanges.{Exchange};
    ghost use Rattle.request_chain.specs.Rests.{RestsOn, RestsWhole};

    pub fn new(alloc: Global) -> Result<Self, NoMemory>
        ensures rests { IfOk result (λ rooms. (link : LinkState) → RestsOn rooms.chain link) }
        ensures whole { IfOk result
            (λ rooms. (exchanges : List Exchange) → RestsWhole rooms.chain exchanges) }
    {
        Ok(PartRooms {
            chain: ChainRoom::new(alloc)?,
            ftp: FtpRoom::new(alloc)?,
        })
    }

    /// Whether the connection may take another request.
    pub fn rests(&self) -> bool
        ensures { result ≡ self.now.chain.rests }
    {
        self.chain.rests()
    }

    /// The rooms of a reader that begins on a connection of its own.
    pub fn without_connection(self) -> Self
        ensures rests { (link : LinkState) → RestsOn result.chain link }
        ensures whole { (exchanges : List Exchange) → RestsWhole result.chain exchanges }
    {
        let PartRooms { chain, ftp } = self;
        PartRooms {
            chain: chain.without_connection(),
            ftp,
        }
    }
}
