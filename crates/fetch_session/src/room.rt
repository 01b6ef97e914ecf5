// What a fetch reads with.
ghost use Rattle.std.specs.Prelude.{◌≡◌, ◌≤◌, List, vec_capacity, IfOk, IsTrue};
ghost use Rattle.std.specs.Option.{ForSome};
ghost use Rattle.fetch_session.specs.declared.room.TheConstants.{BUFFER};

use crate::blocks::MOST_READY;
use dl_kinds::{BLOCK_LEN, NoMemory};
use link_source::Links;
use part_readers::PartRooms;
use std::alloc::Global;

/// The bytes of the most blocks that are ready at once.
pub const BUFFER: usize = MOST_READY as usize * BLOCK_LEN as usize;

/// A buffer for those blocks.
pub fn make_buffer(alloc: Global) -> Result<Vec<u8>, NoMemory>
    ensures { IfOk result (λ buffer. BUFFER ≤ vec_capacity buffer) }
{
    Vec::with_capacity(alloc, BUFFER)
}

/// What a fetch reads with: the room of its requests, and two buffers for the most blocks each. The second one is missing
/// where a fetch handed it out and didn't get it back.
#[derive(Debug, Drop)]
pub struct FetchRoom {
    pub(crate) rooms: PartRooms,
    pub(crate) held: Vec<u8>,
    pub(crate) spare: Option<Vec<u8>>,
    ghost held_fits: { BUFFER ≤ vec_capacity held },
    ghost spare_fits: { ForSome spare (λ buffer. BUFFER ≤ vec_capacity buffer) },
}

impl FetchRoom {
    ghost use Rattle.link_source.specs.Link.{LinkState, closed};
    ghost use Rattle.link_source.specs.Exchanges.{Exchange};
    ghost use Rattle.fetch_session.specs.Fetches.{IsKeptBehindWhole, MayBegin};

    pub fn new(alloc: Global) -> Result<Self, NoMemory>
        ensures may { IfOk result (λ room. (link : LinkState) → MayBegin room link) }
        ensures whole { IfOk result
            (λ room. (exchanges : List Exchange) → IsKeptBehindWhole room exchanges) }
    {
        Ok(FetchRoom {
            rooms: PartRooms::new(alloc)?,
            held: make_buffer(alloc)?,
            spare: Some(make_buffer(alloc)?),
        })
    }

    /// Hangs the link up. The next fetch begins on a connection of its own.
    pub fn hang_up<L: Links>(self, link: &mut L) -> Self
        ensures closed { IsTrue L.tells → L.state link.new ≡ closed (L.state link.old) }
        ensures faults { L.faults link.new ≡ L.faults link.old }
        ensures may { (link : LinkState) → MayBegin result link }
        ensures whole { (exchanges : List Exchange) → IsKeptBehindWhole result exchanges }
    {
        link.hang_up();
        let FetchRoom { rooms, held, spare } = self;
        FetchRoom {
            rooms: rooms.without_connection(),
            held,
            spare,
        }
    }
}
