// A worker between two turns.
ghost use Rattle.std.specs.Prelude.{IfOk};
ghost use Rattle.conn_worker.specs.Holding.{IsNewState};

use crate::hands::InHand;
use crate::parts::Part;
use dl_kinds::{Moment, NoMemory};
use fetch_session::FetchRoom;
use std::alloc::Global;

/// What the next turn of a worker goes by: what it has in hand, its moment, and how many bytes the next step of a fetch takes.
#[derive(Drop)]
pub struct WorkState {
    pub(crate) alloc: Global,
    pub(crate) worker: u32,
    pub(crate) moment: Moment,
    pub(crate) part: Part,
    // There between two turns.
    pub(crate) hand: Option<InHand>,
}

impl WorkState {
    /// A worker of this number that has nothing in hand. It takes the room of one fetch.
    pub fn new(alloc: Global, worker: u32) -> Result<Self, NoMemory>
        ensures { IfOk result (IsNewState worker) }
    {
        let room = FetchRoom::new(alloc)?;
        Ok(WorkState {
            alloc,
            worker,
            moment: Moment(0),
            part: Part::first(),
            hand: Some(InHand::Nothing(room)),
        })
    }
}
