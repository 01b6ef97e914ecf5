// The events of a run.
use crate::{Call, End};
use bit_rows::BitRow;
use dl_kinds::{Claim, Gid, Mark, Moment, Run};
use piece_table::Giver;

/// What happened. An event tells what is known of it without the events before it.
#[derive(Debug, Drop)]
pub enum Event {
    Called {
        session: u32,
        call: Call,
        now: Moment,
    },
    Opened {
        gid: Gid,
        verified: BitRow,
        blocks: BitRow,
        now: Moment,
    },
    /// A probe told the length of the payload.
    Sized {
        gid: Gid,
        claim: u64,
        total: u64,
    },
    Claimed {
        gid: Gid,
        claim: Claim,
    },
    /// Blocks of a claim came from its mirror.
    Landed {
        gid: Gid,
        claim: u64,
        mirror: u16,
        run: Run,
        now: Moment,
    },
    /// A full piece was found right or wrong; its blocks came from this giver.
    Settled {
        gid: Gid,
        piece: u32,
        right: bool,
        giver: Giver,
    },
    /// The blocks of a piece went.
    Cleared {
        gid: Gid,
        piece: u32,
    },
    /// A claim failed, at its first open block, which is of this piece.
    Lost {
        gid: Gid,
        claim: u64,
        mirror: u16,
        piece: u32,
        mark: Mark,
    },
    /// The whole payload was found right or wrong.
    Checked {
        gid: Gid,
        right: bool,
    },
    Saved {
        gid: Gid,
        now: Moment,
    },
    Ended {
        gid: Gid,
        end: End,
    },
    /// A door of the console closed.
    Left,
    /// The run stops: no claim stands any more.
    Stopped,
}
