// What is asked of a run, and what it answers.
use dl_kinds::{Blob, Gid, Mark, Moment, Run, Text};
use machine_core::{Call, Cursor, Notices};
use run_report::Reply;
use span_map::Job;
use verify_piece::Sealed;

/// What is asked of a run in a turn. A moment that is earlier than one before counts as the latest one.
#[derive(Drop)]
pub enum Operation {
    /// A call of a console session, or of the command line.
    Call {
        session: u32,
        call: Call,
        now: Moment,
    },
    /// A worker asks what it is to do.
    Next {
        worker: u32,
        now: Moment,
    },
    /// Blocks of a claim came.
    Deliver {
        claim: u64,
        run: Run,
        bytes: Blob,
        now: Moment,
    },
    /// A worker asks how many more bytes of its claim it may fetch.
    More {
        claim: u64,
        want: u32,
        now: Moment,
    },
    /// A claim failed.
    Lose {
        claim: u64,
        mark: Mark,
        now: Moment,
    },
    /// A probe told the length of its payload, in bytes.
    Sized {
        claim: u64,
        total: u64,
        now: Moment,
    },
    /// The bytes of a piece that was handed out, with their digest.
    Seal {
        gid: Gid,
        sealed: Sealed,
        now: Moment,
    },
    /// Asks whether anything is left to do.
    Pulse,
    /// Asks for the next notices from a place of the history on; without one, where the history ends.
    Notices {
        from: Option<Cursor>,
    },
    /// A door of the console closed.
    Leave,
    /// The run is to stop: no claim stands any more, and progress is saved.
    Stop {
        now: Moment,
    },
}

/// Blocks that a worker is to fetch for a claim, and how many bytes it may fetch before it asks for more.
#[derive(Drop)]
pub struct FetchGrant {
    pub claim: u64,
    pub gid: Gid,
    pub job: Job,
    pub allow: u32,
}

/// What a worker is to do.
#[derive(Drop)]
pub enum Grant {
    Fetch(FetchGrant),
    /// Ask a mirror, at this URL, how long the payload is.
    Probe { claim: u64, gid: Gid, url: Text },
    /// Compute the digest of these bytes of a full piece, and bring them back sealed.
    Hash { gid: Gid, piece: u32, bytes: Blob },
}

/// What an operation is answered.
#[derive(Drop)]
pub enum Said {
    /// The call's event stands at this place of the history, and its reply is that of the history before it, at the turn's
    /// moment. `starved` tells that a save was left out for want of memory.
    Replied {
        place: u32,
        reply: Reply,
        starved: bool,
    },
    Grant(Grant),
    /// So many blocks of the delivered run were counted, and so many had come before.
    Kept {
        counted: u32,
        repeated: u32,
    },
    Allow {
        bytes: u32,
    },
    /// Notices of the history, in order, and the place behind them.
    Notices {
        list: Notices,
        upto: Cursor,
    },
    /// The operation came too late, or isn't one of its claim or piece: nothing happened.
    Void,
    /// No bytes may be fetched for so many milliseconds.
    Hold {
        ms: u64,
    },
    /// There is nothing to do now.
    Idle,
    Done,
    /// Nothing is left to do.
    Finished,
    /// So many events came that no further operation is begun.
    JournalFull {
        count: u32,
    },
    NoMemory,
}

/// What an operation is answered, and the bytes that it brought.
#[derive(Drop)]
pub struct Answer {
    pub said: Said,
    pub back: Blob,
}
