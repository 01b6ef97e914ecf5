// What a worker has in hand between two turns.
use dl_kinds::{Blob, Gid, Mark, Run};
use fetch_session::{Fetch, FetchRoom, Loss};
use verify_piece::Sealed;

/// What the last step of a fetch came to.
#[derive(Drop)]
pub enum Gain {
    /// These blocks came, with their bytes. `last` tells that they are the last ones.
    Ready { run: Run, bytes: Blob, last: bool },
    /// The rest is lost, and this is held against the mirror.
    Lost { loss: Loss, mark: Mark },
    /// More is to come.
    Open,
    /// Memory ran out.
    Starved,
}

/// What a probe came to.
#[derive(Drop)]
pub enum ProbeEnd {
    /// The payload is so long.
    Told { total: u64 },
    /// Its length isn't told, and this is held against the mirror.
    Missed { loss: Loss, mark: Mark },
    /// Memory ran out.
    Lacking,
}

/// A fetch for a claim, of which no block is ready, and how many bytes it may take before more are asked for.
#[derive(Drop)]
pub(crate) struct OpenFetch {
    pub claim: u64,
    pub fetch: Fetch,
    pub left: u32,
}

/// A fetch and what its last step came to.
#[derive(Drop)]
pub(crate) struct FetchInHand {
    pub open_fetch: OpenFetch,
    pub gain: Gain,
}

/// A probe for a claim, and what it came to.
#[derive(Drop)]
pub(crate) struct ProbeInHand {
    pub claim: u64,
    pub end: ProbeEnd,
    pub room: FetchRoom,
}

/// The bytes of a piece with their digest.
#[derive(Drop)]
pub(crate) struct SealInHand {
    pub gid: Gid,
    pub sealed: Sealed,
    pub room: FetchRoom,
}

/// What a worker has in hand. The room of the fetches to come is in each.
#[derive(Drop)]
pub(crate) enum InHand {
    Nothing(FetchRoom),
    Fetches(FetchInHand),
    Probes(ProbeInHand),
    Seals(SealInHand),
}

/// What stays with a worker while its turn is taken.
#[derive(Drop)]
pub(crate) enum Waiting {
    /// The room alone, behind what the turn tells.
    Free(FetchRoom),
    /// The room alone, where the turn asks for work.
    WantsWork(FetchRoom),
    /// A fetch whose ready blocks are delivered. `last` tells that they are the last ones.
    Delivers { open_fetch: OpenFetch, last: bool },
    /// A fetch for which more bytes are asked for.
    Asks(OpenFetch),
}
