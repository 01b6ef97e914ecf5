// What a worker is given next.
use dl_kinds::{Gid, Run};

/// What a download offers a worker.
#[derive(Clone, Copy, Debug, PartialEq, Eq)]
pub enum Offer {
    /// A full piece, to be found right or wrong.
    Whole {
        piece: u32,
    },
    /// Blocks, to be fetched of a mirror. `victim` is the claim that they are stolen of, where they are.
    Blocks {
        mirror: u16,
        run: Run,
        victim: Option<u64>,
    },
    /// The length of the payload, to be asked of a mirror.
    Probe {
        mirror: u16,
    },
}

/// What the active downloads offer a worker.
#[derive(Clone, Copy, Debug, PartialEq, Eq)]
pub enum Offered {
    Next { gid: Gid, offer: Offer },
    /// No offer is afforded. In so many milliseconds one is.
    Held { ms: u64 },
    /// There is no offer.
    Idle,
}
