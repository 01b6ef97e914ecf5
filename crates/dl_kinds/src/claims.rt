// Claims of blocks, and what a choice among them looks at.
use crate::{Moment, Run};

/// The most mirrors of a download. They are numbered from 0.
pub const MAX_MIRRORS: u16 = 256;

/// Blocks that a worker has claimed of a mirror. `victim` is the claim that they were stolen of, where they were.
#[derive(Clone, Copy, Debug, PartialEq, Eq)]
pub struct Claim {
    pub id: u64,
    pub worker: u32,
    pub mirror: u16,
    pub run: Run,
    pub victim: Option<u64>,
    pub since: Moment,
}

/// How far a claim is: how many blocks of its run are landed and how many aren't, its own run, which no other claim is to
/// bring, and whether the later half of that may be stolen.
#[derive(Clone, Copy, Debug, PartialEq, Eq)]
pub struct ClaimView {
    pub id: u64,
    pub since: Moment,
    pub landed: u32,
    pub unlanded: u32,
    pub own: Run,
    pub able: bool,
}
