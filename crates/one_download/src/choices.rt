// What a download is granted next.
use dl_kinds::Run;

/// How the blocks of a payload are split among claims.
#[derive(Clone, Copy, Debug, PartialEq, Eq)]
pub struct Split {
    /// How many claims the payload is split into.
    pub claims: u16,
    /// How many claims may stand on a host.
    pub per_host: u16,
    /// The least blocks of a claim, where a stretch has so many.
    pub min_blocks: u32,
}

/// Blocks for a claim, and the mirror that is to give them. `victim` is the claim that they are stolen of, where they
/// are.
#[derive(Clone, Copy, Debug, PartialEq, Eq)]
pub struct Choice {
    pub run: Run,
    pub mirror: u16,
    pub victim: Option<u64>,
}
