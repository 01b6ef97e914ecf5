// What is taken of a claim.
use dl_kinds::Run;

/// Blocks that are taken of a claim.
#[derive(Clone, Copy, Debug, PartialEq, Eq)]
pub struct Steal {
    /// The claim that they are taken of.
    pub victim: u64,
    pub run: Run,
}
