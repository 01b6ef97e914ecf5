// A mark with its mirror and piece.
use dl_kinds::Mark;

/// A mark that a mirror has for a piece.
#[derive(Clone, Copy, Debug, PartialEq, Eq)]
pub struct Blame {
    pub mirror: u16,
    pub piece: u32,
    pub mark: Mark,
}
