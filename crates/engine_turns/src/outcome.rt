// How a part of a turn comes out.

/// How a part of a turn comes out.
#[derive(Clone, Copy, Debug, PartialEq, Eq)]
pub enum Outcome {
    /// All of it came.
    Went,
    /// The download ended.
    Over,
    /// Memory ran out.
    Starved,
}
