// What a repair counts.
ghost use Rattle.std.specs.Prelude.{◌≡◌, ℕ, ◌+◌, ◌^◌, ◌<◌};
ghost use Rattle.payload_repair.specs.Counting.{AreSmall, plus, no_counts};

/// What is counted of a payload: its pieces, those that were right before, those that were not and are repaired, and the
/// blocks that are written into these.
#[derive(Clone, Copy, Debug, PartialEq, Eq)]
pub struct Counts {
    pub pieces: u32,
    pub right: u32,
    pub repaired: u32,
    pub blocks: u32,
}

impl Counts {
    /// Those of no pieces.
    pub(crate) fn none() -> Self
        ensures { result ≡ no_counts }
    {
        Counts {
            pieces: 0,
            right: 0,
            repaired: 0,
            blocks: 0,
        }
    }

    /// Those of two parts of a payload.
    pub(crate) fn plus(self, other: Counts) -> Self
        requires { AreSmall (plus self other) }
        ensures { result ≡ plus self other }
    {
        Counts {
            pieces: self.pieces + other.pieces,
            right: self.right + other.right,
            repaired: self.repaired + other.repaired,
            blocks: self.blocks + other.blocks,
        }
    }
}
