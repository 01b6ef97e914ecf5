// The order in which a writer wants pieces in flight.
ghost use Rattle.std.specs.Prelude.{◌↔◌, true, map, All, Contains, IsTrue};
ghost use Rattle.std.specs.List.Sorted.{IsStrictlyIncreasing};
ghost use Rattle.control_file.specs.Spelling.{IsInOrder};

use crate::{Control, InFlight};

fn ascends(pieces: &[InFlight]) -> bool
    ensures { IsTrue result ↔ IsStrictlyIncreasing (map (λ piece. piece.index) pieces.now) }
{
    for i in 1..pieces.len() {
        if pieces[i - 1].index >= pieces[i].index {
            return false;
        }
    }
    true
}

fn each_has_blocks(pieces: &[InFlight]) -> bool
    ensures { IsTrue result ↔ All (λ piece. Contains piece.blocks true) pieces.now }
{
    for piece in pieces {
        if piece.blocks.count_ones() == 0 {
            return false;
        }
    }
    true
}

impl Control {
    /// Whether the pieces in flight are as `write` wants them: in the order of their numbers, each with a block that has
    /// come.
    pub fn is_in_order(&self) -> bool
        ensures { IsTrue result ↔ IsInOrder self.now }
    {
        ascends(self.flight.items()) && each_has_blocks(self.flight.items())
    }
}
