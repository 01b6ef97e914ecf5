// Who gave the landed blocks of a piece.
ghost use Rattle.std.specs.Prelude.{◌≡◌};

/// Who gave the landed blocks of a piece.
#[derive(Clone, Copy, Debug, PartialEq, Eq)]
pub enum Giver {
    /// No block of the piece is landed.
    Nobody,
    /// They all came from this mirror.
    One(u16),
    /// They came from several mirrors, or not all from a known one.
    Mixed,
}

impl Giver {
    ghost use Rattle.piece_table.specs.Steps.{with_giver};

    /// Who gave them once a mirror gave one more.
    pub(crate) fn with(self, mirror: u16) -> Giver
        ensures { result ≡ with_giver self mirror }
    {
        match self {
            Giver::Nobody => Giver::One(mirror),
            Giver::One(other) if other == mirror => Giver::One(mirror),
            _ => Giver::Mixed,
        }
    }
}
