// The limits. The function does nothing when it runs.
ghost use Rattle.std.specs.Prelude.{◌≡◌};
ghost use Rattle.range_origin.specs.declared.sending.TheConstants.{PIECE_BYTES};

/// The most bytes that are read in one turn. It does nothing when it runs.
pub fn limits_are_told()
    ensures { PIECE_BYTES ≡ 65536 }
{}
