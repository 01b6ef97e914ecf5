// The limits as numbers.
ghost use Rattle.std.specs.Prelude.{◌≡◌};
ghost use Rattle.body_frames.specs.declared.line.TheConstants.{LINE_LIMIT};
ghost use Rattle.body_frames.specs.declared.phase.TheConstants.{TRAILER_LIMIT};

/// The most bytes of a line between chunks, and the most lines of trailers. It does nothing when it runs.
pub fn limits_are_told()
    ensures line { LINE_LIMIT ≡ 256 }
    ensures trailers { TRAILER_LIMIT ≡ 64 }
{}
