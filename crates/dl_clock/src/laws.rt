// The limits as numbers.
ghost use Rattle.std.specs.Prelude.{◌≡◌};
ghost use Rattle.dl_clock.specs.declared.clock.TheConstants.{LATEST_MOMENT};

/// The latest moment, in milliseconds. It does nothing when it runs.
pub fn limits_are_told()
    ensures { LATEST_MOMENT ≡ 4611686018427387903 }
{}
