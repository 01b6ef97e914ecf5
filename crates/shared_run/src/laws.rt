// The limits as numbers.
ghost use Rattle.std.specs.Prelude.{◌≡◌};
ghost use Rattle.shared_run.specs.declared.limits.TheConstants.{MAX_DOORS, MAX_LINKS};

/// The most links and doors of a run. It does nothing when it runs.
pub fn limits_are_told()
    ensures links { MAX_LINKS ≡ 64 }
    ensures doors { MAX_DOORS ≡ 16 }
{}
