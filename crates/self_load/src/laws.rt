// What the run of a load is given, as numbers.
ghost use Rattle.self_load.specs.declared.inner.TheConstants.{GIDS};
ghost use Rattle.std.specs.Prelude.{◌≡◌};

/// What the ids of a load's downloads are made from. It does nothing when it runs.
pub fn limits_are_told()
    ensures gids { GIDS ≡ 1 }
{}
