// Laws of claims.
ghost use Rattle.segment_claim.specs.Laws.{StealsAreOfClaims, StealsHaveMirrors};
ghost use Rattle.std.specs.Prelude.{◌≡◌};
ghost use Rattle.segment_claim.specs.declared.limits.TheConstants.{MAX_SPLIT};

/// What is stolen by the views of the standing claims is some blocks of one of them, and a mirror is found for it.
/// It does nothing when it runs.
pub fn steals_are_of_claims()
    ensures claims { StealsAreOfClaims }
    ensures mirrors { StealsHaveMirrors }
{}

/// The most claims of a download at once. It does nothing when it runs.
pub fn limits_are_told()
    ensures { MAX_SPLIT ≡ 64 }
{}
