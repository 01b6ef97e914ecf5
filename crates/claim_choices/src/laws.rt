// Where work is left, a claim can be chosen.
ghost use Rattle.claim_choices.specs.Found.{BlockChoicesAreFound, FreeClaimsAreFound, ProbeMirrorsAreFound};

/// Where no claim stands, a block that is to come is free, and a mirror with a try left for its piece may
/// give it. So there is a free claim; and there is a mirror to probe where one has a try left for that.
pub fn free_choices_are_found()
    ensures claims { FreeClaimsAreFound }
    ensures choices { BlockChoicesAreFound }
    ensures probes { ProbeMirrorsAreFound }
{}
