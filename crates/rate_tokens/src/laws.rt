// Laws of a bucket over every list of its calls.
ghost use Rattle.rate_tokens.specs.Level.{LevelsFollowCalls};
ghost use Rattle.rate_tokens.specs.Rates.{RateIsKept, WaitIsEnough, WaitIsLeast, WaitTakesNothing};

/// Over every list of calls: as long as the rate stays, what goes in a time is at most the capacity and what the rate gives
/// in that time.
pub fn rate_is_kept()
    ensures { RateIsKept }
{}

/// Over every list of calls: a take that has to wait is told the least time after which a byte may go, and takes nothing.
pub fn waits_are_exact()
    ensures enough { WaitIsEnough }
    ensures least { WaitIsLeast }
    ensures nothing { WaitTakesNothing }
{}

/// Over every list of calls: what a bucket's level tells is what the list of its calls tells.
pub fn levels_follow_calls()
    ensures { LevelsFollowCalls }
{}
