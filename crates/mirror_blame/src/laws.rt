// Laws of the definitions.
ghost use Rattle.mirror_blame.specs.Laws.{CountedAreTries, CountedGiveTries, CountedCount};

/// Over every list of marks: leaving out those that don't count changes no try, and all that are left count.
pub fn counting_is_stable()
    ensures tries { CountedAreTries }
    ensures same { CountedGiveTries }
    ensures again { CountedCount }
{}
