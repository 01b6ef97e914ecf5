// What holds of the turns of every run.
ghost use Rattle.engine_turns.specs.Faults.{CountsNeverFall, RisesAreTold};
ghost use Rattle.engine_turns.specs.RunLaws.{ActiveAreGoing, EndedAreGone, GoneStay, InactiveAreIdle};
ghost use Rattle.engine_turns.specs.TurnLaws.{HandedAreActive, MomentsNeverFall, TurnsAppend};
ghost use Rattle.engine_turns.specs.WorkedTurns.{WorkedRows, WorkedTurns};
ghost use Rattle.std.specs.Prelude.{◌≡◌};
ghost use Rattle.engine_turns.specs.declared.limits.TheConstants.{MAX_ALLOWANCE, MAX_DELIVERY, MAX_ENTRIES};

/// Turns append their events to the history; the pieces that they hand out are of active downloads; the moment of a turn is
/// that of no earlier one at least. It does nothing when it runs.
pub fn turns_tell_runs()
    ensures appended { TurnsAppend }
    ensures handed { HandedAreActive }
    ensures moments { MomentsNeverFall }
{}

/// What the definitions say of the worked turns.
pub fn worked_turns_are_told()
    ensures handed { WorkedTurns }
    ensures rows { WorkedRows }
{}

/// A download that ended is never active again, and no claim stands of one that isn't active. It does nothing when it runs.
pub fn active_downloads_are_going()
    ensures going { ActiveAreGoing }
    ensures idle { InactiveAreIdle }
{}

/// A download goes on until it ends or is removed, and never again. It does nothing when it runs.
pub fn downloads_go_on_once()
    ensures gone { GoneStay }
    ensures ended { EndedAreGone }
{}

/// A fault of the disk isn't passed over: where the disk's count of faults rose in a turn, the end of a download tells the
/// count as it is behind it. None is told above it. It does nothing when it runs.
pub fn faults_are_told()
    ensures rises { RisesAreTold }
    ensures within { CountsNeverFall }
{}

/// The most events of a run, the most blocks of a delivery, and the most bytes let go at once. It does nothing when it runs.
pub fn limits_are_told()
    ensures entries { MAX_ENTRIES ≡ 16777216 }
    ensures delivery { MAX_DELIVERY ≡ 64 }
    ensures allowance { MAX_ALLOWANCE ≡ 1048576 }
{}
