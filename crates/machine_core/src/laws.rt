// What holds of every legal history of a run.
ghost use Rattle.machine_core.specs.MachineViews.{NoneGoes, PlacesAreBehind, PlacesStay};
ghost use Rattle.machine_core.specs.Notices.{NoneIsDueAtEnd, NoticesGoOn, UptoIsWithin, WithinStays};
ghost use Rattle.machine_core.specs.RunLegal.{DownloadsAreLegal, DownloadsStay, KnownAreIdle, LengthsStay};
ghost use Rattle.machine_core.specs.RunSteps.{AccountsMatchRuns, OpenedHavePlans, StepsStayLegal};
ghost use Rattle.machine_core.specs.WorkedAnswers.{WorkedAnswers};
ghost use Rattle.machine_core.specs.WorkedNotices.{WorkedNotices};
ghost use Rattle.machine_core.specs.WorkedRuns.{WorkedRuns};
ghost use Rattle.std.specs.Prelude.{◌≡◌};
ghost use Rattle.machine_core.specs.declared.gids.TheConstants.{GID_STEP};
ghost use Rattle.machine_core.specs.declared.journal.TheConstants.{TURN_EVENTS};

use dl_history::{accounts_match_events, histories_are_sound};
use dl_kinds::plan_laws;

/// Each download's part of a legal history is a legal history of that download; so the claim that is chosen is one that
/// may be granted.
pub fn downloads_are_legal()
    ensures { DownloadsAreLegal }
{
    plan_laws();
    histories_are_sound();
    accounts_match_events();
}

/// Whatever list of steps follows on a legal history, each history on the way goes on from it and is legal.
pub fn steps_stay_legal()
    ensures { StepsStayLegal }
{}

/// In every legal history of a run, what is kept of each download is what its events say: its landed and verified blocks and
/// pieces, the claims that stand, what a save lists. The lengths of one that is opened are those of a plan.
pub fn accounts_match_runs()
    ensures plans { OpenedHavePlans }
    ensures accounts { AccountsMatchRuns }
{
    plan_laws();
    histories_are_sound();
    accounts_match_events();
}

/// A download whose length is known has no claim that stands until it is opened.
pub fn known_downloads_are_idle()
    ensures { KnownAreIdle }
{
    plan_laws();
    histories_are_sound();
    accounts_match_events();
}

/// A download stays what it was added as, and where it is in the order of adding, and its lengths stay once they are known.
pub fn downloads_stay()
    ensures downloads { DownloadsStay }
    ensures places { PlacesStay }
    ensures behind { PlacesAreBehind }
    ensures none { NoneGoes }
    ensures lengths { LengthsStay }
{
    plan_laws();
    histories_are_sound();
    accounts_match_events();
}

/// What the definitions say of the worked runs.
pub fn worked_runs_are_told()
    ensures { WorkedRuns }
{}

/// What the definitions say of the answers of calls in worked runs.
pub fn worked_answers_are_told()
    ensures { WorkedAnswers }
{}

/// What is told of notices from a place on, and then what is due from there, is what was due from the place and what came
/// since, whatever events came; and the place behind what is told is within the history, as it stays.
pub fn notices_go_on()
    ensures on { NoticesGoOn }
    ensures upto { UptoIsWithin }
    ensures stays { WithinStays }
    ensures end { NoneIsDueAtEnd }
{}

/// What the definitions say of the notices of worked runs.
pub fn worked_notices_are_told()
    ensures { WorkedNotices }
{}

/// The events that a turn needs room for, and what a made GID is multiplied by. It does nothing when it runs.
pub fn limits_are_told()
    ensures turn { TURN_EVENTS ≡ 256 }
    ensures step { GID_STEP ≡ 11400714819323198485 }
{}
