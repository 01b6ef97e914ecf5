// How much work a download may take.
ghost use Rattle.work_bounds.specs.BoundLaws.{ClaimsAreBounded, ClaimsEnd, ClearsAreBounded, EventsAreBounded, MarksAreTries};
ghost use Rattle.work_bounds.specs.SavesDue.{UnsavedHaveNews};
ghost use Rattle.work_bounds.specs.WorkedBounds.{WorkedBounds};

use dl_history::{accounts_match_events, histories_are_sound};
use dl_kinds::plan_laws;
use machine_core::{accounts_match_runs, downloads_stay};
use mirror_blame::counting_is_stable;

/// No mirror has more marks for a piece than tries: none of its claims is granted or stands there once they are used.
pub fn marks_are_tries()
    ensures { MarksAreTries }
{
    plan_laws();
    histories_are_sound();
    accounts_match_events();
    accounts_match_runs();
    downloads_stay();
    counting_is_stable();
}

/// A piece is cleared at most once for each try of each mirror, and once more as one that several mirrors gave.
pub fn pieces_are_cleared_seldom()
    ensures { ClearsAreBounded }
{
    plan_laws();
    histories_are_sound();
    accounts_match_events();
    accounts_match_runs();
    downloads_stay();
    counting_is_stable();
}

/// A claim that stands no more brought blocks, failed, told a length or was halted. So there are at most as many claims
/// as blocks may land and mirrors may fail, one that tells the length, one that stands, and one for each pause.
pub fn claims_are_bounded()
    ensures bound { ClaimsAreBounded }
    ensures ends { ClaimsEnd }
{
    plan_laws();
    histories_are_sound();
    accounts_match_events();
    accounts_match_runs();
    downloads_stay();
    counting_is_stable();
}

/// A download has at most so many events, where each save has news to list; halts with their saves, and checks of the
/// whole payload, come on top.
pub fn histories_are_bounded()
    ensures events { EventsAreBounded }
    ensures news { UnsavedHaveNews }
{
    plan_laws();
    histories_are_sound();
    accounts_match_events();
    accounts_match_runs();
    downloads_stay();
    counting_is_stable();
}

/// What the definitions say of a worked history.
pub fn worked_bounds_are_told()
    ensures { WorkedBounds }
{}
