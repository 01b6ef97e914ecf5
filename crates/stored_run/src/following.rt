// What the steps of a run stand on.
ghost use Rattle.stored_run.specs.RunFollows.{RunFollows};

use dl_history::{accounts_match_events, histories_are_sound};
use durable_progress::{steps_hold, wants_are_apart};
use engine_turns::{active_downloads_are_going, downloads_go_on_once};
use machine_core::{downloads_are_legal, downloads_stay, wants_stay};

/// What the runs on a disk follow. It does nothing when it runs.
pub fn runs_follow()
    ensures { RunFollows }
{
    accounts_match_events();
    histories_are_sound();
    steps_hold();
    wants_are_apart();
    active_downloads_are_going();
    downloads_go_on_once();
    downloads_are_legal();
    downloads_stay();
    wants_stay();
}
