// Laws. They do nothing when they run.
ghost use Rattle.offered_work.specs.WorkedTurns.{ActiveHaveOffers};

use claim_choices::free_choices_are_found;
use dl_history::{accounts_match_events, histories_are_sound};
use dl_kinds::plan_laws;
use engine_turns::active_downloads_are_going;
use machine_core::{accounts_match_runs, downloads_are_legal};
use mirror_blame::counting_is_stable;

/// Where no claim stands and nothing is to be opened, an active download has something to offer
/// behind the turns of a worker that works alone and wasn't short of memory.
pub fn active_have_offers()
    ensures { ActiveHaveOffers }
{
    plan_laws();
    counting_is_stable();
    accounts_match_events();
    histories_are_sound();
    downloads_are_legal();
    accounts_match_runs();
    active_downloads_are_going();
    free_choices_are_found();
}
