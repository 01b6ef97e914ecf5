// Whether a download has all that it is to have.
ghost use Rattle.std.specs.Prelude.{◌≡◌, ◌≤◌, length, MatchBool, option_copied};
ghost use Rattle.std.specs.Option.{option_map};
ghost use Rattle.machine_core.specs.Done.{IsDoneGid, IsRowWithin};
ghost use Rattle.machine_core.specs.Reads.{IsOpenedGid};
ghost use Rattle.machine_core.specs.RunLegal.{download_in};
ghost use Rattle.machine_core.specs.Starts.{Download};

use crate::Machine;
use bit_rows::BitRow;
use dl_history::{accounts_match_events, histories_are_sound};
use dl_kinds::{Gid, plan_laws};
use one_download::{OneDownload, steps_match_events};
use option_set::Options;

// Whether each piece that a download wants is true in a row.
fn are_wanted_in(state: &OneDownload, row: &BitRow) -> bool
    requires { length state.now.wanted ≡ length row.now }
    ensures { MatchBool result (IsRowWithin state.now.wanted row.now)
        (¬ IsRowWithin state.now.wanted row.now) }
{
    for piece in 0..row.len() {
        if state.is_wanted(piece) && !row.get(piece) {
            return false;
        }
    }
    true
}

impl Machine {
    /// Whether each wanted piece of a download that is opened is verified.
    pub fn is_done(&self, gid: Gid) -> bool
        requires { IsOpenedGid self.now gid }
        ensures { MatchBool result (IsDoneGid self.now gid) (¬ IsDoneGid self.now gid) }
    {
        plan_laws();
        histories_are_sound();
        accounts_match_events();
        steps_match_events();
        let entries = &self.entries;
        let place = self.place(gid).unwrap();
        let state = &entries[place].state;
        let table = state.table().unwrap();
        are_wanted_in(state, table.verified())
    }

    /// The options that a download began with.
    pub fn begun(&self, gid: Gid) -> Option<&Options>
        ensures { option_copied result ≡ option_map (λ (download : Download). download.options)
            (download_in self.now.start self.now.past gid) }
    {
        self.queue.options(gid)
    }
}
