// Claims of what was offered, and their open blocks.
ghost use Rattle.std.specs.Prelude.{◌≡◌, ◌≤◌, ◌<◌, ◌+◌, ◌^◌, IfOk, OnErr, OnOk, vec_capacity, vec_len};
ghost use Rattle.dl_history.specs.Accounts.{with_claim};
ghost use Rattle.machine_core.specs.Claiming.{AreOpenRuns, IsClaimAt, IsClaimUnder, KeepsMarkRoom, MayBeGivenClaim, StaysGiven};
ghost use Rattle.machine_core.specs.Journals.{room_in};
ghost use Rattle.machine_core.specs.MachineViews.{Appends, IsNext};
ghost use Rattle.machine_core.specs.RunLegal.{next_number};
ghost use Rattle.machine_core.specs.TurnRooms.{IsRoomierEntry, IsRoomierRun};

use crate::entries::Entry;
use crate::{Event, Journal, Machine};
use dl_history::{accounts_match_events, histories_are_sound};
use dl_kinds::{Claim, Gid, Moment, Run, plan_laws};
use one_download::{OneDownload, steps_match_events};
use piece_table::NewRuns;
use std::alloc::AllocError;

// Makes room for one more event, and for a claim and its home.
fn make_room(
    journal: &mut Journal,
    entry: &mut Entry,
    homes: &mut Vec<Gid>,
) -> Result<(), AllocError>
    ensures events { journal.new.events.items ≡ journal.old.events.items }
    ensures room { room_in journal.old ≤ room_in journal.new }
    ensures entry { IsRoomierEntry entry.old entry.new }
    ensures homes { homes.new.items ≡ homes.old.items }
    ensures ok_events { OnOk result (room_in journal.old + 1 ≤ room_in journal.new) }
    ensures ok_claim { OnOk result (1 ≤ entry.new.state.spare) }
    ensures ok_home { OnOk result (vec_len homes.new < vec_capacity homes.new) }
{
    journal.reserve_one()?;
    entry.state.reserve_claim()?;
    homes.reserve(1)
}

// A download is given a claim: blocks, or a probe until it is opened.
fn give(state: &mut OneDownload, claim: Claim)
    requires { MayBeGivenClaim state.old claim }
    ensures account { state.new.account ≡ with_claim state.old.account claim }
    ensures rest { StaysGiven state.old state.new }
{
    if state.is_opened() {
        state.granted(claim);
    } else {
        state.probed(claim);
    }
}

impl Machine {
    /// What a download offered is claimed by a worker: blocks, or with the empty run at 0 the length. The answer is
    /// the number of the claim. It takes the memory of its own event. An Err changes nothing but room.
    pub fn claimed(
        &mut self,
        gid: Gid,
        worker: u32,
        mirror: u16,
        run: Run,
        victim: Option<u64>,
        now: Moment,
    ) -> Result<u64, AllocError>
        requires { IsNext self.old (IsClaimAt gid worker mirror run victim now) }
        ensures event { IfOk result (λ id.
            Appends self.old self.new (IsClaimUnder id gid worker mirror run victim now)) }
        ensures number { IfOk result (λ id. id ≡ next_number self.old.past) }
        ensures room { self.old.spare ≤ self.new.spare }
        ensures mark_room { KeepsMarkRoom self.old self.new }
        ensures same { OnErr result (IsRoomierRun self.old self.new) }
    {
        plan_laws();
        histories_are_sound();
        accounts_match_events();
        steps_match_events();
        let place = self.place(gid).unwrap();
        make_room(&mut self.journal, &mut self.entries[place], &mut self.homes)?;
        let id = self.homes.len() as u64;
        let claim = Claim {
            id,
            worker,
            mirror,
            run,
            victim,
            since: now,
        };
        let entry = &mut self.entries[place];
        entry.options.values_are_within();
        give(&mut entry.state, claim);
        self.homes.push_reserved(gid);
        self.journal.add(Event::Claimed { gid, claim });
        Ok(id)
    }

    /// The blocks of a run, of at most 64, that are open in the claim that stands under a number: none, where none stands.
    pub fn new_blocks(&self, claim: u64, run: Run) -> NewRuns
        requires few { run.count ≤ 64 }
        requires bounded { run.first + run.count < 2 ^ 32 }
        ensures { AreOpenRuns self.now claim run result }
    {
        plan_laws();
        histories_are_sound();
        accounts_match_events();
        steps_match_events();
        let entries = &self.entries;
        let Some((gid, _)) = self.claim(claim) else {
            return NewRuns::new();
        };
        let place = self.place(gid).unwrap();
        entries[place].state.open_runs(claim, run)
    }
}
