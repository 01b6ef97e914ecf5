// An engine as a desk serves it.
ghost use Rattle.engine_core.specs.Beginnings.{beginning_of, events_in, mark_of, stands_for, ties_run};
ghost use Rattle.engine_turns.specs.RunTurns.{IsLawfulOperation};

use crate::Engine;
use dl_disk::Disk;
use engine_turns::{Answer, Operation, turns_tell_runs};
use machine_core::Event;
use option_set::Options;
use std::marker::Model;
use stored_run::runs_follow;
use turn_desk::Served;

/// What a run begins with: what the gids of its downloads are made from, the global options, how many doors its console
/// has, and its disk. No value of it is made: it names what the turns of a run go by.
pub struct RunBeginning<D> {
    pub gids: u64,
    pub global: Options,
    pub doors: u16,
    pub disk: D,
}

impl<D> Model for RunBeginning<D> {
    ghost use Rattle.engine_core.specs.EngineViews.{EngineStart};

    ghost Value = { EngineStart D };

    ghost view = { λ b. record {
      run = record { gids = b.gids; global = b.global; doors = b.doors };
      disk = b.disk;
    } };
}

impl<D: Disk> Served for Engine<D> {
    type Start = RunBeginning<D>;

    type Op = Operation;

    type Answer = Answer;

    type Entry = Event;

    ghost is_lawful = { IsLawfulOperation };

    ghost start = { beginning_of };

    ghost entries = { events_in };

    ghost mark = { mark_of D.tells D.state D.faults };

    ghost relates = { ties_run };

    ghost stands = { stands_for D.tells D.state };

    fn serve(&mut self, op: Operation) -> Answer {
        runs_follow();
        turns_tell_runs();
        self.state.run.tells_stored();
        let from = self.state.run.machine().journal().len();
        let answer = self.state.perform(self.alloc, op);
        self.state.take_back(from);
        self.state.run.tells_stored();
        answer
    }
}
