// The stop.
ghost use Rattle.std.specs.Prelude.{◌≡◌, IsTrue};
ghost use Rattle.std.specs.List.{list_any};
ghost use Rattle.engine_turns.specs.CallRows.{StopRow, stop_events};
ghost use Rattle.engine_turns.specs.Standings.{AnswersUnlessStarved};
ghost use Rattle.engine_turns.specs.declared.operations.Said.TheVariants.{Done};
ghost use Rattle.machine_core.specs.RunLegal.{is_stop};
ghost use Rattle.stored_run.specs.Leavings.{LeavesDisk};
ghost use Rattle.stored_run.specs.Saves.{TellsOnly};
ghost use Rattle.stored_run.specs.Steps.{DoesRow, RunStays};
ghost use Rattle.stored_run.specs.Writings.{KeepsPayloads};

use crate::StoredRun;
use crate::following::runs_follow;
use crate::sealing::done_unless_starved;
use dl_disk::Disk;
use dl_kinds::NoMemory;
use engine_turns::Said;

impl<D: Disk> StoredRun<D> {
    // The run stops, where it didn't before.
    fn tell_stop(&mut self)
        ensures { TellsOnly (stop_events (list_any is_stop self.old.machine.past))
            self.old self.new }
    {
        runs_follow();
        if !self.machine.has_stopped() {
            self.machine.stopped();
        }
    }

    /// The run stops: no claim stands any more, and the progress of each download that goes on is saved, in the order of
    /// adding; want of memory leaves out the rest.
    pub fn stop(&mut self) -> Said
        ensures row { DoesRow StopRow self.old (D.faults self.old.disk)
            self.new (D.faults self.new.disk) result }
        ensures on { RunStays self.old self.new }
        ensures leaves { IsTrue D.tells → LeavesDisk self.old self.new
            (D.state self.old.disk) (D.state self.new.disk) }
        ensures payloads { IsTrue D.tells → KeepsPayloads self.old
            (D.state self.old.disk) (D.state self.new.disk) }
    {
        runs_follow();
        self.tells_stored();
        self.tell_stop();
        self.tells_stored();
        match self.due_last() {
            Ok(due) => done_unless_starved(self.save_all(&due)),
            Err(NoMemory) => Said::NoMemory,
        }
    }
}
