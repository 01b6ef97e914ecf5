// Saves of several downloads, one after another.
ghost use Rattle.std.specs.Prelude.{◌≡◌, ◌≤◌, [], IsTrue, true};
ghost use Rattle.dl_history.specs.OwnLegal.{MaySave};
ghost use Rattle.engine_turns.specs.Phases.{SavePhase, SavesPhase};
ghost use Rattle.stored_run.specs.Leavings.{IsLeftHeldOf};
ghost use Rattle.stored_run.specs.Saves.{AreSavable, AreStoredApart, SavesDisk, TellsOnly};
ghost use Rattle.stored_run.specs.Steps.{DoesPart, RunStays, IsStoredApart, KeepsPayload, StoresGid};
ghost use Rattle.stored_run.specs.Views.{own_in};
ghost use Rattle.stored_run.specs.Writings.{SavesPayloads};

use crate::StoredRun;
use crate::following::runs_follow;
use dl_disk::Disk;
use dl_kinds::Gid;
use engine_turns::Outcome;

impl<D: Disk> StoredRun<D> {
    // Makes room for the events of a turn, where there is memory and the run hasn't had too many.
    fn make_room(&mut self) -> bool
        ensures same { TellsOnly [] self.old self.new }
        ensures room { result ≡ true → 1 ≤ self.new.machine.spare }
    {
        self.machine.reserve_turn().is_ok()
    }

    // Makes room, and saves the progress of a download.
    fn save_next(&mut self, gid: Gid) -> Outcome
        requires may { MaySave (own_in self.old gid) }
        requires stored { IsTrue D.tells → IsStoredApart self.old gid (D.state self.old.disk) }
        ensures did { DoesPart (λ at. SavePhase at gid) self.old (D.faults self.old.disk)
            self.new (D.faults self.new.disk) result }
        ensures on { RunStays self.old self.new }
        ensures wants { self.new.wants ≡ self.old.wants }
        ensures disk { IsTrue D.tells → StoresGid gid self.old self.new
            (D.state self.old.disk) (D.state self.new.disk) }
        ensures held { IsTrue D.tells → IsLeftHeldOf self.new gid (D.state self.new.disk) }
        ensures payload { IsTrue D.tells → KeepsPayload gid self.old
            (D.state self.old.disk) (D.state self.new.disk) }
    {
        runs_follow();
        self.tells_stored();
        if self.make_room() {
            self.save_one(gid)
        } else {
            Outcome::Starved
        }
    }

    // Saves the progress of these downloads, one after another. Want of memory leaves out the rest.
    pub(crate) fn save_all(&mut self, gids: &[Gid]) -> Outcome
        requires may { AreSavable self.old gids.now }
        requires stored { IsTrue D.tells
            → AreStoredApart self.old gids.now (D.state self.old.disk) }
        ensures did { DoesPart (λ at. SavesPhase at gids.now) self.old (D.faults self.old.disk)
            self.new (D.faults self.new.disk) result }
        ensures on { RunStays self.old self.new }
        ensures disk { IsTrue D.tells → SavesDisk gids.now self.old self.new
            (D.state self.old.disk) (D.state self.new.disk) }
        ensures payloads { IsTrue D.tells → SavesPayloads gids.now self.old
            (D.state self.old.disk) (D.state self.new.disk) }
    {
        runs_follow();
        self.tells_stored();
        for at in 0..gids.len() {
            self.tells_stored();
            let gid = gids[at];
            if let Outcome::Starved = self.save_next(gid) {
                return Outcome::Starved;
            }
        }
        Outcome::Went
    }
}
