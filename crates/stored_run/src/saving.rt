// Saves of progress.
ghost use Rattle.std.specs.Prelude.{◌≡◌, ◌≤◌, IsTrue};
ghost use Rattle.dl_history.specs.OwnLegal.{MaySave};
ghost use Rattle.engine_turns.specs.Phases.{SavePhase};
ghost use Rattle.stored_run.specs.Leavings.{IsLeftHeldOf, IsLeftOf};
ghost use Rattle.stored_run.specs.Steps.{Continues, DoesPart, IsStoredApart, KeepsPayload, StoresGid};
ghost use Rattle.stored_run.specs.Views.{own_in};

use crate::StoredRun;
use crate::following::runs_follow;
use crate::run::want_of;
use dl_disk::Disk;
use dl_kinds::Gid;
use durable_progress::save_held;
use engine_turns::Outcome;
use machine_core::End;
use resume_core::StoreErr;

impl<D: Disk> StoredRun<D> {
    // Saves the progress of a download that is opened and hasn't ended. A fault of the disk ends it.
    pub(crate) fn save_one(&mut self, gid: Gid) -> Outcome
        requires may { MaySave (own_in self.old gid) }
        requires room { 1 ≤ self.old.machine.spare }
        requires stored { IsTrue D.tells → IsStoredApart self.old gid (D.state self.old.disk) }
        ensures did { DoesPart (λ at. SavePhase at gid) self.old (D.faults self.old.disk)
            self.new (D.faults self.new.disk) result }
        ensures on { Continues 1 self.old self.new }
        ensures wants { self.new.wants ≡ self.old.wants }
        ensures disk { IsTrue D.tells → StoresGid gid self.old self.new
            (D.state self.old.disk) (D.state self.new.disk) }
        ensures left { IsTrue D.tells → IsLeftOf self.new gid (D.state self.new.disk) }
        ensures held { IsTrue D.tells → IsLeftHeldOf self.new gid (D.state self.new.disk) }
        ensures payload { IsTrue D.tells → KeepsPayload gid self.old
            (D.state self.old.disk) (D.state self.new.disk) }
    {
        runs_follow();
        let want = want_of(&self.machine, &self.wants, gid).unwrap();
        let table = self.machine.table(gid).unwrap();
        match save_held(self.alloc, &mut self.disk, want, table) {
            Ok(()) => {
                self.machine.saved(gid, self.now);
                Outcome::Went
            }
            Err(StoreErr::Disk) => {
                let count = self.disk.faults();
                self.machine.ended(gid, End::Disk { count });
                Outcome::Over
            }
            Err(StoreErr::NoMemory) => Outcome::Starved,
        }
    }
}
