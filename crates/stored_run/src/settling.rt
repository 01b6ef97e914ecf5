// Pieces are found right or wrong.
ghost use Rattle.std.specs.Prelude.{◌≡◌, ◌≢◌, ◌≤◌, false, IsTrue, true};
ghost use Rattle.engine_turns.specs.Phases.{DeadPhase, FindingPhase, SettlingPhase, UnlistingPhase, WrongPhase, JustEvent};
ghost use Rattle.engine_turns.specs.declared.outcome.Outcome.TheVariants.{Went};
ghost use Rattle.machine_core.specs.MachineViews.{IsFindingOf, IsNext, mark_spare_in};
ghost use Rattle.machine_core.specs.Reads.{IsPieceUnlisted};
ghost use Rattle.machine_core.specs.declared.events.Event.TheVariants.{Cleared};
ghost use Rattle.stored_run.specs.Leavings.{IsLeftOf};
ghost use Rattle.stored_run.specs.Settlings.{HasItsDigest, IsFoundWrong, OfDownload};
ghost use Rattle.stored_run.specs.Steps.{Continues, DoesPart, KeepsPayload, StoresGid};
ghost use Rattle.stored_run.specs.Views.{IsGoing};

use crate::StoredRun;
use crate::following::runs_follow;
use dl_disk::Disk;
use dl_kinds::Gid;
use engine_turns::Outcome;
use machine_core::End;

impl<D: Disk> StoredRun<D> {
    // A piece is found right or wrong.
    pub(crate) fn find(&mut self, gid: Gid, piece: u32, right: bool)
        requires going { IsGoing self.old gid }
        requires may { IsNext self.old.machine (IsFindingOf gid piece right) }
        requires digest { right ≡ true → IsTrue D.tells
            → HasItsDigest self.old gid piece (D.state self.old.disk).seen }
        requires mark_room { right ≡ false → 1 ≤ mark_spare_in self.old.machine gid }
        requires room { 1 ≤ self.old.machine.spare }
        ensures did { DoesPart (λ at. FindingPhase at gid piece right)
            self.old (D.faults self.old.disk) self.new (D.faults self.new.disk) Went }
        ensures on { Continues 1 self.old self.new }
        ensures disk { IsTrue D.tells → StoresGid gid self.old self.new
            (D.state self.old.disk) (D.state self.new.disk) }
        ensures still { IsGoing self.new gid }
        ensures wrong { right ≡ false → IsFoundWrong self.new gid piece }
        ensures untouched { self.new.disk ≡ self.old.disk }
    {
        runs_follow();
        self.machine.settled(gid, piece, right);
    }

    // Saves without a piece that was found wrong, where the last save lists a block of it.
    fn unlist(&mut self, gid: Gid, piece: u32) -> Outcome
        requires wrong { IsFoundWrong self.old gid piece }
        requires room { 1 ≤ self.old.machine.spare }
        ensures did { DoesPart (λ at. UnlistingPhase at gid piece)
            self.old (D.faults self.old.disk) self.new (D.faults self.new.disk) result }
        ensures on { Continues 1 self.old self.new }
        ensures disk { IsTrue D.tells → StoresGid gid self.old self.new
            (D.state self.old.disk) (D.state self.new.disk) }
        ensures left { result ≢ Went → IsTrue D.tells
            → IsLeftOf self.new gid (D.state self.new.disk) }
        ensures still { result ≡ Went → IsFoundWrong self.new gid piece }
        ensures unlisted { result ≡ Went → IsPieceUnlisted self.new.machine gid piece }
        ensures payload { IsTrue D.tells → KeepsPayload gid self.old
            (D.state self.old.disk) (D.state self.new.disk) }
    {
        runs_follow();
        if self.machine.lists(gid, piece) {
            self.save_one(gid)
        } else {
            Outcome::Went
        }
    }

    // The blocks of a piece go that was found wrong.
    fn clear(&mut self, gid: Gid, piece: u32)
        requires wrong { IsFoundWrong self.old gid piece }
        requires unlisted { IsPieceUnlisted self.old.machine gid piece }
        requires room { 1 ≤ self.old.machine.spare }
        ensures did { OfDownload self.old gid (λ download. DoesPart
            (λ at. JustEvent (Cleared download.gid piece))
            self.old (D.faults self.old.disk) self.new (D.faults self.new.disk) Went) }
        ensures on { Continues 1 self.old self.new }
        ensures disk { IsTrue D.tells → StoresGid gid self.old self.new
            (D.state self.old.disk) (D.state self.new.disk) }
        ensures still { IsGoing self.new gid }
        ensures untouched { self.new.disk ≡ self.old.disk }
    {
        runs_follow();
        self.machine.cleared(gid, piece);
    }

    // A piece that was found wrong is saved without, and then cleared; the download may end for want of mirrors.
    fn undo(&mut self, gid: Gid, piece: u32) -> Outcome
        requires wrong { IsFoundWrong self.old gid piece }
        requires room { 3 ≤ self.old.machine.spare }
        ensures did { OfDownload self.old gid (λ download. DoesPart
            (λ at. WrongPhase at download piece)
            self.old (D.faults self.old.disk) self.new (D.faults self.new.disk) result) }
        ensures on { Continues 3 self.old self.new }
        ensures disk { IsTrue D.tells → StoresGid gid self.old self.new
            (D.state self.old.disk) (D.state self.new.disk) }
        ensures left { result ≢ Went → IsTrue D.tells
            → IsLeftOf self.new gid (D.state self.new.disk) }
        ensures still { result ≡ Went → IsGoing self.new gid }
        ensures payload { IsTrue D.tells → KeepsPayload gid self.old
            (D.state self.old.disk) (D.state self.new.disk) }
    {
        runs_follow();
        match self.unlist(gid, piece) {
            Outcome::Went => {
                self.tells_stored();
                self.clear(gid, piece);
                self.tells_stored();
                self.end_where_dead(gid, piece)
            }
            outcome => outcome,
        }
    }

    // A full piece is found right or wrong. Where it is wrong, it is cleared once no save lists a block of it.
    pub(crate) fn settle(&mut self, gid: Gid, piece: u32, right: bool) -> Outcome
        requires going { IsGoing self.old gid }
        requires may { IsNext self.old.machine (IsFindingOf gid piece right) }
        requires digest { right ≡ true → IsTrue D.tells
            → HasItsDigest self.old gid piece (D.state self.old.disk).seen }
        requires mark_room { right ≡ false → 1 ≤ mark_spare_in self.old.machine gid }
        requires room { 4 ≤ self.old.machine.spare }
        ensures did { OfDownload self.old gid (λ download. DoesPart
            (λ at. SettlingPhase at download piece right)
            self.old (D.faults self.old.disk) self.new (D.faults self.new.disk) result) }
        ensures on { Continues 4 self.old self.new }
        ensures disk { IsTrue D.tells → StoresGid gid self.old self.new
            (D.state self.old.disk) (D.state self.new.disk) }
        ensures left { result ≢ Went → IsTrue D.tells
            → IsLeftOf self.new gid (D.state self.new.disk) }
        ensures still { result ≡ Went → IsGoing self.new gid }
        ensures untouched { right ≡ true → self.new.disk ≡ self.old.disk }
        ensures payload { IsTrue D.tells → KeepsPayload gid self.old
            (D.state self.old.disk) (D.state self.new.disk) }
    {
        runs_follow();
        self.find(gid, piece, right);
        self.tells_stored();
        if right {
            Outcome::Went
        } else {
            self.undo(gid, piece)
        }
    }
}
