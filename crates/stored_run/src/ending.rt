// The end of a download.
ghost use Rattle.std.specs.Prelude.{◌≡◌, ◌≢◌, ◌≤◌, ◌∷◌, [], false, IfNone, IfSome, IsTrue, MatchBool, Some, true};
ghost use Rattle.dl_history.specs.PayloadParts.{is_opened, last_check};
ghost use Rattle.engine_turns.specs.Phases.{AfterDisk, CheckedPhase, CompletionPhase, EndAfterDisk, EndingOr, JustEnd, NoEvent};
ghost use Rattle.engine_turns.specs.declared.outcome.Outcome.TheVariants.{Went};
ghost use Rattle.machine_core.specs.RunLegal.{MayFollow, has_checksum};
ghost use Rattle.machine_core.specs.declared.ends.End.TheVariants as end;
ghost use Rattle.machine_core.specs.declared.events.Event.TheVariants.{Checked, Ended};
ghost use Rattle.option_set.specs.Values.{text_of_word};
ghost use Rattle.option_set.specs.declared.kinds.Word.TheVariants as word;
ghost use Rattle.stored_run.specs.Checks.{ChecksOnly};
ghost use Rattle.stored_run.specs.Leavings.{IsLeftOf};
ghost use Rattle.stored_run.specs.Settlings.{IsDone, IsTruly, MayBeCheckedBy, OfDownload, OfWant, SpellsCheckOf};
ghost use Rattle.stored_run.specs.Steps.{Continues, DoesPart, EndsGid, KeepsPayload, StoresGid};
ghost use Rattle.stored_run.specs.Views.{IsGoing, own_in};

use crate::StoredRun;
use crate::checking::check_payload;
use crate::following::runs_follow;
use dl_disk::Disk;
use dl_kinds::Gid;
use durable_progress::finish_held;
use engine_turns::Outcome;
use machine_core::End;
use option_set::Word;
use resume_core::{StoreErr, same_files_give_the_same};
use verify_piece::WholeCheck;

impl<D: Disk> StoredRun<D> {
    // Whether each wanted piece of a download that is opened is verified.
    pub(crate) fn is_done(&self, gid: Gid) -> bool
        requires { is_opened (own_in self.now gid) ≡ true }
        ensures { OfDownload self.entry.now gid (λ download.
            MatchBool result (IsDone self.entry.now download) (¬ IsDone self.entry.now download)) }
    {
        self.machine.is_done(gid)
    }

    // What the whole payload of a download without a metainfo file is to be compared with.
    fn checksum(&self, gid: Gid) -> Option<WholeCheck>
        requires { is_opened (own_in self.now gid) ≡ true }
        ensures found { OfDownload self.entry.now gid (λ download.
            IfSome result (SpellsCheckOf download)) }
        ensures none { OfDownload self.entry.now gid (λ download.
            IfNone result (has_checksum download ≡ false)) }
    {
        self.tells_stored();
        if self.want(gid)?.info_hash.is_some() {
            return None;
        }
        let text = self.machine.begun(gid)?.text(Word::Checksum)?;
        WholeCheck::read(text)
    }

    // Compares the whole payload of a download with its checksum, and tells whether it is right. A fault of the disk ends
    // the download.
    fn check_whole(&mut self, gid: Gid, check: &WholeCheck) -> (bool, Outcome)
        requires going { IsGoing self.old gid }
        requires may { MayBeCheckedBy self.old gid check.now }
        requires room { 1 ≤ self.old.machine.spare }
        ensures did { DoesPart (λ at. AfterDisk at gid (Checked gid result.0 ∷ []))
            self.old (D.faults self.old.disk) self.new (D.faults self.new.disk) result.1 }
        ensures on { Continues 1 self.old self.new }
        ensures disk { IsTrue D.tells → StoresGid gid self.old self.new
            (D.state self.old.disk) (D.state self.new.disk) }
        ensures payload { IsTrue D.tells → KeepsPayload gid self.old
            (D.state self.old.disk) (D.state self.new.disk) }
        ensures left { result.1 ≢ Went → IsTrue D.tells
            → IsLeftOf self.new gid (D.state self.new.disk) }
        ensures still { result.1 ≡ Went → IsGoing self.new gid }
        ensures truly { result.1 ≡ Went → IsTrue D.tells → OfWant self.old gid
            (λ want. IsTruly result.0 check.now want (D.state self.old.disk).seen) }
    {
        runs_follow();
        same_files_give_the_same();
        let place = self.machine.place(gid).unwrap();
        let want = self.wants[place].as_ref().unwrap();
        match check_payload(self.alloc, &mut self.disk, want, check) {
            Ok(right) => {
                self.machine.checked(gid, right);
                (right, Outcome::Went)
            }
            Err(StoreErr::Disk) => {
                let count = self.disk.faults();
                self.machine.ended(gid, End::Disk { count });
                (false, Outcome::Over)
            }
            Err(StoreErr::NoMemory) => (false, Outcome::Starved),
        }
    }

    // Makes the payload last, and ends its download as complete.
    fn finish_one(&mut self, gid: Gid) -> Outcome
        requires going { IsGoing self.old gid }
        requires may { MayFollow self.old.machine.start self.old.machine.past
            (Ended gid end.Complete) }
        requires room { 1 ≤ self.old.machine.spare }
        ensures did { DoesPart (λ at. EndAfterDisk at gid end.Complete)
            self.old (D.faults self.old.disk) self.new (D.faults self.new.disk) result }
        ensures on { Continues 1 self.old self.new }
        ensures disk { IsTrue D.tells → EndsGid gid self.old self.new
            (D.state self.old.disk) (D.state self.new.disk) }
        ensures payload { IsTrue D.tells → KeepsPayload gid self.old
            (D.state self.old.disk) (D.state self.new.disk) }
        ensures left { IsTrue D.tells → IsLeftOf self.new gid (D.state self.new.disk) }
    {
        runs_follow();
        same_files_give_the_same();
        let place = self.machine.place(gid).unwrap();
        let want = self.wants[place].as_ref().unwrap();
        match finish_held(self.alloc, &mut self.disk, want) {
            Ok(()) => {
                self.machine.ended(gid, End::Complete);
                Outcome::Over
            }
            Err(StoreErr::Disk) => {
                let faults = self.disk.faults();
                self.machine.ended(gid, End::Disk { count: faults });
                Outcome::Over
            }
            Err(StoreErr::NoMemory) => Outcome::Starved,
        }
    }

    // Ends a download whose payload doesn't have its checksum.
    fn end_wrong(&mut self, gid: Gid) -> Outcome
        requires may { MayFollow self.old.machine.start self.old.machine.past
            (Ended gid end.Checksum) }
        requires room { 1 ≤ self.old.machine.spare }
        ensures did { DoesPart (λ at. JustEnd (Ended gid end.Checksum))
            self.old (D.faults self.old.disk) self.new (D.faults self.new.disk) result }
        ensures on { Continues 1 self.old self.new }
        ensures disk { IsTrue D.tells → EndsGid gid self.old self.new
            (D.state self.old.disk) (D.state self.new.disk) }
        ensures payload { IsTrue D.tells → KeepsPayload gid self.old
            (D.state self.old.disk) (D.state self.new.disk) }
        ensures left { IsGoing self.old gid → IsTrue D.tells
            → IsLeftOf self.new gid (D.state self.new.disk) }
    {
        runs_follow();
        self.machine.ended(gid, End::Checksum);
        Outcome::Over
    }

    // Ends a download whose payload was compared with its checksum.
    fn end_checked(&mut self, gid: Gid, right: bool) -> Outcome
        requires going { IsGoing self.old gid }
        requires done { OfDownload self.old gid (IsDone self.old) }
        requires checked { last_check (own_in self.old gid) ≡ Some right }
        requires room { 1 ≤ self.old.machine.spare }
        ensures did { DoesPart (λ at. CheckedPhase at gid right)
            self.old (D.faults self.old.disk) self.new (D.faults self.new.disk) result }
        ensures on { Continues 1 self.old self.new }
        ensures disk { IsTrue D.tells → EndsGid gid self.old self.new
            (D.state self.old.disk) (D.state self.new.disk) }
        ensures payload { IsTrue D.tells → KeepsPayload gid self.old
            (D.state self.old.disk) (D.state self.new.disk) }
        ensures left { IsTrue D.tells → IsLeftOf self.new gid (D.state self.new.disk) }
    {
        runs_follow();
        self.tells_stored();
        if right {
            self.finish_one(gid)
        } else {
            self.end_wrong(gid)
        }
    }

    // Compares the payload with its checksum first, and ends its download as complete or as wrong.
    fn complete_checked(&mut self, gid: Gid, check: &WholeCheck) -> Outcome
        requires going { IsGoing self.old gid }
        requires may { MayBeCheckedBy self.old gid check.now }
        requires room { 2 ≤ self.old.machine.spare }
        ensures did { DoesPart (λ at. CompletionPhase at gid true)
            self.old (D.faults self.old.disk) self.new (D.faults self.new.disk) result }
        ensures on { Continues 2 self.old self.new }
        ensures disk { IsTrue D.tells → EndsGid gid self.old self.new
            (D.state self.old.disk) (D.state self.new.disk) }
        ensures payload { IsTrue D.tells → KeepsPayload gid self.old
            (D.state self.old.disk) (D.state self.new.disk) }
        ensures left { IsTrue D.tells → IsLeftOf self.new gid (D.state self.new.disk) }
        ensures checks { IsTrue D.tells
            → ChecksOnly gid self.old self.new (D.state self.new.disk).seen }
    {
        runs_follow();
        self.tells_stored();
        let (right, outcome) = self.check_whole(gid, check);
        match outcome {
            Outcome::Went => {
                self.tells_stored();
                self.end_checked(gid, right)
            }
            outcome => outcome,
        }
    }

    // Ends a download whose wanted pieces are all verified. With a checksum its payload is compared first.
    pub(crate) fn complete(&mut self, gid: Gid) -> Outcome
        requires going { IsGoing self.old gid }
        requires done { OfDownload self.old gid (IsDone self.old) }
        requires room { 2 ≤ self.old.machine.spare }
        ensures did { OfDownload self.old gid (λ download. DoesPart
            (λ at. CompletionPhase at gid (has_checksum download))
            self.old (D.faults self.old.disk) self.new (D.faults self.new.disk) result) }
        ensures on { Continues 2 self.old self.new }
        ensures disk { IsTrue D.tells → EndsGid gid self.old self.new
            (D.state self.old.disk) (D.state self.new.disk) }
        ensures payload { IsTrue D.tells → KeepsPayload gid self.old
            (D.state self.old.disk) (D.state self.new.disk) }
        ensures left { IsTrue D.tells → IsLeftOf self.new gid (D.state self.new.disk) }
        ensures checks { IsTrue D.tells
            → ChecksOnly gid self.old self.new (D.state self.new.disk).seen }
    {
        runs_follow();
        self.tells_stored();
        match self.checksum(gid) {
            Some(check) => self.complete_checked(gid, &check),
            None => self.finish_one(gid),
        }
    }

    // Ends a download where each wanted piece is verified.
    pub(crate) fn end_if_done(&mut self, gid: Gid) -> Outcome
        requires going { IsGoing self.old gid }
        requires room { 2 ≤ self.old.machine.spare }
        ensures did { OfDownload self.old gid (λ download. DoesPart
            (λ at. EndingOr at download NoEvent)
            self.old (D.faults self.old.disk) self.new (D.faults self.new.disk) result) }
        ensures on { Continues 2 self.old self.new }
        ensures disk { IsTrue D.tells → EndsGid gid self.old self.new
            (D.state self.old.disk) (D.state self.new.disk) }
        ensures payload { IsTrue D.tells → KeepsPayload gid self.old
            (D.state self.old.disk) (D.state self.new.disk) }
        ensures left { IsTrue D.tells → IsLeftOf self.new gid (D.state self.new.disk) }
        ensures checks { IsTrue D.tells
            → ChecksOnly gid self.old self.new (D.state self.new.disk).seen }
    {
        runs_follow();
        self.tells_stored();
        if self.is_done(gid) {
            self.complete(gid)
        } else {
            Outcome::Went
        }
    }
}
