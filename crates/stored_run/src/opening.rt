// The opening of downloads.
ghost use Rattle.std.specs.Prelude.{◌≡◌, ◌≢◌, ◌<◌, ◌≤◌, ◌⊎◌, ◌∷◌, [], false, IfErr, IfNone, IfOk, IfSome, IsSome, IsTrue, OnErr, OnOk, Some, length, slice_set};
ghost use Rattle.dl_history.specs.PayloadParts.{is_opened};
ghost use Rattle.engine_turns.specs.Faults.{CountsFaults};
ghost use Rattle.engine_turns.specs.Phases.{AndThen, EndingOr, NoEvent, OpeningPhase};
ghost use Rattle.engine_turns.specs.Standings.{AnswersUnlessStarved};
ghost use Rattle.engine_turns.specs.declared.operations.Said.{Said as Answer};
ghost use Rattle.engine_turns.specs.declared.operations.Said.TheVariants.{Done};
ghost use Rattle.engine_turns.specs.declared.outcome.Outcome.TheVariants.{Over, Went};
ghost use Rattle.machine_core.specs.Claiming.{next_to_open};
ghost use Rattle.machine_core.specs.MachineViews.{place_in};
ghost use Rattle.machine_core.specs.Reads.{downloads_in};
ghost use Rattle.machine_core.specs.RunLegal.{MayFollow, disk_fault_of};
ghost use Rattle.machine_core.specs.declared.events.Event.TheVariants.{Ended};
ghost use Rattle.resume_core.specs.Openings.{AreOpenedIn, AreOpenedRows, FitsPayload};
ghost use Rattle.resume_core.specs.Refusals.{open_refusal};
ghost use Rattle.stored_run.specs.Checks.{ChecksOnly, ChecksTruly};
ghost use Rattle.stored_run.specs.Opening.{FindsJust, HasFailed, HoldsPlace, IsDiskEnd, IsRefusedSince, IsToResume, OpenNextRow, OpensDisk, OpensOn, OpensWhere, OpensWith, StandsStill, end_by_refusal, is_checked_of};
ghost use Rattle.stored_run.specs.Refused.{EndsAsRead, IsEndAsRead};
ghost use Rattle.stored_run.specs.Saves.{TellsOnly};
ghost use Rattle.stored_run.specs.Settlings.{OfDownload};
ghost use Rattle.stored_run.specs.Steps.{Continues, DoesPart, DoesRow};
ghost use Rattle.stored_run.specs.Telling.{TellsEvent};
ghost use Rattle.stored_run.specs.Views.{own_in};

use crate::StoredRun;
use crate::following::runs_follow;
use crate::sealing::done_unless_starved;
use control_file::{Opened, Want};
use dl_disk::Disk;
use dl_kinds::{Gid, NoMemory};
use durable_progress::steps_hold;
use engine_turns::{Outcome, Said};
use machine_core::End;
use option_set::Num;
use resume_core::{OpenErr, resume};

// The end of a download that the store refuses; none for want of memory.
fn end_of(err: OpenErr, faults: u64) -> Option<End>
    ensures { result ≡ end_by_refusal err faults }
{
    Some(match err {
        OpenErr::Exists { length } => End::Exists { length },
        OpenErr::PieceLength { have, want } => End::PieceLength { have, want },
        OpenErr::Length { have, want } => End::Length { have, want },
        OpenErr::InfoHash => End::InfoHash,
        OpenErr::Unreadable { at } => End::Unreadable { at },
        OpenErr::Disk => End::Disk { count: faults },
        OpenErr::NoMemory => return None,
    })
}

// Makes a place for the want of a download.
fn make_place(wants: &mut Vec<Option<Want>>, place: usize) -> Result<(), NoMemory>
    ensures holds { HoldsPlace wants.old.items wants.new.items place }
    ensures ok { OnOk result (place < length wants.new.items) }
{
    while wants.len() <= place {
        wants.push(None)?;
    }
    Ok(())
}

// Puts the want of a download into its place.
fn put_want(wants: &mut Vec<Option<Want>>, place: usize, want: Want)
    requires { place < length wants.old.items }
    ensures { wants.new.items ≡ slice_set wants.old.items place (Some want) }
{
    wants[place] = Some(want);
}

impl<D: Disk> StoredRun<D> {
    // Makes a place for the want of a download that was added.
    fn hold_place(&mut self, place: usize) -> Result<(), NoMemory>
        requires { place < length (downloads_in self.old.machine) }
        ensures still { StandsStill self.old self.new }
        ensures disk { self.new.disk ≡ self.old.disk }
        ensures ok { OnOk result (place < length self.new.wants.items) }
    {
        runs_follow();
        make_place(&mut self.wants, place)
    }

    // Whether the pieces of a download are compared, whatever a control file lists.
    fn is_checked(&self, gid: Gid) -> bool
        ensures { result ≡ is_checked_of self.entry.now gid }
    {
        match self.machine.options(gid) {
            Some(options) => options.number(Num::CheckIntegrity) != 0,
            None => false,
        }
    }

    // What the store finds of a download that is to be opened, or the end that it makes; none for want of memory.
    fn resume_want(&mut self, gid: Gid, want: &Want) -> Result<Opened, Option<End>>
        requires { IsToResume self.old.machine gid want.now }
        ensures still { StandsStill self.old self.new }
        ensures places { self.new.wants ≡ self.old.wants }
        ensures disk { IsTrue D.tells → OpensOn want.now (is_checked_of self.old gid)
            (D.state self.old.disk) (D.state self.new.disk) }
        ensures rows { IfOk result (AreOpenedRows want.now) }
        ensures fits { OnOk result (IsTrue D.tells → FitsPayload want.now
            (D.state self.old.disk).seen (D.state self.new.disk).seen) }
        ensures opened { IfOk result (λ opened. IsTrue D.tells
            → FindsJust self.old gid want.now (D.state self.old.disk) opened) }
        ensures listed { IfOk result (λ opened. IsTrue D.tells → AreOpenedIn want.now opened
            (D.state self.new.disk).seen (D.state self.new.disk).may_leave) }
        ensures may { IfErr result (λ end. IfSome end (λ how.
            MayFollow self.old.machine.start self.old.machine.past (Ended gid how))) }
        ensures refused { IfErr result (λ end. IfSome end
            (IsRefusedSince (D.faults self.old.disk))) }
        ensures reason { IfErr result (λ end. IfSome end (λ how. IsTrue D.tells → IsDiskEnd how
            ⊎ IsSome (open_refusal want.now (D.state self.old.disk).seen))) }
        ensures counts { IfErr result (λ end. IfSome end (λ how. CountsFaults
            (D.faults self.old.disk) (Ended gid how ∷ []) (D.faults self.new.disk))) }
        ensures unfailed { OnOk result (D.faults self.new.disk ≡ D.faults self.old.disk) }
        ensures starved { IfErr result (λ end. IfNone end
            (D.faults self.new.disk ≡ D.faults self.old.disk)) }
        ensures ends { IfErr result (λ end. IfSome end (λ how. IsTrue D.tells
            → IsEndAsRead self.old gid (D.state self.old.disk).seen how)) }
    {
        runs_follow();
        let check = self.is_checked(gid);
        match resume(self.alloc, &mut self.disk, want, check) {
            Ok(opened) => Ok(opened),
            Err(err) => {
                let faults = self.disk.faults();
                Err(end_of(err, faults))
            }
        }
    }

    // The event of an opening, and its want.
    fn open_as(
        &mut self,
        gid: Gid,
        place: usize,
        want: Want,
        opened: Opened,
    ) -> Result<(), NoMemory>
        requires to_open { IsToResume self.old.machine gid want }
        requires place { place ≡ place_in self.old.machine.start self.old.machine.past gid }
        requires within { place < length self.old.wants.items }
        requires rows { AreOpenedRows want opened }
        requires listed { IsTrue D.tells → AreOpenedIn want opened
            (D.state self.old.disk).seen (D.state self.old.disk).may_leave }
        ensures came { OnOk result (OpensWith gid want opened self.old self.new) }
        ensures same { OnErr result (TellsOnly [] self.old self.new) }
        ensures on { Continues 0 self.old self.new }
        ensures disk { self.new.disk ≡ self.old.disk }
    {
        runs_follow();
        steps_hold();
        self.machine.opened(self.alloc, gid, opened, self.now)?;
        put_want(&mut self.wants, place, want);
        Ok(())
    }

    // A download ends for a reason that its opening found.
    fn end_unopened(&mut self, gid: Gid, end: End)
        requires may { MayFollow self.old.machine.start self.old.machine.past (Ended gid end) }
        requires fault { IfSome (disk_fault_of (Ended gid end))
            (λ count. count ≤ D.faults self.old.disk) }
        requires room { 1 ≤ self.old.machine.spare }
        ensures { TellsEvent (Ended gid end) self.old self.new }
    {
        runs_follow();
        self.machine.ended(gid, end);
    }

    // The store is asked to open a download, whose want is kept then.
    fn resume_one(&mut self, gid: Gid, want: Want) -> Outcome
        requires to_open { IsToResume self.old.machine gid want }
        requires room { 1 ≤ self.old.machine.spare }
        ensures did { DoesPart (λ at. OpeningPhase at gid) self.old (D.faults self.old.disk)
            self.new (D.faults self.new.disk) result }
        ensures on { Continues 1 self.old self.new }
        ensures disk { IsTrue D.tells → OpensOn want (is_checked_of self.old gid)
            (D.state self.old.disk) (D.state self.new.disk) }
        ensures opened { result ≡ Went → OpensWhere (λ opened. IsTrue D.tells
            → FindsJust self.old gid want (D.state self.old.disk) opened)
            gid want self.old self.new }
        ensures fits { result ≡ Went → IsTrue D.tells → FitsPayload want
            (D.state self.old.disk).seen (D.state self.new.disk).seen }
        ensures shut { result ≢ Went → is_opened (own_in self.new gid) ≡ false }
        ensures reason { result ≡ Over → IsTrue D.tells → HasFailed self.new gid
            ⊎ IsSome (open_refusal want (D.state self.old.disk).seen) }
        ensures ends { IsTrue D.tells
            → EndsAsRead self.old self.new (D.state self.old.disk).seen }
    {
        runs_follow();
        self.tells_stored();
        let place = self.machine.place(gid).unwrap();
        if self.hold_place(place).is_err() {
            return Outcome::Starved;
        }
        match self.resume_want(gid, &want) {
            Ok(opened) => match self.open_as(gid, place, want, opened) {
                Ok(()) => Outcome::Went,
                Err(NoMemory) => Outcome::Starved,
            },
            Err(Some(end)) => {
                self.tells_stored();
                self.end_unopened(gid, end);
                Outcome::Over
            }
            Err(None) => Outcome::Starved,
        }
    }

    // A download is opened, and ends where each wanted piece is verified already.
    fn open_one(&mut self, gid: Gid, want: Want) -> Outcome
        requires to_open { IsToResume self.old.machine gid want }
        requires room { 3 ≤ self.old.machine.spare }
        ensures did { OfDownload self.old gid (λ download. DoesPart
            (λ at. AndThen (OpeningPhase at download.gid) (EndingOr at download NoEvent))
            self.old (D.faults self.old.disk) self.new (D.faults self.new.disk) result) }
        ensures on { Continues 3 self.old self.new }
        ensures leaves { IsTrue D.tells → (said : Answer) → AnswersUnlessStarved Done result said
            → OpensDisk gid self.old self.new said (D.state self.old.disk) (D.state self.new.disk) }
        ensures ends { IsTrue D.tells
            → EndsAsRead self.old self.new (D.state self.old.disk).seen }
        ensures checks { IsTrue D.tells
            → ChecksOnly gid self.old self.new (D.state self.new.disk).seen }
    {
        runs_follow();
        self.tells_stored();
        match self.resume_one(gid, want) {
            Outcome::Went => {
                self.tells_stored();
                self.end_if_done(gid)
            }
            outcome => outcome,
        }
    }

    /// The download that is to be opened next is opened. It ends where another that goes on has its info hash or writes one
    /// of its files, where its store refuses it, and where each wanted piece is verified already. For want of memory no event
    /// comes, and the store may have been asked all the same.
    pub fn open_next(&mut self, gid: Gid) -> Said
        requires next { next_to_open self.old.machine.start self.old.machine.past ≡ Some gid }
        requires room { 3 ≤ self.old.machine.spare }
        ensures row { DoesRow (OpenNextRow gid) self.old (D.faults self.old.disk)
            self.new (D.faults self.new.disk) result }
        ensures on { Continues 3 self.old self.new }
        ensures leaves { IsTrue D.tells → OpensDisk gid self.old self.new result
            (D.state self.old.disk) (D.state self.new.disk) }
        ensures ends { IsTrue D.tells
            → EndsAsRead self.old self.new (D.state self.old.disk).seen }
        ensures checks { IsTrue D.tells
            → ChecksTruly self.old self.new (D.state self.new.disk).seen }
    {
        runs_follow();
        self.tells_stored();
        let Ok(clash) = self.machine.clash(self.alloc, gid) else {
            return Said::NoMemory;
        };
        if let Some(end) = clash {
            self.end_unopened(gid, end);
            return Said::Done;
        }
        match self.machine.make_want(self.alloc, gid) {
            Ok(Some(want)) => done_unless_starved(self.open_one(gid, want)),
            // A length without a plan ends its download in the turn that tells it.
            _ => Said::NoMemory,
        }
    }
}
