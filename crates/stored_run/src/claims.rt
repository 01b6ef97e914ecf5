// Claims that fail, and probes that tell a length.
ghost use Rattle.std.specs.Prelude.{◌≡◌, ◌≢◌, ◌≤◌, false, true, IsTrue, Some};
ghost use Rattle.dl_history.specs.PayloadParts.{is_ended, is_sole_in, told_total};
ghost use Rattle.dl_history.specs.StandingClaims.{is_probe};
ghost use Rattle.engine_turns.specs.ClaimRows.{LoseRow, SizedRow, TellingPhase, lost_piece, sole_phase};
ghost use Rattle.engine_turns.specs.Phases.{DeadPhase};
ghost use Rattle.engine_turns.specs.Standings.{OfClaim};
ghost use Rattle.engine_turns.specs.declared.outcome.Outcome.TheVariants.{Went};
ghost use Rattle.machine_core.specs.MachineViews.{HasMarkRoomAt, StandsUnder};
ghost use Rattle.machine_core.specs.RunLegal.{MayFollow, download_in};
ghost use Rattle.machine_core.specs.Starts.{Download};
ghost use Rattle.machine_core.specs.TurnRooms.{HasTurnMarkRoom};
ghost use Rattle.machine_core.specs.declared.events.Event.TheVariants as event;
ghost use Rattle.stored_run.specs.Leavings.{IsLeftOf, LeavesDisk};
ghost use Rattle.stored_run.specs.Steps.{Continues, DoesPart, DoesRow, StoresGid};
ghost use Rattle.stored_run.specs.Telling.{ClaimGoes, StaysAdded, TellsEvent, loss_phase_of, too_long_phase};
ghost use Rattle.stored_run.specs.Views.{IsGoing, own_in};

use crate::StoredRun;
use crate::following::runs_follow;
use dl_disk::Disk;
use dl_kinds::{Claim, Gid, Mark, Plan, plan_laws};
use engine_turns::{Outcome, Said};
use machine_core::End;
use option_set::Num;

impl<D: Disk> StoredRun<D> {
    // The piece at which a claim fails, and whether that one is sole.
    fn failing_piece(&self, gid: Gid, claim: Claim) -> (u32, bool)
        requires { StandsUnder self.now.machine claim.id gid claim }
        ensures piece { result.0
            ≡ lost_piece self.entry.now.machine.start self.entry.now.machine.past gid claim }
        ensures sole { result.1 ≡ is_sole_in (own_in self.entry.now gid) result.0 }
    {
        plan_laws();
        runs_follow();
        let Some(block) = self.machine.first_open(claim.id) else {
            return (0, false);
        };
        let piece = self.want(gid).unwrap().plan.piece_of(block);
        (piece, self.machine.table(gid).unwrap().is_sole(piece))
    }

    // The failure of a claim at this piece is told.
    fn tell_loss(&mut self, gid: Gid, claim: Claim, piece: u32, mark: Mark)
        requires stands { StandsUnder self.old.machine claim.id gid claim }
        requires piece { piece
            ≡ lost_piece self.old.machine.start self.old.machine.past gid claim }
        requires room { 1 ≤ self.old.machine.spare }
        requires mark_room { HasMarkRoomAt self.old.machine claim.id }
        ensures { TellsEvent (event.Lost gid claim.id claim.mirror piece mark) self.old self.new }
    {
        runs_follow();
        self.machine.lost(claim.id, mark);
    }

    // The blocks of a sole piece go.
    fn clear_sole(&mut self, gid: Gid, piece: u32, sole: bool)
        requires may { sole ≡ true → MayFollow self.old.machine.start self.old.machine.past
            (event.Cleared gid piece) }
        requires room { 1 ≤ self.old.machine.spare }
        ensures did { DoesPart (λ at. sole_phase gid piece sole) self.old (D.faults self.old.disk)
            self.new (D.faults self.new.disk) Went }
        ensures on { Continues 1 self.old self.new }
        ensures ended { is_ended (own_in self.new gid) ≡ is_ended (own_in self.old gid) }
        ensures added { StaysAdded gid self.old.machine self.new.machine }
        ensures disk { self.new.disk ≡ self.old.disk }
    {
        runs_follow();
        if sole {
            self.machine.cleared(gid, piece);
        }
    }

    // Where no mirror has a try left for the piece the download ends.
    pub(crate) fn end_where_dead(&mut self, gid: Gid, piece: u32) -> Outcome
        requires going { is_ended (own_in self.old gid) ≡ false }
        requires room { 1 ≤ self.old.machine.spare }
        ensures did { (download : Download)
            → download_in self.old.machine.start self.old.machine.past gid ≡ Some download
            → DoesPart (λ at. DeadPhase at download piece) self.old (D.faults self.old.disk)
            self.new (D.faults self.new.disk) result }
        ensures on { Continues 1 self.old self.new }
        ensures disk { self.new.disk ≡ self.old.disk }
        ensures stores { IsTrue D.tells → StoresGid gid self.old self.new
            (D.state self.old.disk) (D.state self.new.disk) }
        ensures left { IsGoing self.old gid → result ≢ Went → IsTrue D.tells
            → IsLeftOf self.new gid (D.state self.new.disk) }
        ensures still { result ≡ Went → self.new ≡ self.old }
    {
        runs_follow();
        match self.machine.dead(gid, piece) {
            Some(mark) => {
                self.machine.ended(gid, End::Dead { piece, mark });
                Outcome::Over
            }
            None => Outcome::Went,
        }
    }

    // A claim that stands fails.
    fn lose_claim(&mut self, gid: Gid, claim: Claim, mark: Mark) -> Outcome
        requires stands { StandsUnder self.old.machine claim.id gid claim }
        requires room { 3 ≤ self.old.machine.spare }
        requires mark_room { HasMarkRoomAt self.old.machine claim.id }
        ensures did { (download : Download)
            → download_in self.old.machine.start self.old.machine.past gid ≡ Some download
            → DoesPart (λ at. loss_phase_of at self.old.machine.past download claim mark)
            self.old (D.faults self.old.disk) self.new (D.faults self.new.disk) result }
        ensures on { Continues 3 self.old self.new }
        ensures disk { self.new.disk ≡ self.old.disk }
    {
        plan_laws();
        runs_follow();
        // The loss may come by what holds of every run.
        self.tells_stored();
        let (piece, sole) = self.failing_piece(gid, claim);
        self.tell_loss(gid, claim, piece, mark);
        self.clear_sole(gid, piece, sole);
        self.end_where_dead(gid, piece)
    }

    /// A claim fails. A sole piece of it is cleared, and the download ends where no mirror has a try left for the piece. No
    /// call of the disk is made.
    pub fn lose(&mut self, claim: u64, mark: Mark) -> Said
        requires room { 3 ≤ self.old.machine.spare }
        requires mark_room { HasTurnMarkRoom self.old.machine }
        ensures row { DoesRow (λ at s. OfClaim at s claim (LoseRow at s mark)) self.old
            (D.faults self.old.disk) self.new (D.faults self.new.disk) result }
        ensures on { Continues 3 self.old self.new }
        ensures disk { self.new.disk ≡ self.old.disk }
        ensures leaves { IsTrue D.tells → LeavesDisk self.old self.new
            (D.state self.old.disk) (D.state self.new.disk) }
    {
        runs_follow();
        let Some((gid, granted)) = self.machine.claim(claim) else {
            return Said::Void;
        };
        self.lose_claim(gid, granted, mark);
        Said::Done
    }

    // The length that a probe told is told of.
    fn tell_size(&mut self, gid: Gid, claim: Claim, total: u64)
        requires stands { StandsUnder self.old.machine claim.id gid claim }
        requires probe { is_probe claim ≡ true }
        requires room { 1 ≤ self.old.machine.spare }
        ensures { TellsEvent (event.Sized gid claim.id total) self.old self.new }
    {
        runs_follow();
        self.machine.sized(claim.id, total);
    }

    // Where no plan has so long a payload the download ends.
    fn end_where_too_long(&mut self, gid: Gid, total: u64) -> Outcome
        requires told { told_total (own_in self.old gid) ≡ Some total }
        requires goes { ClaimGoes self.old.machine.start self.old.machine.past gid }
        requires room { 1 ≤ self.old.machine.spare }
        ensures did { (download : Download)
            → download_in self.old.machine.start self.old.machine.past gid ≡ Some download
            → DoesPart (λ at. too_long_phase download total) self.old (D.faults self.old.disk)
            self.new (D.faults self.new.disk) result }
        ensures on { Continues 1 self.old self.new }
        ensures disk { self.new.disk ≡ self.old.disk }
    {
        runs_follow();
        let piece_len = self.machine.begun(gid).unwrap().number(Num::PieceLength) as u32;
        match Plan::new(total, piece_len) {
            Some(_) => Outcome::Went,
            None => {
                self.machine.ended(gid, End::TooLarge { total });
                Outcome::Over
            }
        }
    }

    // A probe that stands told a length.
    fn size_claim(&mut self, gid: Gid, claim: Claim, total: u64) -> Outcome
        requires stands { StandsUnder self.old.machine claim.id gid claim }
        requires probe { is_probe claim ≡ true }
        requires room { 2 ≤ self.old.machine.spare }
        ensures did { (download : Download)
            → download_in self.old.machine.start self.old.machine.past gid ≡ Some download
            → DoesPart (λ at. TellingPhase download claim total) self.old
            (D.faults self.old.disk) self.new (D.faults self.new.disk) result }
        ensures on { Continues 2 self.old self.new }
        ensures disk { self.new.disk ≡ self.old.disk }
    {
        runs_follow();
        // Its download goes on by what holds of every run.
        self.tells_stored();
        self.tell_size(gid, claim, total);
        self.end_where_too_long(gid, total)
    }

    /// A probe told the length of its payload, in bytes. The download ends where no plan with its length of pieces has so
    /// many. Of a claim of blocks it is void. No call of the disk is made.
    pub fn size(&mut self, claim: u64, total: u64) -> Said
        requires room { 2 ≤ self.old.machine.spare }
        ensures row { DoesRow (λ at s. OfClaim at s claim (SizedRow at s total)) self.old
            (D.faults self.old.disk) self.new (D.faults self.new.disk) result }
        ensures on { Continues 2 self.old self.new }
        ensures disk { self.new.disk ≡ self.old.disk }
        ensures leaves { IsTrue D.tells → LeavesDisk self.old self.new
            (D.state self.old.disk) (D.state self.new.disk) }
    {
        runs_follow();
        let Some((gid, granted)) = self.machine.claim(claim) else {
            return Said::Void;
        };
        if granted.run.count > 0 {
            return Said::Void;
        }
        self.size_claim(gid, granted, total);
        Said::Done
    }
}
