// Blocks of a claim are delivered.
ghost use Rattle.std.specs.Prelude.{◌≡◌, ◌≤◌, ◌<◌, ◌+◌, ◌*◌, ℕ, Contains, IsTrue, MatchBool, length, sum_by};
ghost use Rattle.dl_kinds.specs.declared.runs.Run.{Run};
ghost use Rattle.engine_turns.specs.ClaimRows.{DeliverRow, DeliveryPhase, DueSavePhase, IsKept, IsSaveDue};
ghost use Rattle.engine_turns.specs.Phases.{EndingOr};
ghost use Rattle.engine_turns.specs.Standings.{AnswersUnlessStarved, OfClaim};
ghost use Rattle.engine_turns.specs.declared.operations.Said.TheVariants.{Kept};
ghost use Rattle.machine_core.specs.Claiming.{AreOpenIn};
ghost use Rattle.machine_core.specs.MachineViews.{StandsUnder, standing_in};
ghost use Rattle.machine_core.specs.Reads.{lengths_of_gid};
ghost use Rattle.stored_run.specs.Checks.{ChecksOnly, ChecksTruly};
ghost use Rattle.stored_run.specs.Deliveries.{AreBlocksOf, AreUnsettled, Delivers, FollowsSince, IsRunOfPayload, LandedBetween};
ghost use Rattle.stored_run.specs.Leavings.{IsLeftOf, LeavesDisk};
ghost use Rattle.stored_run.specs.Settlings.{OfDownload};
ghost use Rattle.stored_run.specs.Steps.{Continues, DoesPart, DoesRow, EndsGid, KeepsPayload, turn_from};
ghost use Rattle.stored_run.specs.Views.{IsGoing, own_in};
ghost use Rattle.stored_run.specs.Writings.{HoldsLanded, KeepEachUndelivered, KeepsBeside};
ghost use Rattle.stored_run.specs.declared.delivering.TheConstants.{DELIVERY_EVENTS};

use crate::StoredRun;
use crate::filling::MOST_PIECES;
use crate::following::runs_follow;
use dl_disk::Disk;
use dl_kinds::{Claim, Gid, Moment, Run, plan_laws};
use engine_turns::{MAX_DELIVERY, Outcome, Said};
use option_set::Num;
use piece_table::NewRuns;

/// The most events of a delivery: runs that land, pieces that count as right, and the end of the download.
pub const DELIVERY_EVENTS: usize = 98;

// How many blocks some runs have.
fn block_count(runs: &NewRuns) -> u32
    requires { sum_by (λ (run : Run). run.count) runs.now ≤ 64 }
    ensures sum { result ≡ sum_by (λ (run : Run). run.count) runs.now }
    ensures few { length runs.now ≤ 32 }
{
    let mut count = 0;
    for place in 0..runs.len() {
        let run = runs.get(place).unwrap();
        count += run.count;
    }
    count
}

// Want of memory is answered as such, and else how many blocks were counted and how many had come before.
fn kept_unless_starved(counted: u32, repeated: u32, outcome: Outcome) -> Said
    ensures { AnswersUnlessStarved (Kept counted repeated) outcome result }
{
    match outcome {
        Outcome::Starved => Said::NoMemory,
        _ => Said::Kept { counted, repeated },
    }
}

// Whether a run is of 1 to 64 blocks of another.
fn are_blocks_of(whole: Run, run: Run) -> bool
    ensures { MatchBool result (AreBlocksOf whole run) (¬ AreBlocksOf whole run) }
{
    if run.count == 0 {
        return false;
    }
    if run.count > MAX_DELIVERY {
        return false;
    }
    if run.first < whole.first {
        return false;
    }
    run.first as u64 + run.count as u64 <= whole.first as u64 + whole.count as u64
}

// Whether so many seconds passed from one moment to the other.
fn has_passed(from: Moment, to: Moment, seconds: u64) -> bool
    ensures { MatchBool result (from.0 + 1000 * seconds ≤ to.0) (to.0 < from.0 + 1000 * seconds) }
{
    if to.0 < from.0 {
        return false;
    }
    (to.0 - from.0) / 1000 >= seconds
}

impl<D: Disk> StoredRun<D> {
    // Whether these are 1 to 64 blocks of a claim that stands, and so many bytes theirs.
    fn is_delivery(&self, gid: Gid, claim: Claim, run: Run, bytes: &[u8]) -> bool
        requires { Contains (standing_in self.now.machine gid) claim }
        ensures { MatchBool result (Delivers self.entry.now gid claim run bytes.now)
            (¬ Delivers self.entry.now gid claim run bytes.now) }
    {
        plan_laws();
        runs_follow();
        self.tells_stored();
        if !are_blocks_of(claim.run, run) {
            return false;
        }
        let plan = self.plan_of(gid);
        let (start, _) = plan.block_span(run.first);
        let (last, len) = plan.block_span(run.first + (run.count - 1));
        let len = last + len as u64 - start;
        len == bytes.len() as u64
    }

    // Whether a save is due: so many seconds passed since the last one.
    fn is_save_due(&self, gid: Gid) -> bool
        requires { IsGoing self.now gid }
        ensures { OfDownload self.entry.now gid (λ download. (from : ℕ) → MatchBool result
            (IsSaveDue (turn_from self.entry.now from) self.entry.now.machine.past download)
            (¬ IsSaveDue (turn_from self.entry.now from) self.entry.now.machine.past download)) }
    {
        runs_follow();
        let interval = self
            .machine
            .options(gid)
            .unwrap()
            .number(Num::AutoSaveInterval);
        if interval == 0 {
            return false;
        }
        match self.machine.saved_at(gid) {
            Some(saved) => has_passed(saved, self.now, interval),
            None => false,
        }
    }

    // Saves the progress of a download where that is due.
    fn save_if_due(&mut self, gid: Gid) -> Outcome
        requires going { IsGoing self.old gid }
        requires room { 1 ≤ self.old.machine.spare }
        ensures did { OfDownload self.old gid (λ download. DoesPart
            (λ at. DueSavePhase at download)
            self.old (D.faults self.old.disk) self.new (D.faults self.new.disk) result) }
        ensures on { Continues 1 self.old self.new }
        ensures disk { IsTrue D.tells → EndsGid gid self.old self.new
            (D.state self.old.disk) (D.state self.new.disk) }
        ensures left { IsTrue D.tells → IsLeftOf self.new gid (D.state self.new.disk) }
        ensures payload { IsTrue D.tells → KeepsPayload gid self.old
            (D.state self.old.disk) (D.state self.new.disk) }
    {
        runs_follow();
        self.tells_stored();
        if self.is_save_due(gid) {
            self.save_one(gid)
        } else {
            Outcome::Went
        }
    }

    // Ends a download where each wanted piece is verified, and else saves it where that is due.
    fn end_or_save(&mut self, gid: Gid) -> Outcome
        requires going { IsGoing self.old gid }
        requires room { 2 ≤ self.old.machine.spare }
        ensures did { OfDownload self.old gid (λ download. DoesPart
            (λ at. EndingOr at download (DueSavePhase at download))
            self.old (D.faults self.old.disk) self.new (D.faults self.new.disk) result) }
        ensures on { Continues 2 self.old self.new }
        ensures disk { IsTrue D.tells → EndsGid gid self.old self.new
            (D.state self.old.disk) (D.state self.new.disk) }
        ensures left { IsTrue D.tells → IsLeftOf self.new gid (D.state self.new.disk) }
        ensures payload { IsTrue D.tells → KeepsPayload gid self.old
            (D.state self.old.disk) (D.state self.new.disk) }
        ensures checks { IsTrue D.tells
            → ChecksOnly gid self.old self.new (D.state self.new.disk).seen }
    {
        runs_follow();
        self.tells_stored();
        if self.is_done(gid) {
            self.complete(gid)
        } else {
            self.save_if_due(gid)
        }
    }

    // What follows of blocks that landed: the pieces that they filled count as right, and the download ends or is saved.
    fn follow(&mut self, gid: Gid, run: Run, full: &[bool; MOST_PIECES]) -> Outcome
        requires going { IsGoing self.old gid }
        requires run { IsRunOfPayload (lengths_of_gid self.old.machine gid) run }
        requires unsettled { AreUnsettled (lengths_of_gid self.old.machine gid)
            (own_in self.old gid) run full.now }
        requires room { 66 ≤ self.old.machine.spare }
        ensures did { OfDownload self.old gid (λ download. FollowsSince self.old
            (D.faults self.old.disk) self.new (D.faults self.new.disk)
            gid run full.now download result) }
        ensures on { Continues 66 self.old self.new }
        ensures counted { LandedBetween 0 self.old.machine.past self.new.machine.past }
        ensures disk { IsTrue D.tells → EndsGid gid self.old self.new
            (D.state self.old.disk) (D.state self.new.disk) }
        ensures left { IsTrue D.tells → IsLeftOf self.new gid (D.state self.new.disk) }
        ensures payload { IsTrue D.tells → KeepsPayload gid self.old
            (D.state self.old.disk) (D.state self.new.disk) }
        ensures checks { IsTrue D.tells
            → ChecksOnly gid self.old self.new (D.state self.new.disk).seen }
    {
        plan_laws();
        runs_follow();
        self.tells_stored();
        self.fill(gid, run, full);
        self.tells_stored();
        self.end_or_save(gid)
    }

    // Writes and counts the open blocks of a delivered run, and does what follows of them. Told is how many were counted.
    fn land_and_follow(
        &mut self,
        gid: Gid,
        claim: Claim,
        run: Run,
        open_runs: &NewRuns,
        bytes: &[u8],
    ) -> (u32, Outcome)
        requires going { IsGoing self.old gid }
        requires stands { StandsUnder self.old.machine claim.id gid claim }
        requires delivery { Delivers self.old gid claim run bytes.now }
        requires open_runs { AreOpenIn (own_in self.old gid) claim run open_runs.now }
        requires few { length open_runs.now ≤ 32 }
        requires room { DELIVERY_EVENTS ≤ self.old.machine.spare }
        ensures did { OfDownload self.old gid (λ download. DoesPart
            (λ at. DeliveryPhase at self.old.machine.past download claim open_runs.now)
            self.old (D.faults self.old.disk) self.new (D.faults self.new.disk) result.1) }
        ensures on { Continues DELIVERY_EVENTS self.old self.new }
        ensures counted { LandedBetween result.0 self.old.machine.past self.new.machine.past }
        ensures disk { IsTrue D.tells → EndsGid gid self.old self.new
            (D.state self.old.disk) (D.state self.new.disk) }
        ensures left { IsTrue D.tells → IsLeftOf self.new gid (D.state self.new.disk) }
        ensures written { IsTrue D.tells → HoldsLanded claim.id run bytes.now
            self.old self.new (D.state self.new.disk).seen }
        ensures alone { IsTrue D.tells → KeepsBeside gid open_runs.now self.old
            (D.state self.old.disk) (D.state self.new.disk) }
        ensures checks { IsTrue D.tells
            → ChecksOnly gid self.old self.new (D.state self.new.disk).seen }
    {
        plan_laws();
        runs_follow();
        self.tells_stored();
        let full = self.full_pieces(gid, run);
        let (counted, outcome) = self.land_all(gid, claim, run, open_runs, bytes);
        match outcome {
            Outcome::Went => {
                self.tells_stored();
                let outcome = self.follow(gid, run, &full);
                self.tells_stored();
                (counted, outcome)
            }
            outcome => (counted, outcome),
        }
    }

    // Blocks of a claim that stands are delivered.
    fn deliver_blocks(&mut self, gid: Gid, claim: Claim, run: Run, bytes: &[u8]) -> Said
        requires going { IsGoing self.old gid }
        requires stands { StandsUnder self.old.machine claim.id gid claim }
        requires delivery { Delivers self.old gid claim run bytes.now }
        requires room { DELIVERY_EVENTS ≤ self.old.machine.spare }
        ensures row { OfDownload self.old gid (λ download. DoesRow
            (λ at s. IsKept at s download claim run)
            self.old (D.faults self.old.disk) self.new (D.faults self.new.disk) result) }
        ensures on { Continues DELIVERY_EVENTS self.old self.new }
        ensures leaves { IsTrue D.tells → LeavesDisk self.old self.new
            (D.state self.old.disk) (D.state self.new.disk) }
        ensures written { IsTrue D.tells → HoldsLanded claim.id run bytes.now
            self.old self.new (D.state self.new.disk).seen }
        ensures kept { IsTrue D.tells → KeepEachUndelivered claim.id run self.old self.new result
            (D.state self.old.disk) (D.state self.new.disk) }
        ensures checks { IsTrue D.tells
            → ChecksOnly gid self.old self.new (D.state self.new.disk).seen }
    {
        plan_laws();
        runs_follow();
        self.tells_stored();
        let open_runs = self.machine.new_blocks(claim.id, run);
        let open = block_count(&open_runs);
        let repeated = run.count - open;
        let (counted, outcome) = self.land_and_follow(gid, claim, run, &open_runs, bytes);
        kept_unless_starved(counted, repeated, outcome)
    }

    /// Blocks of a claim come, with their bytes. Those that are open in the claim are written and counted. Of a download
    /// without digests the pieces that they fill count as right. Then the download ends, or is saved where that is due.
    pub fn deliver(&mut self, claim: u64, run: Run, bytes: &[u8]) -> Said
        requires room { DELIVERY_EVENTS ≤ self.old.machine.spare }
        ensures row { DoesRow (λ at s. OfClaim at s claim (DeliverRow at s run bytes.now)) self.old
            (D.faults self.old.disk) self.new (D.faults self.new.disk) result }
        ensures on { Continues DELIVERY_EVENTS self.old self.new }
        ensures leaves { IsTrue D.tells → LeavesDisk self.old self.new
            (D.state self.old.disk) (D.state self.new.disk) }
        ensures written { IsTrue D.tells → HoldsLanded claim run bytes.now
            self.old self.new (D.state self.new.disk).seen }
        ensures kept { IsTrue D.tells → KeepEachUndelivered claim run self.old self.new result
            (D.state self.old.disk) (D.state self.new.disk) }
        ensures checks { IsTrue D.tells
            → ChecksTruly self.old self.new (D.state self.new.disk).seen }
    {
        runs_follow();
        self.tells_stored();
        let Some((gid, granted)) = self.machine.claim(claim) else {
            return Said::Void;
        };
        if !self.is_delivery(gid, granted, run, bytes) {
            return Said::Void;
        }
        self.deliver_blocks(gid, granted, run, bytes)
    }
}
