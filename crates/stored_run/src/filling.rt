// Pieces that a delivery fills.
ghost use Rattle.std.specs.Prelude.{◌≡◌, ◌≤◌, ◌<◌, ◌+◌, ◌^◌, ◌↔◌, IsTrue, None, false, slice_index_or, slice_set, true};
ghost use Rattle.dl_history.specs.HistoryLaws.{IsFullIn};
ghost use Rattle.machine_core.specs.RunLegal.{is_listed};
ghost use Rattle.machine_core.specs.Reads.{IsOpenedGid, IsPieceOfGid, lengths_of_gid};
ghost use Rattle.stored_run.specs.Deliveries.{AreUnsettled, CountsFilled, CountsPiece, FillsPieces, IsRunOfPayload, IsUnsettledWhereFull, LandedBetween, TellsFull, first_piece, last_piece};
ghost use Rattle.stored_run.specs.Settlings.{OfDownload, OfWant};
ghost use Rattle.stored_run.specs.Steps.{Continues, StoresGid};
ghost use Rattle.stored_run.specs.Views.{IsGoing, own_in};

use crate::StoredRun;
use crate::following::runs_follow;
use dl_disk::Disk;
use dl_kinds::{Gid, Run, plan_laws};

/// A delivery has blocks of no more pieces.
pub(crate) const MOST_PIECES: usize = 64;

fn mark(full: &mut [bool; MOST_PIECES], place: usize, is_full: bool)
    requires { place < 64 }
    ensures { full.new ≡ slice_set full.old place is_full }
{
    full[place] = is_full;
}

fn is_marked(full: &[bool; MOST_PIECES], place: usize) -> bool
    requires { place < 64 }
    ensures { result ≡ slice_index_or full.now place false }
{
    full[place]
}

impl<D: Disk> StoredRun<D> {
    // Whether all blocks of a piece are landed.
    fn is_full(&self, gid: Gid, piece: u32) -> bool
        requires opened { IsOpenedGid self.now.machine gid }
        requires piece { IsPieceOfGid self.now.machine gid piece }
        ensures { IsTrue result ↔ IsFullIn (lengths_of_gid self.entry.now.machine gid).total
            (lengths_of_gid self.entry.now.machine gid).piece_len
            (own_in self.entry.now gid) piece }
    {
        plan_laws();
        runs_follow();
        self.machine.table(gid).unwrap().is_full(piece)
    }

    // The piece of a run's first block, and that of its last.
    fn pieces_of_run(&self, gid: Gid, run: Run) -> (u32, u32)
        requires opened { IsOpenedGid self.now.machine gid }
        requires run { IsRunOfPayload (lengths_of_gid self.now.machine gid) run }
        ensures first { result.0 ≡ first_piece (lengths_of_gid self.entry.now.machine gid) run }
        ensures last { result.1 ≡ last_piece (lengths_of_gid self.entry.now.machine gid) run }
        ensures ordered { result.0 ≤ result.1 }
        ensures few { result.1 < result.0 + 64 }
        ensures within { IsPieceOfGid self.entry.now.machine gid result.1 }
        ensures fits { result.1 + 1 < 2 ^ 32 }
    {
        plan_laws();
        let plan = self.plan_of(gid);
        let first = plan.piece_of(run.first);
        let last = plan.piece_of(run.first + (run.count - 1));
        (first, last)
    }

    // Which pieces of a run are full, from the piece of its first block on.
    pub(crate) fn full_pieces(&self, gid: Gid, run: Run) -> [bool; MOST_PIECES]
        requires opened { IsOpenedGid self.now.machine gid }
        requires run { IsRunOfPayload (lengths_of_gid self.now.machine gid) run }
        ensures { TellsFull (lengths_of_gid self.entry.now.machine gid) (own_in self.entry.now gid)
            run result }
    {
        let (first, last) = self.pieces_of_run(gid, run);
        let mut full = [false; MOST_PIECES];
        for piece in first..last + 1 {
            let is_full = self.is_full(gid, piece);
            mark(&mut full, (piece - first) as usize, is_full);
        }
        full
    }

    // A piece of a download without digests counts as right where it is full, and isn't marked. Told is whether it does.
    fn count_if_filled(&mut self, gid: Gid, piece: u32, marked: bool) -> bool
        requires going { IsGoing self.old gid }
        requires unlisted { OfWant self.old gid (λ want. want.info_hash ≡ None) }
        requires piece { IsPieceOfGid self.old.machine gid piece }
        requires unsettled { IsUnsettledWhereFull (lengths_of_gid self.old.machine gid)
            (own_in self.old gid) piece marked }
        requires room { 1 ≤ self.old.machine.spare }
        ensures counted { result ≡ true → CountsPiece self.old (D.faults self.old.disk)
            self.new (D.faults self.new.disk) gid piece marked }
        ensures same { result ≡ false → self.new ≡ self.old }
        ensures kept { result ≡ false → marked ≡ false
            → ¬ IsFullIn (lengths_of_gid self.old.machine gid).total
            (lengths_of_gid self.old.machine gid).piece_len (own_in self.old gid) piece }
        ensures on { Continues 1 self.old self.new }
        ensures going { IsGoing self.new gid }
        ensures disk { IsTrue D.tells → StoresGid gid self.old self.new
            (D.state self.old.disk) (D.state self.new.disk) }
        ensures untouched { self.new.disk ≡ self.old.disk }
    {
        runs_follow();
        self.tells_stored();
        if marked {
            return false;
        }
        if !self.is_full(gid, piece) {
            return false;
        }
        self.find(gid, piece, true);
        true
    }

    // The pieces of a run of a download without digests that are full, and weren't before, count as right.
    fn count_filled(&mut self, gid: Gid, run: Run, full: &[bool; MOST_PIECES])
        requires going { IsGoing self.old gid }
        requires unlisted { OfWant self.old gid (λ want. want.info_hash ≡ None) }
        requires run { IsRunOfPayload (lengths_of_gid self.old.machine gid) run }
        requires unsettled { AreUnsettled (lengths_of_gid self.old.machine gid)
            (own_in self.old gid) run full.now }
        requires room { 64 ≤ self.old.machine.spare }
        ensures did { OfDownload self.old gid (CountsFilled self.old (D.faults self.old.disk)
            self.new (D.faults self.new.disk) gid run full.now) }
        ensures on { Continues 64 self.old self.new }
        ensures going { IsGoing self.new gid }
        ensures disk { IsTrue D.tells → StoresGid gid self.old self.new
            (D.state self.old.disk) (D.state self.new.disk) }
        ensures untouched { self.new.disk ≡ self.old.disk }
    {
        runs_follow();
        self.tells_stored();
        let (first, last) = self.pieces_of_run(gid, run);
        for piece in first..last + 1 {
            self.tells_stored();
            let marked = is_marked(full, (piece - first) as usize);
            self.count_if_filled(gid, piece, marked);
        }
    }

    // Whether the pieces of a download have digests.
    pub(crate) fn has_digests(&self, gid: Gid) -> bool
        requires { IsOpenedGid self.now.machine gid }
        ensures listed { result ≡ true → OfDownload self.entry.now gid
            (λ download. is_listed download.subject ≡ true) }
        ensures unlisted { result ≡ false → OfDownload self.entry.now gid
            (λ download. is_listed download.subject ≡ false) }
        ensures none { result ≡ false → OfWant self.entry.now gid
            (λ want. want.info_hash ≡ None) }
    {
        self.tells_stored();
        self.want(gid).unwrap().info_hash.is_some()
    }

    // The pieces that a delivery filled count as right, where their download has no digests.
    pub(crate) fn fill(&mut self, gid: Gid, run: Run, full: &[bool; MOST_PIECES])
        requires going { IsGoing self.old gid }
        requires run { IsRunOfPayload (lengths_of_gid self.old.machine gid) run }
        requires unsettled { AreUnsettled (lengths_of_gid self.old.machine gid)
            (own_in self.old gid) run full.now }
        requires room { 64 ≤ self.old.machine.spare }
        ensures did { OfDownload self.old gid (FillsPieces self.old (D.faults self.old.disk)
            self.new (D.faults self.new.disk) gid run full.now) }
        ensures on { Continues 64 self.old self.new }
        ensures going { IsGoing self.new gid }
        ensures counted { LandedBetween 0 self.old.machine.past self.new.machine.past }
        ensures disk { IsTrue D.tells → StoresGid gid self.old self.new
            (D.state self.old.disk) (D.state self.new.disk) }
        ensures untouched { self.new.disk ≡ self.old.disk }
    {
        runs_follow();
        self.tells_stored();
        if !self.has_digests(gid) {
            self.count_filled(gid, run, full);
        }
    }
}
