// The free claim.
ghost use Rattle.std.specs.Prelude.{◌≡◌, ◌↔◌, ℕ, ◌+◌, ◌<◌, ◌≤◌, ◌^◌, true, false, IsTrue, IsNone, IfNone, IfSome, MatchOption};
ghost use Rattle.dl_kinds.specs.Plan.{blocks_of, pieces_of};
ghost use Rattle.dl_kinds.specs.declared.runs.Run.{Run};
ghost use Rattle.piece_table.specs.Changes.{is_in};
ghost use Rattle.segment_claim.specs.Free.{HasNoFreeClaim, IsFreeClaim, IsFreeStretch, IsLooseStretch, IsMirrorFor, claim_cut, is_claimed, is_free};
ghost use Rattle.segment_claim.specs.Search.{GoesFirst, IsBestOf, IsBetter, IsFreeSole, IsWithinPayload};

use crate::open::is_open;
use crate::scene::{Cover, Scene};
use dl_kinds::Run;

/// Blocks, and the mirror that is chosen for them.
#[derive(Clone, Copy, Debug, PartialEq, Eq)]
pub struct Found {
    pub run: Run,
    pub mirror: u16,
}

// Whether a run goes before what was found.
fn goes_first(run: Run, found: Option<Found>) -> bool
    ensures { IsTrue result ↔ MatchOption found (Unit {0}) (GoesFirst run) }
{
    match found {
        Some(other) => {
            run.count > other.run.count
                || run.count == other.run.count && run.first < other.run.first
        }
        None => true,
    }
}

impl<'a> Scene<'a> {
    /// The mirror that is chosen for the pieces of a run.
    pub fn mirror_for(&self, run: Run) -> Option<u16>
        requires { IsWithinPayload self.now run }
        ensures chosen { IfSome result (IsMirrorFor self.now run) }
        ensures none { IfNone result ((mirror : ℕ) → ¬ IsMirrorFor self.now run mirror) }
    {
        let first = self.plan.piece_of(run.first);
        let last = self.plan.piece_of(run.first + run.count - 1);
        let loads = &self.loads[..self.hosts.len()];
        self.marks.choose(first, last, loads, self.per_host)
    }

    // The better one of what was found and a run.
    fn better(&self, found: Option<Found>, run: Run) -> Option<Found>
        requires { IsWithinPayload self.now run }
        ensures { IsBetter self.now found run result }
    {
        if !goes_first(run, found) {
            return found;
        }
        match self.mirror_for(run) {
            Some(mirror) => Some(Found { run, mirror }),
            None => found,
        }
    }

    // The best of the stretches without a sole piece.
    fn best_loose(&self) -> Option<Found>
        ensures { IsBestOf self.now (IsLooseStretch self.now) result }
    {
        let mut cover = Cover {
            from: 0,
            until: 0,
            newest: None,
        };
        let mut found = None;
        let mut at = 0;
        while let Some(run) = self.next_stretch(at, &mut cover) {
            found = self.better(found, run);
            at = run.first + run.count;
        }
        found
    }

    // Whether a standing claim is to bring the block.
    fn is_claimed(&self, block: u32) -> bool
        ensures { result ≡ is_claimed self.now block }
    {
        let plan = &self.plan;
        for claim in self.standing {
            if is_open(plan, self.landed, self.closed, claim, block) {
                return true;
            }
        }
        false
    }

    // Whether the block is free.
    fn is_free(&self, block: u32) -> bool
        requires { block < blocks_of self.now.total self.now.piece_len }
        ensures { result ≡ is_free self.now block }
    {
        let piece = self.plan.piece_of(block);
        self.wanted.get(piece) && !self.landed.get(block) && !self.is_claimed(block)
    }

    // Whether all blocks of a run are free.
    fn are_free(&self, run: Run) -> bool
        requires within { run.first + run.count ≤ blocks_of self.now.total self.now.piece_len }
        requires bounded { run.first + run.count < 2 ^ 32 }
        ensures { IsTrue result
            ↔ ((block : ℕ) → is_in block run ≡ true → is_free self.now block ≡ true) }
    {
        for block in run.first..run.first + run.count {
            if !self.is_free(block) {
                return false;
            }
        }
        true
    }

    // The run of a piece that is sole and whose blocks are all free.
    fn free_sole(&self, piece: u32) -> Option<Run>
        requires { piece < pieces_of self.now.total self.now.piece_len }
        ensures run { MatchOption result ((run : Run) → ¬ IsFreeSole self.now piece run)
            (IsFreeSole self.now piece) }
        ensures within { IfSome result (IsWithinPayload self.now) }
    {
        let run = self.plan.piece_run(piece);
        if self.sole.get(piece) && self.are_free(run) {
            Some(run)
        } else {
            None
        }
    }

    // The best of all free stretches.
    fn best_stretch(&self) -> Option<Found>
        ensures { IsBestOf self.now (IsFreeStretch self.now) result }
    {
        let mut found = self.best_loose();
        for piece in 0..self.plan.pieces {
            if let Some(run) = self.free_sole(piece) {
                found = self.better(found, run);
            }
        }
        found
    }

    // The first blocks of a stretch, no more than a claim has.
    fn cut(&self, run: Run) -> Run
        requires { IsWithinPayload self.now run }
        ensures value { result ≡ claim_cut self.now run }
        ensures within { IsWithinPayload self.now result }
    {
        if self.sole.get(self.plan.piece_of(run.first)) {
            return run;
        }
        let share = self.plan.blocks().div_ceil(self.split as u32);
        Run {
            first: run.first,
            count: run.count.min(share.max(self.min_blocks)),
        }
    }

    // Whether the host of some mirror has room for a claim.
    fn has_room(&self) -> bool
        ensures { result ≡ false
            → (run : Run) (mirror : ℕ) → ¬ IsMirrorFor self.now run mirror }
    {
        for load in &self.loads[..self.hosts.len()] {
            if *load < self.per_host {
                return true;
            }
        }
        false
    }

    /// The free claim: the first blocks of the longest stretch that a mirror is found for.
    pub fn free_claim(&self) -> Option<Found>
        ensures claim { IfSome result (λ found. IsFreeClaim self.now found.run found.mirror) }
        ensures within { IfSome result (λ found. IsWithinPayload self.now found.run) }
        ensures none { IsNone result ↔ HasNoFreeClaim self.now }
    {
        // Where no host has room, the blocks needn't be looked at.
        if !self.has_room() {
            return None;
        }
        match self.best_stretch() {
            Some(found) => Some(Found {
                run: self.cut(found.run),
                mirror: found.mirror,
            }),
            None => None,
        }
    }
}
