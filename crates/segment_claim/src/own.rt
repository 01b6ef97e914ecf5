// What is seen of a claim: how far it is, and which of its blocks may be stolen.
ghost use Rattle.std.specs.Prelude.{◌≡◌, ◌↔◌, ℕ, ◌+◌, ◌<◌, ◌≤◌, ◌^◌, IsTrue};
ghost use Rattle.segment_claim.specs.Free.{IsMirrorFor};
ghost use Rattle.segment_claim.specs.Search.{IsOfPayload, IsWithinPayload};
ghost use Rattle.slow_steal.specs.Theft.{later_half};
ghost use Rattle.segment_claim.specs.Views.{IsAble, IsOwnRun, IsViewOf, IsWithoutSole, is_of_others, is_own, landed_of};

use crate::open::is_open;
use crate::scene::Scene;
use dl_kinds::{Claim, ClaimView, Run};

impl<'a> Scene<'a> {
    // Whether a standing claim but this one is to bring the block.
    fn is_of_others(&self, id: u64, block: u32) -> bool
        ensures { result ≡ is_of_others self.now id block }
    {
        let plan = &self.plan;
        for other in self.standing {
            if other.id != id && is_open(plan, self.landed, self.closed, other, block) {
                return true;
            }
        }
        false
    }

    // Whether the block is one of the claim's own.
    fn is_own(&self, claim: &Claim, block: u32) -> bool
        requires { IsOfPayload self.now claim.now }
        ensures { result ≡ is_own self.now claim.now block }
    {
        is_open(&self.plan, self.landed, self.closed, claim, block)
            && !self.is_of_others(claim.id, block)
    }

    // The longest run of the claim's own blocks, and of equally long ones the last.
    fn own_run(&self, claim: &Claim) -> Run
        requires { IsOfPayload self.now claim.now }
        ensures run { IsOwnRun self.now claim.now result }
        ensures bounded { result.first + result.count < 2 ^ 32 }
    {
        let end = claim.run.first + claim.run.count;
        let mut longest = Run {
            first: claim.run.first,
            count: 0,
        };
        let mut run = longest;
        for block in claim.run.first..end {
            if self.is_own(claim, block) {
                run.count += 1;
                if run.count >= longest.count {
                    longest = run;
                }
            } else {
                run = Run {
                    first: block + 1,
                    count: 0,
                };
            }
        }
        longest
    }

    // How many blocks of the claim's run are landed.
    fn count_landed(&self, claim: &Claim) -> u32
        requires { IsOfPayload self.now claim.now }
        ensures count { result ≡ landed_of self.now claim.now }
        ensures bound { result ≤ claim.now.run.count }
    {
        let mut count = 0;
        for block in claim.run.first..claim.run.first + claim.run.count {
            if self.landed.get(block) {
                count += 1;
            }
        }
        count
    }

    // Whether none of the pieces of a run is sole.
    fn is_without_sole(&self, run: Run) -> bool
        requires { IsWithinPayload self.now run }
        ensures { IsTrue result ↔ IsWithoutSole self.now run }
    {
        let first = self.plan.piece_of(run.first);
        let end = self.plan.piece_of(run.first + run.count - 1) + 1;
        self.sole.next_within(first, end, true) == end
    }

    // Whether a mirror is found for the later half of a run.
    fn has_thief(&self, own: Run) -> bool
        requires some { 2 ≤ own.count }
        requires within { IsWithinPayload self.now own }
        requires bounded { own.first + own.count < 2 ^ 32 }
        ensures { IsTrue result ↔ (mirror : ℕ) × IsMirrorFor self.now (later_half own) mirror }
    {
        self.mirror_for(own.later_half()).is_some()
    }

    // Whether the claim is able to lose blocks of its own run.
    fn is_able(&self, claim: &Claim, own: Run) -> bool
        requires claim { IsOfPayload self.now claim.now }
        requires own { IsOwnRun self.now claim.now own }
        ensures { IsTrue result ↔ IsAble self.now claim.now own }
    {
        if own.count < 2 {
            return false;
        }
        self.is_without_sole(claim.run) && self.has_thief(own)
    }

    /// What is seen of a claim.
    pub fn view_of(&self, claim: &Claim) -> ClaimView
        requires { IsOfPayload self.now claim.now }
        ensures view { IsViewOf self.now claim.now result }
        ensures bounded { result.own.first + result.own.count < 2 ^ 32 }
    {
        let landed = self.count_landed(claim);
        let own = self.own_run(claim);
        ClaimView {
            id: claim.id,
            since: claim.since,
            landed,
            unlanded: claim.run.count - landed,
            own,
            able: self.is_able(claim, own),
        }
    }
}
