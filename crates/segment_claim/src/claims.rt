// The claims of a download.
ghost use Rattle.std.specs.Prelude.{◌≡◌, ◌↔◌, ◌⊎◌, ℕ, ◌+◌, ◌<◌, ◌≤◌, ◌^◌, not, [], All, length, true, IsNone, IfNone, IfSome, OnOk, slice_get};
ghost use Rattle.dl_kinds.specs.Plan.{blocks_of, pieces_of};
ghost use Rattle.piece_table.specs.NewRuns.{AreRunsOf};
ghost use Rattle.segment_claim.specs.Book.{granted, no_claims, kept_where, with_cleared, claim_under, is_open_under, first_open_under, first_open_at, swept};
ghost use Rattle.segment_claim.specs.Open.{has_number};
ghost use Rattle.segment_claim.specs.Free.{HasNoFreeClaim, IsFreeClaim, IsFreeGrant, IsMirrorFor};
ghost use Rattle.segment_claim.specs.Search.{IsWithinPayload};
ghost use Rattle.segment_claim.specs.Situation.{FitTogether, IsTableOfClaims, situation_of};
ghost use Rattle.segment_claim.specs.Sound.{AreClaims, IsWithinBlocks};
ghost use Rattle.segment_claim.specs.Theft.{AreViews, IsStealOf, stolen_claim};
ghost use Rattle.segment_claim.specs.declared.limits.TheConstants.{MAX_SPLIT};

use crate::free::Found;
use crate::open::{first_open, is_open, open_runs, sweep};
use crate::scene::{Scene, host_loads};
use crate::{Limits, Views};
use dl_kinds::{Claim, Moment, Plan, Run};
use mirror_blame::Marks;
use piece_table::{NewRuns, Table};
use slow_steal::Steal;
use std::alloc::{AllocError, Global};
use std::marker::Model;

/// The claims of a download's blocks that stand.
#[derive(Debug, Drop)]
pub struct Claims {
    plan: Plan,
    // The newest first.
    standing: Vec<Claim>,
    // For each piece the number below which all claims had been granted when it was last cleared. Empty until room is
    // made. A number is one above that of a claim, which may be the last of 64 bits.
    closed: Vec<u128>,
    next: u128,
}

impl Model for Claims {
    ghost use Rattle.std.specs.Prelude.{◌-◌, vec_len, vec_capacity};
    ghost use Rattle.segment_claim.specs.Book.{ClaimBook};
    ghost use Rattle.segment_claim.specs.Kept.{KeepsClaims, closed_of, room_of};

    ghost Value = { ClaimBook };

    ghost view = { λ c. record {
      total = c.plan.total;
      piece_len = c.plan.piece_len;
      standing = c.standing.items;
      closed = closed_of c.plan.pieces c.closed.items;
      next = c.next;
      spare = room_of c.plan.pieces (vec_len c.closed) (vec_capacity c.standing - vec_len c.standing);
    } };

    ghost invariant = { λ c. KeepsClaims c.plan.total c.plan.piece_len c.standing.items c.closed.items c.next };
}

impl Claims {
    /// No claims, of a payload that is cut so.
    pub fn new(alloc: Global, plan: Plan) -> Self
        ensures { result ≡ no_claims plan.total plan.piece_len result.spare }
    {
        Claims {
            plan,
            standing: Vec::new(alloc),
            closed: Vec::new(alloc),
            next: 0,
        }
    }

    /// Makes room for one more claim. The other calls take no memory.
    pub fn reserve(&mut self) -> Result<(), AllocError>
        ensures ok { OnOk result (1 ≤ self.new.spare) }
        ensures kept { self.old.spare ≤ self.new.spare }
        ensures same { self.new ≡ record self.old { spare = self.new.spare } }
    {
        self.closed.resize(self.plan.pieces as usize, 0)?;
        self.standing.reserve(1)?;
        Ok(())
    }

    /// The claim that stands under a number.
    pub fn get(&self, id: u64) -> Option<Claim>
        ensures { result ≡ claim_under self.now id }
    {
        self.standing.iter().find(|claim| claim.id == id).copied()
    }

    /// The claim at a place among those that stand, from 0, the newest first.
    pub fn at(&self, place: u16) -> Option<Claim>
        ensures { result ≡ slice_get self.now.standing place }
    {
        self.standing.get(place as usize).copied()
    }

    /// How many claims stand.
    pub fn standing(&self) -> u16
        ensures len { result ≡ length self.now.standing }
        ensures sound { AreClaims self.now }
    {
        self.standing.len() as u16
    }

    /// The claim under this number doesn't stand any more.
    pub fn void(&mut self, id: u64)
        ensures rest { self.new
            ≡ kept_where (λ claim. not (has_number id claim)) self.new.spare self.old }
        ensures room { self.old.spare ≤ self.new.spare }
    {
        self.standing.retain(|claim| claim.id != id);
    }

    /// A piece was cleared: its blocks are open in no claim that was granted up to now.
    pub fn cleared(&mut self, piece: u32)
        requires { piece < pieces_of self.old.total self.old.piece_len }
        ensures { self.new ≡ with_cleared self.old piece }
    {
        if !self.closed.is_empty() {
            self.closed[piece as usize] = self.next;
        }
    }

    /// Whether a block is open in the claim that stands under a number.
    pub fn is_open(&self, id: u64, block: u32, table: &Table) -> bool
        requires { IsTableOfClaims self.now table.now }
        ensures { result ≡ is_open_under self.now table.now.landed id block }
    {
        match self.get(id) {
            Some(claim) => is_open(&self.plan, table.blocks(), &self.closed, &claim, block),
            None => false,
        }
    }

    /// The blocks of a run, of at most 64, that are open in the claim that stands under a number.
    pub fn open_runs(&self, id: u64, run: Run, table: &Table) -> NewRuns
        requires table { IsTableOfClaims self.now table.now }
        requires few { run.count ≤ 64 }
        requires bounded { run.first + run.count < 2 ^ 32 }
        ensures { AreRunsOf (λ block. is_open_under self.now table.now.landed id block ≡ true)
            run result }
    {
        match self.get(id) {
            Some(claim) => open_runs(&self.plan, table.blocks(), &self.closed, &claim, run),
            None => NewRuns::new(),
        }
    }

    /// The first block that is open in the claim that stands under a number.
    pub fn first_open(&self, id: u64, table: &Table) -> Option<u32>
        requires { IsTableOfClaims self.now table.now }
        ensures { result ≡ first_open_under self.now table.now.landed id }
    {
        match self.get(id) {
            Some(claim) => first_open(&self.plan, table.blocks(), &self.closed, &claim),
            None => None,
        }
    }

    /// The first block that is open in the claim at a place among those that stand, from 0, the newest first.
    pub fn first_open_at(&self, place: u16, table: &Table) -> Option<u32>
        requires { IsTableOfClaims self.now table.now }
        ensures { result ≡ first_open_at self.now table.now.landed place }
    {
        if place >= self.standing() {
            return None;
        }
        let claim = self.standing[place as usize];
        first_open(&self.plan, table.blocks(), &self.closed, &claim)
    }

    /// No claim stands any more.
    pub fn end_all(&mut self)
        ensures none { self.new ≡ record self.old { standing = []; spare = self.new.spare } }
        ensures room { self.old.spare ≤ self.new.spare }
    {
        self.standing.clear();
    }

    /// The claims in which no block is open don't stand any more.
    pub fn sweep(&mut self, table: &Table)
        requires { IsTableOfClaims self.old table.now }
        ensures rest { self.new ≡ swept self.old table.now.landed self.new.spare }
        ensures room { self.old.spare ≤ self.new.spare }
    {
        if !self.standing.is_empty() {
            sweep(&self.plan, table.blocks(), &self.closed, &mut self.standing);
        }
    }

    // The claims with what else the choice of a claim looks at.
    fn scene<'a>(&'a self, table: &'a Table, marks: &'a Marks, limits: &'a Limits<'a>) -> Scene<'a>
        requires fit { FitTogether self.now table.now marks.now limits.now }
        requires made { (1 ≤ self.now.spare) ⊎ (1 ≤ length self.now.standing) }
        ensures { result ≡ situation_of self.now table.now marks.now limits.now }
    {
        let landed = table.blocks();
        let sole = table.sole();
        let standing = self.standing.as_slice();
        let closed = self.closed.as_slice();
        let loads = host_loads(limits.hosts, standing);
        Scene {
            plan: self.plan,
            landed,
            sole,
            wanted: limits.wanted,
            standing,
            closed,
            marks,
            hosts: limits.hosts,
            per_host: limits.per_host,
            split: limits.split,
            min_blocks: limits.min_blocks,
            loads,
        }
    }

    /// A claim is granted: blocks of the payload, under a number above those of all claims before.
    pub fn grant(&mut self, claim: Claim)
        requires few { length self.old.standing < MAX_SPLIT }
        requires room { 1 ≤ self.old.spare }
        requires number { self.old.next ≤ claim.id }
        requires blocks { IsWithinBlocks (blocks_of self.old.total self.old.piece_len) claim }
        ensures { self.new ≡ granted self.old claim }
    {
        self.next = claim.id as u128 + 1;
        self.standing.insert(0, claim).unwrap();
    }

    /// The blocks and the mirror of the free claim. It isn't granted by this.
    pub fn free_claim(&self, table: &Table, marks: &Marks, limits: &Limits) -> Option<Found>
        requires fit { FitTogether self.now table.now marks.now limits.now }
        requires room { 1 ≤ self.now.spare }
        ensures claim { IfSome result (λ found. IsFreeClaim
            (situation_of self.now table.now marks.now limits.now) found.run found.mirror) }
        ensures within { IfSome result (λ found. IsWithinPayload
            (situation_of self.now table.now marks.now limits.now) found.run) }
        ensures none { IsNone result
            ↔ HasNoFreeClaim (situation_of self.now table.now marks.now limits.now) }
    {
        self.scene(table, marks, limits).free_claim()
    }

    /// Grants the free claim: of the free stretches for which a mirror is found, the first blocks of the longest, and
    /// of equally long ones of the lowest. None is where no mirror is found for any.
    pub fn grant_free(
        &mut self,
        id: u64,
        worker: u32,
        table: &Table,
        marks: &Marks,
        limits: &Limits,
        now: Moment,
    ) -> Option<Claim>
        requires fit { FitTogether self.old table.now marks.now limits.now }
        requires few { length self.old.standing < MAX_SPLIT }
        requires room { 1 ≤ self.old.spare }
        requires number { self.old.next ≤ id }
        ensures claim { IfSome result
            (IsFreeGrant (situation_of self.old table.now marks.now limits.now) id worker now.0) }
        ensures granted { IfSome result (λ claim. self.new ≡ granted self.old claim) }
        ensures none { IsNone result
            ↔ HasNoFreeClaim (situation_of self.old table.now marks.now limits.now) }
        ensures same { IfNone result (self.new ≡ self.old) }
    {
        let found = self.scene(table, marks, limits).free_claim();
        match found {
            Some(Found { run, mirror }) => {
                let claim = Claim {
                    id,
                    worker,
                    mirror,
                    run,
                    victim: None,
                    since: now,
                };
                self.grant(claim);
                Some(claim)
            }
            None => None,
        }
    }

    /// What is seen of each standing claim, the newest first, in place of what the list held.
    pub fn views(&self, table: &Table, marks: &Marks, limits: &Limits, into: &mut Views)
        requires { FitTogether self.now table.now marks.now limits.now }
        ensures views { AreViews (situation_of self.now table.now marks.now limits.now) into.new }
        ensures bounded { All (λ view. view.own.first + view.own.count < 2 ^ 32) into.new }
    {
        into.clear();
        if self.standing.is_empty() {
            return;
        }
        let scene = self.scene(table, marks, limits);
        for claim in &self.standing {
            into.push(scene.view_of(claim));
        }
    }

    /// The mirror that is chosen for the pieces of a run, by the claims that stand on each mirror's host.
    pub fn mirror_for(&self, run: Run, table: &Table, marks: &Marks, limits: &Limits) -> Option<u16>
        requires fit { FitTogether self.now table.now marks.now limits.now }
        requires room { 1 ≤ self.now.spare }
        requires some { 1 ≤ run.count }
        requires within { run.first + run.count ≤ blocks_of self.now.total self.now.piece_len }
        ensures chosen { IfSome result
            (IsMirrorFor (situation_of self.now table.now marks.now limits.now) run) }
        ensures none { IfNone result ((mirror : ℕ)
            → ¬ IsMirrorFor (situation_of self.now table.now marks.now limits.now) run mirror) }
    {
        self.scene(table, marks, limits).mirror_for(run)
    }

    /// Grants blocks that are stolen of a standing claim.
    pub fn grant_steal(
        &mut self,
        id: u64,
        worker: u32,
        steal: Steal,
        mirror: u16,
        now: Moment,
    ) -> Claim
        requires steal { IsStealOf self.old steal }
        requires few { length self.old.standing < MAX_SPLIT }
        requires room { 1 ≤ self.old.spare }
        requires number { self.old.next ≤ id }
        ensures claim { result ≡ stolen_claim id worker steal mirror now.0 }
        ensures granted { self.new ≡ granted self.old result }
    {
        // Looked at, since a proof knows what holds of the claims once one of their parts was.
        let _ = &self.standing;
        let claim = Claim {
            id,
            worker,
            mirror,
            run: steal.run,
            victim: Some(steal.victim),
            since: now,
        };
        self.grant(claim);
        claim
    }
}
