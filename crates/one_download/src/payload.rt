// The payload of a download that is opened.
ghost use Rattle.std.specs.Prelude.{◌≡◌, ◌↔◌, ◌||◌, ℕ, IsTrue, ◌+◌, ◌-◌, ◌<◌, ◌≤◌, ◌^◌, true, false, Some, IfNone, IfOk, IfSome, OnOk, length, slice_get};
ghost use Rattle.std.specs.Option.{is_some, option_and_then};
ghost use Rattle.dl_history.specs.Accounts.{after_finding, after_halt, after_landing, after_loss, after_save, at_opening, first_still_open, listing_of, with_claim, with_finding, without_piece, unsettled_by};
ghost use Rattle.dl_history.specs.Listings.{ListsNone};
ghost use Rattle.dl_kinds.specs.Plan.{blocks_of, pieces_of};
ghost use Rattle.dl_kinds.specs.declared.plan.TheConstants.{MAX_PIECES};
ghost use Rattle.one_download.specs.DownloadViews.{HasNoneToSettle, IsFirstPiece, IsFullUnverified, IsNextToSettle, IsOpenAt, IsPieceOf, IsToSettle, IsUnverified, is_open_by, standing_under};
ghost use Rattle.one_download.specs.Grants.{HasNoChoice, IsBlockChoice, MaySplit, situation_for};
ghost use Rattle.one_download.specs.PayloadViews.{IsRunOf, account_before};
ghost use Rattle.piece_table.specs.NewRuns.{AreRunsOf};
ghost use Rattle.piece_table.specs.Progress.{IsFull, IsStart};
ghost use Rattle.segment_claim.specs.declared.limits.TheConstants.{MAX_SPLIT};

use crate::choosing::choose;
use crate::halts::end_soles;
use crate::rows::{copy_over, is_copy, is_listing, list_blocks, lists_any};
use crate::{Choice, Split};
use bit_rows::BitRow;
use dl_kinds::{BLOCK_LEN, Claim, Moment, Plan, Run, plan_laws};
use mirror_blame::Marks;
use piece_table::{Giver, NewRuns, Table};
use segment_claim::{Claims, Limits};
use std::alloc::{AllocError, Global};
use std::marker::Model;

/// What a download that is opened has of its payload, its claims that stand, and what its last save lists.
#[derive(Debug, Drop)]
pub struct Payload {
    plan: Plan,
    table: Table,
    claims: Claims,
    // The pieces that were settled since their last landing.
    settled: BitRow,
    // The pieces that are to come.
    wanted: BitRow,
    listed_pieces: BitRow,
    listed_blocks: BitRow,
    saved: Moment,
    told: Option<u64>,
    checked: Option<bool>,
    ended: bool,
}

/// What is known of a download before it is opened.
#[derive(Clone, Copy, Debug, PartialEq, Eq)]
pub struct Before {
    /// The length that a probe told.
    pub told: Option<u64>,
    pub ended: bool,
}

impl Model for Payload {
    ghost use Rattle.one_download.specs.PayloadViews.{PayloadView, payload_by, IsSoundPayload};

    ghost Value = { PayloadView };

    ghost view = { payload_by };

    ghost invariant = { IsSoundPayload };
}

// Of the pieces with a block of the run none was settled since.
fn unsettle(plan: &Plan, run: Run, settled: &mut BitRow)
    requires row { length settled.old ≡ pieces_of plan.now.total plan.now.piece_len }
    requires within { run.first + run.count ≤ blocks_of plan.now.total plan.now.piece_len }
    ensures { settled.new ≡ unsettled_by plan.now.piece_len run settled.old }
{
    for block in run.first..run.first + run.count {
        settled.clear(plan.piece_of(block));
    }
}

// A full, unverified piece is found right or wrong. Its blocks came from this giver.
fn find(table: &mut Table, piece: u32, right: bool, giver: Giver)
    requires full { IsFull table.old.total table.old.piece_len table.old.landed piece }
    requires unverified { IsUnverified table.old piece }
    ensures { table.new ≡ with_finding table.old piece right giver }
{
    table.settle(piece, right);
    if right {
        return;
    }
    match giver {
        Giver::Mixed => table.make_sole(piece),
        _ => {}
    }
}

fn either(one: bool, other: bool) -> bool
    ensures { result ≡ (one || other) }
{
    one || other
}

impl Payload {
    /// The payload of a download that is opened with these pieces verified and these blocks landed. Before that its
    /// length may have been told, and it may have ended.
    pub fn new(
        alloc: Global,
        plan: Plan,
        verified: BitRow,
        blocks: BitRow,
        wanted: BitRow,
        before: Before,
        now: Moment,
    ) -> Result<Payload, AllocError>
        requires start { IsStart plan.total plan.piece_len verified blocks }
        requires wanted { length wanted ≡ pieces_of plan.total plan.piece_len }
        ensures account { IfOk result (λ payload. payload.account
            ≡ at_opening plan.total plan.piece_len (account_before before) verified blocks now) }
        ensures wanted { IfOk result (λ payload. payload.wanted ≡ wanted) }
    {
        let listed_pieces = verified.copy(alloc)?;
        let listed_blocks = blocks.copy(alloc)?;
        let settled = BitRow::new(alloc, plan.pieces)?;
        let table = Table::new(alloc, plan, verified, blocks)?;
        let claims = Claims::new(alloc, plan);
        Ok(Payload {
            plan,
            table,
            claims,
            settled,
            wanted,
            listed_pieces,
            listed_blocks,
            saved: now,
            told: before.told,
            checked: None,
            ended: before.ended,
        })
    }

    /// Blocks of a claim come from its mirror.
    pub fn landed(&mut self, run: Run, mirror: u16)
        requires few { run.count ≤ 64 }
        requires within { run.first + run.count ≤ blocks_of self.old.account.progress.total
            self.old.account.progress.piece_len }
        ensures account { self.new.account ≡ after_landing self.old.account mirror run }
        ensures wanted { self.new.wanted ≡ self.old.wanted }
        ensures room { self.old.spare ≤ self.new.spare }
    {
        let _ = self.claims.standing();
        unsettle(&self.plan, run, &mut self.settled);
        self.table.land(run, mirror);
        self.claims.sweep(&self.table);
    }

    /// A full, unverified piece is found right or wrong. Told is who gave it.
    pub fn settled(&mut self, piece: u32, right: bool) -> Giver
        requires { IsFullUnverified self.old.account.progress piece }
        ensures giver { slice_get self.old.account.progress.givers piece ≡ Some result }
        ensures account { self.new.account ≡ after_finding self.old.account piece right result }
        ensures wanted { self.new.wanted ≡ self.old.wanted }
        ensures room { self.new.spare ≡ self.old.spare }
        ensures number { piece < MAX_PIECES }
    {
        plan_laws();
        let giver = self.table.giver(piece);
        find(&mut self.table, piece, right, giver);
        self.settled.set(piece);
        giver
    }

    /// The blocks of an unverified piece go.
    pub fn cleared(&mut self, piece: u32)
        requires { IsUnverified self.old.account.progress piece }
        ensures account { self.new.account ≡ without_piece self.old.account piece }
        ensures wanted { self.new.wanted ≡ self.old.wanted }
        ensures room { self.new.spare ≡ self.old.spare }
    {
        self.table.clear(piece);
        self.claims.cleared(piece);
    }

    /// A claim fails at its first open block, which is of this piece. What it gave of a sole piece goes.
    pub fn lost(&mut self, id: u64, piece: u32)
        requires { IsOpenAt self.old.account id piece }
        ensures account { self.new.account ≡ after_loss self.old.account id piece }
        ensures wanted { self.new.wanted ≡ self.old.wanted }
        ensures room { self.old.spare ≤ self.new.spare }
    {
        plan_laws();
        let _ = self.table.blocks();
        let _ = self.claims.standing();
        self.claims.void(id);
        if self.table.is_sole(piece) {
            self.table.clear(piece);
            self.claims.cleared(piece);
        }
    }

    /// Its progress is saved.
    pub fn saved(&mut self, now: Moment)
        ensures account { self.new.account ≡ after_save self.old.account now }
        ensures wanted { self.new.wanted ≡ self.old.wanted }
        ensures room { self.new.spare ≡ self.old.spare }
    {
        copy_over(self.table.verified(), &mut self.listed_pieces);
        list_blocks(&self.table, &mut self.listed_blocks);
        self.saved = now;
    }

    /// The whole payload is found right or wrong.
    pub fn checked(&mut self, right: bool)
        ensures account { self.new.account ≡ record self.old.account { checked = Some right } }
        ensures wanted { self.new.wanted ≡ self.old.wanted }
        ensures room { self.new.spare ≡ self.old.spare }
    {
        self.checked = Some(right);
    }

    /// It ends, leaves the active list, or the run stops: its claims end.
    pub fn halted(&mut self, ends: bool)
        ensures account { self.new.account ≡ after_halt self.old.account ends }
        ensures wanted { self.new.wanted ≡ self.old.wanted }
        ensures room { self.old.spare ≤ self.new.spare }
    {
        end_soles(&self.plan, &mut self.table, &mut self.claims);
        self.claims.end_all();
        let ended = either(ends, self.ended);
        self.ended = ended;
    }

    /// Makes room for one more claim.
    pub fn reserve(&mut self) -> Result<(), AllocError>
        ensures ok { OnOk result (1 ≤ self.new.spare) }
        ensures kept { self.old.spare ≤ self.new.spare }
        ensures account { self.new.account ≡ self.old.account }
        ensures wanted { self.new.wanted ≡ self.old.wanted }
    {
        self.claims.reserve()
    }

    /// Blocks are claimed.
    pub fn granted(&mut self, claim: Claim)
        requires run { IsRunOf self.old.account.progress claim.run }
        requires few { length self.old.account.standing < MAX_SPLIT }
        requires number { self.old.account.next ≤ claim.id }
        requires room { 1 ≤ self.old.spare }
        ensures account { self.new.account ≡ with_claim self.old.account claim }
        ensures wanted { self.new.wanted ≡ self.old.wanted }
        ensures room { self.new.spare ≡ self.old.spare - 1 }
    {
        self.claims.grant(claim);
        let _ = self.claims.standing();
    }

    /// The blocks and the mirror of the next claim.
    pub fn choice(&self, marks: &Marks, split: Split, hosts: &[u16], now: Moment) -> Option<Choice>
        requires split { MaySplit marks.now.mirrors split hosts.now }
        requires room { 1 ≤ self.now.spare }
        ensures choice { IfSome result (IsBlockChoice
            (situation_for self.now.account self.now.wanted
            marks.now.max_tries marks.now.marks split hosts.now) now.0) }
        ensures run { IfSome result (λ choice. IsRunOf self.now.account.progress choice.run) }
        ensures none { IfNone result (HasNoChoice (situation_for self.now.account self.now.wanted
            marks.now.max_tries marks.now.marks split hosts.now) now.0) }
    {
        let limits = Limits {
            split: split.claims,
            per_host: split.per_host,
            min_blocks: split.min_blocks,
            hosts,
            wanted: &self.wanted,
        };
        choose(&self.claims, &self.table, marks, &limits, now)
    }

    /// What it has of its payload.
    pub fn table(&self) -> &Table
        ensures table { result.now ≡ self.now.account.progress }
        ensures saved { is_some self.now.account.saved ≡ true }
    {
        &self.table
    }

    /// Whether a piece is to come.
    pub fn is_wanted(&self, piece: u32) -> bool
        requires { piece < length self.now.wanted }
        ensures { slice_get self.now.wanted piece ≡ Some result }
    {
        self.wanted.get(piece)
    }

    /// The claim that stands under a number.
    pub fn claim(&self, id: u64) -> Option<Claim>
        ensures { result ≡ standing_under self.now.account id }
    {
        self.claims.get(id)
    }

    /// The blocks of a run, of at most 64, that are open in it.
    pub fn open_runs(&self, id: u64, run: Run) -> NewRuns
        requires few { run.count ≤ 64 }
        requires bounded { run.first + run.count < 2 ^ 32 }
        ensures { AreRunsOf (λ block. is_open_by self.now.account id block ≡ true) run result }
    {
        self.claims.open_runs(id, run, &self.table)
    }

    /// The first block that is open in it.
    pub fn first_open(&self, id: u64) -> Option<u32>
        ensures { result ≡ option_and_then (first_still_open self.now.account)
            (standing_under self.now.account id) }
    {
        self.claims.first_open(id, &self.table)
    }

    /// The piece of the first block that is open in it, and 0 where none is.
    pub fn first_piece(&self, id: u64) -> u32
        ensures { IsFirstPiece self.now.account id result }
    {
        match self.claims.first_open(id, &self.table) {
            Some(block) => block / self.plan.piece_len.div_ceil(BLOCK_LEN),
            None => 0,
        }
    }

    /// The claim at a place among those that stand, from 0, the newest first.
    pub fn claim_at(&self, place: u16) -> Option<Claim>
        ensures { result ≡ slice_get self.now.account.standing place }
    {
        self.claims.at(place)
    }

    /// How many claims stand.
    pub fn standing(&self) -> u16
        ensures len { result ≡ length self.now.account.standing }
        ensures few { result ≤ MAX_SPLIT }
    {
        self.claims.standing()
    }

    /// Whether the last save lists a block of a piece.
    pub fn lists(&self, piece: u32) -> bool
        requires { IsPieceOf self.now.account.progress piece }
        ensures { (result ≡ false) ↔ ListsNone self.now.account.progress.total
            self.now.account.progress.piece_len self.now.account.listing piece }
    {
        lists_any(&self.plan, &self.listed_blocks, piece)
    }

    /// Whether a save would list other pieces or blocks than the last one does.
    pub fn is_unsaved(&self) -> bool
        ensures { (result ≡ false)
            ↔ (self.now.account.listing ≡ listing_of self.now.account.progress) }
    {
        !is_copy(self.table.verified(), &self.listed_pieces)
            || !is_listing(&self.table, &self.listed_blocks)
    }

    pub fn saved_at(&self) -> Moment
        ensures { self.now.account.saved ≡ Some result }
    {
        self.saved
    }

    /// The length that a probe told before the opening.
    pub fn told(&self) -> Option<u64>
        ensures { result ≡ self.now.account.told }
    {
        self.told
    }

    /// How the last check of the whole payload went.
    pub fn last_check(&self) -> Option<bool>
        ensures { result ≡ self.now.account.checked }
    {
        self.checked
    }

    pub fn is_ended(&self) -> bool
        ensures { result ≡ self.now.account.ended }
    {
        self.ended
    }

    /// The first piece from `from` on that is full and unverified, and wasn't settled since its last landing.
    pub fn next_full(&self, from: u32) -> Option<u32>
        ensures found { IfSome result (IsNextToSettle self.now.account from) }
        ensures number { IfSome result (λ piece. piece < MAX_PIECES) }
        ensures none { IfNone result (HasNoneToSettle self.now.account from) }
    {
        plan_laws();
        let _ = self.table.blocks();
        for piece in from..self.plan.pieces {
            if self.is_to_settle(piece) {
                return Some(piece);
            }
        }
        None
    }

    // Whether a piece is full and unverified, and wasn't settled since its last landing.
    fn is_to_settle(&self, piece: u32) -> bool
        requires { IsPieceOf self.now.account.progress piece }
        ensures { IsTrue result ↔ IsToSettle self.now.account piece }
    {
        plan_laws();
        if self.settled.get(piece) {
            return false;
        }
        if self.table.is_verified(piece) {
            return false;
        }
        let _ = self.table.blocks();
        self.table.is_full(piece)
    }
}
