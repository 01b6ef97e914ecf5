// A download, from its adding on.
ghost use Rattle.std.specs.Prelude.{◌≡◌, ◌↔◌, ℕ, ◌+◌, ◌<◌, ◌≤◌, ◌^◌, [], true, false, Some, None, IfNone, IfOk, IfSome, IsNone, IsTrue, OnErr, OnOk, find, length, slice_get, ◌==◌};
ghost use Rattle.std.specs.Option.{option_and_then};
ghost use Rattle.dl_history.specs.Accounts.{after_finding, after_halt, after_landing, after_loss, after_save, after_sizing, at_opening, first_still_open, listing_of, new_account, with_claim, without_claim, without_piece};
ghost use Rattle.dl_history.specs.Listings.{ListsNone};
ghost use Rattle.dl_history.specs.OwnEvents.{Loses, Settles};
ghost use Rattle.dl_kinds.specs.Plan.{blocks_of, pieces_of};
ghost use Rattle.dl_kinds.specs.declared.plan.TheConstants.{MAX_PIECES};
ghost use Rattle.one_download.specs.DownloadViews.{HasNoneToSettle, IsClaimOf, IsFirstPiece, IsFullUnverified, IsNextToSettle, IsOpenAt, IsPieceOf, IsProbeAt, IsRoomier, IsToSettle, IsUnverified, MayBlame, StaysSetUp, StaysUnmarked, UsesMarkRoom, is_open_by, is_opened_by, marks_after, standing_under, with_blame};
ghost use Rattle.one_download.specs.DownloadParts.{IsGiverAmong, some_of};
ghost use Rattle.one_download.specs.Grants.{HasNoChoice, HasNoProbe, IsBlockChoice, IsProbeMirror, MayBeGranted, MaySplit, situation_with};
ghost use Rattle.piece_table.specs.NewRuns.{AreRunsOf};
ghost use Rattle.piece_table.specs.Progress.{IsStart};
ghost use Rattle.segment_claim.specs.declared.limits.TheConstants.{MAX_SPLIT};

use crate::payload::{Before, Payload};
use crate::{Choice, Split};
use bit_rows::BitRow;
use dl_kinds::{Claim, Code, ExitStatus, MAX_MIRRORS, Mark, Moment, Plan, Run};
use mirror_blame::Marks;
use piece_table::{Giver, NewRuns, Table};
use std::alloc::{AllocError, Global};
use std::marker::Model;

/// What is kept of one download of a run, from its adding on.
#[derive(Debug, Drop)]
pub struct OneDownload {
    marks: Marks,
    // Both only until it is opened: the probe that stands, and what is known.
    probe: Option<Claim>,
    before: Before,
    // None until it is opened.
    payload: Option<Payload>,
}

impl Model for OneDownload {
    ghost use Rattle.one_download.specs.DownloadViews.{DownloadView};
    ghost use Rattle.one_download.specs.DownloadParts.{IsSoundDownload, download_by};

    ghost Value = { DownloadView };

    ghost view = { download_by };

    ghost invariant = { IsSoundDownload };
}

// A probe, unless it is the claim of this number.
fn without(probe: Option<Claim>, id: u64) -> Option<Claim>
    ensures { some_of result ≡ without_claim id (some_of probe) }
{
    match probe {
        Some(claim) if claim.id != id => probe,
        _ => None,
    }
}

// A probe, if it is the claim of this number.
fn under(probe: Option<Claim>, id: u64) -> Option<Claim>
    ensures { result ≡ find (λ claim. claim.id == id) (some_of probe) }
{
    match probe {
        Some(claim) if claim.id == id => probe,
        _ => None,
    }
}

// A probe, if the place is the first one.
fn probe_at(probe: Option<Claim>, place: u16) -> Option<Claim>
    ensures { result ≡ slice_get (some_of probe) place }
{
    match probe {
        Some(_) if place == 0 => probe,
        _ => None,
    }
}

impl OneDownload {
    /// A download that isn't opened, of so many mirrors, each with so many tries for a piece.
    pub fn new(alloc: Global, mirrors: u16, max_tries: u8) -> Self
        ensures account { result.account ≡ new_account }
        ensures mirrors { result.mirrors ≡ mirrors }
        ensures max_tries { result.max_tries ≡ max_tries }
        ensures marks { result.marks ≡ [] }
    {
        OneDownload {
            marks: Marks::new(alloc, mirrors, max_tries),
            probe: None,
            before: Before {
                told: None,
                ended: false,
            },
            payload: None,
        }
    }

    /// Makes room for `n` more marks.
    pub fn reserve_marks(&mut self, n: u32) -> Result<(), AllocError>
        ensures ok { OnOk result (n ≤ self.new.mark_spare) }
        ensures same { IsRoomier self.old self.new }
    {
        self.marks.reserve(n)
    }

    /// Makes room for one more claim.
    pub fn reserve_claim(&mut self) -> Result<(), AllocError>
        ensures ok { OnOk result (1 ≤ self.new.spare) }
        ensures same { IsRoomier self.old self.new }
    {
        match &mut self.payload {
            Some(payload) => payload.reserve(),
            None => Ok(()),
        }
    }

    /// It is opened with these pieces verified, these blocks landed and these pieces wanted: rows with one place for
    /// each piece, block and piece of the plan. After an Err it is as before.
    pub fn open(
        &mut self,
        alloc: Global,
        plan: Plan,
        verified: &BitRow,
        blocks: &BitRow,
        wanted: BitRow,
        now: Moment,
    ) -> Result<(), AllocError>
        requires first { is_opened_by self.old.account ≡ false }
        requires idle { self.old.account.standing ≡ [] }
        requires start { IsStart plan.total plan.piece_len verified.now blocks.now }
        requires wanted { length wanted ≡ pieces_of plan.total plan.piece_len }
        ensures account { OnOk result (self.new.account ≡ at_opening plan.total plan.piece_len
            self.old.account verified.now blocks.now now) }
        ensures wanted { OnOk result (self.new.wanted ≡ wanted) }
        ensures same { OnErr result (self.new ≡ self.old) }
        ensures mirrors { self.new.mirrors ≡ self.old.mirrors }
        ensures max_tries { self.new.max_tries ≡ self.old.max_tries }
        ensures marks { self.new.marks ≡ self.old.marks }
        ensures mark_spare { self.new.mark_spare ≡ self.old.mark_spare }
    {
        let verified = verified.copy(alloc)?;
        let blocks = blocks.copy(alloc)?;
        let payload = Payload::new(alloc, plan, verified, blocks, wanted, self.before, now)?;
        self.payload = Some(payload);
        Ok(())
    }

    /// It is probed, while it isn't opened and no claim of it stands.
    pub fn probed(&mut self, claim: Claim)
        requires first { is_opened_by self.old.account ≡ false }
        requires alone { self.old.account.standing ≡ [] }
        requires probe { IsProbeAt self.old.mirrors claim }
        ensures account { self.new.account ≡ with_claim self.old.account claim }
        ensures rest { StaysUnmarked self.old self.new }
    {
        self.probe = Some(claim);
    }

    /// Blocks are claimed.
    pub fn granted(&mut self, claim: Claim)
        requires opened { is_opened_by self.old.account ≡ true }
        requires claim { IsClaimOf self.old claim }
        requires few { length self.old.account.standing < MAX_SPLIT }
        requires number { self.old.account.next ≤ claim.id }
        requires room { 1 ≤ self.old.spare }
        ensures account { self.new.account ≡ with_claim self.old.account claim }
        ensures wanted { self.new.wanted ≡ self.old.wanted }
        ensures mirrors { self.new.mirrors ≡ self.old.mirrors }
        ensures max_tries { self.new.max_tries ≡ self.old.max_tries }
        ensures marks { self.new.marks ≡ self.old.marks }
        ensures mark_spare { self.new.mark_spare ≡ self.old.mark_spare }
    {
        if let Some(payload) = &mut self.payload {
            payload.granted(claim);
        }
    }

    /// Blocks of a claim come from its mirror.
    pub fn landed(&mut self, run: Run, mirror: u16)
        requires opened { is_opened_by self.old.account ≡ true }
        requires few { run.count ≤ 64 }
        requires within { run.first + run.count ≤ blocks_of self.old.account.progress.total
            self.old.account.progress.piece_len }
        requires mirror { mirror < self.old.mirrors }
        ensures account { self.new.account ≡ after_landing self.old.account mirror run }
        ensures rest { StaysUnmarked self.old self.new }
    {
        if let Some(payload) = &mut self.payload {
            payload.landed(run, mirror);
        }
    }

    // A mark is put among the marks while its mirror has a try left for its piece.
    fn blame(&mut self, mirror: u16, piece: u32, mark: Mark)
        requires blame { MayBlame self.old mirror piece }
        requires room { 1 ≤ self.old.mark_spare }
        ensures marks { self.new.marks ≡ with_blame self.old.max_tries self.old.marks
            (record { mirror = mirror; piece = piece; mark = mark }) }
        ensures account { self.new.account ≡ self.old.account }
        ensures rest { StaysSetUp self.old self.new }
        ensures mark_spare { UsesMarkRoom self.old self.new }
    {
        if self.marks.eligible(mirror, piece, piece) {
            self.marks.failed(mirror, piece, mark);
        }
    }

    // A full, unverified piece is found right or wrong.
    fn found(&mut self, piece: u32, right: bool) -> Giver
        requires { IsFullUnverified self.old.account.progress piece }
        ensures giver { slice_get self.old.account.progress.givers piece ≡ Some result }
        ensures account { self.new.account ≡ after_finding self.old.account piece right result }
        ensures rest { StaysUnmarked self.old self.new }
        ensures known { IsGiverAmong self.old.mirrors result }
        ensures number { piece < MAX_PIECES }
    {
        match &mut self.payload {
            Some(payload) => payload.settled(piece, right),
            None => Giver::Nobody,
        }
    }

    // A claim ends at its first open block, which is of this piece.
    fn end_claim(&mut self, id: u64, piece: u32)
        requires { is_opened_by self.old.account ≡ true → IsOpenAt self.old.account id piece }
        ensures account { self.new.account ≡ after_loss self.old.account id piece }
        ensures rest { StaysUnmarked self.old self.new }
    {
        match &mut self.payload {
            Some(payload) => payload.lost(id, piece),
            None => self.probe = without(self.probe, id),
        }
    }

    /// A full, unverified piece is found right or wrong. Told is who gave it. One mirror that gave a wrong piece alone
    /// is marked.
    pub fn settled(&mut self, piece: u32, right: bool) -> Giver
        requires piece { IsFullUnverified self.old.account.progress piece }
        requires room { right ≡ false → 1 ≤ self.old.mark_spare }
        ensures giver { slice_get self.old.account.progress.givers piece ≡ Some result }
        ensures account { self.new.account ≡ after_finding self.old.account piece right result }
        ensures marks { self.new.marks
            ≡ marks_after self.old.max_tries self.old.marks (Settles piece right result) }
        ensures rest { StaysSetUp self.old self.new }
        ensures mark_spare { UsesMarkRoom self.old self.new }
    {
        let giver = self.found(piece, right);
        if !right {
            if let Giver::One(mirror) = giver {
                let mark = Mark {
                    code: Code::of(ExitStatus::Checksum),
                    count: 0,
                };
                self.blame(mirror, piece, mark);
            }
        }
        giver
    }

    /// The blocks of an unverified piece go.
    pub fn cleared(&mut self, piece: u32)
        requires { IsUnverified self.old.account.progress piece }
        ensures account { self.new.account ≡ without_piece self.old.account piece }
        ensures rest { StaysUnmarked self.old self.new }
    {
        if let Some(payload) = &mut self.payload {
            payload.cleared(piece);
        }
    }

    /// A claim fails at its first open block, which is of this piece, and its mirror is marked. What it gave of a sole
    /// piece goes. A probe fails at piece 0.
    pub fn lost(&mut self, id: u64, mirror: u16, piece: u32, mark: Mark)
        requires piece { is_opened_by self.old.account ≡ true
            → IsOpenAt self.old.account id piece }
        requires blame { MayBlame self.old mirror piece }
        requires room { 1 ≤ self.old.mark_spare }
        ensures account { self.new.account ≡ after_loss self.old.account id piece }
        ensures marks { self.new.marks
            ≡ marks_after self.old.max_tries self.old.marks (Loses id mirror piece mark) }
        ensures rest { StaysSetUp self.old self.new }
        ensures mark_spare { UsesMarkRoom self.old self.new }
    {
        self.end_claim(id, piece);
        self.blame(mirror, piece, mark);
    }

    /// A probe tells the length of the payload, in bytes.
    pub fn sized(&mut self, id: u64, total: u64)
        requires { is_opened_by self.old.account ≡ false }
        ensures account { self.new.account ≡ after_sizing self.old.account id total }
        ensures rest { StaysUnmarked self.old self.new }
    {
        self.probe = without(self.probe, id);
        self.before.told = Some(total);
    }

    /// Its progress is saved.
    pub fn saved(&mut self, now: Moment)
        requires { is_opened_by self.old.account ≡ true }
        ensures account { self.new.account ≡ after_save self.old.account now }
        ensures rest { StaysUnmarked self.old self.new }
    {
        if let Some(payload) = &mut self.payload {
            payload.saved(now);
        }
    }

    /// The whole payload is found right or wrong.
    pub fn checked(&mut self, right: bool)
        requires { is_opened_by self.old.account ≡ true }
        ensures account { self.new.account ≡ record self.old.account { checked = Some right } }
        ensures rest { StaysUnmarked self.old self.new }
    {
        if let Some(payload) = &mut self.payload {
            payload.checked(right);
        }
    }

    /// It ends, or leaves the active list, or the run stops: its claims end.
    pub fn halted(&mut self, ends: bool)
        ensures account { self.new.account ≡ after_halt self.old.account ends }
        ensures rest { StaysUnmarked self.old self.new }
    {
        match &mut self.payload {
            Some(payload) => payload.halted(ends),
            None => {
                self.probe = None;
                self.before.ended = ends || self.before.ended;
            }
        }
    }

    pub fn is_opened(&self) -> bool
        ensures { result ≡ is_opened_by self.now.account }
    {
        match &self.payload {
            Some(_) => true,
            None => false,
        }
    }

    /// What it has of its payload, once it is opened.
    pub fn table(&self) -> Option<&Table>
        ensures table { IfSome result (λ table. table.now ≡ self.now.account.progress) }
        ensures none { IsNone result ↔ (is_opened_by self.now.account ≡ false) }
    {
        match &self.payload {
            Some(payload) => Some(payload.table()),
            None => None,
        }
    }

    /// Whether a piece is to come.
    pub fn is_wanted(&self, piece: u32) -> bool
        requires { piece < length self.now.wanted }
        ensures { slice_get self.now.wanted piece ≡ Some result }
    {
        match &self.payload {
            Some(payload) => payload.is_wanted(piece),
            None => false,
        }
    }

    pub fn marks(&self) -> &Marks
        ensures { result.now ≡ record {
          mirrors = self.now.mirrors;
          max_tries = self.now.max_tries;
          marks = self.now.marks;
          spare = self.now.mark_spare;
        } }
    {
        &self.marks
    }

    /// The claim that stands under a number.
    pub fn claim(&self, id: u64) -> Option<Claim>
        ensures claim { result ≡ standing_under self.now.account id }
        ensures mirror { IfSome result (λ claim. claim.mirror < self.now.mirrors) }
    {
        match &self.payload {
            Some(payload) => payload.claim(id),
            None => under(self.probe, id),
        }
    }

    /// The first block that is open in it.
    pub fn first_open(&self, id: u64) -> Option<u32>
        ensures { result ≡ option_and_then (first_still_open self.now.account)
            (standing_under self.now.account id) }
    {
        match &self.payload {
            Some(payload) => payload.first_open(id),
            None => None,
        }
    }

    /// The blocks of a run, of at most 64, that are open in it: none of a probe, and where none stands.
    pub fn open_runs(&self, id: u64, run: Run) -> NewRuns
        requires few { run.count ≤ 64 }
        requires bounded { run.first + run.count < 2 ^ 32 }
        ensures { AreRunsOf (λ block. is_open_by self.now.account id block ≡ true) run result }
    {
        match &self.payload {
            Some(payload) => payload.open_runs(id, run),
            None => NewRuns::new(),
        }
    }

    /// The piece of the first block that is open in it: of a probe, and of no claim, piece 0.
    pub fn first_piece(&self, id: u64) -> u32
        ensures opened { is_opened_by self.now.account ≡ true
            → IsFirstPiece self.now.account id result }
        ensures unopened { is_opened_by self.now.account ≡ false → result ≡ 0 }
    {
        match &self.payload {
            Some(payload) => payload.first_piece(id),
            None => 0,
        }
    }

    /// The claim at a place among those that stand, from 0, the newest first.
    pub fn claim_at(&self, place: u16) -> Option<Claim>
        ensures { result ≡ slice_get self.now.account.standing place }
    {
        match &self.payload {
            Some(payload) => payload.claim_at(place),
            None => probe_at(self.probe, place),
        }
    }

    /// How many claims stand.
    pub fn standing(&self) -> u16
        ensures len { result ≡ length self.now.account.standing }
        ensures few { result ≤ MAX_SPLIT }
    {
        match &self.payload {
            Some(payload) => payload.standing(),
            None => self.probe.is_some() as u16,
        }
    }

    /// Whether the last save lists a block of a piece.
    pub fn lists(&self, piece: u32) -> bool
        requires opened { is_opened_by self.now.account ≡ true }
        requires piece { IsPieceOf self.now.account.progress piece }
        ensures { (result ≡ false) ↔ ListsNone self.now.account.progress.total
            self.now.account.progress.piece_len self.now.account.listing piece }
    {
        match &self.payload {
            Some(payload) => payload.lists(piece),
            None => false,
        }
    }

    /// Whether a save would list other pieces or blocks than the last one does.
    pub fn is_unsaved(&self) -> bool
        requires { is_opened_by self.now.account ≡ true }
        ensures { (result ≡ false)
            ↔ (self.now.account.listing ≡ listing_of self.now.account.progress) }
    {
        match &self.payload {
            Some(payload) => payload.is_unsaved(),
            None => false,
        }
    }

    pub fn saved_at(&self) -> Option<Moment>
        ensures { result ≡ self.now.account.saved }
    {
        match &self.payload {
            Some(payload) => Some(payload.saved_at()),
            None => None,
        }
    }

    pub fn told(&self) -> Option<u64>
        ensures { result ≡ self.now.account.told }
    {
        match &self.payload {
            Some(payload) => payload.told(),
            None => self.before.told,
        }
    }

    pub fn last_check(&self) -> Option<bool>
        ensures { result ≡ self.now.account.checked }
    {
        match &self.payload {
            Some(payload) => payload.last_check(),
            None => None,
        }
    }

    pub fn is_ended(&self) -> bool
        ensures { result ≡ self.now.account.ended }
    {
        match &self.payload {
            Some(payload) => payload.is_ended(),
            None => self.before.ended,
        }
    }

    /// The first piece from `from` on that is full and unverified, and wasn't settled since its last landing.
    pub fn next_full(&self, from: u32) -> Option<u32>
        ensures found { IfSome result (λ piece. IsNextToSettle self.now.account from piece) }
        ensures number { IfSome result (λ piece. piece < MAX_PIECES) }
        ensures none { IfNone result (HasNoneToSettle self.now.account from) }
    {
        match &self.payload {
            Some(payload) => payload.next_full(from),
            None => None,
        }
    }

    /// The mirror that is chosen to probe the payload. `hosts` has the number of each mirror's host.
    pub fn probe_mirror(&self, split: Split, hosts: &[u16]) -> Option<u16>
        requires split { MaySplit self.now.mirrors split hosts.now }
        requires alone { self.now.account.standing ≡ [] }
        ensures mirror { IfSome result (IsProbeMirror (situation_with self.now split hosts.now)) }
        ensures known { IfSome result (λ mirror. mirror < self.now.mirrors) }
        ensures none { IfNone result (HasNoProbe (situation_with self.now split hosts.now)) }
    {
        let loads = [0; MAX_MIRRORS as usize];
        let standing = &loads[..hosts.len()];
        self.marks.choose(0, 0, standing, split.per_host)
    }

    /// The blocks and the mirror of the claim that it is granted next: the free claim, and without one a theft.
    pub fn choice(&self, split: Split, hosts: &[u16], now: Moment) -> Option<Choice>
        requires opened { is_opened_by self.now.account ≡ true }
        requires split { MaySplit self.now.mirrors split hosts.now }
        requires room { 1 ≤ self.now.spare }
        ensures choice { IfSome result
            (IsBlockChoice (situation_with self.now split hosts.now) now.0) }
        ensures claim { IfSome result (MayBeGranted self.now now.0) }
        ensures few { IfSome result (λ _. length self.now.account.standing < MAX_SPLIT) }
        ensures none { IfNone result
            (HasNoChoice (situation_with self.now split hosts.now) now.0) }
    {
        match &self.payload {
            Some(payload) => payload.choice(&self.marks, split, hosts, now),
            None => None,
        }
    }
}
