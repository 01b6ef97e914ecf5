// What workers are given.
ghost use Rattle.std.specs.Prelude.{◌≡◌, ◌≤◌, IfErr, IfNone, IfOk, IfSome, IsTrue, None, length, OnErr, OnOk, true};
ghost use Rattle.engine_turns.specs.NextRows.{IsJobOf, mirror_url};
ghost use Rattle.engine_turns.specs.Standings.{HasNoHome};
ghost use Rattle.machine_core.specs.Claiming.{IsClaimAt, IsOfferedNow};
ghost use Rattle.machine_core.specs.MachineViews.{IsNext};
ghost use Rattle.machine_core.specs.Offers.{no_blocks};
ghost use Rattle.machine_core.specs.Reads.{downloads_in, lengths_of_gid};
ghost use Rattle.machine_core.specs.RunLegal.{is_listed};
ghost use Rattle.stored_run.specs.Beginnings.{IsRoomier};
ghost use Rattle.stored_run.specs.Checks.{ChecksTruly};
ghost use Rattle.stored_run.specs.Granting.{IsLongAsPiece, IsPlaceOfClaim, MakesClaim, MayBeGiven, MayGiveBlocks, MayGiveProbe, UngivenRow};
ghost use Rattle.stored_run.specs.Leavings.{LeavesDisk};
ghost use Rattle.stored_run.specs.Settlings.{IsToBeSettled, OfDownload, ReadsPieceOf};
ghost use Rattle.stored_run.specs.Steps.{Continues, DoesRow};
ghost use Rattle.stored_run.specs.Views.{IsGoing};
ghost use Rattle.stored_run.specs.Writings.{KeepsPayloads};

use crate::StoredRun;
use crate::following::runs_follow;
use dl_disk::Disk;
use dl_kinds::{Blob, Gid, Run, Text};
use engine_turns::Said;
use machine_core::{HandedPieces, Offered};
use rate_limits::RateLimits;
use span_map::Job;
use std::alloc::AllocError;

impl<D: Disk> StoredRun<D> {
    /// The place, in the order of adding, of the download of which a claim stands under this number.
    pub fn place_of_claim(&self, claim: u64) -> Option<usize>
        ensures found { IfSome result (IsPlaceOfClaim self.entry.now.machine claim) }
        ensures none { IfNone result (HasNoHome
            self.entry.now.machine.start self.entry.now.machine.past claim) }
    {
        runs_follow();
        let (gid, _) = self.machine.claim(claim)?;
        self.machine.place(gid)
    }

    /// What a worker is given next, by `machine_core::Machine::offer`, while the pieces of `handed` are compared. Want of
    /// memory changes nothing but room.
    pub fn offer(
        &mut self,
        handed: &HandedPieces,
        limits: &RateLimits,
    ) -> Result<Offered, AllocError>
        requires buckets { length (downloads_in self.old.machine) ≤ length limits.now.own }
        ensures offered { IfOk result
            (IsOfferedNow self.old.machine handed.now.pieces limits.now self.old.now.0) }
        ensures may { IfOk result (MayBeGiven self.new) }
        ensures leaves { IsTrue D.tells → LeavesDisk self.old self.new
            (D.state self.old.disk) (D.state self.new.disk) }
        ensures same { IsRoomier self.old self.new }
    {
        runs_follow();
        self.machine.offer(handed, limits, self.now)
    }

    // A worker claims what was offered of a download. The answer is the number of the claim.
    fn claim(
        &mut self,
        gid: Gid,
        worker: u32,
        mirror: u16,
        run: Run,
        victim: Option<u64>,
    ) -> Result<u64, AllocError>
        requires { IsNext self.old.machine
            (IsClaimAt gid worker mirror run victim self.old.now) }
        ensures event { IfOk result (λ id.
            MakesClaim gid worker mirror run victim id self.old self.new) }
        ensures leaves { IsTrue D.tells → LeavesDisk self.old self.new
            (D.state self.old.disk) (D.state self.new.disk) }
        ensures same { OnErr result (IsRoomier self.old self.new) }
    {
        runs_follow();
        self.machine
            .claimed(gid, worker, mirror, run, victim, self.now)
    }

    /// A worker claims blocks that were offered of a download. The answer is the number of the claim, and what is to be
    /// asked of the mirror. Want of memory changes nothing but room.
    pub fn claim_blocks(
        &mut self,
        gid: Gid,
        worker: u32,
        mirror: u16,
        run: Run,
        victim: Option<u64>,
    ) -> Result<(u64, Job), AllocError>
        requires { MayGiveBlocks self.old gid mirror run victim }
        ensures event { IfOk result (λ given.
            MakesClaim gid worker mirror run victim given.0 self.old self.new) }
        ensures job { OfDownload self.old gid (λ download. IfOk result (λ given.
            IsJobOf (lengths_of_gid self.old.machine gid) download.subject mirror run given.1)) }
        ensures leaves { IsTrue D.tells → LeavesDisk self.old self.new
            (D.state self.old.disk) (D.state self.new.disk) }
        ensures same { OnErr result (IsRoomier self.old self.new) }
    {
        runs_follow();
        self.tells_stored();
        let job = self.job(gid, mirror, run)?;
        let claim = self.claim(gid, worker, mirror, run, victim)?;
        Ok((claim, job))
    }

    /// A worker is to ask a mirror for the length of a payload. The answer is the number of its claim, which has no blocks,
    /// and the mirror's URL. Want of memory changes nothing but room.
    pub fn claim_probe(
        &mut self,
        gid: Gid,
        worker: u32,
        mirror: u16,
    ) -> Result<(u64, Text), AllocError>
        requires { MayGiveProbe self.old gid mirror }
        ensures event { IfOk result (λ given.
            MakesClaim gid worker mirror no_blocks None given.0 self.old self.new) }
        ensures url { OfDownload self.old gid (λ download. IfOk result (λ given.
            given.1 ≡ mirror_url download.subject mirror)) }
        ensures leaves { IsTrue D.tells → LeavesDisk self.old self.new
            (D.state self.old.disk) (D.state self.new.disk) }
        ensures same { OnErr result (IsRoomier self.old self.new) }
    {
        runs_follow();
        self.tells_stored();
        let url = Text::of(self.alloc, self.mirror_url(gid, mirror))?;
        let run = Run { first: 0, count: 0 };
        let claim = self.claim(gid, worker, mirror, run, None)?;
        Ok((claim, url))
    }

    /// Reads a full piece of a download with a metainfo file, for a worker to hash it. Without one it counts as right at
    /// once, and nothing is given.
    pub fn give_whole(&mut self, gid: Gid, piece: u32) -> Result<Blob, Said>
        requires going { IsGoing self.old gid }
        requires piece { IsToBeSettled self.old gid piece }
        requires room { 6 ≤ self.old.machine.spare }
        ensures listed { OfDownload self.old gid (λ download.
            OnOk result (is_listed download.subject ≡ true)) }
        ensures len { IfOk result (IsLongAsPiece (lengths_of_gid self.old.machine gid) piece) }
        ensures read { IfOk result (λ bytes. IsTrue D.tells
            → ReadsPieceOf self.old gid piece (D.state self.old.disk).seen bytes) }
        ensures unfailed { OnOk result (D.faults self.new.disk ≡ D.faults self.old.disk) }
        ensures same { OnOk result (self.new.machine ≡ self.old.machine) }
        ensures row { IfErr result (DoesRow (UngivenRow gid piece)
            self.old (D.faults self.old.disk) self.new (D.faults self.new.disk)) }
        ensures on { Continues 6 self.old self.new }
        ensures leaves { IsTrue D.tells → LeavesDisk self.old self.new
            (D.state self.old.disk) (D.state self.new.disk) }
        ensures payloads { IsTrue D.tells → KeepsPayloads self.old
            (D.state self.old.disk) (D.state self.new.disk) }
        ensures checks { IsTrue D.tells
            → ChecksTruly self.old self.new (D.state self.new.disk).seen }
    {
        if self.has_digests(gid) {
            self.read_whole(gid, piece)
        } else {
            Err(self.count_whole(gid, piece))
        }
    }
}
