// A run whose steps have no premises: what may not come is left out.
ghost use Rattle.std.specs.Prelude.{◌≡◌, ◌+◌, ◌<◌, ◌≤◌, ◌^◌, false, true, IfOk, IfSome, OnOk};
ghost use Rattle.std.specs.Option.{is_some};
ghost use Rattle.dl_history.specs.OwnEvents.{Halts};
ghost use Rattle.machine_core.specs.Claiming.{MayBeTaken};
ghost use Rattle.machine_core.specs.LawfulCalls.{IsLawful};
ghost use Rattle.machine_core.specs.MachineViews.{IsFindingOf, IsNext, mark_spare_in};
ghost use Rattle.machine_core.specs.OwnParts.{payload_lengths_of};
ghost use Rattle.machine_core.specs.RunLegal.{IsLaterThan, MayOwn};
ghost use Rattle.machine_core.specs.TurnRooms.{HasTurnMarkRoom};
ghost use Rattle.machine_core.specs.declared.offers.Offered.TheVariants.{Next};
ghost use Rattle.piece_table.specs.Progress.{IsStart};

use crate::ends::{goes_on, is_too_long};
use crate::rates::as_rate;
use bit_rows::BitRow;
use control_file::Opened;
use dl_kinds::{Code, Gid, Mark, Moment, Plan, Run};
use machine_core::{
    Applied, Call, Cursor, HandedPieces, Machine, Notices, Offer, Offered, downloads_stay,
};
use option_set::{Num, Options};
use rate_limits::RateLimits;
use std::alloc::{AllocError, Global};

/// A run and its latest moment, with the pieces that workers compare and the buckets.
#[derive(Drop)]
pub struct Rig {
    pub(crate) machine: Machine,
    pub(crate) handed: HandedPieces,
    pub(crate) limits: RateLimits,
    pub(crate) now: Moment,
    // How many claims were granted.
    claims: u64,
    // From where on notices weren't told yet.
    untold: Cursor,
    ghost later: { IsLaterThan machine.past now },
}

/// What a worker has to do.
#[derive(Clone, Copy)]
pub enum Work {
    Claim {
        id: u64,
        mirror: u16,
        run: Run,
        victim: Option<u64>,
    },
    Probe {
        id: u64,
        mirror: u16,
    },
    /// A full piece, which was found right.
    Right {
        piece: u32,
    },
    /// One which was found wrong, and cleared.
    Wrong {
        piece: u32,
    },
    /// One which the worker compares from now on.
    Handed {
        piece: u32,
    },
}

/// What a worker was given.
#[derive(Clone, Copy)]
pub enum Taken {
    Work { gid: Gid, work: Work },
    Held { ms: u64 },
    Idle,
}

// Rows of which these blocks have landed, and no piece is verified.
fn rows(alloc: Global, plan: &Plan, landed: &[u32]) -> Result<Opened, AllocError>
    ensures { IfOk result (λ opened.
        IsStart plan.now.total plan.now.piece_len opened.verified opened.blocks) }
{
    let verified = BitRow::new(alloc, plan.pieces)?;
    let mut blocks = BitRow::new(alloc, plan.blocks())?;
    for block in landed {
        if *block < blocks.len() {
            blocks.set(*block);
        }
    }
    Ok(Opened { verified, blocks })
}

impl Rig {
    /// A run in which nothing happened. Gids are made from 1.
    pub fn new(alloc: Global, options: Options) -> Result<Rig, AllocError> {
        let rate = as_rate(options.number(Num::MaxOverallDownloadLimit));
        Ok(Rig {
            machine: Machine::new(alloc, 1, options, 0)?,
            handed: HandedPieces::new(alloc),
            limits: RateLimits::new(alloc, rate, Moment(0)),
            now: Moment(0),
            claims: 0,
            untold: Cursor { event: 0, nth: 0 },
        })
    }

    pub fn machine(&self) -> &Machine {
        &self.machine
    }

    /// The download that was added in this place, from 0.
    pub fn added(&self, place: u32) -> Option<Gid> {
        match self.machine.added(place) {
            Some((gid, _)) => Some(gid),
            None => None,
        }
    }

    /// How many claims were granted. They are numbered from 0.
    pub fn claims(&self) -> u64 {
        self.claims
    }

    /// The notices since those that were told, 64 at most.
    pub fn notices(&mut self, alloc: Global) -> Result<Notices, AllocError> {
        let (notices, upto) = self.machine.notices(alloc, self.untold)?;
        self.untold = upto;
        Ok(notices)
    }

    /// Time goes on.
    pub fn pass(&mut self, ms: u64) {
        self.now = Moment(self.now.0.saturating_add(ms));
    }

    /// A call comes, if there is one. A download that it adds gets a bucket, and one that leaves the active list takes its
    /// pieces from the workers.
    pub fn call(&mut self, alloc: Global, call: Option<Call>) -> Result<Option<Applied>, AllocError>
        requires { IfSome call IsLawful }
    {
        let Some(call) = call else {
            return Ok(None);
        };
        self.limits.reserve(1)?;
        let applied = self.machine.apply_call(alloc, 0, call, self.now)?;
        if let Applied::Added { gid } = applied {
            let rate = self.rate(gid);
            self.limits.add(rate, self.now);
        }
        self.handed.keep_active(&self.machine);
        Ok(Some(applied))
    }

    /// An active download whose length is known is opened, with these blocks landed and no piece verified. Told is whether
    /// it was.
    pub fn open(&mut self, alloc: Global, gid: Gid, landed: &[u32]) -> Result<bool, AllocError> {
        if self.machine.table(gid).is_some() || !self.machine.is_active(gid) {
            return Ok(false);
        }
        let Some(want) = self.machine.make_want(alloc, gid)? else {
            return Ok(false);
        };
        let opened = rows(alloc, &want.plan, landed)?;
        self.machine.opened(alloc, gid, opened, self.now)?;
        Ok(true)
    }

    // A piece that the last save lists is found wrong: another save comes before it is cleared.
    fn clear_listed(&mut self, gid: Gid, piece: u32)
        requires due { IsNext self.old.machine (IsFindingOf gid piece false) }
        requires going { MayOwn self.old.machine.start self.old.machine.past gid (Halts true) }
        requires sized { is_some
            (payload_lengths_of self.old.machine.start self.old.machine.past gid) ≡ true }
        requires room { 3 ≤ self.old.machine.spare }
        requires mark_room { 1 ≤ mark_spare_in self.old.machine gid }
    {
        downloads_stay();
        let _ = self.machine.journal().len();
        self.machine.settled(gid, piece, false);
        self.machine.saved(gid, self.now);
        self.machine.cleared(gid, piece);
    }

    // A full piece of a download with a metainfo file is found wrong and cleared. Told is whether it was.
    fn find_wrong(&mut self, alloc: Global, gid: Gid, piece: u32) -> Result<bool, AllocError>
        requires due { IsNext self.old.machine (IsFindingOf gid piece true) }
        requires room { 3 ≤ self.old.machine.spare }
        requires marks { HasTurnMarkRoom self.old.machine }
        ensures same { IfOk result (λ wrong. wrong ≡ false → self.new.machine ≡ self.old.machine) }
    {
        let Some(want) = self.machine.make_want(alloc, gid)? else {
            return Ok(false);
        };
        if want.info_hash.is_none() || !self.machine.is_active(gid) {
            return Ok(false);
        }
        if !goes_on(&self.machine, gid) {
            return Ok(false);
        }
        if self.machine.lists(gid, piece) {
            self.clear_listed(gid, piece);
            return Ok(true);
        }
        downloads_stay();
        let _ = self.machine.journal().len();
        self.machine.settled(gid, piece, false);
        self.machine.cleared(gid, piece);
        Ok(true)
    }

    // What was offered is taken.
    fn give(
        &mut self,
        alloc: Global,
        worker: u32,
        right: bool,
        gid: Gid,
        offer: Offer,
    ) -> Result<Work, AllocError>
        requires due { MayBeTaken self.old.machine self.old.now (Next gid offer) }
        requires room { 3 ≤ self.old.machine.spare }
        requires marks { HasTurnMarkRoom self.old.machine }
    {
        match offer {
            Offer::Blocks {
                mirror,
                run,
                victim,
            } => {
                let id = self
                    .machine
                    .claimed(gid, worker, mirror, run, victim, self.now)?;
                self.claims = id.saturating_add(1);
                Ok(Work::Claim {
                    id,
                    mirror,
                    run,
                    victim,
                })
            }
            Offer::Probe { mirror } => {
                let run = Run { first: 0, count: 0 };
                let id = self
                    .machine
                    .claimed(gid, worker, mirror, run, None, self.now)?;
                self.claims = id.saturating_add(1);
                Ok(Work::Probe { id, mirror })
            }
            Offer::Whole { piece } => {
                if !right && self.find_wrong(alloc, gid, piece)? {
                    return Ok(Work::Wrong { piece });
                }
                self.machine.settled(gid, piece, true);
                Ok(Work::Right { piece })
            }
        }
    }

    // What a worker is offered: nothing, where a download has no bucket.
    fn next(&mut self) -> Result<Offered, AllocError>
        ensures taken { IfOk result (MayBeTaken self.new.machine self.new.now) }
        ensures room { OnOk result (3 ≤ self.new.machine.spare) }
        ensures marks { OnOk result (HasTurnMarkRoom self.new.machine) }
        ensures now { self.new.now ≡ self.old.now }
        ensures handed { self.new.handed ≡ self.old.handed }
    {
        self.machine.reserve_turn()?;
        let count = self.limits.len();
        if count > 1_000_000 || self.machine.added(count as u32).is_some() {
            return Ok(Offered::Idle);
        }
        self.machine.offer(&self.handed, &self.limits, self.now)
    }

    /// A worker gets what is offered: a claim is made, and a full piece is found right or wrong.
    pub fn take(&mut self, alloc: Global, worker: u32, right: bool) -> Result<Taken, AllocError> {
        match self.next()? {
            Offered::Next { gid, offer } => {
                let work = self.give(alloc, worker, right, gid, offer)?;
                Ok(Taken::Work { gid, work })
            }
            Offered::Held { ms } => Ok(Taken::Held { ms }),
            Offered::Idle => Ok(Taken::Idle),
        }
    }

    /// A worker gets what is offered, a full piece to compare it.
    pub fn hand(&mut self, alloc: Global, worker: u32) -> Result<Taken, AllocError> {
        self.handed.reserve(1)?;
        match self.next()? {
            Offered::Next { gid, offer } => {
                let work = match offer {
                    Offer::Whole { piece } => {
                        self.handed.hand_out(gid, piece);
                        Work::Handed { piece }
                    }
                    _ => self.give(alloc, worker, true, gid, offer)?,
                };
                Ok(Taken::Work { gid, work })
            }
            Offered::Held { ms } => Ok(Taken::Held { ms }),
            Offered::Idle => Ok(Taken::Idle),
        }
    }

    /// A worker brings a piece back that it compared, and gets what is offered then. None comes where no worker has it.
    pub fn seal(
        &mut self,
        alloc: Global,
        gid: Gid,
        piece: u32,
        right: bool,
    ) -> Result<Option<Taken>, AllocError> {
        if !self.handed.is_out(gid, piece) {
            return Ok(None);
        }
        self.handed.hand_back(gid, piece);
        Ok(Some(self.take(alloc, 0, right)?))
    }

    // The first run of those blocks that are open in a claim lands. Told is how many these are.
    fn land_first(&mut self, claim: u64, run: Run) -> Result<u32, AllocError>
        requires few { run.count ≤ 64 }
        requires bounded { run.first + run.count < 2 ^ 32 }
    {
        self.machine.reserve_turn()?;
        let Some((gid, _)) = self.machine.claim(claim) else {
            return Ok(0);
        };
        if self.machine.options(gid).is_none() {
            return Ok(0);
        }
        match self.machine.new_blocks(claim, run).get(0) {
            Some(first) => {
                self.machine.landed(claim, first, self.now);
                Ok(first.count)
            }
            None => Ok(0),
        }
    }

    /// The blocks of a run that are open in a claim land. Told is how many these are; of more than 64 none does.
    pub fn land(&mut self, claim: u64, run: Run) -> Result<u32, AllocError> {
        if run.count > 64 || run.first > 1_000_000 {
            return Ok(0);
        }
        let mut landed = 0;
        for _ in 0..64 {
            landed = self.land_first(claim, run)?.saturating_add(landed);
        }
        Ok(landed)
    }

    /// A claim fails, where it stands. Told is whether it did.
    pub fn lose(&mut self, claim: u64) -> Result<bool, AllocError> {
        self.machine.reserve_turn()?;
        let Some((gid, _)) = self.machine.claim(claim) else {
            return Ok(false);
        };
        if !self.machine.is_active(gid) || self.machine.options(gid).is_none() {
            return Ok(false);
        }
        let mark = Mark {
            code: Code(3),
            count: 0,
        };
        self.machine.lost(claim, mark);
        Ok(true)
    }

    /// The probe that stands tells the length, and where no plan has so many bytes its download ends. Told is whether it did.
    pub fn size(&mut self, claim: u64, total: u64) -> Result<bool, AllocError> {
        self.machine.reserve_turn()?;
        let Some((gid, probe)) = self.machine.claim(claim) else {
            return Ok(false);
        };
        if probe.run.count != 0 {
            return Ok(false);
        }
        if !goes_on(&self.machine, gid) {
            return Ok(false);
        }
        if is_too_long(&self.machine, gid, total) {
            self.outgrow(gid, claim, probe, total);
            return Ok(true);
        }
        self.machine.sized(claim, total);
        Ok(true)
    }
}
