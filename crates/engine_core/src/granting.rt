// What a worker is given.
ghost use Rattle.std.specs.Prelude.{◌≡◌, ◌≤◌, ◌<◌, length, min};
ghost use Rattle.engine_core.specs.Engines.{KeepsRates};
ghost use Rattle.engine_core.specs.Giving.{GivenRow, MakesTurn, MayGive, UnopenedRow};
ghost use Rattle.engine_core.specs.Performing.{PerformsTurn};
ghost use Rattle.engine_turns.specs.declared.operations.Operation.TheVariants as operation;
ghost use Rattle.engine_turns.specs.declared.limits.TheConstants.{MAX_ALLOWANCE};
ghost use Rattle.machine_core.specs.declared.offers.Offer.TheVariants as offer;
ghost use Rattle.rate_limits.specs.Shared.{lesser_credit, levels_taken};
ghost use Rattle.rate_tokens.specs.declared.bucket.Take.TheVariants.{Go};

use crate::state::EngineState;
use dl_disk::Disk;
use dl_kinds::{Gid, Moment, Run};
use engine_turns::{FetchGrant, Grant, MAX_ALLOWANCE, Said};
use machine_core::{Offer, Offered};
use rate_tokens::Take;

impl<D: Disk> EngineState<D> {
    // A full piece is handed out to be hashed; without a metainfo file it counts as right at once.
    fn give_whole(&mut self, worker: u32, gid: Gid, piece: u32) -> Said
        requires { MayGive self.old gid (offer.Whole piece) }
        ensures { MakesTurn D.tells D.state D.faults (operation.Next worker self.old.run.now)
            (GivenRow gid worker (offer.Whole piece)) self.old self.new result }
    {
        match self.run.give_whole(gid, piece) {
            Ok(bytes) => {
                self.handed.hand_out(gid, piece);
                Said::Grant(Grant::Hash { gid, piece, bytes })
            }
            Err(said) => said,
        }
    }

    // As many bytes of a download are let go as may be, where any may.
    fn let_go(&mut self, place: usize) -> u32
        requires place { place < length self.old.limits.own }
        requires some { 1 ≤ lesser_credit self.old.limits place self.old.run.now.0 }
        ensures bytes { result
            ≡ min MAX_ALLOWANCE (lesser_credit self.old.limits place self.old.run.now.0) }
        ensures limits { self.new.limits
            ≡ levels_taken place self.old.run.now.0 (Go result) self.old.limits }
        ensures run { self.new.run ≡ self.old.run }
        ensures handed { self.new.handed ≡ self.old.handed }
    {
        match self.limits.take(place, MAX_ALLOWANCE, self.run.moment()) {
            Take::Go(bytes) => bytes,
            Take::Hold(_) => 0,
        }
    }

    // Blocks are claimed, and as many bytes let go as may be.
    fn give_blocks(
        &mut self,
        worker: u32,
        gid: Gid,
        mirror: u16,
        run: Run,
        victim: Option<u64>,
    ) -> Said
        requires { MayGive self.old gid (offer.Blocks mirror run victim) }
        ensures { MakesTurn D.tells D.state D.faults (operation.Next worker self.old.run.now)
            (GivenRow gid worker (offer.Blocks mirror run victim)) self.old self.new result }
    {
        let place = self.run.machine().place(gid).unwrap();
        let Ok((claim, job)) = self.run.claim_blocks(gid, worker, mirror, run, victim) else {
            return Said::NoMemory;
        };
        let allow = self.let_go(place);
        Said::Grant(Grant::Fetch(FetchGrant {
            claim,
            gid,
            job,
            allow,
        }))
    }

    // A mirror is to be asked for the length of a payload.
    fn give_probe(&mut self, worker: u32, gid: Gid, mirror: u16) -> Said
        requires { MayGive self.old gid (offer.Probe mirror) }
        ensures { MakesTurn D.tells D.state D.faults (operation.Next worker self.old.run.now)
            (GivenRow gid worker (offer.Probe mirror)) self.old self.new result }
    {
        match self.run.claim_probe(gid, worker, mirror) {
            Ok((claim, url)) => Said::Grant(Grant::Probe { claim, gid, url }),
            Err(_) => Said::NoMemory,
        }
    }

    // What was offered of a download is given.
    fn give(&mut self, worker: u32, gid: Gid, offer: Offer) -> Said
        requires { MayGive self.old gid offer }
        ensures { MakesTurn D.tells D.state D.faults (operation.Next worker self.old.run.now)
            (GivenRow gid worker offer) self.old self.new result }
    {
        match offer {
            Offer::Whole { piece } => self.give_whole(worker, gid, piece),
            Offer::Blocks {
                mirror,
                run,
                victim,
            } => self.give_blocks(worker, gid, mirror, run, victim),
            Offer::Probe { mirror } => self.give_probe(worker, gid, mirror),
        }
    }

    // A download is opened, or a worker is given what comes next.
    pub(crate) fn next(&mut self, worker: u32, now: Moment) -> Said
        requires { KeepsRates self.old }
        ensures { PerformsTurn D.tells D.state D.faults (operation.Next worker now)
            self.old self.new result }
    {
        if let Err(said) = self.begin(true, now) {
            return said;
        }
        match self.run.machine().next_to_open() {
            Some(gid) => self.run.open_next(gid),
            None => self.give_offer(worker),
        }
    }

    // A worker is given the first offer that its download's credit affords.
    fn give_offer(&mut self, worker: u32) -> Said
        requires rates { KeepsRates self.old }
        requires room { 6 ≤ self.old.run.machine.spare }
        ensures { MakesTurn D.tells D.state D.faults (operation.Next worker self.old.run.now)
            (UnopenedRow worker) self.old self.new result }
    {
        let Ok(()) = self.handed.reserve(1) else {
            return Said::NoMemory;
        };
        match self.run.offer(&self.handed, &self.limits) {
            Ok(Offered::Next { gid, offer }) => self.give(worker, gid, offer),
            Ok(Offered::Held { ms }) => Said::Hold { ms },
            Ok(Offered::Idle) => Said::Idle,
            Err(_) => Said::NoMemory,
        }
    }
}
