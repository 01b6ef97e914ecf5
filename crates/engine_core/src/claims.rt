// What is asked and told of claims, and what needs none.
ghost use Rattle.std.specs.Prelude.{◌≡◌};
ghost use Rattle.engine_turns.specs.declared.operations.Operation.TheVariants as operation;
ghost use Rattle.engine_core.specs.Engines.{KeepsRates};
ghost use Rattle.engine_core.specs.Performing.{PerformsTurn};

use crate::state::EngineState;
use dl_disk::Disk;
use dl_kinds::{Mark, Moment, Run};
use engine_turns::{MAX_ALLOWANCE, Said};
use rate_tokens::Take;

impl<D: Disk> EngineState<D> {
    // Blocks of a claim came.
    pub(crate) fn deliver(&mut self, claim: u64, run: Run, bytes: &[u8], now: Moment) -> Said
        requires { KeepsRates self.old }
        ensures { PerformsTurn D.tells D.state D.faults (operation.Deliver claim run bytes.now now)
            self.old self.new result }
    {
        match self.begin(false, now) {
            Ok(()) => self.run.deliver(claim, run, bytes),
            Err(said) => said,
        }
    }

    // How many more bytes of a claim may be fetched.
    pub(crate) fn more(&mut self, claim: u64, want: u32, now: Moment) -> Said
        requires { KeepsRates self.old }
        ensures { PerformsTurn D.tells D.state D.faults (operation.More claim want now)
            self.old self.new result }
    {
        self.run.come_to(now);
        if let Some(said) = self.front(false, true) {
            return said;
        }
        let Some(place) = self.run.place_of_claim(claim) else {
            return Said::Void;
        };
        if want == 0 {
            return Said::Void;
        }
        match self
            .limits
            .take(place, want.min(MAX_ALLOWANCE), self.run.moment())
        {
            Take::Go(bytes) => Said::Allow { bytes },
            Take::Hold(ms) => Said::Hold { ms },
        }
    }

    // A claim failed.
    pub(crate) fn lose(&mut self, claim: u64, mark: Mark, now: Moment) -> Said
        requires { KeepsRates self.old }
        ensures { PerformsTurn D.tells D.state D.faults (operation.Lose claim mark now)
            self.old self.new result }
    {
        match self.begin(false, now) {
            Ok(()) => self.run.lose(claim, mark),
            Err(said) => said,
        }
    }

    // A probe told a length.
    pub(crate) fn size(&mut self, claim: u64, total: u64, now: Moment) -> Said
        requires { KeepsRates self.old }
        ensures { PerformsTurn D.tells D.state D.faults (operation.Sized claim total now)
            self.old self.new result }
    {
        match self.begin(false, now) {
            Ok(()) => self.run.size(claim, total),
            Err(said) => said,
        }
    }

    // A door of the console closed.
    pub(crate) fn leave(&mut self) -> Said
        requires { KeepsRates self.old }
        ensures { PerformsTurn D.tells D.state D.faults operation.Leave self.old self.new result }
    {
        self.run.leave()
    }

    // The run is to stop.
    pub(crate) fn stop(&mut self, now: Moment) -> Said
        requires { KeepsRates self.old }
        ensures { PerformsTurn D.tells D.state D.faults (operation.Stop now)
            self.old self.new result }
    {
        self.run.come_to(now);
        self.run.stop()
    }

    // Whether anything is left to do.
    pub(crate) fn pulse(&self) -> Said
        requires { KeepsRates self.now }
        ensures { PerformsTurn D.tells D.state D.faults operation.Pulse
            self.entry.now self.entry.now result }
    {
        match self.front(true, false) {
            Some(said) => said,
            None => Said::Idle,
        }
    }
}
