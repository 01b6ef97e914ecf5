// A clock in memory.
ghost use Rattle.std.specs.Prelude.{◌≡◌, ◌≤◌};
ghost use Rattle.dl_clock.specs.MemClock.{gone_on};

use crate::clock::{Clock, LATEST_MOMENT};
use dl_kinds::Moment;
use std::marker::Model;

/// A clock that goes on by a step each time it is asked, and by each pause, up to `LATEST_MOMENT`. Contracts see the moment
/// that it tells next, and the step.
#[derive(Debug, Drop)]
pub struct MemClock {
    moment: u64,
    step: u64,
}

impl Model for MemClock {
    ghost use Rattle.std.specs.Prelude.{◌≤◌};
    ghost use Rattle.dl_clock.specs.MemClock.{ClockState};
    ghost use Rattle.dl_clock.specs.declared.clock.TheConstants.{LATEST_MOMENT};

    ghost Value = { ClockState };

    ghost view = { λ clock. record { moment = clock.moment; step = clock.step } };

    ghost invariant = { λ clock. clock.moment ≤ LATEST_MOMENT };
}

impl MemClock {
    /// A clock that begins at a moment.
    pub fn new(start: u64, step: u64) -> Self
        requires { start ≤ LATEST_MOMENT }
        ensures { result ≡ record { moment = start; step = step } }
    {
        MemClock {
            moment: start,
            step,
        }
    }

    fn go_on(&mut self, ms: u64)
        ensures { self.new ≡ gone_on self.old ms }
    {
        self.moment = self.moment.saturating_add(ms).min(LATEST_MOMENT);
    }
}

impl Clock for MemClock {
    ghost reads = { λ old told new. (told ≡ old.moment) × (new ≡ gone_on old old.step) };

    ghost pauses = { λ old ms new. new ≡ gone_on old ms };

    fn now(&mut self) -> Moment {
        let now = Moment(self.moment);
        self.go_on(self.step);
        now
    }

    fn pause(&mut self, ms: u64) {
        self.go_on(ms);
    }
}
