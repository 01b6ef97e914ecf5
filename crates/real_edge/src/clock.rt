// The real clock.
ghost use Rattle.std.specs.Prelude.{◌≤◌};

use dl_clock::{Clock, LATEST_MOMENT};
use dl_kinds::Moment;
use std::time::{Duration, Instant};
use std::{io, thread, time};

/// The system's monotonic clock. It tells milliseconds since it was made, and nothing is told of them. Where the system
/// fails to tell the time, the moment told last is told again.
#[derive(Drop)]
pub struct StdClock<'a, R: time::Clock> {
    rt: &'a R,
    start: Instant,
    last: u64,
}

impl<'a, R: time::Clock> StdClock<'a, R> {
    /// A clock that begins now. Without the system's time there is none.
    pub fn new(rt: &'a R) -> io::Result<Self> {
        let start = Instant::now(rt)?;
        Ok(StdClock { rt, start, last: 0 })
    }
}

// Of a longer time the latest moment.
fn moment_of(passed: Duration) -> u64
    ensures { result ≤ LATEST_MOMENT }
{
    match u64::try_from(passed.as_millis()) {
        Ok(ms) => ms.min(LATEST_MOMENT),
        Err(_) => LATEST_MOMENT,
    }
}

impl<'a, R: time::Clock> Clock for StdClock<'a, R> {
    ghost reads = { λ old moment new. Unit {0} };

    ghost pauses = { λ old ms new. Unit {0} };

    fn now(&mut self) -> Moment {
        if let Ok(passed) = self.start.elapsed(self.rt) {
            self.last = moment_of(passed);
        }
        Moment(self.last.min(LATEST_MOMENT))
    }

    fn pause(&mut self, ms: u64) {
        thread::sleep(self.rt, Duration::from_millis(ms));
    }
}
