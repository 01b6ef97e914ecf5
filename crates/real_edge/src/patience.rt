// How long a peer that is silent is waited for.
use std::sync::atomic::{AtomicBool, Ordering};
use std::time::{Clock, Duration, Instant};

/// A peer that is silent for so long is taken for dead.
const PATIENCE_SECONDS: u64 = 60;

/// Who waits looks up so often, to see whether the run is over.
pub const LOOK_MS: u64 = 200;

/// Where the system doesn't tell the time, patience is over behind so many looks.
const LOOKS: u64 = PATIENCE_SECONDS * 1000 / LOOK_MS;

/// No wait has more looks, also where signals break each of them off at once.
pub const MOST_LOOKS: u64 = 100 * LOOKS;

/// A wait that has begun. It is measured by the clock: on a busy machine a look takes longer than it should.
#[derive(Drop)]
pub struct Patience<'a, R: Clock> {
    rt: &'a R,
    over: &'a AtomicBool,
    begun: Option<Instant>,
}

impl<'a, R: Clock> Patience<'a, R> {
    /// `over` is set once the run is over.
    pub fn begin(rt: &'a R, over: &'a AtomicBool) -> Self {
        Patience {
            rt,
            over,
            begun: Instant::now(rt).ok(),
        }
    }

    /// How much longer is waited, behind so many looks; none where that is over, or the run is.
    pub fn left(&self, looks: u64) -> Option<Duration> {
        if self.over.load(Ordering::SeqCst) {
            return None;
        }
        let spent = match self.begun {
            Some(begun) => begun.elapsed(self.rt).ok(),
            None => None,
        };
        let spent = spent.unwrap_or(Duration::from_millis(looks.min(LOOKS) * LOOK_MS));
        let left = Duration::from_secs(PATIENCE_SECONDS).saturating_sub(spent);
        if left.is_zero() { None } else { Some(left) }
    }
}
