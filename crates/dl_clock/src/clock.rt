// Which moment it is.
ghost use Rattle.std.specs.Prelude.{◌≤◌, ℕ};

use dl_kinds::Moment;

/// The latest moment that a clock tells, of 2^62 - 1 milliseconds.
pub const LATEST_MOMENT: u64 = 4_611_686_018_427_387_903;

/// Tells moments, and pauses. Nothing says of every clock that a moment is later than one told before, or how long a pause
/// takes: a clock of a computer may be set, and a pause cut short.
pub trait Clock {
    /// What a reading may tell, and what the clock is behind it.
    ghost reads: { Self → ℕ → Self → Type 0 };

    /// What the clock may be behind a pause of so many milliseconds.
    ghost pauses: { Self → ℕ → Self → Type 0 };

    /// The moment now.
    fn now(&mut self) -> Moment
        ensures within { result.0 ≤ LATEST_MOMENT }
        ensures reads { reads self.old result.0 self.new };

    /// Waits for so many milliseconds.
    fn pause(&mut self, ms: u64)
        ensures { pauses self.old ms self.new };
}
