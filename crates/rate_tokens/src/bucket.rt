// A token bucket.
ghost use Rattle.std.specs.Prelude.{◌≡◌, ◌↔◌, ◌-◌, ◌^◌, ◌<◌, ◌≤◌, max};
ghost use Rattle.rate_tokens.specs.Calls.{Taken, RateSet, capacity_of, IsHold, IfGo, IfHold};
ghost use Rattle.rate_tokens.specs.Level.{answer_in, credit_in, full_level, held_in, level_by, wait_in};

use dl_kinds::Moment;
use std::marker::Model;

// The least capacity of a bucket in bytes.
const LEAST_CAPACITY: u64 = 16_384;

// The thousandths of a byte.
const THOUSAND: u128 = 1_000;

/// What a bucket answers to a take.
#[derive(Clone, Copy, Debug, PartialEq, Eq)]
pub enum Take {
    /// So many bytes may go now, at least one and at most as many as were wanted.
    Go(u32),
    /// None may go now. So many milliseconds after the bucket's last moment, and no sooner, one may.
    Hold(u64),
}

fn capacity(rate: u64) -> u128
    requires { rate < 2 ^ 32 }
    ensures { result ≡ capacity_of rate }
{
    THOUSAND * rate.max(LEAST_CAPACITY) as u128
}

/// A bucket that fills at its rate in bytes a second, up to the bytes of one second but at least 16,384. It starts full.
/// A rate of 0 limits nothing. A call with an earlier moment than the last counts as at the last moment.
#[derive(Debug, Drop)]
pub struct Bucket {
    rate: u64,
    // The last moment of its calls.
    moment: Moment,
    // The credit in thousandths of a byte.
    held: u128,
}

impl Model for Bucket {
    ghost use Rattle.rate_tokens.specs.Level.{Level, IsLevel};

    ghost Value = { Level };

    ghost view = { λ b. record { rate = b.rate; moment = b.moment.0; held = b.held } };

    ghost invariant = { λ b. IsLevel b.rate b.held };
}

impl Bucket {
    /// A full bucket.
    pub fn new(rate: u64, now: Moment) -> Self
        requires { rate < 2 ^ 32 }
        ensures { result ≡ full_level rate now.0 }
    {
        Bucket {
            rate,
            moment: now,
            held: capacity(rate),
        }
    }

    /// Its rate in bytes a second, 0 where it limits nothing.
    pub fn rate(&self) -> u64
        ensures { result ≡ self.now.rate }
    {
        self.rate
    }

    // What it holds at this moment.
    fn held_at(&self, now: Moment) -> u128
        ensures { result ≡ held_in self.now now.0 }
    {
        let passed = now.0.saturating_sub(self.moment.0);
        capacity(self.rate).min(self.held + self.rate as u128 * passed as u128)
    }

    // Comes to this moment, if it is a later one.
    fn pass(&mut self, now: Moment)
        ensures rate { self.new.rate ≡ self.old.rate }
        ensures moment { self.new.moment ≡ max self.old.moment now.0 }
        ensures held { self.new.held ≡ held_in self.old now.0 }
    {
        self.held = self.held_at(now);
        self.moment = Moment(self.moment.0.max(now.0));
    }

    /// The whole bytes that may go at this moment. Without a limit they are 2^64 - 1.
    pub fn credit(&self, now: Moment) -> u64
        ensures { result ≡ credit_in self.now now.0 }
    {
        if self.rate == 0 {
            return u64::MAX;
        }
        (self.held_at(now) / THOUSAND) as u64
    }

    /// In how many milliseconds, from this moment on, a byte may go: in none, where one may go now.
    pub fn wait(&self, now: Moment) -> u64
        ensures value { result ≡ wait_in self.now now.0 }
        ensures none { (result ≡ 0) ↔ (1 ≤ credit_in self.now now.0) }
    {
        let held = self.held_at(now);
        if self.rate == 0 || held >= THOUSAND {
            return 0;
        }
        (THOUSAND - held).div_ceil(self.rate as u128) as u64
    }

    /// Takes the bytes that may go at this moment, at most `want` of them. It holds exactly where the credit is less than
    /// one byte, and then takes nothing.
    pub fn take(&mut self, want: u32, now: Moment) -> Take
        requires { 1 ≤ want }
        ensures answer { result ≡ answer_in self.old want now.0 }
        ensures hold { IsHold result ↔ (credit_in self.old now.0 ≡ 0) }
        ensures level { self.new ≡ level_by (Taken want now.0) self.old }
        ensures bytes { IfGo result (λ bytes. (1 ≤ bytes) × (bytes ≤ want)) }
        ensures wait { IfHold result (λ wait. (1 ≤ wait) × (wait ≤ 1000)) }
    {
        self.pass(now);
        if self.rate == 0 {
            return Take::Go(want);
        }
        if self.held < THOUSAND {
            return Take::Hold((THOUSAND - self.held).div_ceil(self.rate as u128) as u64);
        }
        let bytes = (self.held / THOUSAND).min(want as u128);
        self.held -= THOUSAND * bytes;
        Take::Go(bytes as u32)
    }

    /// Sets the rate. The time until now counts at the rate before. What is held is cut to the new capacity and never
    /// raised, but where there was no limit the bucket starts full.
    pub fn set_rate(&mut self, rate: u64, now: Moment)
        requires { rate < 2 ^ 32 }
        ensures { self.new ≡ level_by (RateSet rate now.0) self.old }
    {
        self.pass(now);
        let most = capacity(rate);
        self.held = if self.rate == 0 {
            most
        } else {
            most.min(self.held)
        };
        self.rate = rate;
    }
}
