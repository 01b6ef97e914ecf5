// The buckets of a run.
ghost use Rattle.std.specs.Prelude.{◌≡◌, ◌==◌, ◌↔◌, ◌^◌, ◌+◌, ◌-◌, ◌<◌, ◌≤◌, [], ◌∷◌, ◌++◌, length, OnErr, OnOk};
ghost use Rattle.rate_tokens.specs.Calls.{IfGo, IfHold, IsHold, RateSet};
ghost use Rattle.rate_tokens.specs.Level.{full_level};
ghost use Rattle.rate_limits.specs.Shared.{lesser_credit, levels_taken, longer_wait, overall_by, own_by, own_level, shared_answer};

use dl_kinds::Moment;
use rate_tokens::{Bucket, Take};
use std::alloc::{AllocError, Global};
use std::marker::Model;

/// The buckets of a run: one for all its downloads, and one for each by its place in the order of adding, from 0. Rates are in
/// bytes a second, and a rate of 0 limits nothing. Of both buckets the lesser credit decides.
#[derive(Drop)]
pub struct RateLimits {
    overall: Bucket,
    own: Vec<Bucket>,
}

impl Model for RateLimits {
    ghost use Rattle.std.specs.Prelude.{◌-◌, vec_capacity, vec_len};
    ghost use Rattle.rate_limits.specs.Shared.{RunLevels};

    ghost Value = { RunLevels };

    ghost view = { λ l. record {
      overall = l.overall;
      own = l.own.items;
      room = vec_capacity l.own - vec_len l.own;
    } };
}

impl RateLimits {
    /// The buckets of a run with no downloads. The rate is the overall one.
    pub fn new(alloc: Global, rate: u64, now: Moment) -> Self
        requires { rate < 2 ^ 32 }
        ensures overall { result.overall ≡ full_level rate now.0 }
        ensures own { result.own ≡ [] }
    {
        RateLimits {
            overall: Bucket::new(rate, now),
            own: Vec::new(alloc),
        }
    }

    /// How many downloads have a bucket.
    pub fn len(&self) -> usize
        ensures { result ≡ length self.now.own }
    {
        self.own.len()
    }

    /// Whether none has.
    pub fn is_empty(&self) -> bool
        ensures { result ≡ (length self.now.own == 0) }
    {
        self.own.is_empty()
    }

    /// The overall rate.
    pub fn overall_rate(&self) -> u64
        ensures { result ≡ self.now.overall.rate }
    {
        self.overall.rate()
    }

    /// The rate of a download.
    pub fn own_rate(&self, place: usize) -> u64
        requires { place < length self.now.own }
        ensures { result ≡ (own_level self.now place).rate }
    {
        self.own[place].rate()
    }

    /// Makes room for `more` more downloads. No other call takes memory.
    pub fn reserve(&mut self, more: usize) -> Result<(), AllocError>
        ensures same { self.new ≡ record self.old { room = self.new.room } }
        ensures room { self.old.room ≤ self.new.room }
        ensures ok { OnOk result (more ≤ self.new.room) }
    {
        self.own.reserve(more)
    }

    /// A full bucket of a download that is added.
    pub fn add(&mut self, rate: u64, now: Moment)
        requires rate { rate < 2 ^ 32 }
        requires room { 1 ≤ self.old.room }
        ensures { self.new ≡ record self.old {
          own = self.old.own ++ full_level rate now.0 ∷ [];
          room = self.old.room - 1;
        } }
    {
        self.own.push_reserved(Bucket::new(rate, now));
    }

    /// The whole bytes of a download that both buckets let go at this moment: 2^64 - 1 where neither limits.
    pub fn credit(&self, place: usize, now: Moment) -> u64
        requires { place < length self.now.own }
        ensures { result ≡ lesser_credit self.now place now.0 }
    {
        self.overall.credit(now).min(self.own[place].credit(now))
    }

    /// In how many milliseconds, from this moment on, both let a byte go: in none, where they do now.
    pub fn wait(&self, place: usize, now: Moment) -> u64
        requires { place < length self.now.own }
        ensures value { result ≡ longer_wait self.now place now.0 }
        ensures none { (result ≡ 0) ↔ (1 ≤ lesser_credit self.now place now.0) }
    {
        self.overall.wait(now).max(self.own[place].wait(now))
    }

    /// Takes from both buckets the bytes that both let go at this moment, at most `want` of them. It holds exactly where one
    /// of them has less than one byte, and then takes from neither; the milliseconds to wait are from this moment on.
    pub fn take(&mut self, place: usize, want: u32, now: Moment) -> Take
        requires place { place < length self.old.own }
        requires some { 1 ≤ want }
        ensures answer { result ≡ shared_answer self.old place want now.0 }
        ensures levels { self.new ≡ levels_taken place now.0 result self.old }
        ensures hold { IsHold result ↔ (lesser_credit self.old place now.0 ≡ 0) }
        ensures bytes { IfGo result (λ bytes. (1 ≤ bytes) × (bytes ≤ want)) }
        ensures wait { IfHold result (λ wait. 1 ≤ wait) }
    {
        let bytes = self.credit(place, now).min(want as u64) as u32;
        if bytes == 0 {
            return Take::Hold(self.wait(place, now));
        }
        let _ = self.overall.take(bytes, now);
        let _ = self.own[place].take(bytes, now);
        Take::Go(bytes)
    }

    /// Sets the overall rate. The time until now counts at the rate before, and what is held isn't raised; but where there
    /// was no limit the bucket starts full.
    pub fn set_overall(&mut self, rate: u64, now: Moment)
        requires { rate < 2 ^ 32 }
        ensures { self.new ≡ overall_by (RateSet rate now.0) self.old }
    {
        self.overall.set_rate(rate, now);
    }

    /// Sets the rate of a download, in the way in which the overall one is set.
    pub fn set_own(&mut self, place: usize, rate: u64, now: Moment)
        requires rate { rate < 2 ^ 32 }
        requires place { place < length self.old.own }
        ensures { self.new ≡ own_by place (RateSet rate now.0) self.old }
    {
        self.own[place].set_rate(rate, now);
    }
}
