// The buckets, once the options changed.
ghost use Rattle.std.specs.Prelude.{◌≡◌, ◌^◌, ◌+◌, ◌<◌, ◌≤◌, Some, false, length, slice_get, take};
ghost use Rattle.engine_core.specs.Buckets.{FollowOptions, HaveRates, all_followed, followed_at, own_rates};
ghost use Rattle.engine_core.specs.Engines.{past_of, start_of};
ghost use Rattle.machine_core.specs.Reads.{downloads_in};

use crate::state::EngineState;
use dl_disk::Disk;
use dl_kinds::Moment;
use machine_core::Machine;
use option_set::Num;
use rate_limits::RateLimits;

// The rate that the options of the download at a place give.
fn rate_at(machine: &Machine, place: u32) -> u64
    requires { place < length (downloads_in machine.now) }
    ensures rate { slice_get (own_rates machine.now.start machine.now.past) place ≡ Some result }
    ensures within { result < 2 ^ 32 }
{
    let (gid, _) = machine.added(place).unwrap();
    machine.options(gid).unwrap().number(Num::MaxDownloadLimit)
}

// The bucket at a place takes the rate, unless it has it; the next one is full.
fn follow_at(limits: &mut RateLimits, place: usize, rate: u64, now: Moment)
    requires rate { rate < 2 ^ 32 }
    requires place { place ≤ length limits.old.own }
    requires room { place < length limits.old.own + limits.old.room }
    ensures overall { limits.new.overall ≡ limits.old.overall }
    ensures own { limits.new.own ≡ followed_at place rate now.0 limits.old.own }
    ensures room { length limits.new.own + limits.new.room
        ≡ length limits.old.own + limits.old.room }
    ensures within { place < length limits.new.own }
{
    if place == limits.len() {
        limits.add(rate, now);
    } else if limits.own_rate(place) != rate {
        limits.set_own(place, rate, now);
    }
}

// Each bucket of a download takes the rate of its options, of which those before the first place have it.
fn follow_from(limits: &mut RateLimits, machine: &Machine, first: u32, count: u32, now: Moment)
    requires first { first ≤ length limits.old.own }
    requires before { limits.old.own
        ≡ all_followed (take first (own_rates machine.now.start machine.now.past)) now.0
        limits.old.own }
    requires count { count ≡ length (downloads_in machine.now) }
    requires few { first ≤ count }
    requires room { length (downloads_in machine.now)
        ≤ length limits.old.own + limits.old.room }
    ensures overall { limits.new.overall ≡ limits.old.overall }
    ensures own { limits.new.own
        ≡ all_followed (own_rates machine.now.start machine.now.past) now.0 limits.old.own }
{
    for place in first..count {
        follow_at(limits, place as usize, rate_at(machine, place), now);
    }
}

// Each bucket has the rate of its download's options, and a download that came has a full one.
fn follow_new(limits: &mut RateLimits, machine: &Machine, count: u32, now: Moment)
    requires kept { HaveRates machine.now.start machine.now.past (downloads_in machine.now)
        limits.old.own }
    requires few { length limits.old.own ≤ length (downloads_in machine.now) }
    requires count { count ≡ length (downloads_in machine.now) }
    requires room { length (downloads_in machine.now)
        ≤ length limits.old.own + limits.old.room }
    ensures overall { limits.new.overall ≡ limits.old.overall }
    ensures own { limits.new.own
        ≡ all_followed (own_rates machine.now.start machine.now.past) now.0 limits.old.own }
{
    let first = limits.len() as u32;
    follow_from(limits, machine, first, count, now);
}

impl<D: Disk> EngineState<D> {
    // The buckets take the rates of the options, and a download that came has a full one. Unless the options of a download
    // changed only that one is looked at.
    pub(crate) fn follow_options(&mut self, changed: bool)
        requires room { length (downloads_in self.old.run.machine)
            ≤ length self.old.limits.own + self.old.limits.room }
        requires kept { changed ≡ false → HaveRates (start_of self.old) (past_of self.old)
            (downloads_in self.old.run.machine) self.old.limits.own }
        requires few { length self.old.limits.own ≤ length (downloads_in self.old.run.machine) }
        ensures run { self.new.run ≡ self.old.run }
        ensures handed { self.new.handed ≡ self.old.handed }
        ensures limits { FollowOptions (start_of self.old) (past_of self.old) self.old.run.now.0
            self.old.limits self.new.limits }
    {
        let now = self.run.moment();
        let machine = self.run.machine();
        let rate = machine.global().number(Num::MaxOverallDownloadLimit);
        if self.limits.overall_rate() != rate {
            self.limits.set_overall(rate, now);
        }
        let count = self.run.count();
        if changed {
            follow_from(&mut self.limits, machine, 0, count, now);
        } else {
            follow_new(&mut self.limits, machine, count, now);
        }
    }
}
