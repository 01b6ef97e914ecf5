// A count, with a log of what was added.
ghost use Rattle.std.specs.Prelude.{◌≡◌, ◌+◌, ◌<◌, [], length, sum};
ghost use Rattle.turn_desk.specs.Turns.{events_of};
ghost use Rattle.tests_desk.specs.Counts.{Counts, Adds};

use std::alloc::Global;
use turn_desk::Served;

/// A count, with a log of what was added.
#[derive(Drop)]
pub struct Counter {
    pub first: u64,
    pub count: u64,
    pub log: Vec<u64>,
    ghost counted: { count ≡ first + sum log.items },
}

impl Counter {
    /// A count that begins with this number.
    pub fn new(alloc: Global, first: u64) -> Counter
        ensures first { result.first ≡ first }
        ensures log { result.log.items ≡ [] }
    {
        Counter {
            first,
            count: first,
            log: Vec::new(alloc),
        }
    }

    // Adds a number, and says what the count is then. None leaves it as it was.
    fn add(&mut self, n: u64) -> Option<u64>
        ensures first { self.new.first ≡ self.old.first }
        ensures added { Adds self.old.first self.old.log.items n result self.new.log.items }
    {
        let count = self.count.checked_add(n)?;
        if self.log.push(n).is_err() {
            return None;
        }
        self.count = count;
        Some(count)
    }
}

impl Served for Counter {
    type Start = u64;

    type Op = u64;

    type Answer = Option<u64>;

    type Entry = u64;

    ghost is_lawful = { λ op. op < 1000 };

    ghost start = { λ c. c.first };

    ghost entries = { λ c. c.log.items };

    ghost mark = { λ c. record { time = length c.log.items; faults = 0 } };

    ghost relates = { Counts };

    ghost stands = { λ c turns. c.log.items ≡ events_of turns };

    fn serve(&mut self, op: u64) -> Option<u64> {
        self.add(op)
    }
}
