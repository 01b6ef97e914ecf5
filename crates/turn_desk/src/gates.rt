// Where chairs sleep: until the desk may be free, or until their turns come.
use std::array;
use std::sync::Wait;
use std::sync::atomic::{AtomicU64, Ordering};

/// The holder of a ticket sleeps at its gate, so that the end of a turn wakes few beside the next one.
#[derive(Drop)]
pub struct Gates {
    counts: [AtomicU64; 16],
}

impl Gates {
    pub fn new() -> Gates {
        Gates {
            counts: array::from_fn(|_| AtomicU64::new(0)),
        }
    }

    fn gate(&self, ticket: u64) -> &AtomicU64 {
        &self.counts[(ticket % 16) as usize]
    }

    /// How often the ticket's gate was opened.
    pub fn count(&self, ticket: u64) -> u64 {
        self.gate(ticket).load(Ordering::SeqCst)
    }

    /// Sleeps, unless the ticket's gate was opened since this count was taken.
    pub fn sleep<R: Wait>(&self, rt: &R, ticket: u64, count: u64) {
        self.gate(ticket).park(rt, (count % (1 << 32)) as u32);
    }

    /// Wakes those that sleep at the ticket's gate.
    pub fn open(&self, ticket: u64) {
        let gate = self.gate(ticket);
        gate.fetch_add(1, Ordering::SeqCst);
        gate.wake_all();
    }
}

/// Those who have no ticket sleep here until the desk may be free.
#[derive(Drop)]
pub struct Lobby {
    sleepers: AtomicU64,
    calls: AtomicU64,
}

impl Lobby {
    pub fn new() -> Lobby {
        Lobby {
            sleepers: AtomicU64::new(0),
            calls: AtomicU64::new(0),
        }
    }

    /// Counts one more as asleep, and tells how often somebody was called until then.
    pub fn enter(&self) -> u64 {
        self.sleepers.fetch_add(1, Ordering::SeqCst);
        self.calls.load(Ordering::SeqCst)
    }

    /// Sleeps, unless somebody was called since this count was taken.
    pub fn sleep<R: Wait>(&self, rt: &R, count: u64) {
        self.calls.park(rt, (count % (1 << 32)) as u32);
    }

    /// Counts one less as asleep.
    pub fn leave(&self) {
        self.sleepers.fetch_sub(1, Ordering::SeqCst);
    }

    /// Wakes one of those that sleep, if any does.
    pub fn call(&self) {
        if self.sleepers.load(Ordering::SeqCst) != 0 {
            self.calls.fetch_add(1, Ordering::SeqCst);
            self.calls.wake_one();
        }
    }
}
