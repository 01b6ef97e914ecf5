// Links, clocks and doors that wait for each other, so that what comes of a run doesn't go by its threads.
ghost use Rattle.std.specs.Prelude.{false};
ghost use Rattle.door_source.specs.Doors.{no_door};
ghost use Rattle.link_source.specs.Link.{no_link};
ghost use Rattle.link_source.specs.MemLinks.{link_faults};

use dl_clock::{Clock, MemClock};
use dl_kinds::{Blob, IoErr, Moment};
use door_source::{Came, Doors};
use link_source::{Links, MemLinks};
use std::alloc::Global;
use std::sync::atomic::{AtomicBool, AtomicU64, Ordering};

/// How often it is looked whether what is waited for has come, before the run goes on without it.
const MOST_LOOKS: u64 = 1_000_000_000;

/// What the link, the worker and the clients of a run have done so far.
#[derive(Drop)]
pub struct Gates {
    /// How many requests were sent.
    pub asked: AtomicU64,
    /// How often the worker rested behind a request.
    pub rested: AtomicU64,
    /// How many connections of clients have ended.
    pub answered: AtomicU64,
    /// Whether the run told that it is over.
    pub over: AtomicBool,
}

impl Gates {
    pub fn new() -> Self {
        Gates {
            asked: AtomicU64::new(0),
            rested: AtomicU64::new(0),
            answered: AtomicU64::new(0),
            over: AtomicBool::new(false),
        }
    }
}

fn wait_for(count: &AtomicU64, least: u64) {
    for _ in 0..MOST_LOOKS {
        if count.load(Ordering::SeqCst) >= least {
            return;
        }
    }
}

/// A link to mirrors in memory, which receives nothing before so many clients have been answered.
#[derive(Drop)]
pub struct GatedLinks<'a> {
    mirrors: MemLinks,
    gates: &'a Gates,
    waits_for: u64,
    // Whether the mirrors end each connection once the run is over.
    leaves: bool,
}

impl<'a> GatedLinks<'a> {
    pub fn new(mirrors: MemLinks, gates: &'a Gates, waits_for: u64, leaves: bool) -> Self {
        GatedLinks {
            mirrors,
            gates,
            waits_for,
            leaves,
        }
    }
}

// It tells only when it failed.
impl<'a> Links for GatedLinks<'a> {
    ghost use Rattle.std.specs.Prelude.{false};
    ghost use Rattle.link_source.specs.MemLinks.{link_faults};
    ghost use Rattle.link_source.specs.Link.{no_link};

    ghost tells = { false };

    ghost state = { λ _. no_link };

    ghost faults = { λ link. link_faults link.mirrors };

    fn faults(&self) -> u64 {
        self.mirrors.faults()
    }

    fn dial(&mut self, host: &str, port: u16) -> Result<(), IoErr> {
        self.mirrors.dial(host, port)
    }

    fn send(&mut self, bytes: &[u8]) -> Result<(), IoErr> {
        if !self.mirrors.is_open() {
            return Err(IoErr::NoMemory);
        }
        self.mirrors.send(bytes)?;
        self.gates.asked.fetch_add(1, Ordering::SeqCst);
        Ok(())
    }

    fn recv(&mut self, into: &mut [u8]) -> Result<usize, IoErr> {
        if !self.mirrors.listens() {
            return Err(IoErr::NoMemory);
        }
        wait_for(&self.gates.answered, self.waits_for);
        if self.leaves && self.gates.over.load(Ordering::SeqCst) {
            return Ok(0);
        }
        self.mirrors.recv(into)
    }

    fn dial_data(&mut self, port: u16) -> Result<(), IoErr> {
        self.mirrors.dial_data(port)
    }

    fn recv_data(&mut self, into: &mut [u8]) -> Result<usize, IoErr> {
        self.mirrors.recv_data(into)
    }

    fn hang_up(&mut self) {
        self.mirrors.hang_up();
    }
}

/// The clock of the worker, which pauses where nothing is left to do; or of a session, which pauses nowhere.
#[derive(Drop)]
pub struct GatedClock<'a> {
    moments: MemClock,
    gates: &'a Gates,
    // How many requests had been sent when the worker rested last.
    asked: u64,
}

impl<'a> GatedClock<'a> {
    pub fn new(gates: &'a Gates) -> Self {
        GatedClock {
            moments: MemClock::new(0, 0),
            gates,
            asked: 0,
        }
    }
}

impl<'a> Clock for GatedClock<'a> {
    ghost reads = { λ old told new. Unit {0} };

    ghost pauses = { λ old ms new. Unit {0} };

    fn now(&mut self) -> Moment {
        self.moments.now()
    }

    fn pause(&mut self, ms: u64) {
        self.moments.pause(ms);
        let asked = self.gates.asked.load(Ordering::SeqCst);
        if asked > self.asked {
            self.asked = asked;
            self.gates.rested.fetch_add(1, Ordering::SeqCst);
        }
    }
}

/// When a client comes, and when one that stays ends its connection.
#[derive(Clone, Copy, Debug)]
pub enum When {
    /// At once.
    Now,
    /// Once so many requests were sent to mirrors.
    BehindAsking(u64),
    /// Once the worker rested so often behind a request.
    BehindResting(u64),
    /// Once the connections of so many clients have ended.
    BehindEnding(u64),
}

/// A client that sends all of its bytes, and then ends its connection. A WebSocket is looked at once more before that.
#[derive(Debug, Drop)]
pub struct Client {
    pub comes: When,
    pub ends: When,
    pub bytes: Blob,
}

/// A door at which clients come one behind the other.
#[derive(Drop)]
pub struct GatedDoors<'a> {
    gates: &'a Gates,
    clients: Vec<Client>,
    // The number of the newest client, counted from 1, and how many of its bytes were given.
    newest: usize,
    given: usize,
    // Whether it was told that nothing of it is left.
    told_idle: bool,
    /// What each client was sent.
    pub sent: Vec<Vec<u8>>,
}

impl<'a> GatedDoors<'a> {
    pub fn new(alloc: Global, gates: &'a Gates, clients: Vec<Client>) -> Self {
        GatedDoors {
            gates,
            clients,
            newest: 0,
            given: 0,
            told_idle: false,
            sent: Vec::new(alloc),
        }
    }

    fn wait(&self, when: When) {
        match when {
            When::Now => {}
            When::BehindAsking(least) => wait_for(&self.gates.asked, least),
            When::BehindResting(least) => wait_for(&self.gates.rested, least),
            When::BehindEnding(least) => wait_for(&self.gates.answered, least),
        }
    }

    fn newest_client(&self) -> Option<&Client> {
        self.clients[..].get(self.newest.wrapping_sub(1))
    }

    // What the newest client hasn't given yet.
    fn left(&self) -> &[u8] {
        match self.newest_client() {
            Some(client) => client.bytes.bytes().get(self.given..).unwrap_or(&[]),
            None => &[],
        }
    }

    // Waits until the newest client is to end its connection.
    fn wait_for_end(&self) {
        if let Some(client) = self.newest_client() {
            self.wait(client.ends);
        }
    }
}

// It fails never, and tells nothing.
impl<'a> Doors for GatedDoors<'a> {
    ghost use Rattle.std.specs.Prelude.{false};
    ghost use Rattle.door_source.specs.Doors.{no_door};

    ghost tells = { false };

    ghost state = { λ _. no_door };

    ghost faults = { λ _. 0 };

    fn faults(&self) -> u64 {
        0
    }

    fn accept(&mut self) -> Result<Came, IoErr> {
        let Some(client) = self.clients[..].get(self.newest) else {
            return Ok(Came::Closed);
        };
        self.wait(client.comes);
        let alloc = *self.clients.allocator();
        self.sent.push(Vec::new(alloc))?;
        self.newest = self.newest.saturating_add(1);
        self.given = 0;
        self.told_idle = false;
        Ok(Came::Somebody)
    }

    fn recv(&mut self, into: &mut [u8]) -> Result<usize, IoErr> {
        let left = self.left();
        let count = left.len().min(into.len());
        into[..count].copy_from_slice(&left[..count]);
        self.given = self.given.saturating_add(count);
        Ok(count)
    }

    fn ready(&mut self) -> Result<bool, IoErr> {
        if self.told_idle || !self.left().is_empty() {
            return Ok(true);
        }
        self.wait_for_end();
        self.told_idle = true;
        Ok(false)
    }

    fn send(&mut self, bytes: &[u8]) -> Result<(), IoErr> {
        if let Some(sent) = self.sent.last_mut() {
            sent.extend_from_slice(bytes)?;
        }
        Ok(())
    }

    fn hang_up(&mut self) {
        self.gates.answered.fetch_add(1, Ordering::SeqCst);
    }
}
