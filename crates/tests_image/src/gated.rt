// A link that waits until several links have asked.
ghost use Rattle.std.specs.Prelude.{false};
ghost use Rattle.link_source.specs.MemLinks.{link_faults};
ghost use Rattle.link_source.specs.Link.{no_link};

use dl_kinds::IoErr;
use link_source::{Links, MemLinks};
use std::sync::atomic::{AtomicU64, Ordering};

/// So many links have to have asked before the first of them receives a byte.
const AT_ONCE: u64 = 3;

/// How often a link looks whether they have, before it goes on without them.
const MOST_LOOKS: u64 = 1_000_000_000;

/// A link to mirrors in memory. `asked` counts the links that have sent a request.
#[derive(Drop)]
pub struct GatedLinks<'a> {
    mirrors: MemLinks,
    asked: &'a AtomicU64,
    has_asked: bool,
    has_waited: bool,
}

impl<'a> GatedLinks<'a> {
    pub fn new(mirrors: MemLinks, asked: &'a AtomicU64) -> Self {
        GatedLinks {
            mirrors,
            asked,
            has_asked: false,
            has_waited: false,
        }
    }

    fn wait(&self) {
        for _ in 0..MOST_LOOKS {
            if self.asked.load(Ordering::SeqCst) >= AT_ONCE {
                return;
            }
        }
    }
}

// It tells only when it failed.
impl<'a> Links for GatedLinks<'a> {
    ghost use Rattle.std.specs.Prelude.{false};
    ghost use Rattle.link_source.specs.MemLinks.{link_faults};
    ghost use Rattle.link_source.specs.Link.{no_link};

    ghost tells = { false };

    ghost state = { λ _. no_link };

    ghost faults = { λ link. link_faults link.mirrors };

    fn faults(&self) -> u64 {
        self.mirrors.faults()
    }

    fn dial(&mut self, host: &str, port: u16) -> Result<(), IoErr> {
        self.mirrors.dial(host, port)
    }

    fn send(&mut self, bytes: &[u8]) -> Result<(), IoErr> {
        if !self.mirrors.is_open() {
            return Err(IoErr::NoMemory);
        }
        self.mirrors.send(bytes)?;
        if !self.has_asked {
            self.has_asked = true;
            self.asked.fetch_add(1, Ordering::SeqCst);
        }
        Ok(())
    }

    fn recv(&mut self, into: &mut [u8]) -> Result<usize, IoErr> {
        if !self.mirrors.listens() {
            return Err(IoErr::NoMemory);
        }
        if !self.has_waited {
            self.has_waited = true;
            self.wait();
        }
        self.mirrors.recv(into)
    }

    // Mirrors in memory have no connections for data.
    fn dial_data(&mut self, _port: u16) -> Result<(), IoErr> {
        Err(IoErr::NoMemory)
    }

    fn recv_data(&mut self, _into: &mut [u8]) -> Result<usize, IoErr> {
        Err(IoErr::NoMemory)
    }

    fn hang_up(&mut self) {
        self.mirrors.hang_up();
    }
}
