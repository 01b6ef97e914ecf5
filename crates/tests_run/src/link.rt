// A link that keeps what is asked of it.
ghost use Rattle.std.specs.Prelude.{false};
ghost use Rattle.link_source.specs.MemLinks.{link_faults};
ghost use Rattle.link_source.specs.Link.{no_link};

use dl_kinds::IoErr;
use link_source::{Links, MemLinks};
use std::alloc::Global;

/// A link to mirrors in memory.
#[derive(Debug, Drop)]
pub struct TestLink {
    mirrors: MemLinks,
    pub log: Log,
}

/// What was asked of a link.
#[derive(Debug, Drop)]
pub struct Log {
    /// Every request, one behind the other.
    pub sent: Vec<u8>,
    pub dials: u32,
}

impl TestLink {
    pub fn new(alloc: Global, mirrors: MemLinks) -> Self {
        TestLink {
            mirrors,
            log: Log {
                sent: Vec::new(alloc),
                dials: 0,
            },
        }
    }
}

// It tells only when it failed.
impl Links for TestLink {
    ghost use Rattle.std.specs.Prelude.{false, []};
    ghost use Rattle.link_source.specs.MemLinks.{link_faults};
    ghost use Rattle.link_source.specs.Link.{no_link};

    ghost tells = { false };

    ghost state = { λ _. no_link };

    ghost faults = { λ link. link_faults link.mirrors };

    fn faults(&self) -> u64 {
        self.mirrors.faults()
    }

    fn dial(&mut self, host: &str, port: u16) -> Result<(), IoErr> {
        self.log.dials = self.log.dials.saturating_add(1);
        self.mirrors.dial(host, port)
    }

    fn send(&mut self, bytes: &[u8]) -> Result<(), IoErr> {
        self.log.sent.extend_from_slice(bytes)?;
        if !self.mirrors.is_open() {
            return Err(IoErr::NoMemory);
        }
        self.mirrors.send(bytes)
    }

    fn recv(&mut self, into: &mut [u8]) -> Result<usize, IoErr> {
        if !self.mirrors.listens() {
            return Err(IoErr::NoMemory);
        }
        self.mirrors.recv(into)
    }

    fn dial_data(&mut self, port: u16) -> Result<(), IoErr> {
        self.mirrors.dial_data(port)
    }

    fn recv_data(&mut self, into: &mut [u8]) -> Result<usize, IoErr> {
        self.mirrors.recv_data(into)
    }

    fn hang_up(&mut self) {
        self.mirrors.hang_up();
    }
}
