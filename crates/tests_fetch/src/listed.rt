// A link to mirrors in memory that lists what is asked of it, and may close its connections.
ghost use Rattle.std.specs.Prelude.{◌≡◌, ◌≤◌};
ghost use Rattle.dl_kinds.specs.Counts.{Rose};
ghost use Rattle.dl_kinds.specs.declared.outside.IoErr.TheVariants.{Fault};
ghost use Rattle.link_source.specs.Link.{no_link};

use dl_kinds::IoErr;
use link_source::{Links, MemLinks};
use std::alloc::Global;

/// When the other end closes a connection.
#[derive(Clone, Copy, Debug, PartialEq, Eq)]
pub enum Closes {
    Never,
    /// Behind each reply: the next request is sent, and nothing comes.
    BehindReply,
    /// Behind each reply, and the next request can't be sent.
    BeforeRequest,
}

#[derive(Debug, Drop)]
pub struct ListedLink {
    mirrors: MemLinks,
    closes: Closes,
    /// Whether a request was sent over the connection, and whether it is closed.
    used: bool,
    gone: bool,
    failed: u64,
    /// A line for each dial, and each request as it was sent, also where the connection was closed by then.
    list: Vec<u8>,
}

impl ListedLink {
    pub fn new(alloc: Global, mirrors: MemLinks, closes: Closes) -> Self {
        ListedLink {
            mirrors,
            closes,
            used: false,
            gone: false,
            failed: 0,
            list: Vec::new(alloc),
        }
    }

    pub fn list(&self) -> &[u8] {
        &self.list
    }

    fn fail(&mut self) -> IoErr
        ensures error { result ≡ Fault }
        ensures later { self.old.failed ≤ self.new.failed }
        ensures rose { Rose self.old.failed self.new.failed }
    {
        self.failed = self.failed.saturating_add(1);
        IoErr::Fault
    }
}

// It tells only when it failed.
impl Links for ListedLink {
    ghost use Rattle.std.specs.Prelude.{false};
    ghost use Rattle.link_source.specs.Link.{no_link};

    ghost tells = { false };

    ghost state = { λ _. no_link };

    ghost faults = { λ link. link.failed };

    fn faults(&self) -> u64 {
        self.failed
    }

    fn dial(&mut self, host: &str, port: u16) -> Result<(), IoErr> {
        self.list.extend_from_slice(b"dial ")?;
        self.list.extend_from_slice(host.as_bytes())?;
        self.list.extend_from_slice(b"\r\n")?;
        self.used = false;
        self.gone = false;
        match self.mirrors.dial(host, port) {
            Ok(()) => Ok(()),
            Err(IoErr::Fault) => Err(self.fail()),
            Err(IoErr::NoMemory) => Err(IoErr::NoMemory),
        }
    }

    fn send(&mut self, bytes: &[u8]) -> Result<(), IoErr> {
        if !self.mirrors.is_open() {
            return Err(IoErr::NoMemory);
        }
        if self.used && self.closes == Closes::BeforeRequest {
            return Err(self.fail());
        }
        self.list.extend_from_slice(bytes)?;
        if self.used && self.closes == Closes::BehindReply {
            self.gone = true;
            return Ok(());
        }
        self.used = true;
        match self.mirrors.send(bytes) {
            Ok(()) => Ok(()),
            Err(IoErr::Fault) => Err(self.fail()),
            Err(IoErr::NoMemory) => Err(IoErr::NoMemory),
        }
    }

    fn recv(&mut self, into: &mut [u8]) -> Result<usize, IoErr> {
        if self.gone {
            return Ok(0);
        }
        if !self.mirrors.listens() {
            return Err(IoErr::NoMemory);
        }
        match self.mirrors.recv(into) {
            Ok(count) => Ok(count),
            Err(IoErr::Fault) => Err(self.fail()),
            Err(IoErr::NoMemory) => Err(IoErr::NoMemory),
        }
    }

    // Mirrors in memory have no connections for data.
    fn dial_data(&mut self, _port: u16) -> Result<(), IoErr> {
        Err(IoErr::NoMemory)
    }

    fn recv_data(&mut self, _into: &mut [u8]) -> Result<usize, IoErr> {
        Err(IoErr::NoMemory)
    }

    fn hang_up(&mut self) {
        self.mirrors.hang_up();
    }
}
