// How long a mirror that is overloaded is left alone.
use std::alloc::Global;
use std::sync::atomic::{AtomicBool, Ordering};
use std::thread;
use std::time::{Clock, Duration};

/// The first rest. Each further one in a row takes twice as long.
const FIRST_REST_MS: u64 = 20;

/// Behind so many no rest takes longer than the one before it.
const MOST_DOUBLED: u32 = 5;

/// The host that said last that it is overloaded, and how often in a row it said so over a new connection.
#[derive(Debug, Drop)]
pub struct Rests {
    alloc: Global,
    host: Option<String>,
    port: u16,
    times: u32,
    // The host of the connection, where nothing was received of it as yet.
    fresh: Option<String>,
    fresh_port: u16,
}

impl Rests {
    pub fn new(alloc: Global) -> Self {
        Rests {
            alloc,
            host: None,
            port: 0,
            times: 0,
            fresh: None,
            fresh_port: 0,
        }
    }

    fn is_overloaded(&self, host: &str, port: u16) -> bool {
        match &self.host {
            Some(overloaded) => overloaded.as_str() == host && self.port == port,
            None => false,
        }
    }

    /// Rests before this host is dialled, where it was overloaded last.
    pub fn rest<R: Clock>(&self, rt: &R, over: &AtomicBool, host: &str, port: u16) {
        if !self.is_overloaded(host, port) {
            return;
        }
        let doubled = self.times.saturating_sub(1).min(MOST_DOUBLED);
        for _ in 0..1u32 << doubled {
            if over.load(Ordering::SeqCst) {
                return;
            }
            thread::sleep(rt, Duration::from_millis(FIRST_REST_MS));
        }
    }

    /// A connection to this host was opened. Where memory is wanting to note it, it goes without rests.
    pub fn dialled(&mut self, host: &str, port: u16) {
        self.fresh = String::from_str(self.alloc, host).ok();
        self.fresh_port = port;
    }

    /// These bytes were received.
    pub fn received(&mut self, bytes: &[u8]) {
        let Some(host) = self.fresh.take() else {
            return;
        };
        let again = self.is_overloaded(host.as_str(), self.fresh_port);
        if !is_overload(bytes) {
            if again {
                self.host = None;
            }
            return;
        }
        self.times = if again {
            self.times.saturating_add(1)
        } else {
            1
        };
        self.host = Some(host);
        self.port = self.fresh_port;
    }
}

// Whether a reply begins with the status 503 (RFC 9110 section 15.6.4).
fn is_overload(bytes: &[u8]) -> bool {
    bytes.starts_with(b"HTTP/1.1 503") || bytes.starts_with(b"HTTP/1.0 503")
}
