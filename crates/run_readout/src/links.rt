// A link whose connection is counted, and at which a line of progress is drawn.
ghost use Rattle.std.specs.Prelude.{◌≡◌};

use crate::Progress;
use crate::text::readout;
use dl_clock::Clock;
use dl_kinds::IoErr;
use fault_notes::{Noted, Notes};
use link_source::Links;
use std::alloc::Global;
use std::io::Write;

/// Where a line of progress goes, and the clock by which it is drawn.
#[derive(Drop)]
pub struct Terminal<K: Clock, W: Write> {
    pub alloc: Global,
    pub clock: K,
    pub out: W,
}

impl<K: Clock, W: Write> Terminal<K, W> {
    // Once a second at most. A line that can't be made or written is left out.
    pub(crate) fn draw(&mut self, progress: &Progress) {
        let now = self.clock.now();
        let Some(speed) = progress.speed_if_due(now.0) else {
            return;
        };
        if let Ok(line) = readout(self.alloc, progress.shown(), speed) {
            progress.draw(true);
            let _written = write!(self.out, "\r\x1b[K{line}").is_ok() && self.out.flush().is_ok();
        }
    }
}

/// A link that counts as a connection while one is open. What it receives is counted, and draws the line where it was given a
/// terminal.
pub struct WatchedLinks<'a, L: Links, K: Clock, W: Write> {
    inner: L,
    progress: &'a Progress,
    terminal: Option<Terminal<K, W>>,
    is_open: bool,
}

impl<'a, L: Links + Drop, K: Clock + Drop, W: Write + Drop> Drop for WatchedLinks<'a, L, K, W> {
    fn drop(self) {
        let WatchedLinks {
            inner: _inner,
            progress,
            terminal: _terminal,
            is_open,
        } = self;
        if is_open {
            progress.close();
        }
    }
}

impl<'a, L: Links, K: Clock, W: Write> WatchedLinks<'a, L, K, W> {
    /// Without a `terminal` nothing is drawn.
    pub fn new(inner: L, progress: &'a Progress, terminal: Option<Terminal<K, W>>) -> Self {
        WatchedLinks {
            inner,
            progress,
            terminal,
            is_open: false,
        }
    }

    fn note(&mut self, is_open: bool)
        ensures { self.new.inner ≡ self.old.inner }
    {
        if self.is_open != is_open {
            if is_open {
                self.progress.open();
            } else {
                self.progress.close();
            }
            self.is_open = is_open;
        }
        self.draw();
    }

    fn draw(&mut self)
        ensures { self.new.inner ≡ self.old.inner }
    {
        if let Some(terminal) = &mut self.terminal {
            terminal.draw(self.progress);
        }
    }
}

impl<'a, L: Links + Noted, K: Clock, W: Write> Noted for WatchedLinks<'a, L, K, W> {
    fn notes(&self) -> &Notes {
        self.inner.notes()
    }
}

impl<'a, L: Links, K: Clock, W: Write> Links for WatchedLinks<'a, L, K, W> {
    ghost tells = { L.tells };

    ghost state = { λ link. L.state link.inner };

    ghost faults = { λ link. L.faults link.inner };

    fn faults(&self) -> u64 {
        self.inner.faults()
    }

    fn dial(&mut self, host: &str, port: u16) -> Result<(), IoErr> {
        let outcome = self.inner.dial(host, port);
        self.note(outcome.is_ok());
        outcome
    }

    fn send(&mut self, bytes: &[u8]) -> Result<(), IoErr> {
        self.inner.send(bytes)
    }

    fn recv(&mut self, into: &mut [u8]) -> Result<usize, IoErr> {
        let outcome = self.inner.recv(into);
        if let Ok(count) = outcome {
            self.progress.receive(count as u64);
        }
        self.draw();
        outcome
    }

    fn dial_data(&mut self, port: u16) -> Result<(), IoErr> {
        self.inner.dial_data(port)
    }

    fn recv_data(&mut self, into: &mut [u8]) -> Result<usize, IoErr> {
        let outcome = self.inner.recv_data(into);
        if let Ok(count) = outcome {
            self.progress.receive(count as u64);
        }
        self.draw();
        outcome
    }

    fn hang_up(&mut self) {
        self.note(false);
        self.inner.hang_up();
    }
}
