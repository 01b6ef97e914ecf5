// Output before which a line of progress is cleared.
use crate::Progress;
use dl_kinds::{IoErr, Sink};
use std::io::Write;

/// An output that first clears the line which is drawn on `terminal`.
#[derive(Drop)]
pub struct WatchedSink<'a, O: Sink + Drop, W: Write> {
    inner: O,
    progress: &'a Progress,
    terminal: W,
}

impl<'a, O: Sink + Drop, W: Write> WatchedSink<'a, O, W> {
    pub fn new(inner: O, progress: &'a Progress, terminal: W) -> Self {
        WatchedSink {
            inner,
            progress,
            terminal,
        }
    }
}

impl<'a, O: Sink + Drop, W: Write> Sink for WatchedSink<'a, O, W> {
    ghost tells = { O.tells };

    ghost taken = { λ out. O.taken out.inner };

    ghost faults = { λ out. O.faults out.inner };

    fn write(&mut self, bytes: &[u8]) -> Result<(), IoErr> {
        self.progress.clear(&mut self.terminal);
        self.inner.write(bytes)
    }
}
