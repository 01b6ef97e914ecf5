// How far a run has come, as its disk and its links show it.
use std::io::Write;
use std::sync::atomic::{AtomicBool, AtomicU64, Ordering};

const SECOND_MS: u64 = 1000;

// A speed that jumps can't be read: three parts of four are those of the seconds before.
fn smoothed(before: u64, latest: u64) -> u64 {
    if before == 0 {
        latest
    } else {
        before / 4 * 3 + latest / 4
    }
}

/// How far a run has come. It is shared by all that watch the run.
#[derive(Drop)]
pub struct Progress {
    // Bytes of the payload, and those that its last control file lists.
    total: AtomicU64,
    listed: AtomicU64,
    // Bytes that were written into payload files since then.
    written: AtomicU64,
    // Bytes that links received, replies' heads among them.
    received: AtomicU64,
    // Connections that are open.
    open: AtomicU64,
    // When the line was drawn last, in ms and from 1 on, what had been received then, and the speed that it told.
    drawn_at: AtomicU64,
    drawn_received: AtomicU64,
    speed: AtomicU64,
    // Whether a line is drawn that is to be cleared before other output.
    is_drawn: AtomicBool,
}

/// What is shown of a run at a moment, in bytes and connections.
#[derive(Clone, Copy, Debug, PartialEq, Eq)]
pub struct Shown {
    pub done: u64,
    pub total: u64,
    pub open: u64,
}

impl Progress {
    pub fn new() -> Self {
        Progress {
            total: AtomicU64::new(0),
            listed: AtomicU64::new(0),
            written: AtomicU64::new(0),
            received: AtomicU64::new(0),
            open: AtomicU64::new(0),
            drawn_at: AtomicU64::new(0),
            drawn_received: AtomicU64::new(0),
            speed: AtomicU64::new(0),
            is_drawn: AtomicBool::new(false),
        }
    }

    /// A control file lists so many bytes of a payload.
    pub(crate) fn list(&self, listed: u64, total: u64) {
        self.total.store(total, Ordering::SeqCst);
        self.listed.store(listed, Ordering::SeqCst);
        self.written.store(0, Ordering::SeqCst);
    }

    /// So many bytes were written into a file of the payload.
    pub(crate) fn write(&self, count: u64) {
        self.written.fetch_add(count, Ordering::SeqCst);
    }

    pub(crate) fn receive(&self, count: u64) {
        self.received.fetch_add(count, Ordering::SeqCst);
    }

    pub(crate) fn open(&self) {
        self.open.fetch_add(1, Ordering::SeqCst);
    }

    pub(crate) fn close(&self) {
        self.open.fetch_sub(1, Ordering::SeqCst);
    }

    /// The speed that the line is to tell, in bytes a second, where a second has passed since it was drawn last. Whoever is told
    /// so draws it: nobody else is meanwhile.
    pub(crate) fn speed_if_due(&self, now: u64) -> Option<u64> {
        let last = self.drawn_at.load(Ordering::SeqCst);
        if last != 0 && now < last.saturating_add(SECOND_MS) {
            return None;
        }
        let taken = self
            .drawn_at
            .compare_exchange(last, now.max(1), Ordering::SeqCst, Ordering::SeqCst);
        if taken.is_err() {
            return None;
        }
        let received = self.received.load(Ordering::SeqCst);
        let before = self.drawn_received.swap(received, Ordering::SeqCst);
        if last == 0 {
            return Some(0);
        }
        let came = received.saturating_sub(before);
        let latest = came.saturating_mul(SECOND_MS) / now.saturating_sub(last).max(1);
        let speed = smoothed(self.speed.load(Ordering::SeqCst), latest);
        self.speed.store(speed, Ordering::SeqCst);
        Some(speed)
    }

    /// Tells whether a line was drawn, and is told whether one is now.
    pub(crate) fn draw(&self, is_drawn: bool) -> bool {
        self.is_drawn.swap(is_drawn, Ordering::SeqCst)
    }

    /// A line that is drawn there makes room for another. What can't be written is left out.
    pub fn clear<W: Write>(&self, terminal: &mut W) {
        if self.draw(false) {
            let _cleared = terminal.write_all(b"\r\x1b[K").is_ok();
        }
    }

    /// What is shown now. No more is done than there is, where that is known.
    pub fn shown(&self) -> Shown {
        let total = self.total.load(Ordering::SeqCst);
        let listed = self.listed.load(Ordering::SeqCst);
        let written = self.written.load(Ordering::SeqCst);
        let done = listed.saturating_add(written);
        Shown {
            done: if total == 0 { done } else { done.min(total) },
            total,
            open: self.open.load(Ordering::SeqCst),
        }
    }
}
