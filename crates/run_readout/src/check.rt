// What a check of a payload finds, told line by line.
use crate::Progress;
use crate::links::Terminal;
use dl_clock::Clock;
use payload_repair::RepairWatch;
use std::io::Write;

const BLOCK_BYTES: u64 = 16_384;

/// Tells what a check finds: each wrong piece, the blocks that are written, run by run, and of each file with a wrong piece how
/// many there were. Pieces and blocks are numbered in their file, from 0. Where it was given a terminal it draws the line of
/// progress, too.
#[derive(Drop)]
pub struct CheckReadout<'a, K: Clock, W: Write> {
    progress: &'a Progress,
    terminal: Option<Terminal<K, W>>,
    out: W,
    // Bytes that are checked, and all.
    done: u64,
    total: u64,
    // Of the file that is checked: its wrong pieces, and how many of them were written into.
    wrong: u32,
    repaired: u32,
    // Whether something was written into the piece that is checked.
    is_repaired: bool,
    // The first and the last block of those that were written one behind the other.
    written: Option<(u64, u64)>,
}

impl<'a, K: Clock, W: Write> CheckReadout<'a, K, W> {
    /// Lines go to `out`. Without a `terminal` no line of progress is drawn.
    pub fn new(progress: &'a Progress, terminal: Option<Terminal<K, W>>, out: W) -> Self {
        CheckReadout {
            progress,
            terminal,
            out,
            done: 0,
            total: 0,
            wrong: 0,
            repaired: 0,
            is_repaired: false,
            written: None,
        }
    }

    // What can't be written is left out: the check goes on.
    fn tell_written(&mut self, name: &str) {
        let Some((first, last)) = self.written.take() else {
            return;
        };
        self.progress.clear(&mut self.out);
        let _told = if first == last {
            writeln!(self.out, "{name}: wrote block {first}").is_ok()
        } else {
            writeln!(self.out, "{name}: wrote blocks {first} to {last}").is_ok()
        };
    }
}

impl<'a, K: Clock, W: Write> RepairWatch for CheckReadout<'a, K, W> {
    fn begun(&mut self, total: u64) {
        self.total = total;
        self.progress.list(0, total);
    }

    fn found_wrong(&mut self, name: &str, piece: u32) {
        self.tell_written(name);
        self.wrong = self.wrong.saturating_add(1);
        self.progress.clear(&mut self.out);
        let _told = writeln!(self.out, "{name}: piece {piece} is wrong").is_ok();
    }

    fn wrote_block(&mut self, name: &str, start: u64, block: u16) {
        self.is_repaired = true;
        let block = (start / BLOCK_BYTES).saturating_add(u64::from(block));
        match self.written {
            Some((first, last)) if block == last.saturating_add(1) => {
                self.written = Some((first, block));
            }
            _ => {
                self.tell_written(name);
                self.written = Some((block, block));
            }
        }
    }

    fn checked(&mut self, bytes: u32) {
        if self.is_repaired {
            self.repaired = self.repaired.saturating_add(1);
            self.is_repaired = false;
        }
        self.done = self.done.saturating_add(u64::from(bytes));
        self.progress.list(self.done, self.total);
        self.progress.receive(u64::from(bytes));
        if let Some(terminal) = &mut self.terminal {
            terminal.draw(self.progress);
        }
    }

    fn finished(&mut self, name: &str) {
        self.tell_written(name);
        let (wrong, repaired) = (self.wrong, self.repaired);
        self.wrong = 0;
        self.repaired = 0;
        if wrong > 0 {
            self.progress.clear(&mut self.out);
            let _told = writeln!(self.out, "{name}: {wrong} wrong, {repaired} repaired").is_ok();
        }
    }
}
