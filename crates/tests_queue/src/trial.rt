// Lines of cases, each carried out behind the lines before it.
use crate::digests::{add_compared, add_sealed};
use crate::downloads::{QueueLine, add_call, add_queue_line};
use crate::ids::{IdLine, add_id};
use crate::lines::add_meaning;
use crate::options::{OptionLine, add_option_line};
use crate::pieces::Pieces;
use dl_queue::Queue;
use std::alloc::Global;
use std::marker::Sync;
use std::thread::Threads;
use test_lines::{Output, after, before, keyword, set, u32s};

/// What lines go on with.
#[derive(Drop)]
pub struct Cases {
    alloc: Global,
    queue: Queue,
    pieces: Pieces,
    // How many bytes of a message come at once, in each way.
    cuts: Vec<u32>,
}

// What a line's first word asks for.
#[derive(Clone, Copy)]
enum Line {
    Cuts,
    Piece,
    Meaning,
    Option(OptionLine),
    Id(IdLine),
    Digest,
    Split,
    Seal,
    Compare,
    Queue(QueueLine),
    Call,
}

const LINES: [(&str, Line); 21] = [
    ("cuts", Line::Cuts),
    ("piece", Line::Piece),
    ("line", Line::Meaning),
    ("read", Line::Option(OptionLine::Read)),
    ("option", Line::Option(OptionLine::Row)),
    ("defaults", Line::Option(OptionLine::Defaults)),
    ("gid", Line::Id(IdLine::Gid)),
    ("key", Line::Id(IdLine::Key)),
    ("names", Line::Id(IdLine::Names)),
    ("digest", Line::Digest),
    ("split", Line::Split),
    ("seal", Line::Seal),
    ("compare", Line::Compare),
    ("queue", Line::Queue(QueueLine::Begin)),
    ("limit", Line::Queue(QueueLine::Limit)),
    ("pauseAll", Line::Queue(QueueLine::PauseAll)),
    ("unpauseAll", Line::Queue(QueueLine::UnpauseAll)),
    ("purge", Line::Queue(QueueLine::Purge)),
    ("lists", Line::Queue(QueueLine::Lists)),
    ("find", Line::Queue(QueueLine::Find)),
    ("status", Line::Queue(QueueLine::Status)),
];

impl Cases {
    /// Before the first line.
    pub fn new(alloc: Global) -> Cases {
        Cases {
            alloc,
            queue: Queue::new(alloc, 5),
            pieces: Pieces::new(alloc),
            cuts: u32s(alloc, "65536", ' '),
        }
    }

    // Writes what comes of a line that asks something.
    fn ask<R: Threads + Sync>(
        &mut self,
        rt: &R,
        kind: Line,
        line: &str,
        rest: &str,
        output: &mut Output,
    ) {
        let alloc = self.alloc;
        match kind {
            Line::Meaning => add_meaning(alloc, rest, output),
            Line::Option(kind) => add_option_line(alloc, kind, rest, output),
            Line::Id(kind) => add_id(alloc, kind, rest, output),
            Line::Digest => add_compared(alloc, rest, &self.cuts, output),
            Line::Split => add_compared(alloc, rest, &[], output),
            Line::Seal => add_sealed(alloc, rest, output),
            Line::Compare => self.pieces.compare(rt, output),
            Line::Queue(kind) => add_queue_line(alloc, &mut self.queue, kind, rest, output),
            _ => add_call(alloc, &mut self.queue, line, output),
        }
    }

    /// Carries a line out, and writes what comes of it, if it asks something.
    pub fn step<R: Threads + Sync>(&mut self, rt: &R, line: &str, output: &mut Output) {
        let rest = after(line, ' ');
        match keyword(&LINES, before(line, ' '), Line::Call) {
            Line::Cuts => set(&mut self.cuts, u32s(self.alloc, rest, ' ')),
            Line::Piece => self.pieces.add(rest),
            kind => {
                output.text("  ");
                self.ask(rt, kind, line, rest, output);
                output.text("\n");
            }
        }
    }
}
