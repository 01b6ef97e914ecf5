// Runs of a case over a server that says what the case has.
use crate::gates::{GatedClock, Gates};
use crate::rig::Rig;
use crate::server::ServerLinks;
use crate::telling::tell_files;
use crate::trial::{Ran, ran};
use aria_top::FinishedRun;
use dl_kinds::{MemSink, NoMemory};
use std::sync::Wait;
use std::thread::Threads;
use test_lines::{Output, set};

/// How many bytes come at once.
const PIECES: [usize; 3] = [1, 7, 65_536];

// All that a server says.
const ALL: usize = usize::MAX;

// What is left of the run in which so many bytes of the server come, in such pieces.
fn served<'a, R: Threads + Wait + Sync>(
    threads: &R,
    rig: &'a Rig,
    gates: &'a Gates,
    most: usize,
    piece: usize,
) -> Result<Ran<'a, ServerLinks<'a>>, NoMemory> {
    let mut links = Vec::with_capacity(rig.alloc, 1)?;
    links.push((rig.server.link(most, piece), GatedClock::new(gates)))?;
    let mut out = MemSink::new(rig.alloc, Vec::new(rig.alloc));
    ran(threads, rig, gates, links, Vec::new(rig.alloc), &mut out)
}

// How a run ended, and what stands in the files of one that came to its end.
fn tell(rig: &Rig, left: Ran<'_, ServerLinks<'_>>, output: &mut Output) {
    let FinishedRun {
        ending,
        disk,
        links: _links,
        doors: _doors,
        transcripts: _transcripts,
        journal: _journal,
    } = left;
    output.counted("status ", u64::from(ending.code()));
    output.text("\n");
    if ending.code() == 0 {
        tell_files(rig, &disk, output);
    }
}

fn tell_run<R: Threads + Wait + Sync>(
    threads: &R,
    rig: &Rig,
    most: usize,
    piece: usize,
    output: &mut Output,
) {
    let gates = Gates::new();
    match served(threads, rig, &gates, most, piece) {
        Ok(left) => tell(rig, left, output),
        Err(_) => output.text("out of memory\n"),
    }
}

// From how many bytes on something comes of a case, where it is cut.
fn tell_place(most: usize, output: &mut Output) {
    if most < ALL {
        output.counted("  from ", most as u64);
        output.text(" bytes on: ");
    } else {
        output.text("  ");
    }
}

// The runs in which so many bytes come, in pieces of each size. What comes of one is told where it differs from the last.
fn try_pieces<R: Threads + Wait + Sync>(
    threads: &R,
    rig: &Rig,
    most: usize,
    last: &mut Output,
    output: &mut Output,
) {
    for piece in PIECES {
        let mut told = Output::new(rig.alloc);
        tell_run(threads, rig, most, piece, &mut told);
        if told.written() != last.written() {
            tell_place(most, output);
            output.text(told.written().unwrap_or("out of memory\n"));
        }
        set(last, told);
    }
}

/// The runs in which all comes that the server says.
pub fn serve<R: Threads + Wait + Sync>(threads: &R, rig: &Rig, output: &mut Output) {
    let mut last = Output::new(rig.alloc);
    try_pieces(threads, rig, ALL, &mut last, output);
}

/// The runs in which none of it comes, then one byte, and so on to all of it.
pub fn cut<R: Threads + Wait + Sync>(threads: &R, rig: &Rig, output: &mut Output) {
    let mut last = Output::new(rig.alloc);
    for most in 0..rig.server.len().saturating_add(1) {
        try_pieces(threads, rig, most, &mut last, output);
    }
}
