// Cases, each carried out at its end.
ghost use Rattle.std.specs.Prelude.{◌≡◌, ◌≤◌, length, IfOk};

use crate::gates::{GatedClock, GatedDoors, GatedLinks, Gates};
use crate::rig::Rig;
use crate::server::Server;
use crate::serving::{cut, serve};
use crate::telling::{tell_bytes, tell_files, tell_needs};
use aria_top::{FinishedRun, run};
use dl_disk::MemDisk;
use dl_kinds::{MemSink, NoMemory};
use link_source::{Links, MemLinks};
use machine_core::{Event, Journal};
use payload_repair::Unwatched;
use std::alloc::Global;
use std::sync::Wait;
use std::thread::Threads;
use test_lines::{Output, after, before, set};

pub type Ran<'a, L> = FinishedRun<MemDisk, L, GatedClock<'a>, GatedDoors<'a>>;

// As much as the link gives at once.
const CUT: u32 = 65_536;

fn link_of<'a>(
    rig: &mut Rig,
    gates: &'a Gates,
) -> Result<Vec<(GatedLinks<'a>, GatedClock<'a>)>, NoMemory>
    ensures { IfOk result (λ links. length links.items ≡ 1) }
{
    let alloc = rig.alloc;
    let mirrors = std::mem::replace(&mut rig.mirrors, Vec::new(alloc));
    let memory = MemLinks::new(alloc, mirrors, Vec::new(alloc), CUT, Vec::new(alloc))?;
    let mut links = Vec::with_capacity(alloc, 1)?;
    links.push((
        GatedLinks::new(memory, gates, rig.waits_for, rig.leaves),
        GatedClock::new(gates),
    ))?;
    Ok(links)
}

// Two doors, at the second of which maybe nobody comes.
fn doors_of<'a>(
    rig: &mut Rig,
    gates: &'a Gates,
) -> Result<Vec<(GatedDoors<'a>, GatedClock<'a>)>, NoMemory>
    ensures { IfOk result (λ doors. length doors.items ≡ 2) }
{
    let alloc = rig.alloc;
    let clients = std::mem::replace(&mut rig.clients, Vec::new(alloc));
    let others = std::mem::replace(&mut rig.others, Vec::new(alloc));
    let mut doors = Vec::with_capacity(alloc, 2)?;
    doors.push((
        GatedDoors::new(alloc, gates, clients),
        GatedClock::new(gates),
    ))?;
    doors.push((
        GatedDoors::new(alloc, gates, others),
        GatedClock::new(gates),
    ))?;
    Ok(doors)
}

fn disk_of(rig: &Rig) -> Result<MemDisk, NoMemory> {
    let mut files = Vec::new(rig.alloc);
    for (name, bytes) in &rig.files {
        files.push((name.copy(rig.alloc)?, bytes.copy(rig.alloc)?))?;
    }
    MemDisk::new(rig.alloc, files, Vec::new(rig.alloc))
}

/// What is left of the run of a case over this link and these doors.
pub fn ran<'a, R: Threads + Wait + Sync, L: Links + Send + Drop>(
    threads: &R,
    rig: &Rig,
    gates: &'a Gates,
    links: Vec<(L, GatedClock<'a>)>,
    doors: Vec<(GatedDoors<'a>, GatedClock<'a>)>,
    out: &mut MemSink,
) -> Result<Ran<'a, L>, NoMemory>
    requires link { length links.items ≡ 1 }
    requires doors { length doors.items ≤ 2 }
{
    let disk = disk_of(rig)?;
    Ok(run(
        threads,
        rig.alloc,
        &rig.words,
        disk,
        &gates.over,
        links,
        doors,
        1,
        out,
        &mut Unwatched,
    ))
}

// How many calls the history has.
fn calls(journal: &Journal) -> u64 {
    let mut count: u64 = 0;
    for place in 0..journal.len() {
        if let Some(Event::Called { .. }) = journal.get(place) {
            count = count.saturating_add(1);
        }
    }
    count
}

fn tell_clients(doors: &[(GatedDoors<'_>, GatedClock<'_>)], output: &mut Output) {
    let mut number: u64 = 0;
    for (door, _) in doors {
        for sent in &door.sent {
            number = number.saturating_add(1);
            output.counted("  client ", number);
            output.text(" was sent ");
            tell_bytes(sent, output);
        }
    }
}

// How the run ended, what it printed, what its clients were sent, and what stands on its disk.
fn tell(rig: &Rig, left: Ran<'_, GatedLinks<'_>>, out: &MemSink, output: &mut Output) {
    let FinishedRun {
        ending,
        disk,
        links: _links,
        doors,
        transcripts: _transcripts,
        journal,
    } = left;
    if rig.lost {
        output.text("  out of memory\n");
    }
    output.counted("  status ", u64::from(ending.code()));
    output.text("\n  printed ");
    tell_bytes(out.bytes(), output);
    tell_clients(&doors, output);
    tell_files(rig, &disk, output);
    output.counted("  calls ", calls(&journal));
    output.text("\n");
}

// What is left of the run of a case over its mirrors.
fn fetched<'a, R: Threads + Wait + Sync>(
    threads: &R,
    rig: &mut Rig,
    gates: &'a Gates,
    out: &mut MemSink,
) -> Result<Ran<'a, GatedLinks<'a>>, NoMemory> {
    let links = link_of(rig, gates)?;
    let doors = doors_of(rig, gates)?;
    ran(threads, rig, gates, links, doors, out)
}

fn end<R: Threads + Wait + Sync>(threads: &R, rig: &mut Rig, output: &mut Output) {
    let gates = Gates::new();
    let mut out = MemSink::new(rig.alloc, Vec::new(rig.alloc));
    match fetched(threads, rig, &gates, &mut out) {
        Ok(left) => tell(rig, left, &out, output),
        Err(_) => output.text("  out of memory\n"),
    }
}

/// Carries a line out that says something, and writes what comes of it.
pub fn step<R: Threads + Wait + Sync>(threads: &R, rig: &mut Rig, line: &str, output: &mut Output) {
    let (key, rest) = (before(line, ' '), after(line, ' '));
    match key {
        "end" => end(threads, rig, output),
        "serve" => {
            serve(threads, rig, output);
            set(&mut rig.server, Server::new(rig.alloc));
        }
        "cut" => {
            cut(threads, rig, output);
            set(&mut rig.server, Server::new(rig.alloc));
        }
        "needs" => tell_needs(rig.alloc, rest, output),
        _ => rig.take(key, rest),
    }
}
