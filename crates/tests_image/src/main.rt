//! An image of 64 MiB at three mirrors, the first by a redirect. Five workers fetch it with the default options. No block comes
//! before three of them have asked. The program tells the claims that stood then, and how the run ended.
#![tactic(auto)]

mod claims;
mod gated;
mod image;

use claims::first_claims;
use dl_clock::MemClock;
use dl_kinds::NoMemory;
use door_source::MemDoors;
use gated::GatedLinks;
use image::{NUMBER, image_links, image_words};
use load_setup::{SoundDisk, UnseenSink, count_right, load_digests, load_disk, payload_on};
use shared_run::{FinishedRun, run_shared};
use std::alloc::Global;
use std::io;
use std::process::ExitCode;
use std::sync::Wait;
use std::sync::atomic::{AtomicBool, AtomicU64};
use std::thread::Threads;

type Fetched<'a> = FinishedRun<SoundDisk, GatedLinks<'a>, MemClock, MemDoors>;

// What is left of the run.
fn fetched<'a, R: Threads + Wait + Sync>(
    threads: &R,
    alloc: Global,
    asked: &'a AtomicU64,
) -> Result<Fetched<'a>, NoMemory> {
    let digests = load_digests(alloc, NUMBER)?;
    let words = image_words(alloc)?;
    let disk = load_disk(alloc, &digests)?;
    let links = image_links(alloc, asked)?;
    let over = AtomicBool::new(false);
    let mut out = UnseenSink {};
    let doors = Vec::new(alloc);
    Ok(run_shared(
        threads, alloc, &words, disk, &over, links, doors, 1, &mut out,
    ))
}

// Its claims, its status, and how many pieces on its disk are right.
fn told<R: Threads + Wait + Sync>(threads: &R, alloc: Global) -> Result<String, NoMemory> {
    let asked = AtomicU64::new(0);
    let FinishedRun {
        ending,
        disk,
        links: _links,
        doors: _doors,
        transcripts: _transcripts,
        journal,
    } = fetched(threads, alloc, &asked)?;
    let mut text = first_claims(alloc, &journal)?;
    let digests = load_digests(alloc, NUMBER)?;
    let right = count_right(threads, alloc, &digests, payload_on(&disk))?;
    let status = ending.code();
    let ended = format!(in alloc; "status {status}, {right} pieces are right\n")?;
    text.push_str(ended.as_str())?;
    Ok(text)
}

fn print_told<R: Threads + Wait + Sync>(threads: &R, rt: &HostRuntime) -> io::Result<u8> {
    match told(threads, rt.alloc()) {
        Ok(text) => {
            print!(rt; "{text}")?;
            Ok(0)
        }
        Err(_) => Ok(40),
    }
}

fn main(rt: HostRuntime) -> ExitCode {
    ExitCode::from(print_told(&rt, &rt).unwrap_or(41))
}
