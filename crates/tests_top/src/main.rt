//! Worked runs of the call of every command, over a disk, a link and a console's door in memory. The words name files of cases.
//! Each line of them is printed, and behind it what comes of it. `data/README` tells how cases are written.
#![tactic(auto)]

mod gates;
mod rig;
mod server;
mod serving;
mod telling;
mod trial;

use anyhow::Result;
use rig::Rig;
use std::sync::Wait;
use std::thread::Threads;
use test_lines::{Output, print_all, says, texts};
use trial::step;

fn try_text<R: Threads + Wait + Sync>(threads: &R, rig: &mut Rig, text: &str, output: &mut Output) {
    for line in text.lines() {
        if says(line, output) {
            step(threads, rig, line, output);
        }
    }
}

fn try_files<R: Threads + Wait + Sync>(threads: &R, rt: &HostRuntime) -> Result<()> {
    let mut rig = Rig::new(rt.alloc());
    let mut output = Output::new(rt.alloc());
    for text in texts(rt)?.iter() {
        try_text(threads, &mut rig, text.as_str(), &mut output);
    }
    print_all(rt, &output)
}

fn main(rt: HostRuntime) -> Result<()> {
    try_files(&rt, &rt)
}
