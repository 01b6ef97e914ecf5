//! Worked cases of command lines, of options, of ids, of the queue and of digests. The words name files of cases. Each
//! line of them is printed, and behind it, after two spaces, what comes of it. `data/README` tells how cases are
//! written.
#![tactic(auto)]

mod digests;
mod downloads;
mod ids;
mod lines;
mod lists;
mod options;
mod pieces;
mod trial;

use anyhow::Result;
use std::marker::Sync;
use std::rt::{Env, Files};
use std::thread::Threads;
use test_lines::{Output, print_all, says, texts};
use trial::Cases;

// Carries the cases of a text out, line by line.
fn try_cases<R: AllocGlobal + Threads + Sync>(rt: &R, text: &str, output: &mut Output) {
    let mut cases = Cases::new(rt.alloc());
    for line in text.lines() {
        if says(line, output) {
            cases.step(rt, line, output);
        }
    }
}

// Carries the cases of all files out that the words name.
fn try_files<R: Env + Files + Print + AllocGlobal + Threads + Sync>(rt: &R) -> Result<()> {
    let mut output = Output::new(rt.alloc());
    for text in texts(rt)?.iter() {
        try_cases(rt, text.as_str(), &mut output);
    }
    print_all(rt, &output)
}

fn main(rt: HostRuntime) -> Result<()> {
    try_files(&rt)
}
