//! Worked downloads of an engine over a disk in memory, from the calls that add them to their ends. The words name
//! files of cases. Each line of them is printed, and behind it, after two spaces, what comes of it. `data/README` tells
//! how cases are written.
#![tactic(auto)]

mod calls;
mod disks;
mod failing;
mod journals;
mod letters;
mod lines;
mod payloads;
mod shown;
mod trial;

use anyhow::{Context, Result};
use std::rt::{Env, Files};
use std::{env, fs};
use trial::Trial;

// Carries the cases of a text out, line by line.
fn try_cases<R: Print + AllocGlobal>(rt: &R, trial: &mut Trial, text: &str) -> Result<()> {
    for line in text.lines() {
        println!(rt; "{line}")?;
        let told = trial.told(line).context(format_args!("at {line}"))?;
        if let Some(told) = told {
            println!(rt; "  {told}")?;
        }
    }
    Ok(())
}

// Carries the cases of all files out that the words name.
fn try_files<R: Env + Files + Print + AllocGlobal>(rt: &R) -> Result<()> {
    let mut trial = Trial::new(rt.alloc())?;
    for word in env::args(rt)?.skip(1) {
        let text = fs::read_to_string(rt, word.as_str())?;
        try_cases(rt, &mut trial, text.as_str())?;
    }
    Ok(())
}

fn main(rt: HostRuntime) -> Result<()> {
    try_files(&rt)
}
