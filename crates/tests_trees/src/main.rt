//! Worked cases of hash trees. The words name files of cases. Each line of them is printed, and behind it, after two
//! spaces, what comes of it. `data/README` tells how cases are written.
#![tactic(auto)]

mod cases;
mod metainfos;
mod payloads;

use anyhow::{Context, Result};
use cases::told;
use std::rt::{Env, Files};
use std::{env, fs};

// Prints a line, and what comes of it where it is a case.
fn try_line<R: Print + AllocGlobal>(rt: &R, line: &str) -> Result<()> {
    println!(rt; "{line}")?;
    if line.is_empty() || line.starts_with('#') {
        return Ok(());
    }
    let told = told(rt.alloc(), line).context(format_args!("at {line}"))?;
    println!(rt; "  {told}")?;
    Ok(())
}

// Carries the cases of a text out, line by line.
fn try_cases<R: Print + AllocGlobal>(rt: &R, text: &str) -> Result<()> {
    for line in text.lines() {
        try_line(rt, line)?;
    }
    Ok(())
}

// Carries the cases of all files out that the words name.
fn try_files<R: Env + Files + Print + AllocGlobal>(rt: &R) -> Result<()> {
    for word in env::args(rt)?.skip(1) {
        let text = fs::read_to_string(rt, word.as_str())?;
        try_cases(rt, text.as_str())?;
    }
    Ok(())
}

fn main(rt: HostRuntime) -> Result<()> {
    try_files(&rt)
}
