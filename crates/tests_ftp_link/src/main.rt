//! Worked cases of dialogues with FTP servers: what is sent, what comes, and what each loss says. The words name files of
//! cases. Each line of them is printed, and behind it, after two spaces, what comes of it. `data/README` tells how cases
//! are written.
#![tactic(auto)]

mod scripted;
mod trial;

use std::rt::{Env, Files};
use std::test::Fail;
use std::{env, fs};
use trial::Trial;

// Carries the cases of a text out, line by line.
fn try_cases<R: Print + AllocGlobal>(rt: &R, text: &str) -> Result<(), Fail> {
    let mut trial = Trial::new(rt.alloc())?;
    for line in text.lines() {
        println!(rt; "{line}")?;
        if let Some(told) = trial.told(line)? {
            println!(rt; "  {told}")?;
        }
    }
    Ok(())
}

// Carries the cases of all files out that the words name.
fn try_files<R: Env + Files + Print + AllocGlobal>(rt: &R) -> Result<(), Fail> {
    for word in env::args(rt)?.skip(1) {
        let text = fs::read_to_string(rt, word.as_str())?;
        try_cases(rt, text.as_str())?;
    }
    Ok(())
}

fn main(rt: HostRuntime) -> Result<(), Fail> {
    try_files(&rt)
}
