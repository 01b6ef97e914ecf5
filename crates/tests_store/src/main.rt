//! The store over real files, and worked cases of it. The words are a metainfo file, a folder, and what is done with
//! its download, in this order: `open` and `check` open it, and tell its pieces and its blocks, or why it isn't opened;
//! `bring:FIRST:COUNT:FILE` brings it a run of blocks of the payload in FILE, settles the pieces that are full then,
//! and saves; `finish` ends it. `cases:FILE` carries out the cases of a file, each of its lines, over control files and
//! disks in memory: `data/README` tells how they are written.
#![tactic(auto)]

mod bringing;
mod calls;
mod controls;
mod lives;
mod texts;
mod trial;
mod wants;

ghost use Rattle.control_file.specs.Wants.{IsWant};

use anyhow::{Context, Result, ensure};
use calls::perform;
use control_file::Want;
use real_edge::FileDisk;
use std::fs::{File, Files};
use std::rt::Env;
use std::{env, fs};
use trial::Trial;
use wants::want_of;

fn words(rt: &(impl Env + AllocGlobal)) -> Result<Vec<String>> {
    let mut words = Vec::new(rt.alloc());
    for word in env::args(rt)?.skip(1) {
        words.push(word)?;
    }
    Ok(words)
}

// Carries the cases of a file out, line by line.
fn try_cases<R: Files<File = File> + Print + AllocGlobal>(rt: &R, file: &str) -> Result<()> {
    let text = fs::read_to_string(rt, file)?;
    let mut trial = Trial::new(rt.alloc())?;
    for line in text.lines() {
        println!(rt; "{line}")?;
        let told = trial.told(line).context(format_args!("at {line}"))?;
        if let Some(told) = told {
            println!(rt; "  {told}")?;
        }
    }
    Ok(())
}

// Does what a word wants with the download, and prints what came of it.
fn try_word<R: Files<File = File> + Print + AllocGlobal>(
    rt: &R,
    disk: &mut FileDisk<'_, R>,
    want: &Want,
    word: &str,
) -> Result<()>
    requires { IsWant want.now }
{
    let payload = match word.split(':').nth(3) {
        Some(file) => fs::read(rt, file)?,
        None => Vec::new(rt.alloc()),
    };
    let told = perform(rt.alloc(), disk, want, word, &payload)?;
    println!(rt; "{told}")?;
    Ok(())
}

fn main(rt: HostRuntime) -> Result<()> {
    let words = words(&rt)?;
    let torrent = words.get(0).context("a metainfo file is wanted")?;
    let dir = words.get(1).context("a folder is wanted")?;
    let want = want_of(&rt, torrent.as_str(), dir.as_str())?;
    ensure!(
        want.is_consistent(),
        "the parts of the download don't agree"
    );
    let mut disk = FileDisk::new(&rt);
    for word in words.iter().skip(2) {
        match word.as_str().strip_prefix("cases:") {
            Some(file) => try_cases(&rt, file)?,
            None => try_word(&rt, &mut disk, &want, word.as_str())?,
        }
    }
    Ok(())
}
