// Downloads that are opened, brought runs of blocks and ended on a disk in memory, where any one call fails and a crash
// follows: what is found then, by choices of what the crash leaves.
ghost use Rattle.control_file.specs.Wants.{IsWant};

use crate::calls::perform;
use crate::texts::{bytes_of, disk_of, shown_file};
use anyhow::{Context, Result, ensure};
use control_file::Want;
use dl_disk::{Disk, MemDisk};
use std::alloc::Global;

/// More calls than any of these downloads gets.
const CALLS: u64 = 200;

// What becomes of each change that a crash may lose: it is dropped, or kept, or its bytes are others.
const FATES: [u8; 3] = [0, 1, 122];

/// A download on a disk: what stands at first, its payload, and its steps.
#[derive(Drop)]
pub struct Life<'a> {
    alloc: Global,
    want: &'a Want,
    stands: &'a str,
    payload: Vec<u8>,
    steps: &'a str,
}

// What a crash left, how many steps were done before a call failed, and whether one failed.
#[derive(Drop)]
struct Left {
    disk: MemDisk,
    done: u32,
    is_cut: bool,
}

// What was found behind crashes, and what they left of a file: each once.
#[derive(Drop)]
struct Seen {
    found: Vec<String>,
    files: Vec<String>,
}

// The fates of four changes by a number below 81.
fn fates_of(alloc: Global, number: usize) -> Result<Vec<u8>> {
    let mut fates = Vec::new(alloc);
    let mut rest = number;
    for _ in 0..4 {
        fates.push(*FATES.get(rest % 3).context("a fate is wanted")?)?;
        rest /= 3;
    }
    Ok(fates)
}

// Adds a text that isn't there.
fn push_new(texts: &mut Vec<String>, text: String) -> Result<()> {
    if !texts.contains(&text) {
        texts.push(text)?;
    }
    Ok(())
}

fn joined(alloc: Global, texts: &[String]) -> Result<String> {
    let mut text = String::new(alloc);
    for one in texts {
        let line = if text.is_empty() { "" } else { "\n  " };
        write!(text, "{line}{}", one.as_str())?;
    }
    Ok(text)
}

impl<'a> Life<'a> {
    /// A download by a line: what was said of its payload, and its steps.
    pub fn new(alloc: Global, want: &'a Want, stands: &'a str, line: &'a str) -> Result<Life<'a>> {
        let (payload, steps) = line.split_once(' ').context("steps are wanted")?;
        Ok(Life {
            alloc,
            want,
            stands,
            payload: bytes_of(alloc, payload)?,
            steps,
        })
    }

    // A step of the download on a disk.
    fn step(&self, disk: &mut MemDisk, step: &str) -> Result<String> {
        ensure!(self.want.is_consistent(), "inconsistent");
        perform(self.alloc, disk, self.want, step, &self.payload)
    }

    // The steps up to the one in which a call fails: how many were done before.
    fn live(&self, disk: &mut MemDisk) -> Result<u32> {
        let mut done: u32 = 0;
        for step in self.steps.split(' ') {
            let _ = self.step(disk, step)?;
            if disk.faults() != 0 {
                break;
            }
            done = done.saturating_add(1);
        }
        Ok(done)
    }

    // What a crash leaves where the call of this number fails.
    fn left(&self, failing: u64, fates: &[u8]) -> Result<Left> {
        let mut numbers = Vec::new(self.alloc);
        numbers.push(failing)?;
        let mut disk = disk_of(self.alloc, self.stands, numbers)?;
        let done = self.live(&mut disk)?;
        let is_cut = disk.faults() != 0;
        let disk = disk.crash(self.alloc, fates)?.healed();
        Ok(Left { disk, done, is_cut })
    }

    // With what the download is opened on what a crash left, behind the steps that were done.
    fn found(&self, left: &mut Left) -> Result<String> {
        let found = self.step(&mut left.disk, "open")?;
        Ok(format!(in self.alloc; "{}: {found}", left.done)?)
    }

    // Adds what is left of a file where this call fails, and what is found then. It tells whether the call failed.
    fn push_left(&self, seen: &mut Seen, failing: u64, file: &str) -> Result<bool> {
        let choices = if self.payload.len() < 1000 { 81 } else { 9 };
        let mut is_cut = false;
        for choice in 0..choices {
            let mut left = self.left(failing, &fates_of(self.alloc, choice)?)?;
            is_cut = left.is_cut;
            push_new(&mut seen.files, shown_file(self.alloc, &left.disk, file)?)?;
            push_new(&mut seen.found, self.found(&mut left)?)?;
        }
        Ok(is_cut)
    }

    /// All that is found, and all that is left of a file, where any call fails.
    pub fn crashes(&self, file: &str) -> Result<String> {
        let mut seen = Seen {
            found: Vec::new(self.alloc),
            files: Vec::new(self.alloc),
        };
        for failing in 0..CALLS {
            if !self.push_left(&mut seen, failing, file)? {
                break;
            }
        }
        let found = joined(self.alloc, &seen.found)?;
        let files = joined(self.alloc, &seen.files)?;
        Ok(format!(in self.alloc; "{found}\n  {files}")?)
    }

    /// What comes of each step where no call fails.
    pub fn told(&self, disk: &mut MemDisk) -> Result<String> {
        let mut texts = Vec::new(self.alloc);
        for step in self.steps.split(' ') {
            texts.push(self.step(disk, step)?)?;
        }
        joined(self.alloc, &texts)
    }
}
