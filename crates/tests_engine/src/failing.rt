// Runs on disks of which calls fail.
use crate::disks::{disk_of, fates_of, shown_file};
use crate::journals::{count_lost, end_of, ends_last};
use crate::lines::{Course, Past};
use crate::payloads::Payloads;
use crate::shown::shown_end;
use anyhow::{Context, Result};
use dl_disk::{Disk, MemDisk};
use dl_kinds::Gid;
use machine_core::Journal;
use std::alloc::Global;

/// What is told first of a run of which a call of the disk failed.
const FAULT: &str = "a fault";

/// What is done on such disks, as the lines of the cases have it.
#[derive(Drop)]
pub struct Script {
    pub alloc: Global,
    /// What stands on the disk, and the options of the runs.
    pub stands: String,
    pub options: String,
    /// The operations of the run, those of the run behind it, and the payload of each download.
    pub lines: String,
    pub again: String,
    pub names: String,
}

// Which calls of the disk fail, by turns: so many from each number on.
#[derive(Drop)]
struct Faults<'a> {
    first: u64,
    end: u64,
    span: u64,
    // What a crash leaves then, where one comes.
    fates: &'a str,
}

fn faults_of(words: &str) -> Result<Faults<'_>> {
    let (first, rest) = words.split_once("..").context("a range is wanted")?;
    let (end, rest) = rest.split_once(' ').context("a number of calls is wanted")?;
    let (span, fates) = rest.split_once(' ').unwrap_or((rest, ""));
    Ok(Faults {
        first: first.parse::<u64>()?,
        end: end.parse::<u64>()?,
        span: span.parse::<u64>()?,
        fates,
    })
}

// Adds the way in which a run came out, if it is another one. It is false where no call failed, as in all runs behind it.
fn push_new(texts: &mut Vec<String>, text: String) -> Result<bool> {
    let is_failed = text.as_str().starts_with(FAULT);
    if !texts.contains(&text) {
        texts.push(text)?;
    }
    Ok(is_failed)
}

fn joined(alloc: Global, texts: &[String]) -> Result<String> {
    let mut text = String::new(alloc);
    for one in texts {
        let line = if text.is_empty() { "" } else { "\n  " };
        write!(text, "{line}{}", one.as_str())?;
    }
    Ok(text)
}

impl Script {
    /// Nothing stands, and nothing is done.
    pub fn new(alloc: Global) -> Script {
        Script {
            alloc,
            stands: String::new(alloc),
            options: String::new(alloc),
            lines: String::new(alloc),
            again: String::new(alloc),
            names: String::new(alloc),
        }
    }

    // A run of the first of these operations on a disk.
    fn run(&self, payloads: &Payloads, disk: MemDisk, lines: &str, count: usize) -> Result<Past> {
        let mut course = Course::new(self.alloc, self.options.as_str(), disk)?;
        for line in lines.split("; ").take(count) {
            let _ = course.told(payloads, line)?;
        }
        Ok(course.into_past())
    }

    // The run, where so many calls of the disk fail from one on.
    fn run_failing(&self, payloads: &Payloads, from: u64, span: u64, count: usize) -> Result<Past> {
        let mut failing = Vec::new(self.alloc);
        for call in from..from.saturating_add(span) {
            failing.push(call)?;
        }
        let disk = disk_of(self.alloc, self.stands.as_str(), failing)?;
        self.run(payloads, disk, self.lines.as_str(), count)
    }

    // How a download stands: its end, where it has one, and if it is complete its payload and its control file.
    fn shown_download(&self, past: &Past, gid: Gid, name: &str) -> Result<String> {
        let Some(end) = end_of(&past.journal, gid) else {
            return Ok(format!(in self.alloc; "{name} goes on")?);
        };
        let end = shown_end(self.alloc, &end)?;
        if end.as_str() != "complete" {
            return Ok(format!(in self.alloc; "{name} {end}")?);
        }
        let payload = shown_file(self.alloc, &past.disk, name)?;
        let control = format!(in self.alloc; "{name}.aria2")?;
        let control = shown_file(self.alloc, &past.disk, control.as_str())?;
        Ok(format!(in self.alloc; "{name} complete {payload} {control}")?)
    }

    // How the downloads of a run stand.
    fn shown_downloads(&self, past: &Past) -> Result<String> {
        let mut text = String::new(self.alloc);
        for (name, gid) in self.names.split(' ').zip(past.gids.iter()) {
            let comma = if text.is_empty() { "" } else { ", " };
            let download = self.shown_download(past, *gid, name)?;
            write!(text, "{comma}{download}")?;
        }
        Ok(text)
    }

    // How a run came out: whether a call of the disk failed, how its downloads stand, and whether its last event is an
    // end.
    fn shown_past(&self, past: &Past) -> Result<String> {
        let fault = if past.disk.faults() == 0 {
            "no fault"
        } else {
            FAULT
        };
        let last = if ends_last(&past.journal) {
            ", at its end"
        } else {
            ""
        };
        let downloads = self.shown_downloads(past)?;
        Ok(format!(in self.alloc; "{fault}: {downloads}{last}")?)
    }

    // How many blocks that were saved in a run weren't there in the next one.
    fn lost(&self, before: &Journal, gids: &[Gid], after: &Journal) -> Result<usize> {
        let mut lost: usize = 0;
        for gid in gids {
            let count = count_lost(self.alloc, before, after, *gid)?;
            lost = lost.saturating_add(count);
        }
        Ok(lost)
    }

    // What becomes of the run where calls fail, and of the one behind it, of which no call fails.
    fn outcome(&self, payloads: &Payloads, from: u64, faults: &Faults<'_>) -> Result<String> {
        let before = self.run_failing(payloads, from, faults.span, usize::MAX)?;
        let text = self.shown_past(&before)?;
        let Past {
            disk,
            journal,
            gids,
        } = before;
        let left = if faults.fates.is_empty() {
            disk
        } else {
            disk.crash(self.alloc, &fates_of(self.alloc, faults.fates)?)?
        };
        let after = self.run(payloads, left.healed(), self.again.as_str(), usize::MAX)?;
        let lost = self.lost(&journal, &gids, &after.journal)?;
        let again = self.shown_downloads(&after)?;
        Ok(format!(in self.alloc; "{text}; again {again}, {lost} lost")?)
    }

    /// The ways in which runs come out, where calls of the disk fail by turns.
    pub fn outcomes(&self, payloads: &Payloads, words: &str) -> Result<String> {
        let faults = faults_of(words)?;
        let mut texts = Vec::new(self.alloc);
        for from in faults.first..faults.end {
            if !push_new(&mut texts, self.outcome(payloads, from, &faults)?)? {
                break;
            }
        }
        joined(self.alloc, &texts)
    }

    /// Whether the disk gets so many calls in the run.
    pub fn calls(&self, payloads: &Payloads, words: &str) -> Result<String> {
        let last = words.parse::<u64>()?.saturating_sub(1);
        let past = self.run_failing(payloads, last, 1, usize::MAX)?;
        let calls = if past.disk.faults() == 0 {
            "fewer"
        } else {
            "so many and more"
        };
        Ok(String::from_str(self.alloc, calls)?)
    }

    // How the run stands behind so many of its operations, where calls of the disk fail by turns.
    fn turn(&self, payloads: &Payloads, faults: &Faults<'_>, count: usize) -> Result<String> {
        let mut texts = Vec::new(self.alloc);
        for from in faults.first..faults.end {
            let past = self.run_failing(payloads, from, faults.span, count)?;
            if !push_new(&mut texts, self.shown_past(&past)?)? {
                break;
            }
        }
        joined(self.alloc, &texts)
    }

    /// How the run stands behind each of its operations, where calls of the disk fail by turns.
    pub fn turns(&self, payloads: &Payloads, words: &str) -> Result<String> {
        let faults = faults_of(words)?;
        let mut text = String::new(self.alloc);
        let mut count: usize = 0;
        for line in self.lines.split("; ") {
            count = count.saturating_add(1);
            let turn = self.turn(payloads, &faults, count)?;
            let end = if count == 1 { "" } else { "\n  " };
            write!(text, "{end}{line}\n  {turn}")?;
        }
        Ok(text)
    }
}
