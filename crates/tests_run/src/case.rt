// A case: a run of the worked example, or of what differs from it, and what is wanted of it. A case is written in one
// line, as items that ` ; ` separates.
ghost use Rattle.std.specs.Prelude.{◌<◌, ◌≤◌};

use crate::link::TestLink;
use crate::mirrors_of::{bad_of, mirror_of};
use crate::outcome::Outcome;
use crate::spelling::{content, spelled};
use dl_clock::MemClock;
use dl_disk::MemDisk;
use dl_kinds::{Blob, MemSink, NoMemory, Text};
use link_source::{Bad, MemLinks, MemMirror};
use solo_run::{Finished, run_alone};
use std::alloc::Global;
use std::process::Abort;
use std::test::Fail;

/// A metainfo file of 115 bytes.
pub const METAINFO: &str =
    "d4:infod6:lengthi5e4:name1:a12:piece lengthi16384e6:pieces20:$e8:url-list19:http://m.test/a.bine";

/// The mirror of the worked example.
const MIRROR: &str = "m.test 80 Ranges /a.bin=hello";

/// What a run finds.
#[derive(Drop)]
pub struct Case {
    alloc: Global,
    pub words: Vec<String>,
    /// What stands at `t.torrent`, before it is spelled out.
    pub metainfo: String,
    /// What else stands on the disk. There is a file `other` too, which holds `other`.
    files: Vec<(Text, Blob)>,
    gids: u64,
    /// The numbers of the calls that fail.
    pub disk_faults: Vec<u64>,
    pub sink_faults: Vec<u64>,
    pub link_faults: Vec<u64>,
    /// Where there is none, it is that of the worked example.
    mirrors: Vec<MemMirror>,
    bad: Vec<Bad>,
    /// How many bytes the link gives at once.
    pub cut: u32,
    /// By how much the clock goes on each time that it is asked, in milliseconds.
    step: u64,
}

// The words of a command line, between which a comma stands.
fn words_of(alloc: Global, text: &str) -> Result<Vec<String>, NoMemory> {
    let mut words = Vec::new(alloc);
    for word in text.split(',') {
        words.push(String::from_str(alloc, word)?)?;
    }
    Ok(words)
}

// The name of a file, and what it holds.
fn file_of(alloc: Global, text: &str) -> Result<(Text, Blob), Fail> {
    let (name, bytes) = text.split_once('=').ok_or("no bytes")?;
    Ok((Text::of(alloc, name)?, Blob::wrap(content(alloc, bytes)?)))
}

// The name of a file, and what it holds in hexadecimal digits.
fn coded_file_of(alloc: Global, text: &str) -> Result<(Text, Blob), Fail> {
    let (name, digits) = text.split_once('=').ok_or("no digits")?;
    Ok((
        Text::of(alloc, name)?,
        Blob::wrap(hex::decode(alloc, digits)?),
    ))
}

// A text with another one in the place of a part of it, between which an arrow stands.
fn swapped(alloc: Global, text: &str, swap: &str) -> Result<String, Fail> {
    let (old, new) = swap.split_once(" -> ").ok_or("no arrow")?;
    let (before, behind) = text.split_once(old).ok_or("no such part")?;
    Ok(format!(in alloc; "{before}{new}{behind}")?)
}

// A link to these mirrors, or where there is none to that of the worked example.
fn link_to(
    alloc: Global,
    mirrors: Vec<MemMirror>,
    bad: Vec<Bad>,
    cut: u32,
    faults: Vec<u64>,
) -> Result<TestLink, Fail> {
    let mut mirrors = mirrors;
    if mirrors.is_empty() {
        mirrors.push(mirror_of(alloc, MIRROR)?)?;
    }
    let link = MemLinks::new(alloc, mirrors, bad, cut.max(1), faults)?;
    Ok(TestLink::new(alloc, link))
}

// A link to the mirror of the worked example, which isn't to be used.
fn spare_link(alloc: Global) -> Result<TestLink, Fail> {
    let none = Vec::new(alloc);
    link_to(alloc, Vec::new(alloc), Vec::new(alloc), 1, none)
}

impl Case {
    /// The worked example.
    pub fn worked(alloc: Global) -> Result<Self, NoMemory> {
        Ok(Case {
            alloc,
            words: words_of(alloc, "t.torrent")?,
            metainfo: String::from_str(alloc, METAINFO)?,
            files: Vec::new(alloc),
            gids: 1,
            disk_faults: Vec::new(alloc),
            sink_faults: Vec::new(alloc),
            link_faults: Vec::new(alloc),
            mirrors: Vec::new(alloc),
            bad: Vec::new(alloc),
            cut: 65_536,
            step: 0,
        })
    }

    /// The case that these items tell of.
    pub fn of(alloc: Global, items: &str) -> Result<Self, Fail> {
        let mut case = Case::worked(alloc)?;
        for item in items.split(" ; ") {
            let (key, value) = item.split_once(' ').unwrap_or((item, ""));
            case.set(key, value)?;
        }
        Ok(case)
    }

    fn set(&mut self, key: &str, value: &str) -> Result<(), Fail> {
        let alloc = self.alloc;
        match key {
            "no-words" => self.words = Vec::new(alloc),
            "words" => self.words = words_of(alloc, value)?,
            "metainfo" => self.metainfo = String::from_str(alloc, value)?,
            "swap" => self.metainfo = swapped(alloc, &self.metainfo, value)?,
            "holds" => self.files.push(file_of(alloc, value)?)?,
            "codes" => self.files.push(coded_file_of(alloc, value)?)?,
            "gids" => self.gids = value.parse::<u64>()?,
            "disk" => self.disk_faults.push(value.parse::<u64>()?)?,
            "sink" => self.sink_faults.push(value.parse::<u64>()?)?,
            "link" => self.link_faults.push(value.parse::<u64>()?)?,
            "mirror" => self.mirrors.push(mirror_of(alloc, value)?)?,
            "bad" => self.bad.push(bad_of(value)?)?,
            "cut" => self.cut = value.parse::<u32>()?,
            "clock" => self.step = value.parse::<u64>()?,
            ""
            | "status"
            | "error"
            | "shows"
            | "heading"
            | "silent"
            | "file"
            | "control"
            | "none"
            | "dials"
            | "sends"
            | "gets"
            | "asks" => {}
            _ => return Err("an unknown item")?,
        }
        Ok(())
    }

    /// The disk, as it is before the run.
    pub fn disk(&self) -> Result<MemDisk, Fail> {
        let alloc = self.alloc;
        let mut files = Vec::new(alloc);
        for (name, bytes) in &self.files {
            files.push((name.copy(alloc)?, bytes.copy(alloc)?))?;
        }
        let metainfo = spelled(alloc, &self.metainfo)?;
        files.push((Text::of(alloc, "t.torrent")?, Blob::wrap(metainfo)))?;
        files.push((Text::of(alloc, "other")?, Blob::of(alloc, b"other")?))?;
        Ok(MemDisk::new(alloc, files, self.disk_faults.clone()?)?)
    }

    /// Runs on this disk, over the link, with another one behind it, and with a door.
    pub fn run_on(self, disk: MemDisk) -> Result<Outcome, Fail> {
        let Case {
            alloc,
            words,
            gids,
            sink_faults,
            link_faults,
            mirrors,
            bad,
            cut,
            step,
            ..
        } = self;
        let mut links = Vec::new(alloc);
        let link = link_to(alloc, mirrors, bad, cut, link_faults)?;
        links.push((link, MemClock::new(0, step)))?;
        links.push((spare_link(alloc)?, MemClock::new(0, 0)))?;
        let mut doors = Vec::new(alloc);
        doors.push((7, MemClock::new(0, 0)))?;
        let mut out = MemSink::new(alloc, sink_faults);
        let Finished {
            ending,
            disk,
            links,
            doors,
            journal,
        } = run_alone(alloc, &words, disk, links, doors, gids, &mut out);
        Ok(Outcome {
            status: ending.code(),
            shown: out.bytes().to_vec(alloc)?,
            disk,
            links,
            doors,
            journal,
        })
    }

    /// Runs on the disk of the case.
    pub fn run(self) -> Result<Outcome, Fail> {
        let disk = self.disk()?;
        self.run_on(disk)
    }
}

/// Runs a case, and asserts what it wants.
pub fn check(rt: &impl Abort, alloc: Global, items: &str) -> Result<(), Fail> {
    Case::of(alloc, items)?.run()?.check(rt, alloc, items)
}

/// Checks the case of each line, with these items behind it.
pub fn check_all(rt: &impl Abort, alloc: Global, lines: &str, with: &str) -> Result<(), Fail> {
    for line in lines.lines() {
        check(rt, alloc, &format!(in alloc; "{line} ; {with}")?)?;
    }
    Ok(())
}
