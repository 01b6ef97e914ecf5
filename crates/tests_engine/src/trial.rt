// Lines of cases, each carried out behind the lines before it.
use crate::disks::{disk_of, fates_of, shown_file};
use crate::failing::Script;
use crate::lines::Course;
use crate::payloads::Payloads;
use crate::shown::shown_journal;
use anyhow::Result;
use dl_disk::MemDisk;
use std::alloc::Global;
use std::mem::replace;

/// A run that lines go on with, and what the runs before it left.
#[derive(Drop)]
pub struct Trial {
    alloc: Global,
    payloads: Payloads,
    course: Course,
    // The disk of the next run.
    disk: MemDisk,
    script: Script,
}

fn empty_disk(alloc: Global) -> Result<MemDisk> {
    disk_of(alloc, "", Vec::new(alloc))
}

impl Trial {
    /// Before the first line.
    pub fn new(alloc: Global) -> Result<Trial> {
        Ok(Trial {
            alloc,
            payloads: Payloads::new(alloc),
            course: Course::new(alloc, "", empty_disk(alloc)?)?,
            disk: empty_disk(alloc)?,
            script: Script::new(alloc),
        })
    }

    fn text(&self, words: &str) -> Result<String> {
        Ok(String::from_str(self.alloc, words)?)
    }

    // These files stand on the disk of the next run.
    fn stand(&mut self, words: &str) -> Result<()> {
        self.disk = disk_of(self.alloc, words, Vec::new(self.alloc))?;
        self.script.stands = self.text(words)?;
        Ok(())
    }

    // Another run begins on the disk as it is.
    fn begin(&mut self, words: &str) -> Result<()> {
        let next = empty_disk(self.alloc)?;
        let disk = replace(&mut self.disk, next);
        self.course = Course::new(self.alloc, words, disk)?;
        self.script.options = self.text(words)?;
        Ok(())
    }

    // The run ends, and its disk is that of the next one.
    fn end(&mut self) -> Result<String> {
        let next = Course::new(self.alloc, "", empty_disk(self.alloc)?)?;
        let past = replace(&mut self.course, next).into_past();
        self.disk = past.disk;
        shown_journal(self.alloc, &past.journal)
    }

    // A crash leaves this of the disk.
    fn crash(&mut self, words: &str) -> Result<()> {
        let next = empty_disk(self.alloc)?;
        let disk = replace(&mut self.disk, next);
        self.disk = disk.crash(self.alloc, &fates_of(self.alloc, words)?)?;
        Ok(())
    }

    // What the disk reads of files.
    fn files(&self, names: &str) -> Result<String> {
        let mut text = String::new(self.alloc);
        for name in names.split(' ') {
            let line = if text.is_empty() { "" } else { "\n  " };
            let content = shown_file(self.alloc, &self.disk, name)?;
            write!(text, "{line}{name} {content}")?;
        }
        Ok(text)
    }

    // Sets what later lines need; false for a line that asks something.
    fn set(&mut self, word: &str, rest: &str) -> Result<bool> {
        match word {
            "metainfo" => self.payloads.add_metainfo(rest)?,
            "mirror" => self.payloads.add_mirrored(rest)?,
            "disk" => self.stand(rest)?,
            "run" => self.begin(rest)?,
            "crash" => self.crash(rest)?,
            "do" => self.script.lines = self.text(rest)?,
            "again" => self.script.again = self.text(rest)?,
            "payloads" => self.script.names = self.text(rest)?,
            _ => return Ok(false),
        }
        Ok(true)
    }

    /// What comes of a line, if it asks something.
    pub fn told(&mut self, line: &str) -> Result<Option<String>> {
        if line.is_empty() || line.starts_with('#') {
            return Ok(None);
        }
        let (line, _) = line.split_once(" -> ").unwrap_or((line, ""));
        let (word, rest) = line.split_once(' ').unwrap_or((line, ""));
        if self.set(word, rest)? {
            return Ok(None);
        }
        Ok(Some(match word {
            "end" => self.end()?,
            "files" => self.files(rest)?,
            "turns" => self.script.turns(&self.payloads, rest)?,
            "calls" => self.script.calls(&self.payloads, rest)?,
            "fails" => self.script.outcomes(&self.payloads, rest)?,
            _ => self.course.told(&self.payloads, line)?,
        }))
    }
}
