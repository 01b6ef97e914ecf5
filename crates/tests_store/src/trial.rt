// Lines of cases, each carried out behind the lines before it.
use crate::calls::perform;
use crate::controls;
use crate::lives::Life;
use crate::texts::{disk_of, shown_file, want_of};
use anyhow::{Context, Result, bail};
use control_file::Want;
use dl_disk::MemDisk;
use std::alloc::Global;

/// A download that lines go on with, and its disk.
#[derive(Drop)]
pub struct Trial {
    alloc: Global,
    want: Option<Want>,
    // What stands on the disk at first, and the disk.
    stands: String,
    disk: MemDisk,
    // What it brings, and its steps.
    steps: String,
}

impl Trial {
    /// Before the first line.
    pub fn new(alloc: Global) -> Result<Trial> {
        Ok(Trial {
            alloc,
            want: None,
            stands: String::new(alloc),
            disk: disk_of(alloc, "", Vec::new(alloc))?,
            steps: String::new(alloc),
        })
    }

    fn stand(&mut self, words: &str) -> Result<()> {
        self.disk = disk_of(self.alloc, words, Vec::new(self.alloc))?;
        self.stands = String::from_str(self.alloc, words)?;
        Ok(())
    }

    // What the disk reads of files.
    fn files(&self, names: &str) -> Result<String> {
        let mut text = String::new(self.alloc);
        for name in names.split(' ') {
            let line = if text.is_empty() { "" } else { "\n  " };
            let content = shown_file(self.alloc, &self.disk, name)?;
            write!(text, "{line}{name} {content}")?;
        }
        Ok(text)
    }

    // Opens the download.
    fn open(&mut self, word: &str) -> Result<String> {
        let want = self.want.as_ref().context("a want is wanted")?;
        if !want.is_consistent() {
            return Ok(String::from_str(self.alloc, "inconsistent")?);
        }
        perform(self.alloc, &mut self.disk, want, word, &[])
    }

    // What comes of the steps of the download.
    fn live(&mut self, word: &str, rest: &str) -> Result<String> {
        let want = self.want.as_ref().context("a want is wanted")?;
        let life = Life::new(self.alloc, want, self.stands.as_str(), self.steps.as_str())?;
        match word {
            "do" => life.told(&mut self.disk),
            "crashes" => life.crashes(rest),
            _ => bail!("no line of a case: {word}"),
        }
    }

    // What comes of a line that asks something.
    fn ask(&mut self, word: &str, rest: &str) -> Result<String> {
        if let Some(told) = controls::told(self.alloc, word, rest)? {
            return Ok(told);
        }
        match word {
            "open" | "check" => self.open(word),
            "files" => self.files(rest),
            _ => self.live(word, rest),
        }
    }

    /// What comes of a line, if it asks something.
    pub fn told(&mut self, line: &str) -> Result<Option<String>> {
        if line.is_empty() || line.starts_with('#') {
            return Ok(None);
        }
        let (word, rest) = line.split_once(' ').unwrap_or((line, ""));
        match word {
            "want" => self.want = Some(want_of(self.alloc, rest)?),
            "disk" => self.stand(rest)?,
            "steps" => self.steps = String::from_str(self.alloc, rest)?,
            _ => return Ok(Some(self.ask(word, rest)?)),
        }
        Ok(None)
    }
}
