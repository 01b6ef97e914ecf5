// Files that are being read.
use std::alloc::Global;
use std::collections::BTreeMap;
use std::fs::{File, Files, Metadata};
use std::io;
use std::os::unix::fs::{FileExt, MetadataExt};

// Where so many are open, another one takes the place of them all.
const MOST_OPEN: usize = 8;

// Tells a file from all others, and from what it was before it changed: a file that is open keeps its number.
#[derive(Clone, Copy)]
struct Mark {
    device: u64,
    number: u64,
    seconds: i64,
    nanoseconds: i64,
}

fn mark_of(about: &Metadata) -> Mark {
    Mark {
        device: about.dev(),
        number: about.ino(),
        seconds: about.ctime(),
        nanoseconds: about.ctime_nsec(),
    }
}

fn is_same(one: &Mark, other: &Mark) -> bool {
    one.device == other.device
        && one.number == other.number
        && one.seconds == other.seconds
        && one.nanoseconds == other.nanoseconds
}

// A file, and what it was when it was opened.
#[derive(Drop)]
struct Open {
    file: File,
    mark: Mark,
    len: u64,
}

/// Files that were read, but not up to their ends, by their names. Memory that is wanting leaves one out.
#[derive(Drop)]
pub struct Opened {
    alloc: Global,
    files: BTreeMap<String, Open>,
}

// Whether these bytes reach the end of a file of this length.
fn reaches_end(at: u64, bytes: &[u8], len: u64) -> bool {
    at.saturating_add(bytes.len() as u64) >= len
}

impl Opened {
    pub fn new(alloc: Global) -> Self {
        Opened {
            alloc,
            files: BTreeMap::new(alloc),
        }
    }

    fn forget(&mut self, name: &str) {
        self.files.remove(name);
    }

    // Whether the file of this name is open, and isn't that of which this tells, or changed since it was opened.
    fn is_stale(&self, name: &str, about: &Metadata) -> bool {
        match self.files.get(name) {
            Some(open) => !is_same(&open.mark, &mark_of(about)),
            None => false,
        }
    }

    /// The length of the file of this name, as it was found now. A file that is open by this name, and isn't the one that was
    /// found, is let go of.
    pub fn length(
        &mut self,
        name: &str,
        found: io::Result<Option<Metadata>>,
    ) -> io::Result<Option<u64>> {
        match found {
            Ok(Some(about)) => {
                if self.is_stale(name, &about) {
                    self.forget(name);
                }
                Ok(Some(about.len()))
            }
            Ok(None) => {
                self.forget(name);
                Ok(None)
            }
            Err(e) => {
                self.forget(name);
                Err(e)
            }
        }
    }

    /// Reads of the file that is open by this name, or else is opened now. It stays open where more of it may be read.
    pub fn read<R: Files<File = File>>(
        &mut self,
        rt: &R,
        name: &str,
        at: u64,
        into: &mut [u8],
    ) -> io::Result<()> {
        match self.files.get(name) {
            Some(open) => {
                let is_last = reaches_end(at, into, open.len);
                let outcome = open.file.read_exact_at(into, at);
                if is_last || outcome.is_err() {
                    self.forget(name);
                }
                outcome
            }
            None => self.read_first(name, File::open(rt, name)?, at, into),
        }
    }

    fn read_first(&mut self, name: &str, file: File, at: u64, into: &mut [u8]) -> io::Result<()> {
        file.read_exact_at(into, at)?;
        let about = file.metadata()?;
        if !reaches_end(at, into, about.len()) {
            self.keep(
                name,
                Open {
                    file,
                    mark: mark_of(&about),
                    len: about.len(),
                },
            );
        }
        Ok(())
    }

    fn keep(&mut self, name: &str, open: Open) {
        if self.files.len() >= MOST_OPEN {
            self.files.clear();
        }
        if let Ok(name) = String::from_str(self.alloc, name) {
            let _outcome = self.files.insert(name, open);
        }
    }
}
