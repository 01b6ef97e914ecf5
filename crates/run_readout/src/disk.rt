// A disk whose files show how far a run has come.
use crate::Progress;
use crate::listed::listed_in;
use control_file::{CONTROL_SUFFIX, TEMPORARY_SUFFIX};
use dl_disk::Disk;
use dl_kinds::IoErr;
use fault_notes::{Noted, Notes};
use std::alloc::Global;

/// A disk that shows what is written into payload files, and what control files list.
pub struct WatchedDisk<'a, D: Disk> {
    inner: D,
    alloc: Global,
    progress: &'a Progress,
}

impl<'a, D: Disk> WatchedDisk<'a, D> {
    pub fn new(alloc: Global, inner: D, progress: &'a Progress) -> Self {
        WatchedDisk {
            inner,
            alloc,
            progress,
        }
    }

    // The front of a control file, or of one that takes its place.
    fn note_control(&self, at: u64, bytes: &[u8]) {
        if at == 0 {
            if let Some((listed, total)) = listed_in(self.alloc, bytes) {
                self.progress.list(listed, total);
            }
        }
    }
}

impl<'a, D: Disk + Drop> Drop for WatchedDisk<'a, D> {
    fn drop(self) {
        let WatchedDisk {
            inner: _inner,
            alloc: _,
            progress: _,
        } = self;
    }
}

impl<'a, D: Disk + Noted> Noted for WatchedDisk<'a, D> {
    fn notes(&self) -> &Notes {
        self.inner.notes()
    }
}

fn is_control(name: &str) -> bool {
    name.ends_with(CONTROL_SUFFIX) || name.ends_with(TEMPORARY_SUFFIX)
}

impl<'a, D: Disk> Disk for WatchedDisk<'a, D> {
    ghost tells = { D.tells };

    ghost state = { λ disk. D.state disk.inner };

    ghost faults = { λ disk. D.faults disk.inner };

    fn faults(&self) -> u64 {
        self.inner.faults()
    }

    fn len(&mut self, name: &str) -> Result<Option<u64>, IoErr> {
        self.inner.len(name)
    }

    fn read_at(&mut self, name: &str, at: u64, into: &mut [u8]) -> Result<(), IoErr> {
        let outcome = self.inner.read_at(name, at, into);
        if outcome.is_ok() && is_control(name) {
            self.note_control(at, into);
        }
        outcome
    }

    fn write_at(&mut self, name: &str, at: u64, bytes: &[u8]) -> Result<(), IoErr> {
        let outcome = self.inner.write_at(name, at, bytes);
        if outcome.is_ok() {
            if is_control(name) {
                self.note_control(at, bytes);
            } else {
                self.progress.write(bytes.len() as u64);
            }
        }
        outcome
    }

    fn set_len(&mut self, name: &str, len: u64) -> Result<(), IoErr> {
        self.inner.set_len(name, len)
    }

    fn sync(&mut self, name: &str) -> Result<(), IoErr> {
        self.inner.sync(name)
    }

    fn replace(&mut self, from: &str, to: &str) -> Result<(), IoErr> {
        self.inner.replace(from, to)
    }

    fn remove(&mut self, name: &str) -> Result<(), IoErr> {
        self.inner.remove(name)
    }

    fn make_dir(&mut self, name: &str) -> Result<(), IoErr> {
        self.inner.make_dir(name)
    }
}
