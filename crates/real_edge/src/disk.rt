// The real disk: names are paths, relative to the current folder.
ghost use Rattle.std.specs.Prelude.{false};
ghost use Rattle.dl_disk.specs.State.{no_disk};

use crate::faults::{NotedFaults, told};
use crate::files::RealFiles;
use dl_disk::Disk;
use dl_kinds::IoErr;
use fault_notes::{Noted, Notes};
use std::fs::{File, Files};

/// Real files. A call fails where the system's does; nothing is told of what they hold.
///
/// A file that the system couldn't write out once isn't trusted any more: each later `sync` of it fails, unless it was removed. A
/// folder that is to be made may stand already, left by a run that ended before it lasted: so each folder above it is written out
/// once, but for those that may not be read where nothing was made in them.
#[derive(Drop)]
pub struct FileDisk<'a, R: Files<File = File> + AllocGlobal> {
    files: RealFiles<'a, R>,
    faults: NotedFaults,
}

impl<'a, R: Files<File = File> + AllocGlobal> FileDisk<'a, R> {
    pub fn new(rt: &'a R) -> Self {
        FileDisk {
            files: RealFiles::new(rt),
            faults: NotedFaults::new(rt.alloc()),
        }
    }
}

impl<'a, R: Files<File = File> + AllocGlobal> Noted for FileDisk<'a, R> {
    fn notes(&self) -> &Notes {
        &self.faults.notes
    }
}

impl<'a, R: Files<File = File> + AllocGlobal> Disk for FileDisk<'a, R> {
    ghost tells = { false };

    ghost state = { λ _. no_disk };

    ghost faults = { λ disk. disk.faults.faults.count };

    fn faults(&self) -> u64 {
        self.faults.faults.count
    }

    fn len(&mut self, name: &str) -> Result<Option<u64>, IoErr> {
        let outcome = told(self.files.length(name));
        self.faults.note(name, outcome)
    }

    fn read_at(&mut self, name: &str, at: u64, into: &mut [u8]) -> Result<(), IoErr> {
        let outcome = told(self.files.read(name, at, into));
        self.faults.note(name, outcome)
    }

    fn write_at(&mut self, name: &str, at: u64, bytes: &[u8]) -> Result<(), IoErr> {
        let outcome = self.files.write(name, at, bytes);
        self.faults.note(name, outcome)
    }

    fn set_len(&mut self, name: &str, len: u64) -> Result<(), IoErr> {
        let outcome = self.files.resize(name, len);
        self.faults.note(name, outcome)
    }

    fn sync(&mut self, name: &str) -> Result<(), IoErr> {
        let outcome = self.files.sync(name);
        self.faults.note(name, outcome)
    }

    fn replace(&mut self, from: &str, to: &str) -> Result<(), IoErr> {
        let outcome = self.files.replace(from, to);
        self.faults.note(to, outcome)
    }

    fn remove(&mut self, name: &str) -> Result<(), IoErr> {
        let outcome = self.files.remove(name);
        self.faults.note(name, outcome)
    }

    fn make_dir(&mut self, name: &str) -> Result<(), IoErr> {
        let outcome = self.files.make_folders(name);
        self.faults.note(name, outcome)
    }
}
