// A disk of which no call is a fault.
ghost use Rattle.std.specs.Prelude.{◌≡◌, []};
ghost use Rattle.dl_disk.specs.MemDisk.{failing_calls};

use dl_disk::{Disk, MemDisk};
use dl_kinds::{Blob, IoErr, Text};
use std::alloc::{AllocError, Global};

/// A disk in memory. A call that can't be done isn't made, and is answered with want of memory, so that none is a fault.
#[derive(Debug, Drop)]
pub struct SoundDisk {
    disk: MemDisk,
    ghost sound: { failing_calls disk ≡ [] },
}

impl SoundDisk {
    ghost use Rattle.std.specs.Prelude.{IfOk, option_copied};
    ghost use Rattle.dl_disk.specs.Contents.{files_listed};
    ghost use Rattle.dl_disk.specs.MemDisk.{IsFresh};
    ghost use Rattle.dl_disk.specs.Record.{reaches};
    ghost use Rattle.load_setup.specs.Sound.{inner_disk, sound_reading};

    /// A disk with these files.
    pub fn new(alloc: Global, files: Vec<(Text, Blob)>) -> Result<Self, AllocError>
        ensures { IfOk result (λ disk. IsFresh (files_listed files.items) (inner_disk disk)) }
    {
        Ok(SoundDisk {
            disk: MemDisk::new(alloc, files, Vec::new(alloc))?,
        })
    }

    /// The bytes of a file as it is now.
    pub fn file(&self, name: &str) -> Option<&[u8]>
        ensures { option_copied result ≡ sound_reading self.now name.now }
    {
        self.disk.file(name)
    }

    // Whether a file has so many bytes from this place on.
    fn reaches(&self, name: &str, at: u64, len: u64) -> bool
        ensures { result ≡ reaches (sound_reading self.now name.now) at len }
    {
        match self.file(name) {
            Some(bytes) => at <= bytes.len() as u64 && len <= bytes.len() as u64 - at,
            None => false,
        }
    }
}

impl Disk for SoundDisk {
    ghost use Rattle.std.specs.Prelude.{true};
    ghost use Rattle.load_setup.specs.Sound.{sound_disk_state};

    ghost tells = { true };

    ghost state = { sound_disk_state };

    ghost faults = { λ disk. 0 };

    fn faults(&self) -> u64 {
        0
    }

    fn len(&mut self, name: &str) -> Result<Option<u64>, IoErr> {
        self.disk.len(name)
    }

    fn read_at(&mut self, name: &str, at: u64, into: &mut [u8]) -> Result<(), IoErr> {
        if !self.reaches(name, at, into.len() as u64) {
            return Err(IoErr::NoMemory);
        }
        self.disk.read_at(name, at, into)
    }

    fn write_at(&mut self, name: &str, at: u64, bytes: &[u8]) -> Result<(), IoErr> {
        if at > u64::MAX - bytes.len() as u64 {
            return Err(IoErr::NoMemory);
        }
        self.disk.write_at(name, at, bytes)
    }

    fn set_len(&mut self, name: &str, len: u64) -> Result<(), IoErr> {
        self.disk.set_len(name, len)
    }

    fn sync(&mut self, name: &str) -> Result<(), IoErr> {
        self.disk.sync(name)
    }

    fn replace(&mut self, from: &str, to: &str) -> Result<(), IoErr> {
        if self.file(from).is_none() {
            return Err(IoErr::NoMemory);
        }
        self.disk.replace(from, to)
    }

    fn remove(&mut self, name: &str) -> Result<(), IoErr> {
        if self.file(name).is_none() {
            return Err(IoErr::NoMemory);
        }
        self.disk.remove(name)
    }

    fn make_dir(&mut self, name: &str) -> Result<(), IoErr> {
        self.disk.make_dir(name)
    }
}
