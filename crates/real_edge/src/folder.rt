// A folder whose files are served, and the disk of a run, which is such a folder or all of the system's files.
ghost use Rattle.dl_disk.specs.State.{no_disk};
ghost use Rattle.dl_kinds.specs.Causes.{HasCause};
ghost use Rattle.real_edge.specs.Edges.{edge_faults};
ghost use Rattle.std.specs.Prelude.{false};

use crate::disk::FileDisk;
use crate::faults::{NotedFaults, told};
use crate::opened::Opened;
use dl_disk::Disk;
use dl_kinds::IoErr;
use fault_notes::{Noted, Notes};
use std::fs::{File, Files};
use std::io::ErrorKind;
use std::path::Path;
use std::{fs, io};

/// The files below a folder, to be read alone. There is no file but a plain one at a name, and none where a part of the name
/// below the folder is a symbolic link, so that no link leads out of it.
///
/// A file that was read, but not up to its end, stays open. It is read further where the last look at its length found that
/// very file, unchanged; else it is opened anew.
#[derive(Drop)]
pub struct FolderDisk<'a, R: Files<File = File> + AllocGlobal> {
    rt: &'a R,
    // So many bytes stand before the part below the folder in each name.
    root: usize,
    opened: Opened,
    faults: NotedFaults,
}

impl<'a, R: Files<File = File> + AllocGlobal> FolderDisk<'a, R> {
    /// Those below this folder, where names begin with it and a slash, or with neither for `.`.
    pub fn new(rt: &'a R, dir: &str) -> Self {
        FolderDisk {
            rt,
            root: if dir == "." { 0 } else { dir.len() },
            opened: Opened::new(rt.alloc()),
            faults: NotedFaults::new(rt.alloc()),
        }
    }

    // A link isn't followed, and a pipe isn't opened.
    fn look_at(&self, path: &str) -> io::Result<Option<fs::Metadata>> {
        match fs::symlink_metadata(self.rt, path) {
            Ok(about) => Ok(Some(about)),
            Err(e) => match e.kind() {
                // A name that is too long, or below a file, names none.
                ErrorKind::NotFound | ErrorKind::NotADirectory | ErrorKind::InvalidFilename => {
                    Ok(None)
                }
                _ => Err(e),
            },
        }
    }

    fn is_folder(&self, path: &str) -> io::Result<bool> {
        match self.look_at(path)? {
            Some(about) => Ok(about.is_dir()),
            None => Ok(false),
        }
    }

    // Whether each part of the name below the folder that another part follows is a folder, and no link to one.
    fn is_in_folders(&self, name: &str) -> io::Result<bool> {
        for above in Path::new(name).ancestors().skip(1) {
            if above.as_str().len() <= self.root {
                return Ok(true);
            }
            if !self.is_folder(above.as_str())? {
                return Ok(false);
            }
        }
        Ok(true)
    }

    // What the system tells of the file, where there is one.
    fn find(&self, name: &str) -> io::Result<Option<fs::Metadata>> {
        if !self.is_in_folders(name)? {
            return Ok(None);
        }
        match self.look_at(name)? {
            Some(about) if about.is_file() => Ok(Some(about)),
            _ => Ok(None),
        }
    }

    fn refuse(&mut self, name: &str) -> Result<(), IoErr>
        ensures { HasCause self.old.faults.faults.count self.new.faults.faults.count result }
    {
        let refusal = io::Error::from(ErrorKind::PermissionDenied);
        self.faults.note(name, told(Err(refusal)))
    }
}

impl<'a, R: Files<File = File> + AllocGlobal> Disk for FolderDisk<'a, R> {
    ghost tells = { false };

    ghost state = { λ _. no_disk };

    ghost faults = { λ disk. disk.faults.faults.count };

    fn faults(&self) -> u64 {
        self.faults.faults.count
    }

    fn len(&mut self, name: &str) -> Result<Option<u64>, IoErr> {
        let found = self.find(name);
        let outcome = self.opened.length(name, found);
        self.faults.note(name, told(outcome))
    }

    fn read_at(&mut self, name: &str, at: u64, into: &mut [u8]) -> Result<(), IoErr> {
        let outcome = self.opened.read(self.rt, name, at, into);
        self.faults.note(name, told(outcome))
    }

    fn write_at(&mut self, name: &str, _at: u64, _bytes: &[u8]) -> Result<(), IoErr> {
        self.refuse(name)
    }

    fn set_len(&mut self, name: &str, _len: u64) -> Result<(), IoErr> {
        self.refuse(name)
    }

    fn sync(&mut self, name: &str) -> Result<(), IoErr> {
        self.refuse(name)
    }

    fn replace(&mut self, from: &str, _to: &str) -> Result<(), IoErr> {
        self.refuse(from)
    }

    fn remove(&mut self, name: &str) -> Result<(), IoErr> {
        self.refuse(name)
    }

    fn make_dir(&mut self, name: &str) -> Result<(), IoErr> {
        self.refuse(name)
    }
}

/// The disk of a run.
#[derive(Drop)]
pub enum EdgeDisk<'a, R: Files<File = File> + AllocGlobal> {
    /// All of the system's files.
    All(FileDisk<'a, R>),
    /// Those below a folder that is served.
    Folder(FolderDisk<'a, R>),
}

impl<'a, R: Files<File = File> + AllocGlobal> Noted for EdgeDisk<'a, R> {
    fn notes(&self) -> &Notes {
        match self {
            EdgeDisk::All(disk) => disk.notes(),
            EdgeDisk::Folder(disk) => &disk.faults.notes,
        }
    }
}

impl<'a, R: Files<File = File> + AllocGlobal> Disk for EdgeDisk<'a, R> {
    ghost tells = { false };

    ghost state = { λ _. no_disk };

    ghost faults = { λ disk. edge_faults disk };

    fn faults(&self) -> u64 {
        match self {
            EdgeDisk::All(disk) => disk.faults(),
            EdgeDisk::Folder(disk) => disk.faults(),
        }
    }

    fn len(&mut self, name: &str) -> Result<Option<u64>, IoErr> {
        match self {
            EdgeDisk::All(disk) => disk.len(name),
            EdgeDisk::Folder(disk) => disk.len(name),
        }
    }

    fn read_at(&mut self, name: &str, at: u64, into: &mut [u8]) -> Result<(), IoErr> {
        match self {
            EdgeDisk::All(disk) => disk.read_at(name, at, into),
            EdgeDisk::Folder(disk) => disk.read_at(name, at, into),
        }
    }

    fn write_at(&mut self, name: &str, at: u64, bytes: &[u8]) -> Result<(), IoErr> {
        match self {
            EdgeDisk::All(disk) => disk.write_at(name, at, bytes),
            EdgeDisk::Folder(disk) => disk.write_at(name, at, bytes),
        }
    }

    fn set_len(&mut self, name: &str, len: u64) -> Result<(), IoErr> {
        match self {
            EdgeDisk::All(disk) => disk.set_len(name, len),
            EdgeDisk::Folder(disk) => disk.set_len(name, len),
        }
    }

    fn sync(&mut self, name: &str) -> Result<(), IoErr> {
        match self {
            EdgeDisk::All(disk) => disk.sync(name),
            EdgeDisk::Folder(disk) => disk.sync(name),
        }
    }

    fn replace(&mut self, from: &str, to: &str) -> Result<(), IoErr> {
        match self {
            EdgeDisk::All(disk) => disk.replace(from, to),
            EdgeDisk::Folder(disk) => disk.replace(from, to),
        }
    }

    fn remove(&mut self, name: &str) -> Result<(), IoErr> {
        match self {
            EdgeDisk::All(disk) => disk.remove(name),
            EdgeDisk::Folder(disk) => disk.remove(name),
        }
    }

    fn make_dir(&mut self, name: &str) -> Result<(), IoErr> {
        match self {
            EdgeDisk::All(disk) => disk.make_dir(name),
            EdgeDisk::Folder(disk) => disk.make_dir(name),
        }
    }
}
