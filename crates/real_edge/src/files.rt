// The system's files, and which of them are written out.
use crate::faults::told;
use crate::lasting::Lasting;
use control_file::TEMPORARY_SUFFIX;
use fault_notes::Why;
use std::alloc::Global;
use std::fs::{File, Files, OpenOptions};
use std::io::ErrorKind;
use std::os::unix::fs::FileExt;
use std::path::Path;
use std::{fs, io};

// Files are compared by so many bytes at once, and longer ones than so many times that aren't.
const PART_BYTES: usize = 4_096;

const MOST_PARTS: u64 = 64;

/// The system's files, where each is written out no more often than it has to be.
///
/// - What was written out here, and not changed here since, isn't written out again. What an earlier run left is written out once.
/// - A temporary file need not last before it takes another one's place: a crash in between leaves the other one, as a crash in
///   front of the sync would have. So it is written out with that call, and its folder once, behind it.
/// - A file of the very bytes that last under a name already isn't put there anew.
#[derive(Drop)]
pub struct RealFiles<'a, R: Files<File = File> + AllocGlobal> {
    rt: &'a R,
    // The folders that are known to last in those above them.
    folders: Lasting,
    // The names of what could not be written out.
    untrusted: Lasting,
    // Files and folders that were written out here and not changed here since. It may lack some.
    written: Lasting,
}

fn is_temporary(name: &str) -> bool {
    name.ends_with(TEMPORARY_SUFFIX)
}

// The current folder has no name in a path.
fn folder_name<'a>(folder: Path<'a>) -> &'a str {
    if folder.as_str().is_empty() {
        "."
    } else {
        folder.as_str()
    }
}

// The folder of a file.
fn folder_of(name: &str) -> &str {
    match Path::new(name).parent() {
        Some(folder) => folder_name(folder),
        None => name,
    }
}

// Whether two files that reach so far behind a place have the same bytes from there on, up to the end of the part.
fn are_same_at(one: &File, other: &File, at: u64, left: u64) -> io::Result<bool> {
    let (mut bytes, mut others) = ([0; PART_BYTES], [0; PART_BYTES]);
    let count = left.min(PART_BYTES as u64) as usize;
    one.read_exact_at(&mut bytes[..count], at)?;
    other.read_exact_at(&mut others[..count], at)?;
    Ok(bytes == others)
}

// Whether two files have the same bytes. Of long ones it isn't told.
fn are_same(one: &File, other: &File) -> io::Result<bool> {
    let len = one.metadata()?.len();
    if other.metadata()?.len() != len || len > MOST_PARTS * PART_BYTES as u64 {
        return Ok(false);
    }
    for part in 0..MOST_PARTS {
        let at = part * PART_BYTES as u64;
        if at < len && !are_same_at(one, other, at, len - at)? {
            return Ok(false);
        }
    }
    Ok(true)
}

impl<'a, R: Files<File = File> + AllocGlobal> RealFiles<'a, R> {
    pub fn new(rt: &'a R) -> Self {
        let alloc: Global = rt.alloc();
        RealFiles {
            rt,
            folders: Lasting::new(alloc),
            untrusted: Lasting::new(alloc),
            written: Lasting::new(alloc),
        }
    }

    /// A folder, a device or a pipe has no length to speak of, and a pipe would make a read wait.
    pub fn length(&self, name: &str) -> io::Result<Option<u64>> {
        match self.rt.metadata(name) {
            Ok(about) if about.is_file() => Ok(Some(about.len())),
            Ok(_) => Err(io::Error::from(ErrorKind::Unsupported)),
            Err(e) if e.kind() == ErrorKind::NotFound => Ok(None),
            Err(e) => Err(e),
        }
    }

    pub fn read(&self, name: &str, at: u64, into: &mut [u8]) -> io::Result<()> {
        File::open(self.rt, name).and_then(|file| file.read_exact_at(into, at))
    }

    pub fn write(&mut self, name: &str, at: u64, bytes: &[u8]) -> Result<(), Why> {
        let file = self.to_change(name)?;
        told(file.write_all_at(bytes, at))
    }

    pub fn resize(&mut self, name: &str, len: u64) -> Result<(), Why> {
        let file = self.to_change(name)?;
        told(file.set_len(len))
    }

    fn to_change(&mut self, name: &str) -> Result<File, Why> {
        self.written.forget(name);
        told(self.writable(name))
    }

    // A file that is made changes its folder. To ask for reading too keeps the system from waiting for the other end of a pipe.
    fn writable(&mut self, name: &str) -> io::Result<File> {
        match OpenOptions::new()
            .read(true)
            .write(true)
            .open(self.rt, name)
        {
            Err(e) if e.kind() == ErrorKind::NotFound => {
                if !is_temporary(name) {
                    self.written.forget(folder_of(name));
                }
                OpenOptions::new()
                    .read(true)
                    .write(true)
                    .create(true)
                    .open(self.rt, name)
            }
            outcome => outcome,
        }
    }

    fn is_trusted(&self, name: &str) -> bool {
        self.untrusted.is_whole && !self.untrusted.has(name)
    }

    // Once the system failed to write a file out it may forget what it couldn't write, and say later that all is well.
    fn write_out_opened(&mut self, name: &str, file: &File) -> Result<(), Why> {
        if !self.is_trusted(name) {
            return Err(Why::Untrusted);
        }
        let outcome = told(file.sync_all());
        if outcome.is_ok() {
            self.written.note(name);
        } else {
            self.untrusted.add(name);
        }
        outcome
    }

    fn write_out_file(&mut self, name: &str) -> Result<(), Why> {
        if self.written.has(name) {
            return Ok(());
        }
        match File::open(self.rt, name) {
            Ok(file) => self.write_out_opened(name, &file),
            Err(e) if e.kind() == ErrorKind::NotFound => Ok(()),
            Err(e) => Err(Why::of(&e)),
        }
    }

    fn write_out_folder(&mut self, name: &str) -> Result<(), Why> {
        if self.written.has(name) {
            return Ok(());
        }
        let file = told(File::open(self.rt, name))?;
        self.write_out_opened(name, &file)
    }

    // The folder is written out as well, so that a new file is found in it after a crash.
    fn write_out(&mut self, name: &str) -> Result<(), Why> {
        self.write_out_file(name)?;
        self.write_out_folder(folder_of(name))
    }

    /// Makes a file last, a temporary one with the call that puts it in another one's place.
    pub fn sync(&mut self, name: &str) -> Result<(), Why> {
        if is_temporary(name) {
            return Ok(());
        }
        if !self.is_trusted(name) {
            return Err(Why::Untrusted);
        }
        self.write_out(name)
    }

    // Whether the file has just the bytes of the other one, which lasts.
    fn is_put(&self, from: &str, to: &str) -> io::Result<bool> {
        let lasts = self.written.has(to) && self.written.has(folder_of(to));
        if !lasts || !is_temporary(from) {
            return Ok(false);
        }
        match File::open(self.rt, to) {
            Ok(other) => are_same(&File::open(self.rt, from)?, &other),
            Err(e) if e.kind() == ErrorKind::NotFound => Ok(false),
            Err(e) => Err(e),
        }
    }

    /// Puts a file in the place of another.
    pub fn replace(&mut self, from: &str, to: &str) -> Result<(), Why> {
        if told(self.is_put(from, to))? {
            self.untrusted.forget(from);
            return told(fs::remove_file(self.rt, from));
        }
        self.write_out_file(from)?;
        self.rename(from, to)
    }

    // The folders of both names are written out, so that a crash leaves the file under the new name alone.
    fn rename(&mut self, from: &str, to: &str) -> Result<(), Why> {
        self.change_name(from);
        self.change_name(to);
        told(fs::rename(self.rt, from, to))?;
        self.untrusted.forget(to);
        self.write_out_folder(folder_of(to))?;
        self.write_out_folder(folder_of(from))?;
        // Its bytes were written out under the other name.
        self.written.note(to);
        Ok(())
    }

    // What stands under a name changes, and so does its folder.
    fn change_name(&mut self, name: &str) {
        self.written.forget(name);
        self.written.forget(folder_of(name));
    }

    pub fn remove(&mut self, name: &str) -> Result<(), Why> {
        self.change_name(name);
        told(fs::remove_file(self.rt, name))?;
        self.untrusted.forget(name);
        self.write_out_folder(folder_of(name))
    }

    // .. where this is the folder above one that stood before. Where that may not be read, nobody can do so. Others may have made
    // the one below since this one was written out.
    fn write_out_above(&mut self, above: &str, is_made: bool) -> Result<(), Why> {
        self.written.forget(above);
        match self.write_out_folder(above) {
            Err(Why::NoRight) if !is_made => Ok(()),
            outcome => outcome,
        }
    }

    /// Each folder that is made has to last in the one above it, and each that stands as well.
    pub fn make_folders(&mut self, name: &str) -> Result<(), Why> {
        let path = Path::new(name);
        let missing = path
            .ancestors()
            .take_while(|it| !it.exists(self.rt))
            .count();
        told(fs::create_dir_all(self.rt, path))?;
        let mut place = 0;
        for folder in path.ancestors() {
            let is_made = place < missing;
            place = place.saturating_add(1);
            if !is_made && self.folders.has(folder.as_str()) {
                break;
            }
            if let Some(above) = folder.parent() {
                self.write_out_above(folder_name(above), is_made)?;
            }
            self.folders.add(folder.as_str());
        }
        Ok(())
    }
}
