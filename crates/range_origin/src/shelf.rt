// The folder at a desk.
ghost use Rattle.std.specs.Prelude.{◌≡◌, ℕ, List, string_bytes, IfOk};
ghost use Rattle.range_origin.specs.declared.shelf.Ask.TheVariants.{Length, Read};
ghost use Rattle.range_origin.specs.Shelves.{HasTold, HasToldOf, holds, shelf_name, told_of_error};

use dl_disk::Disk;
use dl_kinds::{Blob, IoErr, NoMemory, Text};
use std::alloc::Global;
use std::snapshot::Snapshot;
use turn_desk::Served;

/// What is asked of a folder. Names stand below it, with `/` between their parts.
#[derive(Debug, Drop)]
pub enum Ask {
    /// The length of a file.
    Length { name: Text },
    /// As many bytes of a file as the room takes, from the byte at `at` on. They are given in that room.
    Read { name: Text, at: u64, room: Blob },
}

/// What it answers.
#[derive(Debug, Drop)]
pub enum Told {
    /// The length in bytes, and None where there is no such file, or where it doesn't hold the bytes that were to be read.
    Length(Option<u64>),
    Bytes(Blob),
    /// The disk failed. The count is that of its faults.
    Fault { count: u64 },
    NoMemory,
}

/// The folder that is served: what no turn changes. No value of it is made.
pub struct Folder<D> {
    pub disk: D,
    pub dir: Text,
}

/// The folder, at a desk. Nothing in it is changed.
#[derive(Drop)]
pub struct Shelf<D: Disk> {
    alloc: Global,
    disk: D,
    dir: Text,
    first: Snapshot<D>,
}

fn shelf_name(alloc: Global, dir: &str, name: &str) -> Result<String, NoMemory>
    ensures { IfOk result (λ text. string_bytes text ≡ shelf_name dir.now name.now) }
{
    let mut text = String::new(alloc);
    if dir != "." {
        text.push_str(dir)?;
        text.push('/')?;
    }
    text.push_str(name)?;
    Ok(text)
}

fn told_of_error<D: Disk>(disk: &D, error: IoErr) -> Told
    ensures { result ≡ told_of_error (D.faults disk.now) error }
{
    match error {
        IoErr::Fault => Told::Fault {
            count: disk.faults(),
        },
        IoErr::NoMemory => Told::NoMemory,
    }
}

// The length of the file of this name on the disk.
fn length_at<D: Disk>(disk: &mut D, place: &str) -> Told
    ensures { (name : List ℕ) → HasToldOf D.Disk (Length name) place.now disk.old disk.new result }
{
    match disk.len(place) {
        Ok(len) => Told::Length(len),
        Err(error) => told_of_error(disk, error),
    }
}

// Some bytes of the file of this name on the disk.
fn bytes_at<D: Disk>(disk: &mut D, place: &str, at: u64, room: Blob) -> Told
    ensures { (name : List ℕ) → HasToldOf D.Disk (Read name at room) place.now
        disk.old disk.new result }
{
    let mut bytes = room.into_vec();
    match disk.read_at(place, at, &mut bytes) {
        Ok(()) => Told::Bytes(Blob::wrap(bytes)),
        Err(error) => told_of_error(disk, error),
    }
}

// Whether a file of this length has so many bytes from this place on.
fn holds(file: Option<u64>, at: u64, len: u64) -> bool
    ensures { result ≡ holds file at len }
{
    match file {
        Some(total) => len <= total && at <= total - len,
        None => false,
    }
}

// The bytes, where the file holds them.
fn slice_at<D: Disk>(disk: &mut D, place: &str, at: u64, room: Blob) -> Told
    ensures { (name : List ℕ) → HasToldOf D.Disk (Read name at room) place.now
        disk.old disk.new result }
{
    match disk.len(place) {
        Ok(file) => {
            if holds(file, at, room.bytes().len() as u64) {
                bytes_at(disk, place, at, room)
            } else {
                Told::Length(None)
            }
        }
        Err(error) => told_of_error(disk, error),
    }
}

fn answer<D: Disk>(alloc: Global, disk: &mut D, dir: &str, op: Ask) -> Told
    ensures { HasTold D.Disk dir.now op disk.old disk.new result }
{
    match op {
        Ask::Length { name } => match shelf_name(alloc, dir, name.as_str()) {
            Ok(place) => length_at(disk, &place),
            Err(_) => Told::NoMemory,
        },
        Ask::Read { name, at, room } => match shelf_name(alloc, dir, name.as_str()) {
            Ok(place) => slice_at(disk, &place, at, room),
            Err(_) => Told::NoMemory,
        },
    }
}

impl<D: Disk> Shelf<D> {
    /// The folder `dir` on this disk.
    pub fn new(alloc: Global, disk: D, dir: Text) -> Shelf<D>
        ensures disk { result.disk ≡ disk }
        ensures first { result.first.value ≡ disk }
        ensures dir { result.dir ≡ dir }
    {
        let first = Snapshot::of(&disk);
        Shelf {
            alloc,
            disk,
            dir,
            first,
        }
    }

    /// The disk.
    pub fn into_disk(self) -> D
        ensures { result ≡ self.disk }
    {
        let Shelf {
            alloc: _,
            disk,
            dir: _,
            first: _,
        } = self;
        disk
    }
}

impl<D: Disk> Served for Shelf<D> {
    ghost use Rattle.std.specs.Prelude.{[], ◌∷◌};
    ghost use Rattle.range_origin.specs.Shelves.{AsksFolder, IsShelfAfter, folder_at, mark_of};

    type Start = Folder<D>;

    type Op = Ask;

    type Answer = Told;

    type Entry = Folder<D>;

    ghost is_lawful = { λ op. Unit {0} };

    ghost start = { λ s. folder_at D.Disk s.first.value s.dir };

    ghost entries = { λ s. folder_at D.Disk s.first.value s.dir ∷ [] };

    ghost mark = { λ s. mark_of D.Disk s.disk };

    ghost relates = { AsksFolder D.Disk };

    ghost stands = { λ s turns. IsShelfAfter D.Disk s.first.value s.dir s.disk turns };

    fn serve(&mut self, op: Ask) -> Told {
        answer(self.alloc, &mut self.disk, self.dir.as_str(), op)
    }
}
