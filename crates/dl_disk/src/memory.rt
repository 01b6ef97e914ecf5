// A disk in memory.
ghost use Rattle.std.specs.Prelude.{◌≡◌, ℕ, List, IsTrue, IfOk, OnOk, option_copied, count_by};
ghost use Rattle.dl_kinds.specs.Causes.{HasCause};
ghost use Rattle.dl_disk.specs.Contents.{files_listed, files_of};
ghost use Rattle.dl_disk.specs.Record.{can_do, reaches, failed, reading_after, WerePossible};
ghost use Rattle.dl_disk.specs.declared.record.Action.TheVariants.{Look, Read, Change, Sync, MakeDir, Replace, Remove};
ghost use Rattle.dl_disk.specs.declared.edits.Edit.TheVariants.{Write, Resize};

use crate::Disk;
use crate::contents::Contents;
use crate::crash::survivors;
use crate::edits::Edit;
use crate::record::{Action, Call};
use dl_kinds::{Blob, IoErr, Text};
use std::alloc::{AllocError, Global};

/// A disk in memory. It keeps the files as they are now, and beside them each call that it had, from which its earlier
/// moments and its images are told. So it grows with each call, also with a read. Of folders it keeps no more than this
/// record.
///
/// The calls that are made are numbered, from 0 on. A call fails exactly where its number was asked to fail, or it can't
/// be done: a read goes past the end of its file or has none, a write ends past 2^64 - 1, or a file that isn't there is
/// to be moved or removed. A failed call leaves the files as they were.
#[derive(Debug, Drop)]
pub struct MemDisk {
    alloc: Global,
    start: Contents,
    contents: Contents,
    calls: Vec<Call>,
    next: u64,
    failing: Vec<u64>,
    faults: u64,
    ghost current: { (name : List ℕ) → files_of contents name ≡ reading_after (files_of start) calls.items name },
    ghost possible: { WerePossible (files_of start) calls.items },
    ghost counted: { faults ≡ count_by failed calls.items },
}

// Whether a file has so many bytes from this place on.
fn reaches(file: Option<&[u8]>, at: u64, len: u64) -> bool
    ensures { result ≡ reaches (option_copied file.entry) at len }
{
    match file {
        Some(bytes) => at <= bytes.len() as u64 && len <= bytes.len() as u64 - at,
        None => false,
    }
}

impl MemDisk {
    ghost use Rattle.std.specs.Prelude.{length};
    ghost use Rattle.dl_disk.specs.Files.{ReadsAt};
    ghost use Rattle.dl_disk.specs.MemDisk.{reading, IsImage, failing_calls, next_call, will_do, IsFresh, Notes, IsNumbered};
    ghost use Rattle.dl_disk.specs.Crash.{crash_of, IsCrashed, IsHealed};

    /// A disk with these files, all of them durable; of one name the last counts. The calls of the numbers in
    /// `failing` will fail.
    pub fn new(
        alloc: Global,
        files: Vec<(Text, Blob)>,
        failing: Vec<u64>,
    ) -> Result<Self, AllocError>
        ensures fresh { IfOk result (IsFresh (files_listed files.items)) }
        ensures failing { IfOk result (λ disk. failing_calls disk ≡ failing.items) }
        ensures next { IfOk result (λ disk. next_call disk ≡ 0) }
    {
        Ok(MemDisk {
            alloc,
            contents: Contents::of(alloc, &files)?,
            start: Contents::of(alloc, &files)?,
            calls: Vec::new(alloc),
            next: 0,
            failing,
            faults: 0,
        })
    }

    /// The bytes of a file as it is now. It is no call of the disk, and never fails.
    pub fn file(&self, name: &str) -> Option<&[u8]>
        ensures { option_copied result ≡ reading self.now name.now }
    {
        self.contents.get(name)
    }

    /// What a crash leaves, by a choice for each change that it may lose, in their order: 0, also where it is missing,
    /// drops the change, 1 keeps it, and another number keeps it with that byte for each new one. Such changes are the
    /// edits of a file that wasn't synced since, and the moves and removals that failed, of a file that was there, and may
    /// be done all the same. What is left is one of the images and is all durable; the calls are numbered on.
    pub fn crash(self, alloc: Global, choices: &[u8]) -> Result<Self, AllocError>
        ensures crashed { IfOk result (IsCrashed self choices.now) }
        ensures image { OnOk result (IsImage self (crash_of self choices.now)) }
    {
        let start = survivors(alloc, &self.start, &self.calls, choices)?;
        Ok(MemDisk {
            alloc,
            contents: start.copy()?,
            start,
            calls: Vec::new(alloc),
            next: self.next,
            failing: self.failing,
            faults: 0,
        })
    }

    /// The disk from now on without calls that fail by their number.
    pub fn healed(self) -> Self
        ensures { IsHealed self result }
    {
        let mut disk = self;
        disk.failing.clear();
        disk
    }

    // Whether the next call is to be done.
    fn will_do(&self, name: &str, action: &Action) -> bool
        ensures { result ≡ will_do self.now name.now action.now }
    {
        let can_do = match action {
            Action::Read { at, len } => reaches(self.file(name), *at, *len),
            Action::Change(edit) => edit.fits(),
            Action::Replace { .. } | Action::Remove => self.file(name).is_some(),
            Action::Look | Action::Sync | Action::MakeDir => true,
        };
        can_do && !self.failing.contains(&self.next)
    }

    // Fills the buffer from a file that reaches so far.
    fn copy_out(&self, name: &str, at: usize, into: &mut [u8])
        requires { IsTrue (reaches (reading self.now name.now) at (length into.old)) }
        ensures read { ReadsAt (reading self.now name.now) at into.new }
    {
        if let Some(bytes) = self.file(name) {
            into.copy_from_slice(&bytes[at..at + into.len()]);
        }
    }

    // Makes a call, and notes it.
    fn call(&mut self, name: &str, action: Action) -> Result<(), IoErr>
        ensures notes { Notes self.old self.new name.now action result }
        ensures counts { IsNumbered self.old self.new result }
        ensures can_do { OnOk result (IsTrue (can_do (reading self.old) name.now action)) }
        ensures cause { HasCause self.old.faults self.new.faults result }
    {
        let noted_name = Text::of(self.alloc, name)?;
        self.calls.reserve(1)?;
        if self.will_do(name, &action) {
            action.perform(self.alloc, name, &mut self.contents)?;
            self.next = self.next.saturating_add(1);
            self.calls.push(Call {
                name: noted_name,
                action,
                done: true,
            })?;
            Ok(())
        } else {
            self.next = self.next.saturating_add(1);
            self.calls.push(Call {
                name: noted_name,
                action,
                done: false,
            })?;
            self.faults += 1;
            Err(IoErr::Fault)
        }
    }
}

impl Disk for MemDisk {
    ghost use Rattle.std.specs.Prelude.{true, length, option_map};
    ghost use Rattle.dl_disk.specs.State.{IsDurable};
    ghost use Rattle.dl_disk.specs.Calls.{Looks, LooksInto, Alters, IsTaken, NeedsFile, MakesFolder};
    ghost use Rattle.dl_disk.specs.Files.{ReadsAt, Writes, TornWrite, Resizes, TornResize, Moved, Removes, MayBe};
    ghost use Rattle.dl_disk.specs.MemDisk.{reading, failed_calls, Notes, IsNumbered};
    ghost use Rattle.dl_disk.specs.MemState.{state_of};

    ghost tells = { true };

    ghost state = { state_of };

    ghost faults = { failed_calls };

    fn faults(&self) -> u64 {
        self.faults
    }

    fn len(&mut self, name: &str) -> Result<Option<u64>, IoErr>
        ensures len { IfOk result (λ len. len ≡ option_map length (reading self.old name.now)) }
        ensures looks { Looks (state_of self.old) (state_of self.new) result }
        ensures cause { HasCause (failed_calls self.old) (failed_calls self.new) result }
        ensures noted { Notes self.old self.new name.now Look result }
        ensures counted { IsNumbered self.old self.new result }
    {
        self.call(name, Action::Look)?;
        Ok(self.file(name).map(|bytes| bytes.len() as u64))
    }

    fn read_at(&mut self, name: &str, at: u64, into: &mut [u8]) -> Result<(), IoErr>
        ensures read { OnOk result (ReadsAt (reading self.old name.now) at into.new) }
        ensures looks { LooksInto name.now (state_of self.old) (state_of self.new) result }
        ensures cause { HasCause (failed_calls self.old) (failed_calls self.new) result }
        ensures noted { Notes self.old self.new name.now (Read at (length into.old)) result }
        ensures counted { IsNumbered self.old self.new result }
    {
        let len = into.len() as u64;
        let outcome = self.call(name, Action::Read { at, len });
        if outcome.is_ok() {
            self.copy_out(name, at as usize, into);
        }
        outcome
    }

    fn write_at(&mut self, name: &str, at: u64, bytes: &[u8]) -> Result<(), IoErr>
        ensures written { OnOk result (Writes name.now at bytes.now (reading self.old)
            (reading self.new)) }
        ensures alters { Alters (TornWrite name.now at (length bytes.now)) (state_of self.old)
            (state_of self.new) result }
        ensures cause { HasCause (failed_calls self.old) (failed_calls self.new) result }
        ensures noted { Notes self.old self.new name.now (Change (Write at bytes.now)) result }
        ensures counted { IsNumbered self.old self.new result }
    {
        let bytes = Blob::of(self.alloc, bytes)?;
        self.call(name, Action::Change(Edit::Write { at, bytes }))
    }

    fn set_len(&mut self, name: &str, len: u64) -> Result<(), IoErr>
        ensures resized { OnOk result (Resizes name.now len (reading self.old) (reading self.new)) }
        ensures alters { Alters (TornResize name.now len) (state_of self.old)
            (state_of self.new) result }
        ensures cause { HasCause (failed_calls self.old) (failed_calls self.new) result }
        ensures noted { Notes self.old self.new name.now (Change (Resize len)) result }
        ensures counted { IsNumbered self.old self.new result }
    {
        self.call(name, Action::Change(Edit::Resize { len }))
    }

    fn sync(&mut self, name: &str) -> Result<(), IoErr>
        ensures durable { OnOk result (IsDurable name.now (state_of self.new)) }
        ensures looks { Looks (state_of self.old) (state_of self.new) result }
        ensures cause { HasCause (failed_calls self.old) (failed_calls self.new) result }
        ensures noted { Notes self.old self.new name.now Sync result }
        ensures counted { IsNumbered self.old self.new result }
    {
        self.call(name, Action::Sync)
    }

    fn replace(&mut self, from: &str, to: &str) -> Result<(), IoErr>
        ensures moved { OnOk result (IsTaken (Moved from.now to.now) (state_of self.old)
            (state_of self.new)) }
        ensures needs { NeedsFile from.now (state_of self.old) (state_of self.new) result }
        ensures alters { Alters (MayBe (Moved from.now to.now)) (state_of self.old)
            (state_of self.new) result }
        ensures cause { HasCause (failed_calls self.old) (failed_calls self.new) result }
        ensures noted { Notes self.old self.new from.now (Replace to.now) result }
        ensures counted { IsNumbered self.old self.new result }
    {
        let to = Text::of(self.alloc, to)?;
        self.call(from, Action::Replace { to })
    }

    fn remove(&mut self, name: &str) -> Result<(), IoErr>
        ensures removed { OnOk result (IsTaken (Removes name.now) (state_of self.old)
            (state_of self.new)) }
        ensures needs { NeedsFile name.now (state_of self.old) (state_of self.new) result }
        ensures alters { Alters (MayBe (Removes name.now)) (state_of self.old)
            (state_of self.new) result }
        ensures cause { HasCause (failed_calls self.old) (failed_calls self.new) result }
        ensures noted { Notes self.old self.new name.now Remove result }
        ensures counted { IsNumbered self.old self.new result }
    {
        self.call(name, Action::Remove)
    }

    fn make_dir(&mut self, name: &str) -> Result<(), IoErr>
        ensures made { MakesFolder name.now (state_of self.old) (state_of self.new) result }
        ensures cause { HasCause (failed_calls self.old) (failed_calls self.new) result }
        ensures noted { Notes self.old self.new name.now MakeDir result }
        ensures counted { IsNumbered self.old self.new result }
    {
        self.call(name, Action::MakeDir)
    }
}
