// The disk as the parts above it see it.
ghost use Rattle.std.specs.Prelude.{◌≡◌, Bool, ℕ, length, option_map, IsTrue, IfOk, OnOk};
ghost use Rattle.dl_kinds.specs.Causes.{HasCause};
ghost use Rattle.dl_disk.specs.State.{DiskState, IsDurable};
ghost use Rattle.dl_disk.specs.Calls.{Looks, LooksInto, Alters, IsTaken, NeedsFile, MakesFolder};
ghost use Rattle.dl_disk.specs.Files.{ReadsAt, Writes, TornWrite, Resizes, TornResize, Moved, Removes, MayBe};

use dl_kinds::IoErr;

/// A disk. Between two syncs of a file a crash may leave any bytes in each range that was written and past the old end,
/// and any length from the smaller to the greater; a file that was made since its last sync may be absent. A file that
/// is put in the place of another, or taken away, is so or not while the call runs and where it fails, and lasts so
/// after Ok.
///
/// A name is a path, with `/` between its parts. A call that answers `NoMemory` was not made: it leaves everything as
/// it was.
pub trait Disk {
    /// Whether this kind of disk tells its state. A real one can't: over it only the counts of faults are known.
    ghost tells: { Bool };

    /// What it reads now, what a crash may leave, and what was so at each earlier moment.
    ghost state: { Self → DiskState };

    /// How often a call failed, up to 2^64 - 1.
    ghost faults: { Self → ℕ };

    /// The count of faults.
    fn faults(&self) -> u64
        ensures { result ≡ faults self.now };

    /// The length of a file in bytes, and None where there is no such file.
    fn len(&mut self, name: &str) -> Result<Option<u64>, IoErr>
        ensures len { IfOk result (λ len. IsTrue tells
            → len ≡ option_map length ((state self.old).seen name.now)) }
        ensures looks { IsTrue tells → Looks (state self.old) (state self.new) result }
        ensures cause { HasCause (faults self.old) (faults self.new) result };

    /// Fills the buffer from the byte at `at` on. Past the end of the file it is a fault.
    fn read_at(&mut self, name: &str, at: u64, into: &mut [u8]) -> Result<(), IoErr>
        ensures read { OnOk result (IsTrue tells
            → ReadsAt ((state self.old).seen name.now) at into.new) }
        ensures looks { IsTrue tells → LooksInto name.now (state self.old) (state self.new) result }
        ensures cause { HasCause (faults self.old) (faults self.new) result };

    /// Writes the bytes from `at` on, and makes the file where there is none. A failed write may have changed its range.
    fn write_at(&mut self, name: &str, at: u64, bytes: &[u8]) -> Result<(), IoErr>
        ensures written { OnOk result (IsTrue tells
            → Writes name.now at bytes.now (state self.old).seen (state self.new).seen) }
        ensures alters { IsTrue tells
            → Alters (TornWrite name.now at (length bytes.now)) (state self.old)
            (state self.new) result }
        ensures cause { HasCause (faults self.old) (faults self.new) result };

    /// Cuts the file to this length, or lengthens it by zeros, and makes it where there is none.
    fn set_len(&mut self, name: &str, len: u64) -> Result<(), IoErr>
        ensures resized { OnOk result (IsTrue tells
            → Resizes name.now len (state self.old).seen (state self.new).seen) }
        ensures alters { IsTrue tells
            → Alters (TornResize name.now len) (state self.old) (state self.new) result }
        ensures cause { HasCause (faults self.old) (faults self.new) result };

    /// Makes the file last: after Ok a crash leaves of it what a read gives.
    fn sync(&mut self, name: &str) -> Result<(), IoErr>
        ensures durable { OnOk result (IsTrue tells → IsDurable name.now (state self.new)) }
        ensures looks { IsTrue tells → Looks (state self.old) (state self.new) result }
        ensures cause { HasCause (faults self.old) (faults self.new) result };

    /// Puts the file of one name in the place of another. Where the first isn't there it is a fault.
    fn replace(&mut self, from: &str, to: &str) -> Result<(), IoErr>
        ensures moved { OnOk result (IsTrue tells
            → IsTaken (Moved from.now to.now) (state self.old) (state self.new)) }
        ensures needs { IsTrue tells
            → NeedsFile from.now (state self.old) (state self.new) result }
        ensures alters { IsTrue tells
            → Alters (MayBe (Moved from.now to.now)) (state self.old) (state self.new) result }
        ensures cause { HasCause (faults self.old) (faults self.new) result };

    /// Takes the file away. Where it isn't there it is a fault.
    fn remove(&mut self, name: &str) -> Result<(), IoErr>
        ensures removed { OnOk result (IsTrue tells
            → IsTaken (Removes name.now) (state self.old) (state self.new)) }
        ensures needs { IsTrue tells
            → NeedsFile name.now (state self.old) (state self.new) result }
        ensures alters { IsTrue tells
            → Alters (MayBe (Removes name.now)) (state self.old) (state self.new) result }
        ensures cause { HasCause (faults self.old) (faults self.new) result };

    /// Makes this folder and its parents, and is content where it stands. Folders are no files; one that was made with
    /// Ok outlasts a crash.
    fn make_dir(&mut self, name: &str) -> Result<(), IoErr>
        ensures made { IsTrue tells → MakesFolder name.now (state self.old)
            (state self.new) result }
        ensures cause { HasCause (faults self.old) (faults self.new) result };
}
