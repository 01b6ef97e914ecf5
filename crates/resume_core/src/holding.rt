// A control file stands in whatever a crash leaves before the lengths of a payload's files change.
ghost use Rattle.std.specs.Prelude.{◌≡◌, ◌<◌, List, ℕ, length, Some, IsTrue, IfOk, OnOk};
ghost use Rattle.dl_kinds.specs.Causes.{HasCause};
ghost use Rattle.dl_disk.specs.Calls.{ReadsNothing};
ghost use Rattle.dl_disk.specs.Files.{IsSame};
ghost use Rattle.dl_disk.specs.Passes.{Performs};
ghost use Rattle.dl_disk.specs.State.{IsDurable};
ghost use Rattle.resume_core.specs.Openings.{HasControl, HaveControl, KeepsBesides, KeepsGiven, KeepsSound};
ghost use Rattle.resume_core.specs.Rows.{ListsNothing};
ghost use Rattle.resume_core.specs.States.{LastsWhereStood, SamePayload};
ghost use Rattle.resume_core.specs.Steps.{PutsBeside, PutsOrKeeps};
ghost use Rattle.control_file.specs.Wants.{IsWant};
ghost use Rattle.resume_core.specs.Wants.{control_name, temporary_name};

use crate::listing::control_of;
use crate::names::{control_text, temporary_text};
use crate::whole_files::put_file;
use bit_rows::BitRow;
use control_file::{Control, Want, control_files_are_read};
use dl_disk::Disk;
use dl_kinds::IoErr;
use payload_files::file_name;
use std::alloc::{AllocError, Global};

// Makes a file last that stands.
fn sync_one<D: Disk>(
    alloc: Global,
    disk: &mut D,
    want: &Want,
    lens: &[Option<u64>],
    index: usize,
) -> Result<(), IoErr>
    requires count { length lens.now ≡ length want.now.layout }
    requires index { index < length lens.now }
    ensures durable { OnOk result (IsTrue D.tells
        → LastsWhereStood want.now lens.now index (D.state disk.new)) }
    ensures performs { IsTrue D.tells → Performs IsSame (D.state disk.old) (D.state disk.new) }
    ensures folders { IsTrue D.tells → (D.state disk.new).folders ≡ (D.state disk.old).folders }
    ensures cause { HasCause (D.faults disk.old) (D.faults disk.new) result }
{
    if lens[index].is_none() {
        return Ok(());
    }
    let name = file_name(alloc, want.dir.as_str(), &want.layout.files()[index].path)?;
    disk.sync(name.as_str())
}

// Makes each file last that stands.
fn sync_standing<D: Disk>(
    alloc: Global,
    disk: &mut D,
    want: &Want,
    lens: &[Option<u64>],
) -> Result<(), IoErr>
    requires { length lens.now ≡ length want.now.layout }
    ensures durable { OnOk result (IsTrue D.tells
        → (k : ℕ) → k < length lens.now → LastsWhereStood want.now lens.now k (D.state disk.new)) }
    ensures performs { IsTrue D.tells → Performs IsSame (D.state disk.old) (D.state disk.new) }
    ensures folders { IsTrue D.tells → (D.state disk.new).folders ≡ (D.state disk.old).folders }
    ensures cause { HasCause (D.faults disk.old) (D.faults disk.new) result }
{
    for index in 0..lens.len() {
        sync_one(alloc, disk, want, lens, index)?;
    }
    Ok(())
}

// A control file that lists nothing.
fn empty_control(alloc: Global, want: &Want) -> Result<Control, AllocError>
    requires { IsWant want.now }
    ensures { IfOk result (ListsNothing want.now) }
{
    let verified = BitRow::new(alloc, want.plan.pieces)?;
    let blocks = BitRow::new(alloc, want.plan.blocks())?;
    control_of(alloc, want, &verified, &blocks)
}

// Makes the files last that stand, and then puts these bytes in the place of the control file.
fn put_beside<D: Disk>(
    alloc: Global,
    disk: &mut D,
    want: &Want,
    lens: &[Option<u64>],
    bytes: &[u8],
) -> Result<(), IoErr>
    requires want { IsWant want.now }
    requires count { length lens.now ≡ length want.now.layout }
    ensures put { OnOk result (IsTrue D.tells
        → (D.state disk.new).seen (control_name want.now) ≡ Some bytes.now) }
    ensures durable { OnOk result (IsTrue D.tells
        → IsDurable (control_name want.now) (D.state disk.new)) }
    ensures performs { IsTrue D.tells
        → Performs (PutsOrKeeps (temporary_name want.now) (control_name want.now) bytes.now)
        (D.state disk.old) (D.state disk.new) }
    ensures beside { IsTrue D.tells
        → Performs (PutsBeside want.now lens.now (D.state disk.old).seen)
        (D.state disk.old) (D.state disk.new) }
    ensures folders { IsTrue D.tells → (D.state disk.new).folders ≡ (D.state disk.old).folders }
    ensures cause { HasCause (D.faults disk.old) (D.faults disk.new) result }
{
    let temporary = temporary_text(alloc, want)?;
    let name = control_text(alloc, want)?;
    sync_standing(alloc, disk, want, lens)?;
    put_file(disk, temporary.as_str(), name.as_str(), bytes)
}

// Puts a control file that lists nothing.
fn put_empty<D: Disk>(
    alloc: Global,
    disk: &mut D,
    want: &Want,
    lens: &[Option<u64>],
) -> Result<(), IoErr>
    requires want { IsWant want.now }
    requires count { length lens.now ≡ length want.now.layout }
    ensures held { OnOk result (IsTrue D.tells
        → HaveControl want.now (D.state disk.new).may_leave) }
    ensures payload { IsTrue D.tells
        → SamePayload want.now (D.state disk.old) (D.state disk.new) }
    ensures besides { IsTrue D.tells
        → KeepsBesides want.now (D.state disk.old) (D.state disk.new) }
    ensures sound { IsTrue D.tells → KeepsSound want.now (D.state disk.old) (D.state disk.new) }
    ensures reads { IsTrue D.tells → ReadsNothing (D.state disk.old) (D.state disk.new) }
    ensures beside { IsTrue D.tells
        → Performs (PutsBeside want.now lens.now (D.state disk.old).seen)
        (D.state disk.old) (D.state disk.new) }
    ensures folders { IsTrue D.tells → (D.state disk.new).folders ≡ (D.state disk.old).folders }
    ensures cause { HasCause (D.faults disk.old) (D.faults disk.new) result }
{
    control_files_are_read();
    let control = empty_control(alloc, want)?;
    let bytes = control.write(alloc)?;
    put_beside(alloc, disk, want, lens, &bytes)
}

// Makes the control file last that stands.
fn sync_control<D: Disk>(alloc: Global, disk: &mut D, want: &Want) -> Result<(), IoErr>
    requires { IsTrue D.tells → HasControl want.now (D.state disk.old).seen }
    ensures held { OnOk result (IsTrue D.tells
        → HaveControl want.now (D.state disk.new).may_leave) }
    ensures performs { IsTrue D.tells → Performs IsSame (D.state disk.old) (D.state disk.new) }
    ensures folders { IsTrue D.tells → (D.state disk.new).folders ≡ (D.state disk.old).folders }
    ensures cause { HasCause (D.faults disk.old) (D.faults disk.new) result }
{
    let name = control_text(alloc, want)?;
    disk.sync(name.as_str())
}

/// Sees to it that a control file stands, whatever a crash leaves: one that stood is made to last, and otherwise one is put
/// that lists nothing.
pub(crate) fn hold_control<D: Disk>(
    alloc: Global,
    disk: &mut D,
    want: &Want,
    lens: &[Option<u64>],
    stood: bool,
) -> Result<(), IoErr>
    requires want { IsWant want.now }
    requires count { length lens.now ≡ length want.now.layout }
    requires stood { IsTrue D.tells → IsTrue stood → HasControl want.now (D.state disk.old).seen }
    ensures held { OnOk result (IsTrue D.tells
        → HaveControl want.now (D.state disk.new).may_leave) }
    ensures payload { IsTrue D.tells
        → SamePayload want.now (D.state disk.old) (D.state disk.new) }
    ensures besides { IsTrue D.tells
        → KeepsBesides want.now (D.state disk.old) (D.state disk.new) }
    ensures sound { IsTrue D.tells → KeepsSound want.now (D.state disk.old) (D.state disk.new) }
    ensures gives { IsTrue D.tells → IsTrue stood
        → KeepsGiven want.now (D.state disk.old) (D.state disk.new) }
    ensures reads { IsTrue D.tells → ReadsNothing (D.state disk.old) (D.state disk.new) }
    ensures beside { IsTrue D.tells
        → Performs (PutsBeside want.now lens.now (D.state disk.old).seen)
        (D.state disk.old) (D.state disk.new) }
    ensures folders { IsTrue D.tells → (D.state disk.new).folders ≡ (D.state disk.old).folders }
    ensures cause { HasCause (D.faults disk.old) (D.faults disk.new) result }
{
    if stood {
        return sync_control(alloc, disk, want);
    }
    put_empty(alloc, disk, want, lens)
}
