// A control file is put beside a payload that lasts.
ghost use Rattle.std.specs.Prelude.{◌≡◌, IsTrue, IsErrOf, OnOk};
ghost use Rattle.dl_kinds.specs.Causes.{HasCause};
ghost use Rattle.dl_kinds.specs.declared.outside.IoErr.TheVariants.{NoMemory as OutOfMemory};
ghost use Rattle.dl_disk.specs.Passes.{Performs};
ghost use Rattle.control_file.specs.Spelling.{IsWritableControl, control_bytes};
ghost use Rattle.control_file.specs.declared.fields.ByteOrder.TheVariants.{Big};
ghost use Rattle.resume_core.specs.States.{LeavesTemporary};
ghost use Rattle.resume_core.specs.Steps.{Saves, AreSaved};
ghost use Rattle.control_file.specs.Wants.{IsWant};
ghost use Rattle.resume_core.specs.Wants.{control_name, temporary_name};

use crate::names::{control_text, temporary_text};
use crate::whole_files::put_file;
use control_file::{Control, Want};
use dl_disk::Disk;
use dl_kinds::IoErr;
use payload_files::sync_files;
use std::alloc::Global;

// Makes the payload last, and then puts these bytes in the place of the control file.
fn sync_and_put<D: Disk>(
    alloc: Global,
    disk: &mut D,
    want: &Want,
    temporary: &str,
    name: &str,
    bytes: &[u8],
) -> Result<(), IoErr>
    requires want { IsWant want.now }
    requires temporary { temporary.now ≡ temporary_name want.now }
    requires name { name.now ≡ control_name want.now }
    ensures saved { OnOk result (IsTrue D.tells
        → AreSaved want.now bytes.now (D.state disk.old).seen (D.state disk.new).may_leave) }
    ensures performs { IsTrue D.tells → Performs
        (Saves want.now bytes.now (D.state disk.old).seen) (D.state disk.old) (D.state disk.new) }
    ensures unmade { IsErrOf result OutOfMemory → IsTrue D.tells
        → LeavesTemporary want.now (D.state disk.old) (D.state disk.new) }
    ensures folders { IsTrue D.tells → (D.state disk.new).folders ≡ (D.state disk.old).folders }
    ensures cause { HasCause (D.faults disk.old) (D.faults disk.new) result }
{
    sync_files(alloc, disk, want.dir.as_str(), &want.layout)?;
    put_file(disk, temporary, name, bytes)
}

/// Makes the payload last, and then puts this control file in the place of the one that stands, if any.
pub(crate) fn put_listing<D: Disk>(
    alloc: Global,
    disk: &mut D,
    want: &Want,
    control: &Control,
) -> Result<(), IoErr>
    requires want { IsWant want.now }
    requires control { IsWritableControl control.now }
    ensures saved { OnOk result (IsTrue D.tells → AreSaved want.now
        (control_bytes Big control.now) (D.state disk.old).seen (D.state disk.new).may_leave) }
    ensures performs { IsTrue D.tells → Performs
        (Saves want.now (control_bytes Big control.now) (D.state disk.old).seen)
        (D.state disk.old) (D.state disk.new) }
    ensures unmade { IsErrOf result OutOfMemory → IsTrue D.tells
        → LeavesTemporary want.now (D.state disk.old) (D.state disk.new) }
    ensures folders { IsTrue D.tells → (D.state disk.new).folders ≡ (D.state disk.old).folders }
    ensures cause { HasCause (D.faults disk.old) (D.faults disk.new) result }
{
    let temporary = temporary_text(alloc, want)?;
    let name = control_text(alloc, want)?;
    let bytes = control.write(alloc)?;
    sync_and_put(alloc, disk, want, temporary.as_str(), name.as_str(), &bytes)
}
