// A finished download loses its control file.
ghost use Rattle.std.specs.Prelude.{◌≡◌, IsTrue, IsErrOf, OnOk};
ghost use Rattle.dl_kinds.specs.Causes.{HasCause};
ghost use Rattle.dl_kinds.specs.declared.outside.IoErr.TheVariants.{NoMemory as OutOfMemory};
ghost use Rattle.dl_disk.specs.Calls.{Stays};
ghost use Rattle.resume_core.specs.Causes.{HasStoreCause};
ghost use Rattle.resume_core.specs.States.{PerformsFinish, SamePayload, StaysSound};
ghost use Rattle.resume_core.specs.Steps.{AreFinished};
ghost use Rattle.control_file.specs.Wants.{IsWant};
ghost use Rattle.resume_core.specs.Wants.{control_name};
ghost use Rattle.resume_core.specs.declared.fault.StoreErr.TheVariants.{NoMemory};

use crate::fault::StoreErr;
use crate::names::control_text;
use control_file::Want;
use dl_disk::Disk;
use dl_kinds::IoErr;
use payload_files::sync_files;
use std::alloc::Global;

// Makes the payload last, and then takes the control file away.
fn sync_and_remove<D: Disk>(
    alloc: Global,
    disk: &mut D,
    want: &Want,
    control: &str,
) -> Result<(), IoErr>
    requires want { IsWant want.now }
    requires name { control.now ≡ control_name want.now }
    ensures finished { OnOk result (IsTrue D.tells
        → AreFinished want.now (D.state disk.old).seen (D.state disk.new).may_leave) }
    ensures performs { IsTrue D.tells
        → PerformsFinish want.now (D.state disk.old) (D.state disk.new) }
    ensures unmade { IsErrOf result OutOfMemory → IsTrue D.tells
        → Stays (D.state disk.old) (D.state disk.new) }
    ensures folders { IsTrue D.tells → (D.state disk.new).folders ≡ (D.state disk.old).folders }
    ensures cause { HasCause (D.faults disk.old) (D.faults disk.new) result }
{
    sync_files(alloc, disk, want.dir.as_str(), &want.layout)?;
    disk.remove(control)
}

/// Ends a download whose payload is whole: its files are made to last, and then its control file is taken away. A
/// missing file is a fault of the disk.
pub fn finish<D: Disk>(alloc: Global, disk: &mut D, want: &Want) -> Result<(), StoreErr>
    requires { IsWant want.now }
    // No image has a control file, and each holds the payload as the disk reads it.
    ensures finished { OnOk result (IsTrue D.tells
        → AreFinished want.now (D.state disk.new).seen (D.state disk.new).may_leave) }

    // At each moment an image is one of those at the start, or one of those with the control file gone.
    ensures performs { IsTrue D.tells
        → PerformsFinish want.now (D.state disk.old) (D.state disk.new) }
    ensures payload { IsTrue D.tells
        → SamePayload want.now (D.state disk.old) (D.state disk.new) }
    ensures sound { IsTrue D.tells
        → StaysSound want.now (D.state disk.old) (D.state disk.new) }

    // Without memory the control file is still in every image.
    ensures unmade { IsErrOf result NoMemory → IsTrue D.tells
        → Stays (D.state disk.old) (D.state disk.new) }
    ensures folders { IsTrue D.tells → (D.state disk.new).folders ≡ (D.state disk.old).folders }
    ensures cause { HasStoreCause (D.faults disk.old) (D.faults disk.new) result }
{
    let control = control_text(alloc, want)?;
    sync_and_remove(alloc, disk, want, control.as_str())?;
    Ok(())
}
