// A file is made to last.
ghost use Rattle.std.specs.Prelude.{IsSome, IsTrue, OnOk};
ghost use Rattle.dl_disk.specs.Files.{IsSame};
ghost use Rattle.dl_disk.specs.State.{IsDurable};
ghost use Rattle.dl_kinds.specs.Causes.{HasCause};
ghost use Rattle.payload_repair.specs.StepsBy.{StepsBy};

use dl_disk::Disk;
use dl_kinds::IoErr;

// Makes a file last, if it is there.
pub(crate) fn sync_standing<D: Disk>(disk: &mut D, name: &str) -> Result<(), IoErr>
    ensures durable { OnOk result (IsTrue D.tells → IsSome ((D.state disk.new).seen name.now)
        → IsDurable name.now (D.state disk.new)) }
    ensures steps { IsTrue D.tells → StepsBy IsSame (D.state disk.old) (D.state disk.new) }
    ensures cause { HasCause (D.faults disk.old) (D.faults disk.new) result }
{
    if disk.len(name)?.is_none() {
        return Ok(());
    }
    disk.sync(name)
}
