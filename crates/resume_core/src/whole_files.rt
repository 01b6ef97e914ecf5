// Small files, each written as a whole.
ghost use Rattle.std.specs.Prelude.{◌≡◌, ◌≢◌, Some, IsTrue, IsErrOf, OnOk};
ghost use Rattle.dl_kinds.specs.Causes.{HasCause};
ghost use Rattle.dl_kinds.specs.declared.outside.IoErr.TheVariants.{NoMemory};
ghost use Rattle.dl_disk.specs.Files.{Follows};
ghost use Rattle.dl_disk.specs.Passes.{Performs};
ghost use Rattle.dl_disk.specs.State.{IsDurable};
ghost use Rattle.resume_core.specs.Steps.{SameBut, PutsOrKeeps};

use dl_disk::Disk;
use dl_kinds::IoErr;

/// Makes this file of these bytes, and makes it last.
pub(crate) fn write_whole<D: Disk>(disk: &mut D, name: &str, bytes: &[u8]) -> Result<(), IoErr>
    ensures written { OnOk result (IsTrue D.tells
        → (D.state disk.new).seen name.now ≡ Some bytes.now) }
    ensures durable { OnOk result (IsTrue D.tells → IsDurable name.now (D.state disk.new)) }
    ensures performs { IsTrue D.tells
        → Performs (SameBut name.now) (D.state disk.old) (D.state disk.new) }
    ensures folders { IsTrue D.tells → (D.state disk.new).folders ≡ (D.state disk.old).folders }
    ensures cause { HasCause (D.faults disk.old) (D.faults disk.new) result }
{
    disk.set_len(name, bytes.len() as u64)?;
    disk.write_at(name, 0, bytes)?;
    disk.sync(name)
}

/// Makes this file of these bytes by way of a temporary one, which takes its place: a crash at any moment leaves what it
/// was or these bytes.
pub(crate) fn put_file<D: Disk>(
    disk: &mut D,
    temporary: &str,
    name: &str,
    bytes: &[u8],
) -> Result<(), IoErr>
    requires { temporary.now ≢ name.now }
    ensures put { OnOk result (IsTrue D.tells → (D.state disk.new).seen name.now ≡ Some bytes.now) }
    ensures durable { OnOk result (IsTrue D.tells → IsDurable name.now (D.state disk.new)) }
    ensures performs { IsTrue D.tells
        → Performs (PutsOrKeeps temporary.now name.now bytes.now) (D.state disk.old)
        (D.state disk.new) }
    ensures unmade { IsErrOf result NoMemory → IsTrue D.tells
        → Follows (SameBut temporary.now) (D.state disk.old).may_leave
        (D.state disk.new).may_leave }
    ensures folders { IsTrue D.tells → (D.state disk.new).folders ≡ (D.state disk.old).folders }
    ensures cause { HasCause (D.faults disk.old) (D.faults disk.new) result }
{
    write_whole(disk, temporary, bytes)?;
    disk.replace(temporary, name)
}
