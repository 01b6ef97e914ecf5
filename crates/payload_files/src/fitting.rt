// The files of a payload get their lengths.
ghost use Rattle.std.specs.Prelude.{◌≡◌, ◌∷◌, [], IsTrue, OnOk};
ghost use Rattle.dl_kinds.specs.Causes.{HasCause};
ghost use Rattle.dl_disk.specs.Files.{IsSame, TornResize, IsResized};
ghost use Rattle.dl_disk.specs.Passes.{Performs};
ghost use Rattle.span_map.specs.Layout.{IsLayout};
ghost use Rattle.payload_files.specs.Payload.{AreResized, HasFiles, HasLength};
ghost use Rattle.payload_files.specs.Changes.{LeavesFitting, Stretches};

use crate::names::file_name;
use dl_disk::Disk;
use dl_kinds::IoErr;
use span_map::{FileLen, Layout};
use std::alloc::Global;

fn fit_named<D: Disk>(disk: &mut D, name: &str, len: u64) -> Result<(), IoErr>
    ensures resized { OnOk result (IsTrue D.tells
        → IsResized name.now len (D.state disk.old).seen (D.state disk.new).seen) }
    ensures performs { IsTrue D.tells
        → Performs (TornResize name.now len) (D.state disk.old) (D.state disk.new) }
    ensures alone { IsTrue D.tells → HasLength len ((D.state disk.old).seen name.now)
        → Performs IsSame (D.state disk.old) (D.state disk.new) }
    ensures folders { IsTrue D.tells → (D.state disk.new).folders ≡ (D.state disk.old).folders }
    ensures cause { HasCause (D.faults disk.old) (D.faults disk.new) result }
{
    if disk.len(name)? == Some(len) {
        return Ok(());
    }
    disk.set_len(name, len)
}

fn fit_file<D: Disk>(alloc: Global, disk: &mut D, dir: &str, file: &FileLen) -> Result<(), IoErr>
    ensures resized { OnOk result (IsTrue D.tells
        → AreResized dir.now (file.now ∷ []) (D.state disk.old).seen (D.state disk.new).seen) }
    ensures performs { IsTrue D.tells
        → Performs (Stretches dir.now (file.now ∷ [])) (D.state disk.old) (D.state disk.new) }
    ensures alone { IsTrue D.tells
        → LeavesFitting dir.now (file.now ∷ []) (D.state disk.old) (D.state disk.new) }
    ensures folders { IsTrue D.tells → (D.state disk.new).folders ≡ (D.state disk.old).folders }
    ensures cause { HasCause (D.faults disk.old) (D.faults disk.new) result }
{
    let name = file_name(alloc, dir, &file.path)?;
    fit_named(disk, name.as_str(), file.len)
}

fn fit_each<D: Disk>(alloc: Global, disk: &mut D, dir: &str, files: &[FileLen]) -> Result<(), IoErr>
    requires { IsLayout files.now }
    ensures resized { OnOk result (IsTrue D.tells
        → AreResized dir.now files.now (D.state disk.old).seen (D.state disk.new).seen) }
    ensures performs { IsTrue D.tells
        → Performs (Stretches dir.now files.now) (D.state disk.old) (D.state disk.new) }
    ensures alone { IsTrue D.tells
        → LeavesFitting dir.now files.now (D.state disk.old) (D.state disk.new) }
    ensures folders { IsTrue D.tells → (D.state disk.new).folders ≡ (D.state disk.old).folders }
    ensures cause { HasCause (D.faults disk.old) (D.faults disk.new) result }
{
    for file in files {
        fit_file(alloc, disk, dir, file)?;
    }
    Ok(())
}

/// Gives each file its length: a missing one is made, a longer one is cut, and a shorter one is lengthened by zeros. One
/// that has its length is left alone. The first failure ends it.
pub fn fit_files<D: Disk>(
    alloc: Global,
    disk: &mut D,
    dir: &str,
    layout: &Layout,
) -> Result<(), IoErr>
    ensures files { OnOk result (IsTrue D.tells
        → HasFiles dir.now layout.now (D.state disk.new).seen) }
    ensures resized { OnOk result (IsTrue D.tells
        → AreResized dir.now layout.now (D.state disk.old).seen (D.state disk.new).seen) }
    ensures performs { IsTrue D.tells
        → Performs (Stretches dir.now layout.now) (D.state disk.old) (D.state disk.new) }
    ensures alone { IsTrue D.tells
        → LeavesFitting dir.now layout.now (D.state disk.old) (D.state disk.new) }
    ensures folders { IsTrue D.tells → (D.state disk.new).folders ≡ (D.state disk.old).folders }
    ensures cause { HasCause (D.faults disk.old) (D.faults disk.new) result }
{
    fit_each(alloc, disk, dir, layout.files())
}
