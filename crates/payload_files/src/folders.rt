// The folders of a payload's files are made.
ghost use Rattle.std.specs.Prelude.{◌≡◌, Some, string_bytes, option_map, IsTrue, IfSome, IfOk, OnOk, Contains};
ghost use Rattle.dl_kinds.specs.Causes.{HasCause};
ghost use Rattle.dl_disk.specs.Files.{IsSame};
ghost use Rattle.dl_disk.specs.Passes.{Performs};
ghost use Rattle.payload_files.specs.Names.{folder_of, HasFolders, KeepsFolders, MakesAtMost, MakesFoldersOf};

use crate::names::folder_name;
use dl_disk::Disk;
use dl_kinds::{IoErr, Texts};
use span_map::{FileLen, Layout};
use std::alloc::Global;

fn is_name(name: &Option<String>, other: &str) -> bool
    ensures { IsTrue result → option_map string_bytes name.now ≡ Some other.now }
{
    match name {
        Some(name) => name.as_str() == other,
        None => false,
    }
}

// Makes the folder of a path, where it isn't the one that was made last, and gives the folder that was made last.
fn make_folder<D: Disk>(
    alloc: Global,
    disk: &mut D,
    dir: &str,
    path: &Texts,
    last: Option<String>,
) -> Result<Option<String>, IoErr>
    requires { IsTrue D.tells → IfSome (option_map string_bytes last)
        (Contains (D.state disk.old).folders) }
    ensures last { IfOk result (λ last. IsTrue D.tells
        → IfSome (option_map string_bytes last) (Contains (D.state disk.new).folders)) }
    ensures made { OnOk result (IsTrue D.tells
        → IfSome (folder_of dir.now path.now) (Contains (D.state disk.new).folders)) }
    ensures stay { IsTrue D.tells → KeepsFolders (D.state disk.old).folders
        (D.state disk.new).folders }
    ensures only { IsTrue D.tells → MakesAtMost (folder_of dir.now path.now)
        (D.state disk.old).folders (D.state disk.new).folders }
    ensures performs { IsTrue D.tells → Performs IsSame (D.state disk.old) (D.state disk.new) }
    ensures cause { HasCause (D.faults disk.old) (D.faults disk.new) result }
{
    match folder_name(alloc, dir, path)? {
        Some(folder) => {
            if is_name(&last, folder.as_str()) {
                return Ok(last);
            }
            disk.make_dir(folder.as_str())?;
            Ok(Some(folder))
        }
        None => Ok(last),
    }
}

fn make_each<D: Disk>(
    alloc: Global,
    disk: &mut D,
    dir: &str,
    files: &[FileLen],
) -> Result<(), IoErr>
    ensures folders { OnOk result (IsTrue D.tells
        → HasFolders dir.now files.now (D.state disk.new).folders) }
    ensures stay { IsTrue D.tells → KeepsFolders (D.state disk.old).folders
        (D.state disk.new).folders }
    ensures only { IsTrue D.tells → MakesFoldersOf dir.now files.now
        (D.state disk.old).folders (D.state disk.new).folders }
    ensures performs { IsTrue D.tells → Performs IsSame (D.state disk.old) (D.state disk.new) }
    ensures cause { HasCause (D.faults disk.old) (D.faults disk.new) result }
{
    let mut last = None;
    for file in files {
        last = make_folder(alloc, disk, dir, &file.path, last)?;
    }
    Ok(())
}

/// Makes the folder of each file; files that follow each other in one folder ask for it once. The first failure ends it.
pub fn make_folders<D: Disk>(
    alloc: Global,
    disk: &mut D,
    dir: &str,
    layout: &Layout,
) -> Result<(), IoErr>
    ensures folders { OnOk result (IsTrue D.tells
        → HasFolders dir.now layout.now (D.state disk.new).folders) }
    ensures stay { IsTrue D.tells → KeepsFolders (D.state disk.old).folders
        (D.state disk.new).folders }
    ensures only { IsTrue D.tells → MakesFoldersOf dir.now layout.now
        (D.state disk.old).folders (D.state disk.new).folders }
    ensures performs { IsTrue D.tells → Performs IsSame (D.state disk.old) (D.state disk.new) }
    ensures cause { HasCause (D.faults disk.old) (D.faults disk.new) result }
{
    make_each(alloc, disk, dir, layout.files())
}
